use crate::held::Held;
use crate::lasting::Lasting;
use crate::view::View;
use atomic_table::TableRule;
use std::marker::PhantomData;
use std::snapshot::Snapshot;

/// What the table is given when it is made.
#[derive(Drop)]
pub struct Key<V> {
    pub passes: u32,
    pub value: Snapshot<V>,
}

/// The rule of the lock.
pub struct InTurns<V> {
    of: PhantomData<V>,
}

impl<V: Lasting> TableRule<Option<Held<V, V::Entry>>, View<V::Opening, V::Entry>, Key<V>>
    for InTurns<V> {
    ghost use Rattle.ug_turn.specs.Rules.{Turns};
    ghost use Rattle.ug_turn.specs.Views.{maker};

    ghost holds = { λ key. Turns V.opening V.replays V.by V.cutoff key.passes
        (V.opening key.value.value) };

    ghost first = { λ key. maker key.passes (V.opening key.value.value)
        (V.cutoff key.value.value) };
}
