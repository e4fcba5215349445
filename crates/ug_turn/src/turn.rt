ghost use Rattle.std.specs.Prelude.{◌≡◌, ◌<◌};

use crate::entry_mutex::EntryMutex;
use crate::held::Held;
use crate::lasting::Lasting;
use crate::rule::{InTurns, Key};
use crate::view::View;
use atomic_table::Table;
use std::alloc::Global;

/// A value that many seats take in turns.
#[derive(Drop)]
pub struct Turn<V: Lasting + Drop> {
    pub(crate) table: Table<
        Option<Held<V, V::Entry>>,
        View<V::Opening, V::Entry>,
        Key<V>,
        InTurns<V>,
        Global,
    >,
    pub(crate) entry_mutex: EntryMutex,
    ghost three: { table.shared.table_id.words ≡ 3 },
    ghost one: { table.shared.table_id.slots ≡ 1 },
}
