// The steps of the lock, and how seats are split and joined.
use crate::held::Held;
use crate::lasting::Lasting;
use crate::view::View;
use atomic_table::{Join, Play, Split};

/// A number is drawn.
pub struct Draw;

impl<V, O, E> Play<Option<Held<V, E>>, View<O, E>> for Draw {
    ghost use Rattle.ug_turn.specs.Steps.{Drew};

    ghost then = { Drew };
}

/// The turn is seen.
pub struct See;

impl<V, O, E> Play<Option<Held<V, E>>, View<O, E>> for See {
    ghost use Rattle.ug_turn.specs.Steps.{Saw};

    ghost then = { Saw };
}

/// The value is taken out.
pub struct TakeOut;

impl<V: Lasting> Play<Option<Held<V, V::Entry>>, View<V::Opening, V::Entry>> for TakeOut {
    ghost use Rattle.ug_turn.specs.Steps.{Took};

    ghost then = { Took V.opening V.replays V.by V.cutoff };
}

/// The value is put home.
pub struct PutHome;

impl<V: Lasting> Play<Option<Held<V, V::Entry>>, View<V::Opening, V::Entry>> for PutHome {
    ghost use Rattle.ug_turn.specs.Steps.{Gave};

    ghost then = { Gave V.by V.cutoff };
}

/// The turn is passed on.
pub struct PassOn;

impl<V, O, E> Play<Option<Held<V, E>>, View<O, E>> for PassOn {
    ghost use Rattle.ug_turn.specs.Steps.{Passed};

    ghost then = { Passed };
}

/// What a note has is seen.
pub struct Meet;

impl<V, O, E> Play<Option<Held<V, E>>, View<O, E>> for Meet {
    ghost use Rattle.ug_turn.specs.Steps.{Met};

    ghost then = { Met };
}

/// The cutoff word is read.
pub struct Look;

impl<V, O, E> Play<Option<Held<V, E>>, View<O, E>> for Look {
    ghost use Rattle.ug_turn.specs.Steps.{Looked};

    ghost then = { Looked };
}

/// The cutoff word is lowered.
pub struct Lower;

impl<V, O, E> Play<Option<Held<V, E>>, View<O, E>> for Lower {
    ghost use Rattle.ug_turn.specs.Steps.{Lowered};

    ghost then = { Lowered };
}

/// A pass is made.
pub struct MakePass;

impl<O, E> Split<View<O, E>> for MakePass {
    ghost use Rattle.ug_turn.specs.Views.{less_one, next_pass};

    ghost left = { less_one };

    ghost right = { next_pass };
}

/// A note is made.
pub struct MakeNote;

impl<O, E> Split<View<O, E>> for MakeNote {
    ghost use Rattle.ug_turn.specs.Views.{note_of};

    ghost left = { λ v. v };

    ghost right = { note_of };
}

/// A note is given.
pub struct TellNote;

impl<O, E> Join<View<O, E>> for TellNote {
    ghost use Rattle.ug_turn.specs.Views.{informed, spent};

    ghost both = { informed };

    ghost spent = { spent };
}

/// A pass ends.
pub struct EndPass;

impl<O, E> Join<View<O, E>> for EndPass {
    ghost use Rattle.ug_turn.specs.Views.{with_ended, spent};

    ghost both = { with_ended };

    ghost spent = { spent };
}
