ghost use Rattle.ug_ledger.specs.FactLaws.{NameIsOfOne, NamesCountFromOne, NoneIsBelow, NoneIsCurrent, SoundIsBoth, TicketsCountFromOne};

/// A ledger is sound exactly if it is a ledger, which it is whatever was received, and no better
/// point is lost.
pub fn sound_in_two_halves()
    ensures { SoundIsBoth }
{}

/// A name determines its held node.
pub fn names_tell_nodes()
    ensures { NameIsOfOne }
{}

/// The tickets in held lines but for the first of each, and the current ones, have numbers of 1 at
/// least. So none is current before the first was given.
pub fn numbers_begin_at_one()
    ensures lines { NamesCountFromOne }
    ensures ranks { TicketsCountFromOne }
    ensures before { NoneIsCurrent }
{}

/// Nothing is held below a node that no rank works on.
pub fn open_nodes_are_leaves()
    ensures { NoneIsBelow }
{}
