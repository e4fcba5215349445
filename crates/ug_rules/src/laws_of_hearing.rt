ghost use Rattle.ug_rules.specs.HearingLaws.{CountedIsNone, CountedKeeps, DeathHasTakenIn, DeathKeeps, DoneHasDone, DoneKeepsBook, DoneKeepsSound, HandHasHanded, HandKeeps, HearingKeepsBook, HearingKeepsSound, IdleDeathIsNone, RacerDeathHasEnded, ReadyIsNone, ReadyKeeps, ReportedIsNone, ReportedKeeps, SolutionHasImproved, SolutionKeeps};
ghost use Rattle.ug_rules.specs.Room.{CallingOffTakesNone, DeathLeavesPlaces, DeathMakesRoom, DeathTakesNone, DoneMakesRoom, FreeingTakesNone, HandLeavesAsMany, HearingTakesNoPlace, HearingTakesNone, HeldAreInOrOut, LostRaceMakesRoom, StopsAreOfCalledOff, WritingCounts};

/// Each event but a Done keeps the invariant of a book, and a sound book sound, with no assumption
/// on what the solvers report.
pub fn events_keep_books()
    ensures counted { CountedKeeps }
    ensures ready { ReadyKeeps }
    ensures reported { ReportedKeeps }
    ensures solution { SolutionKeeps }
    ensures hand { HandKeeps }
    ensures death { DeathKeeps }
{}

/// A Done keeps what every book is, and a sound book sound where its ticket's box was searched.
pub fn dones_keep_books()
    ensures book { DoneKeepsBook }
    ensures sound { DoneKeepsSound }
{}

/// Whatever is received, the book stays a book under the answer that is due; and a sound book stays
/// sound, if a Done under the rank's ticket is true.
pub fn hearing_keeps_books()
    ensures book { HearingKeepsBook }
    ensures sound { HearingKeepsSound }
{}

/// What the events are to the ledger.
pub fn events_are_moves()
    ensures solution { SolutionHasImproved }
    ensures hand { HandHasHanded }
    ensures done { DoneHasDone }
    ensures death { DeathHasTakenIn }
    ensures racer_death { RacerDeathHasEnded }
{}

/// These events do not change the ledger.
pub fn other_events_are_none()
    ensures counted { CountedIsNone }
    ensures ready { ReadyIsNone }
    ensures reported { ReportedIsNone }
    ensures idle_death { IdleDeathIsNone }
{}

/// If a node returns to the pool, one node fewer at least is out of it: so the loss of a rank needs
/// no memory.
pub fn deaths_make_room()
    ensures held { HeldAreInOrOut }
    ensures death { DeathMakesRoom }
    ensures lost_race { LostRaceMakesRoom }
    ensures done { DoneMakesRoom }
{}

/// The Stops that the loss of a rank queues have places that the stopped ranks leave; and whatever
/// is received, no more places are due than before.
pub fn stops_have_places()
    ensures stops { StopsAreOfCalledOff }
    ensures death { DeathLeavesPlaces }
    ensures hearing { HearingTakesNoPlace }
{}

/// Whatever is received, no more nodes are out of the pool than before.
pub fn hearing_takes_no_room()
    ensures writing { WritingCounts }
    ensures calling_off { CallingOffTakesNone }
    ensures freeing { FreeingTakesNone }
    ensures hand { HandLeavesAsMany }
    ensures death { DeathTakesNone }
    ensures hearing { HearingTakesNone }
{}
