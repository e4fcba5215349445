ghost use Rattle.ug_ledger.specs.LedgerLaws.{AloneKeepsWork, DoneIsLedger, DroppedIsLedger, EndedIsLedger, GivenIsLedger, HandedIsLedger, LessIsLedger, TakenInIsLedger};

/// If less is held after an event, that is a ledger again, whatever was received.
pub fn less_is_a_ledger()
    ensures less { LessIsLedger }
    ensures alone { AloneKeepsWork }
    ensures ended { EndedIsLedger }
    ensures dropped { DroppedIsLedger }
    ensures done { DoneIsLedger }
    ensures taken_in { TakenInIsLedger }
{}

/// So it is after an assignment, and after a hand.
pub fn more_is_a_ledger()
    ensures given { GivenIsLedger }
    ensures handed { HandedIsLedger }
{}
