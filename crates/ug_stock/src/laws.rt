ghost use Rattle.ug_stock.specs.Hands.{NextIsNextHand, RefusedIsDue};

/// The answers are those that are due, and a hand that is to be taken is one that is kept.
pub fn hands_are_due()
    ensures refused { RefusedIsDue }
    ensures next { NextIsNextHand }
{}
