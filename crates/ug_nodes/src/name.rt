ghost use Rattle.std.specs.Prelude.{◌≡◌};
ghost use Rattle.std.specs.Ordering.{MatchOrdering};
ghost use Rattle.ug_nodes.specs.Names.{IsTicketBefore, IsNameBefore, ticket_cmp, name_cmp};

use std::cmp::Ordering;

/// The number of an assignment. In order of the run, then of the number.
#[derive(Clone, Copy, Debug, PartialEq, Eq, PartialOrd, Ord)]
pub struct Ticket {
    pub run: u64,
    /// Counted from 1 within a run.
    pub number: u64,
}

/// The name of a node. In order of the ticket, then of the hand number.
#[derive(Clone, Copy, PartialEq, Eq, PartialOrd, Ord)]
pub struct Name {
    /// The ticket of the assignment that handed the node.
    pub ticket: Ticket,
    pub hand: u64,
}

impl Ticket {
    /// How the ticket stands to another.
    pub fn order(self, other: Ticket) -> Ordering
        ensures value { result ≡ ticket_cmp self other }
        ensures meaning { MatchOrdering result
            (IsTicketBefore self other)
            (self ≡ other)
            (IsTicketBefore other self) }
    {
        self.cmp(&other)
    }
}

impl Name {
    /// How the name stands to another.
    pub fn order(self, other: Name) -> Ordering
        ensures value { result ≡ name_cmp self other }
        ensures meaning { MatchOrdering result
            (IsNameBefore self other)
            (self ≡ other)
            (IsNameBefore other self) }
    {
        self.cmp(&other)
    }
}
