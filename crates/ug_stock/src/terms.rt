ghost use Rattle.std.specs.Prelude.{◌≡◌};
ghost use Rattle.ug_stock.specs.Telling.{ticket_under};

use ug_branch::Base;
use ug_nodes::Ticket;

/// The terms of an assignment.
#[derive(Clone, Copy)]
pub struct Terms {
    pub run: u64,
    /// Whether all ranks begin with the root.
    pub racing: bool,
    /// The base of all work outside a race.
    pub base: Base,
    /// The incumbent's cutoff.
    pub cutoff: Option<i128>,
}

impl Terms {
    /// The ticket of this number.
    pub fn ticket(self, number: u64) -> Ticket
        ensures { result ≡ ticket_under self number }
    {
        Ticket {
            run: self.run,
            number,
        }
    }
}

/// Memory ran out; this number of steps stands.
#[derive(Clone, Copy, PartialEq, Eq)]
pub struct Stopped {
    pub steps: u64,
}
