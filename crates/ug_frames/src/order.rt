use ug_branch::Params;
use ug_lists::Bytes;
use ug_nodes::{Changes, Ticket};

/// What the coordinator sends a solver. Values and cutoffs are of the minimised, scaled
/// objective.
#[derive(Drop)]
pub enum Order {
    /// The problem, as its record, and how far from the best an answer may be. It comes first.
    Setup {
        gap: i128,
        record: Bytes,
    },
    /// The box of these changes is the solver's, under this ticket.
    Work {
        ticket: Ticket,
        params: Params,
        /// Whether others have the same box, so that nothing of it is handed out.
        race: bool,
        /// Only points with a value below are of use.
        cutoff: Option<i128>,
        changes: Changes,
    },
    /// Only points with a value below the cutoff are of use from now on.
    Incumbent {
        cutoff: i128,
    },
    /// Hand out as many of the open nodes.
    CollectIn {
        ticket: Ticket,
        count: u32,
    },
    /// Hand out no more.
    CollectOut {
        ticket: Ticket,
    },
    /// The race is won, and the box is this solver's alone.
    Winner {
        ticket: Ticket,
    },
    /// Drop the box.
    Stop {
        ticket: Ticket,
    },
    /// Nothing comes after.
    End,
}

impl Order {
    ghost use Rattle.std.specs.Prelude.{◌≡◌};
    ghost use Rattle.ug_frames.specs.Orders.{ticket_of};

    /// The ticket of the assignment that the order speaks of, if it speaks of one.
    pub fn ticket(&self) -> Option<Ticket>
        ensures { result ≡ ticket_of self.now }
    {
        match self {
            Order::Work { ticket, .. } => Some(*ticket),
            Order::CollectIn { ticket, .. } => Some(*ticket),
            Order::CollectOut { ticket } => Some(*ticket),
            Order::Winner { ticket } => Some(*ticket),
            Order::Stop { ticket } => Some(*ticket),
            Order::Setup { .. } | Order::Incumbent { .. } | Order::End => None,
        }
    }
}
