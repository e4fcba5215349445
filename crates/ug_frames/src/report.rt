use std::alloc::AllocError;
use ug_nodes::{Changes, Ticket};
use ug_rows::Point;

/// How a task ended.
#[derive(Clone, Copy)]
pub enum Ending {
    /// It was worked off, and nothing is reported of how.
    Plain,
}

/// What a solver sends the coordinator. Values and cutoffs are of the minimised, scaled
/// objective.
#[derive(Drop)]
pub enum Report {
    /// The problem is there.
    Ready,
    /// A point that was found.
    Solution {
        ticket: Ticket,
        point: Point,
    },
    /// An open node, handed out: the changes of its box, and how many came before it.
    Hand {
        ticket: Ticket,
        number: u64,
        changes: Changes,
    },
    /// How many open nodes there are, and the least of their floors.
    State {
        ticket: Ticket,
        open: u64,
        floor: i128,
    },
    /// No open node is left: no point of the box with a value below the cutoff is outside the boxes
    /// that were handed out, of which there are this many.
    Done {
        ticket: Ticket,
        cutoff: Option<i128>,
        count: u64,
        end: Ending,
    },
    /// Nothing comes after.
    Ended,
}

impl Report {
    ghost use Rattle.std.specs.Prelude.{◌≡◌, IfOk};
    ghost use Rattle.ug_frames.specs.Reports.{ticket_of};

    /// The ticket of the assignment that the report speaks of, if it speaks of one.
    pub fn ticket(&self) -> Option<Ticket>
        ensures { result ≡ ticket_of self.now }
    {
        match self {
            Report::Solution { ticket, .. } => Some(*ticket),
            Report::Hand { ticket, .. } => Some(*ticket),
            Report::State { ticket, .. } => Some(*ticket),
            Report::Done { ticket, .. } => Some(*ticket),
            Report::Ready | Report::Ended => None,
        }
    }

    /// A copy of the report.
    pub fn copy(&self) -> Result<Report, AllocError>
        ensures { IfOk result (λ copy. copy ≡ self.now) }
    {
        Ok(match self {
            Report::Ready => Report::Ready,
            Report::Solution { ticket, point } => Report::Solution {
                ticket: *ticket,
                point: point.clone()?,
            },
            Report::Hand {
                ticket,
                number,
                changes,
            } => Report::Hand {
                ticket: *ticket,
                number: *number,
                changes: changes.clone()?,
            },
            Report::State {
                ticket,
                open,
                floor,
            } => Report::State {
                ticket: *ticket,
                open: *open,
                floor: *floor,
            },
            Report::Done {
                ticket,
                cutoff,
                count,
                end,
            } => Report::Done {
                ticket: *ticket,
                cutoff: *cutoff,
                count: *count,
                end: *end,
            },
            Report::Ended => Report::Ended,
        })
    }
}
