ghost use Rattle.std.specs.Prelude.{◌≡◌, ◌↔◌, IsTrue, Some};
ghost use Rattle.ug_ranks.specs.Looks.{asked_at, hands_taken, is_alive, is_idle, is_joined, is_racing, is_working, racer_ticket, ticket_at, ticket_below, work_ticket};

use crate::state::State;
use ug_nodes::{Line, Ticket, is_ancestor};

impl State {
    pub fn is_idle(&self) -> bool
        ensures { result ≡ is_idle self.now }
    {
        matches!(self, State::Idle)
    }

    /// Whether the rank takes part in a race.
    pub fn is_racing(&self) -> bool
        ensures { result ≡ is_racing self.now }
    {
        matches!(self, State::Racing(_))
    }

    /// Whether the rank works on a node of its own.
    pub fn is_working(&self) -> bool
        ensures { result ≡ is_working self.now }
    {
        matches!(self, State::Active(_))
    }

    /// Whether the rank has joined and is not dead.
    pub fn is_joined(&self) -> bool
        ensures { result ≡ is_joined self.now }
    {
        matches!(self, State::Idle | State::Racing(_) | State::Active(_))
    }

    pub fn is_alive(&self) -> bool
        ensures { result ≡ is_alive self.now }
    {
        !matches!(self, State::Dead(_))
    }

    /// Whether the rank's ticket is this one.
    pub fn has_ticket(&self, ticket: Ticket) -> bool
        ensures { IsTrue result ↔ (ticket_at self.now ≡ Some ticket) }
    {
        match self {
            State::Racing(racer) => racer.ticket == ticket,
            State::Active(work) => work.ticket == ticket,
            State::Absent | State::Idle | State::Dead(_) => false,
        }
    }

    /// The ticket of a racer.
    pub fn racer_ticket(&self) -> Option<Ticket>
        ensures { result ≡ racer_ticket self.now }
    {
        match self {
            State::Racing(racer) => Some(racer.ticket),
            State::Absent | State::Idle | State::Active(_) | State::Dead(_) => None,
        }
    }

    /// The ticket of a rank that works.
    pub fn work_ticket(&self) -> Option<Ticket>
        ensures { result ≡ work_ticket self.now }
    {
        match self {
            State::Active(work) => Some(work.ticket),
            State::Absent | State::Idle | State::Racing(_) | State::Dead(_) => None,
        }
    }

    /// The ticket of a rank that works below the line's node.
    pub fn ticket_below(&self, line: &Line) -> Option<Ticket>
        ensures { result ≡ ticket_below line.now self.now }
    {
        match self {
            State::Active(work) => {
                if is_ancestor(line, &work.node.line) {
                    Some(work.ticket)
                } else {
                    None
                }
            }
            State::Absent | State::Idle | State::Racing(_) | State::Dead(_) => None,
        }
    }

    /// How many hands were taken from the rank under its ticket.
    pub fn hands_taken(&self) -> u64
        ensures { result ≡ hands_taken self.now }
    {
        match self {
            State::Active(work) => work.taken.len() as u64,
            State::Absent | State::Idle | State::Racing(_) | State::Dead(_) => 0,
        }
    }

    /// How many hands the rank is still asked for.
    pub fn asked(&self) -> u32
        ensures { result ≡ asked_at self.now }
    {
        match self {
            State::Active(work) => work.asked,
            State::Absent | State::Idle | State::Racing(_) | State::Dead(_) => 0,
        }
    }
}
