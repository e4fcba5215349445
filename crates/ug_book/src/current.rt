ghost use Rattle.std.specs.Prelude.{◌≡◌, ◌<◌, None, true, length, IsSome, MatchOption};
ghost use Rattle.ug_ranks.specs.States.{state_at};
ghost use Rattle.ug_ranks.specs.Looks.{asked_at, is_racing, taken_at, ticket_at};
ghost use Rattle.ug_book.specs.Currents.{IsCurrentAt};

use crate::book::Book;
use ug_branch::Params;
use ug_nodes::{Hands, Node, Ticket};
use ug_pool::Entry;
use ug_ranks::State;

/// What a rank works on, or races for, under its ticket. The node is lent.
#[derive(Clone, Copy)]
pub struct CurrentWork<'a> {
    pub ticket: Ticket,
    pub node: &'a Node,
    pub params: Params,
    /// Whether other ranks may race for the same node.
    pub is_racing: bool,
}

impl Book {
    /// What a rank works on, or races for; None where it has no ticket.
    #[tactic(auto, using(crate::proofs::WhoWorks::raced_where_racing))]
    pub fn current(&self, rank: u32) -> Option<CurrentWork<'_>>
        requires { rank < length self.now.ranks }
        ensures { MatchOption result
            (ticket_at (state_at self.now.ranks rank) ≡ None)
            (IsCurrentAt (state_at self.now.ranks rank) self.now.raced) }
    {
        current_at(self.frontier.ranks.state(rank), &self.frontier.raced)
    }

    /// The boxes of the hands that were taken under the ticket of a rank, in order; none where it
    /// has no ticket.
    pub fn taken(&self, rank: u32) -> &Hands
        requires { rank < length self.now.ranks }
        ensures { result.now ≡ taken_at (state_at self.now.ranks rank) }
    {
        self.frontier.ranks.taken(rank)
    }

    /// How many hands a rank is still asked for; 0 where it is asked for none.
    pub fn asked(&self, rank: u32) -> u32
        requires { rank < length self.now.ranks }
        ensures { result ≡ asked_at (state_at self.now.ranks rank) }
    {
        self.frontier.ranks.state(rank).asked()
    }
}

fn current_at<'a>(state: &'a State, raced: &'a Option<Entry>) -> Option<CurrentWork<'a>>
    requires { is_racing state.now ≡ true → IsSome raced.now }
    ensures { MatchOption result
        (ticket_at state.now ≡ None)
        (IsCurrentAt state.now raced.now) }
{
    match state {
        State::Racing(racer) => {
            let entry = raced.as_ref()?;
            Some(CurrentWork {
                ticket: racer.ticket,
                node: &entry.node,
                params: racer.params,
                is_racing: true,
            })
        }
        State::Active(work) => Some(CurrentWork {
            ticket: work.ticket,
            node: &work.node,
            params: work.params,
            is_racing: false,
        }),
        State::Absent | State::Idle | State::Dead(_) => None,
    }
}
