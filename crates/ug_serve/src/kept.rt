ghost use Rattle.std.specs.Prelude.{◌≡◌, ◌≢◌, false, MatchBool};
ghost use Rattle.ug_serve.specs.Keeping.{IsAsked, IsWon};

use ug_nodes::Ticket;
use ug_problem::Shared;

/// What a worker at a link keeps: the problem, and of its task what orders and reports name.
#[derive(Drop)]
pub struct Kept {
    pub problem: Shared,
    /// How far from the best an answer may be.
    pub gap: i128,
    /// The ticket of the last task.
    pub ticket: Ticket,
    /// Whether others have the same box.
    pub racing: bool,
    /// How many boxes are asked for.
    pub asked: u32,
}

impl Kept {
    /// Whether the ticket is that of the last task.
    pub fn is_its(&self, ticket: Ticket) -> bool
        ensures { MatchBool result (ticket ≡ self.now.ticket) (ticket ≢ self.now.ticket) }
    {
        ticket == self.ticket
    }

    /// This many boxes are asked for, where the ticket is that of the task.
    pub fn ask(&mut self, ticket: Ticket, count: u32)
        ensures { IsAsked self.old ticket count self.new }
    {
        if self.is_its(ticket) {
            self.asked = count;
        }
    }

    /// The race is won, where the ticket is that of the task.
    pub fn win(&mut self, ticket: Ticket)
        ensures { IsWon self.old ticket self.new }
    {
        if self.is_its(ticket) {
            self.racing = false;
        }
    }
}
