ghost use Rattle.std.specs.Prelude.{IfErr, IfOk};
ghost use Rattle.ug_stock.specs.Giving.{HasGivenAll, HasGivenPart};
ghost use Rattle.ug_stock.specs.Frontiers.{HasRoom};

use crate::frontier::Frontier;
use crate::terms::{Stopped, Terms};
use crate::turns::Turn;
use std::alloc::Global;

impl Frontier {
    /// Assigns what can be assigned. If a race is due, it begins, which is one step; while one is
    /// awaited, nothing is assigned; otherwise the first node of the pool goes to the lowest idle
    /// rank, while there are a rank, a node and a ticket, and each time is a step.
    ///
    /// Returns the number of steps. Fails if memory runs out, with the number of steps that stand.
    /// Each step takes its memory before anything changes, and reserves what the loss of a rank may
    /// need then.
    pub fn give_out(&mut self, alloc: Global, terms: Terms) -> Result<u64, Stopped>
        requires room { HasRoom self.old }
        ensures ok { IfOk result (HasGivenAll terms self.old self.new) }
        ensures err { IfErr result (λ stopped. HasGivenPart terms self.old self.new stopped.steps) }
        ensures room { HasRoom self.new }
    {
        match self.turn(terms) {
            Turn::Race => {
                let Ok(()) = self.begin_race(alloc, terms) else {
                    return Err(Stopped { steps: 0 });
                };
                Ok(1)
            }
            Turn::Wait => Ok(0),
            Turn::Nodes => self.assign_all(terms),
        }
    }
}
