ghost use Rattle.std.specs.Prelude.{◌≡◌, ◌↔◌, ◌<◌, length, IfErr, IfOk, IsTrue, OnErr, OnOk};
ghost use Rattle.ug_pool.specs.Pools.{entry_at};
ghost use Rattle.ug_stock.specs.Assigning.{CanBeAssigned, HasAssignedAll, HasAssignedPart, IsAssigned, IsGivenFirst, IsPlaced, KeepsPlaces};

use crate::firsts::{first_changes, take_first};
use crate::frontier::Frontier;
use crate::telling::node_order;
use crate::terms::{Stopped, Terms};
use std::alloc::AllocError;
use ug_branch::Params;
use ug_nodes::Changes;
use ug_pool::OpenNodes;
use ug_ranks::Assignment;

impl Frontier {
    /// Assigns the first node of the pool to the lowest idle rank, while there are a rank, a node
    /// and a ticket. Returns how often. Fails if memory runs out, with the number of assignments
    /// that stand.
    #[tactic(auto, using(crate::proofs::Progress::none_assigned, crate::proofs::Progress::nothing_moved))]
    pub fn assign_all(&mut self, terms: Terms) -> Result<u64, Stopped>
        ensures ok { IfOk result (HasAssignedAll terms self.old self.new) }
        ensures err { IfErr result (λ stopped. HasAssignedPart terms self.old self.new stopped.steps) }
        ensures places { KeepsPlaces self.old self.new }
    {
        // The usual case, which examines no rank.
        if self.pool.len() == 0 {
            return Ok(0);
        }
        self.assign_each(terms)
    }

    // The same, by a look at each rank.
    fn assign_each(&mut self, terms: Terms) -> Result<u64, Stopped>
        ensures ok { IfOk result (HasAssignedAll terms self.old self.new) }
        ensures err { IfErr result (λ stopped. HasAssignedPart terms self.old self.new stopped.steps) }
        ensures places { KeepsPlaces self.old self.new }
    {
        let mut steps = 0;
        for rank in 0..self.ranks.as_slice().len() as u32 {
            if !self.can_be_assigned(rank) {
                continue;
            }
            let Ok(()) = self.assign(terms, rank) else {
                return Err(Stopped { steps });
            };
            steps += 1;
        }
        Ok(steps)
    }

    // Whether the rank is idle, and there is a node for it and a ticket.
    fn can_be_assigned(&self, rank: u32) -> bool
        requires { rank < length self.now.ranks }
        ensures { IsTrue result
            ↔ CanBeAssigned rank self.now.ranks self.now.pool.entries self.now.last }
    {
        self.ranks.state(rank).is_idle() && self.pool.len() > 0 && self.last < u64::MAX
    }

    // Gives the first node of the pool to an idle rank, with a copy of the node's changes for the
    // order, and so much room in the queue that each rank has a place for its Stop then, whether it
    // works or not: so none need be counted. After an error nothing has changed.
    fn assign(&mut self, terms: Terms, rank: u32) -> Result<(), AllocError>
        requires there { rank < length self.old.ranks }
        requires can { CanBeAssigned rank self.old.ranks self.old.pool.entries self.old.last }
        ensures ok { OnOk result (IsAssigned terms rank self.old self.new) }
        ensures err { OnErr result (self.new ≡ self.old) }
    {
        let changes = first_changes(&self.pool)?;
        self.orders.reserve(self.ranks.as_slice().len() + 2)?;
        self.give_first(terms, rank, changes);
        Ok(())
    }

    // Gives the first node of the pool to an idle rank, under the next ticket.
    #[tactic(auto, using(crate::proofs::Places::one_works))]
    fn give_first(&mut self, terms: Terms, rank: u32, changes: Changes)
        requires there { rank < length self.old.ranks }
        requires can { CanBeAssigned rank self.old.ranks self.old.pool.entries self.old.last }
        requires changes { changes ≡ (entry_at self.old.pool.entries 0).node.changes }
        requires room { 0 < self.old.orders.spare }
        ensures given { IsGivenFirst terms rank self.old self.new }
        ensures placed { IsPlaced self.old self.new }
    {
        if let Some(entry) = take_first(&mut self.pool) {
            self.last += 1;
            self.orders
                .push(node_order(terms, rank, self.last, changes));
            let ticket = terms.ticket(self.last);
            let given = Assignment {
                ticket,
                node: entry.node,
                floor: entry.floor,
                params: Params::first(terms.base),
            };
            self.ranks.give(rank, given);
        }
    }
}
