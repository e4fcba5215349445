ghost use Rattle.std.specs.Prelude.{◌≡◌, ◌+◌, IsTrue, length, nat_eq};
ghost use Rattle.ug_rules.specs.State.{nodes_of, raced_node};
ghost use Rattle.ug_stock.specs.Counting.{AreCounted};
ghost use Rattle.ug_stock.specs.Turns.{HasTurn};

use crate::counting::{Counts, count};
use crate::frontier::Frontier;
use crate::terms::Terms;
use ug_pool::{Entry, OpenNodes, Pool};

/// What may be assigned.
#[derive(Clone, Copy)]
pub enum Turn {
    /// The one node held, to all ranks.
    Race,
    /// Nothing, while a rank is absent that is to race.
    Wait,
    /// Nodes of the pool, to idle ranks.
    Nodes,
}

impl Frontier {
    /// Returns what may be assigned now.
    pub fn turn(&self, terms: Terms) -> Turn
        ensures turn { HasTurn terms self.now result }
        ensures first { result ≡ Turn.Race → self.now.last ≡ 0 }
    {
        // The ranks are counted at the begin of a run alone.
        if !terms.racing || self.last > 0 {
            return Turn::Nodes;
        }
        self.first_turn(terms, count(&self.ranks))
    }

    // Returns what may be assigned before the first ticket, if the ranks are to race.
    fn first_turn(&self, terms: Terms, counts: Counts) -> Turn
        requires racing { IsTrue terms.racing }
        requires first { self.now.last ≡ 0 }
        requires counts { AreCounted self.now.ranks counts }
        ensures { HasTurn terms self.now result }
    {
        if !is_one_held(&self.pool, &self.raced, counts.working) {
            return Turn::Nodes;
        }
        if counts.absent > 0 {
            return Turn::Wait;
        }
        if counts.idle > 1 {
            return Turn::Race;
        }
        Turn::Nodes
    }
}

// Is exactly one node held, with `working` active ranks?
fn is_one_held(pool: &Pool, raced: &Option<Entry>, working: usize) -> bool
    ensures { result
        ≡ nat_eq (length pool.now.entries + working + length (raced_node raced.now)) 1 }
{
    let raced = usize::from(raced.is_some());
    pool.len().saturating_add(working).saturating_add(raced) == 1
}
