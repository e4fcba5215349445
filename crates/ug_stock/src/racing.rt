ghost use Rattle.std.specs.Prelude.{◌≡◌, ◌<◌, ◌≤◌, ◌^◌, length, OnErr, OnOk};
ghost use Rattle.ug_ranks.specs.States.{state_at};
ghost use Rattle.ug_ranks.specs.declared.state.State.TheVariants.{Idle};
ghost use Rattle.ug_ranks.specs.Looks.{is_idle};
ghost use Rattle.ug_rules.specs.Ranks.{ranks_that};
ghost use Rattle.ug_stock.specs.Racing.{HasBegun, HasTakenPart, HaveTakenPart};
ghost use Rattle.ug_stock.specs.Frontiers.{HasRoom};

use crate::counting::count;
use crate::firsts::{copies, take_first};
use crate::frontier::Frontier;
use crate::telling::{race_order, racer_params};
use crate::terms::Terms;
use std::alloc::{AllocError, Global};
use ug_nodes::Changes;

impl Frontier {
    /// The race for the pool's first node begins: all memory for it is taken first, so that it
    /// begins whole. After an error nothing has changed.
    pub fn begin_race(&mut self, alloc: Global, terms: Terms) -> Result<(), AllocError>
        requires first { self.old.last ≡ 0 }
        requires room { HasRoom self.old }
        ensures ok { OnOk result (HasBegun terms self.old self.new) }
        ensures err { OnErr result (self.new ≡ self.old) }
        ensures room { HasRoom self.new }
    {
        let Some(first) = self.pool.first() else {
            return Ok(());
        };
        let counts = count(&self.ranks);
        let boxes = copies(alloc, &first.node.changes, counts.idle)?;
        self.orders.reserve(counts.idle + counts.working)?;
        if let Some(entry) = take_first(&mut self.pool) {
            self.raced = Some(entry);
            self.race_all(terms, boxes);
        }
        Ok(())
    }

    // Each idle rank takes part in the race, the lowest first, with one of these boxes.
    fn race_all(&mut self, terms: Terms, boxes: Vec<Changes>)
        requires first { self.old.last ≡ 0 }
        requires boxes { length boxes.items ≡ length (ranks_that is_idle self.old.ranks) }
        requires room { length (ranks_that is_idle self.old.ranks) ≤ self.old.orders.spare }
        ensures part { HaveTakenPart terms boxes.items self.old self.new }
    {
        let mut boxes = boxes;
        for rank in 0..self.ranks.as_slice().len() as u32 {
            if !self.ranks.state(rank).is_idle() {
                continue;
            }
            let Some(changes) = boxes.pop() else {
                continue;
            };
            self.race_one(terms, rank, changes);
        }
    }

    // An idle rank takes part in a race for a node of these changes, under the next ticket.
    fn race_one(&mut self, terms: Terms, rank: u32, changes: Changes)
        requires there { rank < length self.old.ranks }
        requires idle { state_at self.old.ranks rank ≡ Idle }
        requires number { self.old.last < 2 ^ 32 }
        requires room { 0 < self.old.orders.spare }
        ensures part { HasTakenPart terms rank changes self.old self.new }
    {
        self.last += 1;
        self.orders
            .push(race_order(terms, rank, self.last, changes));
        let ticket = terms.ticket(self.last);
        self.ranks.race(rank, ticket, racer_params(rank));
    }
}
