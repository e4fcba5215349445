ghost use Rattle.std.specs.Prelude.{◌≡◌, ◌≤◌, ◌+◌, None, IsOk, IsSome, OnOk, OnErr, length};
ghost use Rattle.ug_ranks.specs.States.{state_at};
ghost use Rattle.ug_rules.specs.State.{BookState};
ghost use Rattle.ug_rules.specs.Deciding.{IsRaceEnded, loser_stops, race_won, winner_order};
ghost use Rattle.ug_stock.specs.Races.{IsRaceOver, IsRacer, StandsAlone};
ghost use Rattle.ug_stock.specs.Frontiers.{HasRoom, with_frontier};

use crate::ending::crown;
use crate::frontier::Frontier;
use crate::queue::Queue;
use crate::reports::{racers_of, winner_of};
use std::alloc::{AllocError, Global};
use ug_pool::Entry;
use ug_ranks::Ranks;

impl Frontier {
    /// Ends the race if each racer has reported and one of them has enough open nodes: the winner
    /// gets the raced node and is sent a Winner; the other racers are sent a Stop and are idle.
    /// Otherwise nothing changes; without a raced node no memory is taken. After an error nothing
    /// has changed.
    pub fn end_race(&mut self, alloc: Global, enough: u64) -> Result<(), AllocError>
        requires alone { StandsAlone self.old.ranks self.old.raced }
        requires room { HasRoom self.old }
        ensures ok { OnOk result ((b : BookState) → b.settings.winner ≡ enough
            → IsRaceEnded (with_frontier b self.old) (with_frontier b self.new)) }
        ensures err { OnErr result (self.new ≡ self.old) }
        ensures none { self.old.raced ≡ None → IsOk result }
        ensures room { HasRoom self.new }
    {
        if self.raced.is_none() {
            return Ok(());
        }
        let racers = racers_of(alloc, &self.ranks)?;
        let Some(rank) = winner_of(racers.as_slice(), enough) else {
            return Ok(());
        };
        // A place for the order of each racer, and for the Stop of the winner's death.
        self.orders.reserve(racers.len() + 1)?;
        win_race(&mut self.ranks, &mut self.orders, &mut self.raced, rank);
        Ok(())
    }
}

// The racer wins the race for the node that is raced.
fn win_race(ranks: &mut Ranks, orders: &mut Queue, raced: &mut Option<Entry>, rank: u32)
    requires racer { IsRacer rank ranks.old }
    requires raced { IsSome raced.old }
    requires room { length (winner_order rank (state_at ranks.old rank))
        + length (loser_stops rank ranks.old) ≤ orders.old.spare }
    ensures won { (b : BookState)
        → record b { ranks = ranks.new; raced = raced.new; orders = orders.new.orders }
        ≡ race_won rank
        (record b { ranks = ranks.old; raced = raced.old; orders = orders.old.orders }) }
    ensures places { orders.new.spare + (length (winner_order rank (state_at ranks.old rank))
        + length (loser_stops rank ranks.old)) ≡ orders.old.spare }
    ensures over { IsRaceOver ranks.old ranks.new raced.new }
{
    if let Some(entry) = raced.take() {
        crown(ranks, orders, entry.node, entry.floor, rank);
    }
}
