ghost use Rattle.std.specs.Prelude.{◌≡◌, ◌↔◌, ◌<◌, ◌≤◌, IsTrue, OnOk, OnErr, length};
ghost use Rattle.ug_rules.specs.State.{BookState};
ghost use Rattle.ug_rules.specs.Deciding.{IsCollected, collected};
ghost use Rattle.ug_stock.specs.Books.{AreAtWork, CanBeTold, StayAtWork, with_told};
ghost use Rattle.ug_stock.specs.Frontiers.{HasRoom, with_frontier};

use crate::asking::{ask, ask_no_more};
use crate::frontier::Frontier;
use crate::members::members_of;
use crate::queue::Queue;
use crate::wanting::wanted;
use std::alloc::{AllocError, Global};
use ug_pool::OpenNodes;
use ug_ranks::Ranks;
use ug_rules::Wanted;

impl Frontier {
    /// Asks one active rank for open nodes if the pool has fewer than `low`: as many as bring it to
    /// `high`. If it has `high`, queues a CollectOut for the ranks that were asked. After an error
    /// nothing has changed.
    pub fn collect(&mut self, alloc: Global, low: u32, high: u32) -> Result<(), AllocError>
        requires marks { low ≤ high }
        requires room { HasRoom self.old }
        ensures ok { OnOk result ((b : BookState) → b.settings.low ≡ low → b.settings.high ≡ high
            → IsCollected (with_frontier b self.old) (with_frontier b self.new)) }
        ensures err { OnErr result (self.new ≡ self.old) }
        ensures room { HasRoom self.new }
    {
        let len = self.pool.len() as u64;
        if is_between(len, low, high) {
            return Ok(());
        }
        let members = members_of(alloc, &self.ranks)?;
        let demand = wanted(
            alloc,
            len,
            u64::from(low),
            u64::from(high),
            members.as_slice(),
        )?;
        tell(&mut self.ranks, &mut self.orders, demand, members.len())
    }
}

// Is the number of nodes at least the low watermark and below the high one, so that nothing is to
// do?
fn is_between(len: u64, low: u32, high: u32) -> bool
    ensures { IsTrue result ↔ ((low ≤ len) × (len < high)) }
{
    u64::from(low) <= len && len < u64::from(high)
}

// Queues the orders of a demand, with `working` active ranks.
fn tell(
    ranks: &mut Ranks,
    orders: &mut Queue,
    demand: Wanted,
    working: usize,
) -> Result<(), AllocError>
    requires told { CanBeTold (length ranks.old) demand }
    requires working { AreAtWork working ranks.old orders.old }
    ensures ok { OnOk result ((b : BookState) → with_told b ranks.new orders.new.orders
        ≡ collected demand (with_told b ranks.old orders.old.orders)) }
    ensures ranks { OnErr result (ranks.new ≡ ranks.old) }
    ensures orders { OnErr result (orders.new ≡ orders.old) }
    ensures working { StayAtWork ranks.old ranks.new orders.new }
{
    // A place for each order, and for the Stop of each active rank.
    match demand {
        Wanted::Nothing => {}
        Wanted::Ask { rank, count } => {
            orders.reserve(working + 1)?;
            ask(ranks, orders, rank, count as u32);
        }
        Wanted::Enough(told) => {
            orders.reserve(working + told.len())?;
            ask_no_more(ranks, orders, told.as_slice());
        }
    }
    Ok(())
}
