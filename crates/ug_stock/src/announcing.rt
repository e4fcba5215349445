ghost use Rattle.std.specs.Prelude.{◌≡◌, ◌<◌, ◌≤◌, ◌+◌, ◌++◌, OnOk, OnErr, length};
ghost use Rattle.ug_ranks.specs.States.{state_at};
ghost use Rattle.ug_rules.specs.State.{BookState};
ghost use Rattle.ug_rules.specs.Deciding.{announced_as, announcement, announcements, same_cutoff};
ghost use Rattle.ug_stock.specs.Frontiers.{HasRoom, OnlyTells, with_frontier};

use crate::frontier::Frontier;
use crate::notice_places::places;
use crate::queue::Queue;
use std::alloc::AllocError;
use ug_frames::Order;
use ug_ranks::Ranks;
use ug_rules::Told;

impl Frontier {
    /// Queues a new cutoff for each rank that has joined, the lowest first, if it is not the one
    /// announced last; then it is the one announced last. After an error nothing has changed.
    pub fn announce(&mut self, cutoff: Option<i128>) -> Result<(), AllocError>
        requires { HasRoom self.old }
        ensures ok { OnOk result ((b : BookState) → with_frontier b self.new
            ≡ announced_as cutoff (with_frontier b self.old)) }
        ensures err { OnErr result (self.new ≡ self.old) }
        ensures only { OnlyTells self.old self.new }
        ensures room { HasRoom self.new }
    {
        let Some(cutoff) = cutoff else {
            return Ok(());
        };
        if is_same(self.announced, cutoff) {
            return Ok(());
        }
        self.orders.reserve(places(&self.ranks))?;
        tell_joined(&self.ranks, &mut self.orders, cutoff);
        self.announced = Some(cutoff);
        Ok(())
    }
}

// Whether this cutoff is the one announced last.
fn is_same(announced: Option<i128>, cutoff: i128) -> bool
    ensures { result ≡ same_cutoff announced cutoff }
{
    announced == Some(cutoff)
}

// Queues the cutoff for each rank that has joined.
fn tell_joined(ranks: &Ranks, orders: &mut Queue, cutoff: i128)
    requires { length (announcements cutoff ranks.now) ≤ orders.old.spare }
    ensures orders { orders.new.orders ≡ orders.old.orders ++ announcements cutoff ranks.now }
    ensures spare { orders.new.spare + length (announcements cutoff ranks.now)
        ≡ orders.old.spare }
{
    for rank in 0..ranks.as_slice().len() as u32 {
        tell_one(ranks, orders, cutoff, rank);
    }
}

// Queues the cutoff for a rank, if it has joined.
fn tell_one(ranks: &Ranks, orders: &mut Queue, cutoff: i128, rank: u32)
    requires there { rank < length ranks.now }
    requires room { length (announcement cutoff rank (state_at ranks.now rank)) ≤ orders.old.spare }
    ensures orders { orders.new.orders
        ≡ orders.old.orders ++ announcement cutoff rank (state_at ranks.now rank) }
    ensures spare { orders.new.spare + length (announcement cutoff rank (state_at ranks.now rank))
        ≡ orders.old.spare }
{
    if ranks.state(rank).is_joined() {
        orders.push(Told {
            rank,
            order: Order::Incumbent { cutoff },
        });
    }
}
