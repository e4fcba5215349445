ghost use Rattle.std.specs.Prelude.{◌≡◌, ◌<◌, ◌≤◌, ◌+◌, ◌++◌, All, length, slice_set};
ghost use Rattle.ug_ranks.specs.States.{state_at};
ghost use Rattle.ug_ranks.specs.Changes.{asked_for};
ghost use Rattle.ug_rules.specs.State.{BookState, nodes_of};
ghost use Rattle.ug_rules.specs.Deciding.{collect_in, collect_out, stopped_collecting};
ghost use Rattle.ug_stock.specs.Books.{with_told};

use crate::queue::Queue;
use ug_frames::Order;
use ug_ranks::Ranks;
use ug_rules::Told;

/// Asks an active rank for `count` nodes, and queues the order.
#[tactic(auto, using(crate::proofs::Asked::not_told_in, crate::proofs::Asked::told_in, crate::proofs::Asked::kept_asked))]
pub fn ask(ranks: &mut Ranks, orders: &mut Queue, rank: u32, count: u32)
    requires there { rank < length ranks.old }
    requires room { 0 < orders.old.spare }
    ensures ranks { ranks.new
        ≡ slice_set ranks.old rank (asked_for count (state_at ranks.old rank)) }
    ensures orders { orders.new.orders
        ≡ orders.old.orders ++ collect_in rank count (state_at ranks.old rank) }
    ensures spare { orders.old.spare ≤ orders.new.spare + 1 }
{
    if let Some(ticket) = ranks.state(rank).work_ticket() {
        ranks.ask(rank, count);
        orders.push(Told {
            rank,
            order: Order::CollectIn { ticket, count },
        });
    }
}

/// Ends the request to each of these active ranks, and queues the orders.
pub fn ask_no_more(ranks: &mut Ranks, orders: &mut Queue, told: &[u32])
    requires there { All (λ rank. rank < length ranks.old) told.now }
    requires room { length told.now ≤ orders.old.spare }
    ensures told { (b : BookState) → with_told b ranks.new orders.new.orders
        ≡ stopped_collecting told.now (with_told b ranks.old orders.old.orders) }
    ensures spare { orders.old.spare ≤ orders.new.spare + length told.now }
    ensures work { nodes_of ranks.new ≡ nodes_of ranks.old }
{
    for rank in told {
        ask_none(ranks, orders, *rank);
    }
}

// Ends the request to an active rank, and queues the order.
#[tactic(auto, using(crate::proofs::Asked::not_told_out, crate::proofs::Asked::told_out, crate::proofs::Asked::kept_asked))]
fn ask_none(ranks: &mut Ranks, orders: &mut Queue, rank: u32)
    requires there { rank < length ranks.old }
    requires room { 0 < orders.old.spare }
    ensures ranks { ranks.new ≡ slice_set ranks.old rank (asked_for 0 (state_at ranks.old rank)) }
    ensures orders { orders.new.orders
        ≡ orders.old.orders ++ collect_out rank (state_at ranks.old rank) }
    ensures spare { orders.old.spare ≤ orders.new.spare + 1 }
{
    if let Some(ticket) = ranks.state(rank).work_ticket() {
        ranks.ask(rank, 0);
        orders.push(Told {
            rank,
            order: Order::CollectOut { ticket },
        });
    }
}
