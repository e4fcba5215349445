ghost use Rattle.std.specs.Prelude.{◌≡◌, ◌<◌, ◌≤◌, ◌+◌, ◌++◌, Some, length, slice_set};
ghost use Rattle.ug_ranks.specs.States.{IsRacing, state_at};
ghost use Rattle.ug_rules.specs.Deciding.{loser_stop, loser_stops, ranks_won, winner_order};
ghost use Rattle.ug_stock.specs.Racers.{loser_freed};

use crate::queue::Queue;
use ug_frames::Order;
use ug_nodes::Node;
use ug_ranks::Ranks;
use ug_rules::Told;

/// Ends a race: the rank wins the node, which has this floor, and is sent a Winner; the other
/// racers are sent a Stop, the lowest first, and are idle.
pub fn crown(ranks: &mut Ranks, orders: &mut Queue, node: Node, floor: i128, rank: u32)
    requires there { rank < length ranks.old }
    requires racing { IsRacing (state_at ranks.old rank) }
    requires room { length (winner_order rank (state_at ranks.old rank))
        + length (loser_stops rank ranks.old) ≤ orders.old.spare }
    ensures ranks { ranks.new
        ≡ ranks_won rank (Some (record { floor = floor; node = node })) ranks.old }
    ensures orders { orders.new.orders ≡ orders.old.orders
        ++ winner_order rank (state_at ranks.old rank) ++ loser_stops rank ranks.old }
    ensures places { orders.new.spare + (length (winner_order rank (state_at ranks.old rank))
        + length (loser_stops rank ranks.old)) ≡ orders.old.spare }
{
    tell_winner(ranks, orders, rank);
    for other in 0..ranks.as_slice().len() as u32 {
        stop_loser(ranks, orders, rank, other);
    }
    ranks.win(rank, node, floor);
}

// Queues the Winner of a racer.
#[tactic(auto, using(crate::proofs::Racers::told_winner, crate::proofs::Racers::no_winner))]
fn tell_winner(ranks: &Ranks, orders: &mut Queue, rank: u32)
    requires there { rank < length ranks.now }
    requires room { length (winner_order rank (state_at ranks.now rank)) ≤ orders.old.spare }
    ensures orders { orders.new.orders
        ≡ orders.old.orders ++ winner_order rank (state_at ranks.now rank) }
    ensures spare { orders.new.spare + length (winner_order rank (state_at ranks.now rank))
        ≡ orders.old.spare }
{
    if let Some(ticket) = ranks.state(rank).racer_ticket() {
        orders.push(Told {
            rank,
            order: Order::Winner { ticket },
        });
    }
}

// Queues the Stop of a racer that is not the winner, and makes it idle.
#[tactic(auto, using(crate::proofs::Racers::told_loser, crate::proofs::Racers::freed_loser, crate::proofs::Racers::kept_other, crate::proofs::Racers::untold_other, crate::proofs::Racers::kept_winner, crate::proofs::Racers::untold_winner, crate::proofs::Racers::nothing_written))]
fn stop_loser(ranks: &mut Ranks, orders: &mut Queue, winner: u32, rank: u32)
    requires there { rank < length ranks.old }
    requires room { length (loser_stop winner rank (state_at ranks.old rank)) ≤ orders.old.spare }
    ensures ranks { ranks.new
        ≡ slice_set ranks.old rank (loser_freed winner rank (state_at ranks.old rank)) }
    ensures orders { orders.new.orders
        ≡ orders.old.orders ++ loser_stop winner rank (state_at ranks.old rank) }
    ensures spare { orders.new.spare + length (loser_stop winner rank (state_at ranks.old rank))
        ≡ orders.old.spare }
{
    if rank == winner {
        return;
    }
    if let Some(ticket) = ranks.state(rank).racer_ticket() {
        orders.push(Told {
            rank,
            order: Order::Stop { ticket },
        });
        let _ = ranks.free(rank);
    }
}
