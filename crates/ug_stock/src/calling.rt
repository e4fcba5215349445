ghost use Rattle.std.specs.Prelude.{◌≡◌, ◌≤◌, ◌<◌, ◌+◌, ◌++◌, length, slice_set, if◌then◌else◌};
ghost use Rattle.ug_ranks.specs.States.{state_at};
ghost use Rattle.ug_ranks.specs.declared.state.State.TheVariants.{Idle};
ghost use Rattle.ug_rules.specs.Deaths.{called_off, stop_at, stops_below, works_below};

use crate::queue::Queue;
use ug_frames::Order;
use ug_nodes::Line;
use ug_ranks::Ranks;
use ug_rules::Told;

// Makes a rank idle that works below the line's node, and queues its Stop.
#[tactic(auto, using(crate::proofs::CallOff::none_below, crate::proofs::CallOff::some_below))]
fn call_off_one(ranks: &mut Ranks, orders: &mut Queue, rank: u32, line: &Line)
    requires there { rank < length ranks.old }
    requires room { length (stop_at line.now rank (state_at ranks.old rank)) ≤ orders.old.spare }
    ensures ranks { ranks.new ≡ slice_set ranks.old rank
        (if works_below line.now (state_at ranks.old rank) then Idle else state_at ranks.old rank) }
    ensures orders { orders.new.orders
        ≡ orders.old.orders ++ stop_at line.now rank (state_at ranks.old rank) }
    ensures spare { orders.new.spare + length (stop_at line.now rank (state_at ranks.old rank))
        ≡ orders.old.spare }
{
    if let Some(ticket) = ranks.state(rank).ticket_below(line) {
        let _ = ranks.free(rank);
        orders.push(Told {
            rank,
            order: Order::Stop { ticket },
        });
    }
}

/// Makes the ranks idle that work below the line's node, and queues their Stops, the lowest first.
pub fn call_off(ranks: &mut Ranks, orders: &mut Queue, line: &Line)
    requires { length (stops_below line.now ranks.old) ≤ orders.old.spare }
    ensures ranks { ranks.new ≡ called_off line.now ranks.old }
    ensures orders { orders.new.orders ≡ orders.old.orders ++ stops_below line.now ranks.old }
    ensures spare { orders.new.spare + length (stops_below line.now ranks.old) ≡ orders.old.spare }
{
    for rank in 0..ranks.as_slice().len() as u32 {
        call_off_one(ranks, orders, rank, line);
    }
}
