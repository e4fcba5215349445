ghost use Rattle.std.specs.Prelude.{◌≡◌, ◌<◌, ◌≤◌, ◌+◌, ◌++◌, length};
ghost use Rattle.ug_pool.specs.Pools.{with_entry, without_below};
ghost use Rattle.ug_rules.specs.State.{raced_node};
ghost use Rattle.ug_rules.specs.Deaths.{called_off, stops_below};
ghost use Rattle.ug_stock.specs.Frontiers.{HasDied, HasLost, HasRoom};
ghost use Rattle.ug_stock.specs.declared.frontier.Frontier.{Frontier};

use crate::calling::call_off;
use crate::frontier::Frontier;
use crate::queue::Queue;
use crate::racer_left::has_racer;
use ug_nodes::Node;
use ug_pool::{Entry, OpenNodes, Pool};
use ug_ranks::Ranks;

impl Frontier {
    /// Loses a rank. If it is active, its node takes in what is held below: these nodes are
    /// dropped, the ranks that work on them are idle and sent a Stop, the lowest first, and its
    /// node returns to the pool. If it is the last racer, the raced node returns to the pool.
    ///
    /// It takes no memory: each node out of the pool has a place reserved there, and each active
    /// rank one for its Stop, before and after the call.
    pub fn die(&mut self, rank: u32)
        requires there { rank < length self.old.ranks }
        requires room { HasRoom self.old }
        ensures died { HasDied rank self.old self.new }
        ensures room { HasRoom self.new }
    {
        let races = self.ranks.state(rank).is_racing();
        match self.ranks.kill(rank) {
            Some((node, floor)) => take_in(
                &mut self.ranks,
                &mut self.pool,
                &mut self.orders,
                node,
                floor,
            ),
            None => {
                if races {
                    lose_race(&self.ranks, &mut self.pool, &mut self.raced);
                }
            }
        }
    }
}

// Drops what is held below the node, and puts the node into the pool.
fn take_in(ranks: &mut Ranks, pool: &mut Pool, orders: &mut Queue, node: Node, floor: i128)
    requires pool { 0 < pool.old.spare }
    requires orders { length (stops_below node.line ranks.old) ≤ orders.old.spare }
    ensures pool { pool.new.entries ≡ with_entry (record { floor = floor; node = node })
        (without_below node.line pool.old.entries) }
    ensures ranks { ranks.new ≡ called_off node.line ranks.old }
    ensures orders { orders.new.orders ≡ orders.old.orders ++ stops_below node.line ranks.old }
    ensures places { (pool.old.spare ≤ pool.new.spare + 1)
        × (orders.new.spare + length (stops_below node.line ranks.old) ≡ orders.old.spare) }
{
    pool.drop_below(&node.line);
    call_off(ranks, orders, &node.line);
    pool.put(node, floor);
}

// The raced node is back in the pool, if there is one and no rank races.
fn lose_race(ranks: &Ranks, pool: &mut Pool, raced: &mut Option<Entry>)
    requires { length (raced_node raced.old) ≤ pool.old.spare }
    ensures lost { (frontier : Frontier) → HasLost
        (record frontier { pool = pool.old; ranks = ranks.now; raced = raced.old })
        (record frontier { pool = pool.new; ranks = ranks.now; raced = raced.new }) }
    ensures room { pool.new.spare + length (raced_node raced.old)
        ≡ pool.old.spare + length (raced_node raced.new) }
{
    if has_racer(ranks) {
        return;
    }
    if let Some(entry) = raced.take() {
        pool.put(entry.node, entry.floor);
    }
}
