ghost use Rattle.std.specs.Prelude.{◌≡◌, ◌<◌, ◌≤◌, [], length, max, MatchOption, OnOk, OnErr, IsOk};
ghost use Rattle.ug_pool.specs.Pools.{Pooled, IsInOrder, IsPut, IsTaken, IsDroppedTo, with_floor_below, without_below};

use std::alloc::AllocError;
use ug_nodes::{Line, Node};

/// Open nodes, in order of their floors, and of their names where the floors are the same.
pub trait OpenNodes {
    /// The nodes with their floors, and how many more may be put in.
    ghost pooled: { Self → Pooled };

    /// How many nodes the pool has.
    fn len(&self) -> usize
        ensures value { result ≡ length (pooled self.now).entries }
        ensures order { IsInOrder (pooled self.now).entries };

    /// How many more nodes may be put in.
    fn spare(&self) -> usize
        ensures { result ≡ (pooled self.now).spare };

    /// Takes memory for `n` nodes more, if there is less to spare.
    fn reserve(&mut self, n: usize) -> Result<(), AllocError>
        ensures ok { OnOk result (pooled self.new
            ≡ record (pooled self.old) { spare = max (pooled self.old).spare n }) }
        ensures err { OnErr result (pooled self.new ≡ pooled self.old) }
        ensures enough { n ≤ (pooled self.old).spare → IsOk result };

    /// Puts a node in, behind those that are not after it.
    fn put(&mut self, node: Node, floor: i128)
        requires { 0 < (pooled self.old).spare }
        ensures { IsPut floor node (pooled self.old) (pooled self.new) };

    /// Takes out the first node.
    fn take_least(&mut self) -> Option<Node>
        ensures order { IsInOrder (pooled self.old).entries }
        ensures taken { MatchOption result
            (((pooled self.old).entries ≡ []) × (pooled self.new ≡ pooled self.old))
            (IsTaken (pooled self.old) (pooled self.new)) };

    /// Drops the nodes whose floor is at least the value.
    fn drop_from(&mut self, value: i128)
        ensures { IsDroppedTo (with_floor_below value (pooled self.old).entries)
            (pooled self.old) (pooled self.new) };

    /// Drops the nodes that have this line's node as a proper ancestor, and not that node itself.
    /// It takes no memory, passes once over the pool, and compares at most the line's names with
    /// each.
    fn drop_below(&mut self, line: &Line)
        ensures { IsDroppedTo (without_below line.now (pooled self.old).entries)
            (pooled self.old) (pooled self.new) };
}
