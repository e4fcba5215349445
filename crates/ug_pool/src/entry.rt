ghost use Rattle.std.specs.Prelude.{◌≡◌};
ghost use Rattle.ug_pool.specs.Pools.{is_before};

use std::cmp::Ordering;
use ug_nodes::Node;

/// An open node with its floor, below which no point of its box has a value.
#[derive(Drop)]
pub struct Entry {
    pub floor: i128,
    pub node: Node,
}

impl Entry {
    /// Whether the entry is before another.
    pub fn is_before(&self, other: &Entry) -> bool
        ensures { result ≡ is_before self.now other.now }
    {
        match self.floor.cmp(&other.floor) {
            Ordering::Less => true,
            Ordering::Equal => self.node.line.name().order(other.node.line.name()).is_lt(),
            Ordering::Greater => false,
        }
    }
}
