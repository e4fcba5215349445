use ug_branch::Params;
use ug_nodes::{Hands, Node, Ticket};

/// A rank's part in a race, with its last report.
#[derive(Clone, Copy)]
pub struct Racer {
    pub ticket: Ticket,
    pub params: Params,
    /// How many open nodes it has, 0 before its first report.
    pub open: u64,
    /// The least floor of its open nodes.
    pub floor: i128,
}

/// What a rank works on, with its last report.
#[derive(Drop)]
pub struct Work {
    pub ticket: Ticket,
    pub node: Node,
    /// The floor of the node, below which no point of its box has a value.
    pub floor: i128,
    pub params: Params,
    /// The boxes of the hands that were kept.
    pub taken: Hands,
    /// How many open nodes it has, 0 before its first report.
    pub open: u64,
    /// The least floor of its open nodes.
    pub reported: i128,
    /// How many hands it is still asked for.
    pub asked: u32,
}

/// What an idle rank is to work on.
#[derive(Drop)]
pub struct Assignment {
    pub ticket: Ticket,
    pub node: Node,
    /// The floor of the node.
    pub floor: i128,
    pub params: Params,
}

/// Why a rank is off.
#[derive(Clone, Copy)]
pub enum Off {
    Died,
}

/// The state of a rank.
#[derive(Drop)]
pub enum State {
    /// It has not joined yet.
    Absent,
    Idle,
    /// It works on the root, as others do.
    Racing(Racer),
    /// It works on a node of its own.
    Active(Work),
    Dead(Off),
}
