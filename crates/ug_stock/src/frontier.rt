use crate::queue::Queue;
use ug_pool::{Entry, Pool};
use ug_ranks::Ranks;

/// The part of a book that events and decisions change, except the incumbent and the counts: pool,
/// ranks, race and queue.
#[derive(Drop)]
pub struct Frontier {
    /// The open nodes, in order of floor, then name.
    pub pool: Pool,
    /// The state of each rank.
    pub ranks: Ranks,
    /// The raced node with its floor, during a race.
    pub raced: Option<Entry>,
    /// The last ticket number used.
    pub last: u64,
    /// The queued orders.
    pub orders: Queue,
    /// The cutoff announced last.
    pub announced: Option<i128>,
}
