use ug_lists::Items;
use ug_nodes::{Changes, Name};
use ug_problem::Shared;
use ug_rows::Point;

/// A node as it is saved: a held node none of whose ancestors is held.
#[derive(Clone, Drop)]
pub struct SavedNode {
    pub name: Name,
    /// Its box, as the changes against the root's.
    pub changes: Changes,
}

/// The nodes of an image, in order of name.
pub type Saved = Items<SavedNode>;

/// The saved state of one moment of a run.
#[derive(Drop)]
pub struct Image {
    /// At least 1.
    pub run: u64,
    /// Counted over all saves of a disk, from 1.
    pub sequence: u64,
    pub problem: Shared,
    /// The incumbent, which is feasible.
    pub best: Option<Point>,
    /// How many reports the run had received.
    pub heard: u64,
    /// In units of the scaled objective, from 0 to 4*10^37.
    pub gap: i128,
    pub nodes: Saved,
}
