use crate::tight::Reason;

/// The row that is examined, or `None` for the objective, and its sides.
#[derive(Clone, Copy)]
pub struct RowSides {
    pub row: Option<u32>,
    pub low: Option<i128>,
    pub high: Option<i128>,
}

/// What the propagation of a row, or a round, does to a box.
#[derive(Clone, Copy)]
pub enum Propagated {
    /// The box is as it was.
    Same,
    /// The box may be tighter than it was.
    Changed,
    /// Nothing is left of it, for this reason.
    Emptied(Reason),
}
