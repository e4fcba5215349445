use ug_rows::IntBox;

/// A side of a row.
#[derive(Clone, Copy, PartialEq, Eq)]
pub enum Side {
    Low,
    High,
}

/// What shows that nothing is left of a box.
#[derive(Clone, Copy, PartialEq, Eq)]
pub struct Reason {
    /// The row, or `None` for the objective.
    pub row: Option<u32>,
    pub side: Side,
}

/// What bound propagation makes of a box.
#[derive(Drop)]
pub enum Tight {
    /// The rest of the box.
    Kept(IntBox),
    /// Nothing is left, for this reason.
    Empty(Reason),
}
