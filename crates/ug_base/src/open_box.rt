use ug_propagate::Fixpoint;
use ug_rows::Interval;

/// A column that is narrowed to an interval.
#[derive(Clone, Copy)]
pub struct Narrowing {
    pub column: u32,
    pub side: Interval,
}

/// A box left to search, as a change against its parent: the working box as it was after `depth`
/// changes, with one column narrowed. The whole box has none narrowed.
#[derive(Clone, Copy)]
pub struct OpenBox {
    pub depth: usize,
    pub cut: Option<Narrowing>,
    /// The floor of the box.
    pub floor: i128,
    /// How the rows of its parent rested.
    pub fixpoint: Fixpoint,
    /// The number of first columns that are closed in the box.
    pub closed: usize,
}
