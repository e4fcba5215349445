use ug_rows::Point;

/// The answer to a problem.
#[derive(Drop)]
pub enum Answer {
    /// This point is feasible, and no feasible point has a smaller value.
    Optimal(Point),
    /// No point is feasible.
    Infeasible,
}

/// The first way in which a point is not feasible.
#[derive(Clone, Copy, Debug, PartialEq, Eq)]
pub enum Broken {
    /// It has this many values, and not one per column.
    Length(usize),
    /// The value of this column is outside its bounds.
    Column(u32),
    /// The sum of this row is outside its sides.
    Row(u32),
}
