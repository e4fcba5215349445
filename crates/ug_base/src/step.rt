use ug_rows::Point;

/// What a step did with the last box left.
#[derive(Drop)]
pub enum Step {
    /// It has no feasible point with a value below the cutoff, and was dropped.
    Pruned,
    /// This point of it is feasible, and its value, below the cutoff before, is the cutoff now. The
    /// box was dropped.
    Found(Point),
    /// It was branched: both parts are in its place.
    Split,
    /// No box was left.
    Empty,
}
