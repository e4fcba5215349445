use crate::change::Changes;
use crate::line::Line;

/// A subproblem: the line of names down to it, and its box as the changes against the root's.
#[derive(Clone, Drop)]
pub struct Node {
    pub line: Line,
    pub changes: Changes,
}
