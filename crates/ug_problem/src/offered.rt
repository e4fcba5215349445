use crate::answer::Broken;

/// The answer to a point that was offered.
#[derive(Clone, Copy, Debug, PartialEq, Eq)]
pub enum Offered {
    /// The point is the incumbent now.
    Taken,
    /// The point is feasible, and its value, `given`, is at least the incumbent's, `kept`.
    NotBetter { kept: i128, given: i128 },
    /// The point is not feasible, first in this way.
    Broken(Broken),
}
