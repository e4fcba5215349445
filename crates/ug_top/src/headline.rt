//! The headline on one page.

ghost use Rattle.ug_top.specs.Honesty.{AnswersAreRight};

use ug_problem::one_point_is_kept;

/// The contract of a run implies the promise to its user: a run that ends with status 0 has read a
/// problem and printed a right answer to it. For a solve by threads this has no premise; for
/// processes it has one, that a child that reports a subproblem finished has searched it; and for a
/// restart that each checkpoint that could be found is from an earlier run of this program.
pub fn answers_are_right()
    ensures { AnswersAreRight }
{
    one_point_is_kept();
}
