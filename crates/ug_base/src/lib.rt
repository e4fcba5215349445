//! The search of one subproblem: a stack of boxes left, within one box, with a cutoff. Depends on
//! ug_problem, ug_propagate, ug_surrogate and ug_branch, and on ug_nodes for its ticket. The
//! parameters say whether it propagates the problem's rows only, or surrogate constraints too. A
//! `step` propagates the last box left, and prunes it, returns its one point, or branches; `hand`
//! hands over the first box left, and `give` the last one too. Every feasible point of the box with
//! a value below the cutoff lies in a box left or handed; each step and each box handed leave less
//! to search.
#![tactic(auto)]

mod branching;
mod conflicts;
mod evaluation;
mod formulation;
mod handed;
mod lesser;
mod lows;
mod moving;
mod open_box;
mod open_boxes;
mod schedule;
mod scores;
mod split;
mod step;
mod task;

pub use handed::Handed;
pub use step::Step;
pub use task::Task;
