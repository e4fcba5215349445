//! The loop of a worker over any seat: it takes a task, makes its steps, and reports what it finds
//! and what is left. Depends on ug_base for tasks. `Seat` is a worker's connection to its
//! coordinator. The preconditions of its calls say what the worker must have done: rounds of 64
//! steps, each point reported that is found, boxes handed as long as some are asked for, all of
//! them if the node is to be released (`ReleasePolicy`), and Done only if no box is left. `work`
//! continues until its seat says that no node is held, or memory runs out. `Worker` is one that is
//! moved step by step.
#![tactic(auto)]

mod pace;
mod reply;
mod round_count;
mod search;
mod seat;
mod took;
mod worker;

pub use pace::Pace;
pub use reply::{Reply, cutoff_of_point};
pub use round_count::{ReleasePolicy, RoundCount};
pub use search::{Asked, Left, Search};
pub use seat::Seat;
pub use took::{Took, Untaken};
pub use worker::{Worker, work};
