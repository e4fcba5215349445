//! What the coordinator knows of each rank: its state, and what goes with it.
//! It depends on ug_nodes, ug_branch, ug_rows and ug_lists.
//! `Ranks` is a list of states. Each call writes one place of it, as its contract says by cases; a
//! call that ends a rank's work hands its node back with its floor. `new` takes memory, and `take`
//! may; no other call does.
#![tactic(auto)]

mod looks;
mod ranks;
mod state;

pub use ranks::Ranks;
pub use state::{Assignment, Off, Racer, State, Work};
