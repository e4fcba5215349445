//! Makes instances to try a solver on: knapsacks of three rows with few columns, from a seed.
//! It depends on ug_problem.
//! `make` gives the instance that specs/ states of its seed and its size, or wants memory.
//! The draws are a sequence of remainders; which of them is which number is a rule on its place.
//! The same seed and size give the same problem on every machine.
#![tactic(auto)]

mod draws;
mod making;
mod parts;

pub use making::make;
