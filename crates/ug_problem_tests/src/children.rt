//! Crews of real children at real sockets, and the links to them: reported, received and seen off,
//! lost, not to be started, and at work on a large problem.

mod child;
mod crews;
pub mod echo;
mod links;
mod listening;
mod losses;
mod notes;
pub mod solvers;
