//! Bound propagation: rows that tighten the columns of a box, until nothing changes. It depends on
//! ug_rows and ug_problem. `tighten` gives what 32 rounds leave, as specs/Rounds.antt says; every
//! feasible point of the box with a value below the cutoff is left, and where nothing is left it
//! names the row that shows it. The sums of the rows are kept up, and a row waits until it
//! loses slack; `tighten_plain`, the slow program that the definition is, propagates all rows.
#![tactic(auto)]

mod cut;
mod fixpoint;
mod measure;
mod moving;
mod propagation;
mod queued;
mod quotient;
mod rounds;
mod row128;
mod row64;
mod row_sides;
mod row_spec;
mod rows;
mod settle;
mod short;
mod short_measure;
mod short_sides;
mod steps;
mod sums;
mod tight;
mod working;

pub use fixpoint::Fixpoint;
pub use propagation::tighten;
pub use row_spec::tighten_plain;
pub use settle::{fixpoint_after, propagate};
pub use tight::{Reason, Side, Tight};
pub use working::{Trailed, Working};
