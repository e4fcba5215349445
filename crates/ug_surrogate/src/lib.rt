//! Bounds by multipliers: the objective and weighted sides of rows, in one sum. It depends on
//! ug_rows and ug_problem. `bound` is at most each feasible value of a box, whatever the weights:
//! `subgradient_multipliers` ones need no proof. `implied` is the row that each feasible point with
//! a value below a cutoff satisfies. `rounded` moves the sides of a row inwards to the sums that it
//! can have over a box. `stronger` is the problem with its rows so rounded and such rows behind
//! them, which a search may use instead.
#![tactic(auto)]

mod columns;
mod exact;
mod further;
mod implying;
mod in_place;
mod laws;
mod least;
mod magnitude;
mod multipliers;
mod rounding;
mod subgradient;

pub use further::stronger;
pub use implying::{ImpliedError, implied};
pub use laws::{bounds_are_below, implied_rows_keep_good_points};
pub use least::bound;
pub use multipliers::{Multiplier, Multipliers, Side, TooBig, are_of};
pub use rounding::{Narrowed, Sides, rounded};
pub use subgradient::{improved, subgradient_multipliers};
