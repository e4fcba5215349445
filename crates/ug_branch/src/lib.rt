//! How a box is branched on: which column is branched on, and at which value. It depends on
//! ug_lists and ug_rows. `choose` picks a column whose low is below its high by one of sixteen
//! `Params`, of which those that differ in their `Base` alone pick the same one, or finds that
//! there is none; its contract says that the two branches share no point, are below the box, and
//! have each of its points. No call takes memory, and the number of a `Params` gives back the same
//! `Params`.
#![tactic(auto)]

mod choice;
mod params;

pub use choice::{Branch, branch_from, branch_of, choose};
pub use params::{Base, End, Half, Params, Pick};
