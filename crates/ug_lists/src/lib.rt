//! Lists inside data: a `Vec` that contracts see as the list of its items, and text as its bytes.
//! It depends on nothing but std.
//! Two values with equal contents are one value to a contract, wherever the contents lie in memory
//! and whatever room they have, so records over these lists are compared and updated by field.
//! `Same` says of two values whether they are one, and `are_same` of two lists of such.
#![tactic(auto)]

mod items;
mod same;

pub use items::{Bytes, Items, Text};
pub use same::{Same, are_same};
