//! Rows, points and boxes of whole numbers: the sums of a row over a box, and what lies in what. It
//! depends on ug_lists. `least`, `greatest` and `floor` are the least and the greatest sums over
//! the points of a box, reached where it has a point; `sum_of_ends` is either of them for bare
//! terms. `holds`, `inside` and `below` decide their definitions in specs/. No call takes memory,
//! and no sum wraps, for rows within the limits that `IsLinear` states.
#![tactic(auto)]

mod area;
mod point;
mod row;
mod same;
mod sums;

pub use area::{IntBox, Interval, below, has_point, is_closed_within, is_fixed};
pub use point::{Point, inside, is_within};
pub use row::{Objective, Row, Term, Terms, holds, value};
pub use sums::{Extreme, add_end, add_product, end_at, floor, greatest, least, sum, sum_of_ends};
