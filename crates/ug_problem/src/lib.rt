//! The problem: columns with integer bounds, rows with sides, an objective that is minimised, and
//! `Decimal`, an exact number that is read, rounded and scaled. Depends on ug_rows. `Problem::new`
//! returns one exactly if everything is within its limit, and otherwise names the first violation;
//! `first_broken` is `None` exactly if a point is feasible, `value` is its value, `print_value`
//! spells it. specs/ says what a right answer is, which points are better, and how an offered point
//! is answered.
#![tactic(auto)]

mod answer;
mod column;
mod decimal;
mod entries;
mod error;
mod feasible;
mod laws;
mod limits;
mod locks;
mod offered;
mod print;
mod problem;
mod same;
mod shared;

pub use answer::{Answer, Broken};
pub use column::{Column, Columns, NamedRow, NamedRows};
pub use decimal::{
    Decimal, ceiling_is_least, floor_is_greatest, reads_these_words, scales_from_its_places,
    starts_with_minus, without_sign,
};
pub use entries::ColumnEntry;
pub use error::ProblemError;
pub use laws::{better_is_below_the_cutoff, gaps_may_grow, one_point_is_kept};
pub use limits::{MOST_COLUMNS, MOST_FACTOR, MOST_ROWS, MOST_SIDE, MOST_TERMS};
pub use locks::Inward;
pub use offered::Offered;
pub use print::prints_one_text;
pub use problem::Problem;
pub use shared::Shared;
