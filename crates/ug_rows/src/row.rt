ghost use Rattle.std.specs.Prelude.{◌≡◌, ◌≤◌, ◌*◌, ◌^◌, ◌↔◌, IsTrue, length, unsigned_abs};
ghost use Rattle.ug_rows.specs.Rows.{IsLinear, Keeps, value_of};

use crate::point::Point;
use crate::sums::sum;
use std::alloc::AllocError;
use ug_lists::Items;

/// A coefficient of a column, in a sum.
#[derive(Clone, Copy, PartialEq, Eq)]
pub struct Term {
    /// The column, counted from 0.
    pub column: u32,
    pub factor: i128,
}

/// The terms of a sum, in rising order of their columns.
pub type Terms = Items<Term>;

/// A linear sum with the sides that it has to satisfy. A side that is `None` is infinite.
#[derive(Drop)]
pub struct Row {
    pub terms: Terms,
    pub low: Option<i128>,
    pub high: Option<i128>,
}

/// The objective: a linear sum and a constant, both multiplied by 10 to the power of `scale`.
#[derive(Drop)]
pub struct Objective {
    pub terms: Terms,
    pub constant: i128,
    /// Whether the user maximises: terms and constant are then the negated ones, and a value is
    /// negated when printed.
    pub maximise: bool,
    /// The power of ten by which values are divided when printed.
    pub scale: u8,
}

impl Clone for Row {
    ghost is_clone = { λ row copy. copy ≡ row };

    fn clone(&self) -> Result<Row, AllocError> {
        match self.terms.clone() {
            Ok(terms) => Ok(Row {
                terms,
                low: self.low,
                high: self.high,
            }),
            Err(error) => Err(error),
        }
    }
}

impl Clone for Objective {
    ghost is_clone = { λ objective copy. copy ≡ objective };

    fn clone(&self) -> Result<Objective, AllocError> {
        match self.terms.clone() {
            Ok(terms) => Ok(Objective {
                terms,
                constant: self.constant,
                maximise: self.maximise,
                scale: self.scale,
            }),
            Err(error) => Err(error),
        }
    }
}

/// Whether a point satisfies a row.
pub fn holds(row: &Row, point: &Point) -> bool
    requires { IsLinear (length point.now) row.now.terms }
    ensures { IsTrue result ↔ Keeps row.now point.now }
{
    let sum = sum(row.terms.as_slice(), point.as_slice());
    row.low.is_none_or(|low| low <= sum) && row.high.is_none_or(|high| sum <= high)
}

/// The value of an objective at a point.
pub fn value(objective: &Objective, point: &Point) -> i128
    requires terms { IsLinear (length point.now) objective.now.terms }
    requires constant { unsigned_abs objective.now.constant ≤ 10 ^ 37 }
    ensures value { result ≡ value_of objective.now point.now }
    ensures small { unsigned_abs result ≤ 4 * 10 ^ 37 }
{
    let sum = sum(objective.terms.as_slice(), point.as_slice());
    sum + objective.constant
}
