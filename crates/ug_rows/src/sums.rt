ghost use Rattle.std.specs.Prelude.{◌≡◌, ℤ, List, ◌≤◌, ◌+◌, ◌*◌, ◌^◌, ◌+ℤ◌, ◌*ℤ◌, ◌≤ℤ◌, length, unsigned_abs};
ghost use Rattle.ug_rows.specs.Boxes.{IsInside, IsNonEmpty};
ghost use Rattle.ug_rows.specs.Rows.{IsLinear, sum_at, value_of};
ghost use Rattle.ug_rows.specs.Sums.{IsBound, box_floor, end_of, end_sum, least_sum, greatest_sum};

use crate::area::{IntBox, Interval};
use crate::row::{Objective, Row, Term};

/// Which of the sums over a box.
#[derive(Clone, Copy, PartialEq, Eq)]
pub enum Extreme {
    Least,
    Greatest,
}

/// The least sum of a row over the points of a box.
pub fn least(row: &Row, area: &IntBox) -> i128
    requires { IsLinear (length area.now) row.now.terms }
    ensures bound { (x : List ℤ) → IsInside area.now x → result ≤ℤ sum_at row.now.terms x }
    ensures reached { IsNonEmpty area.now
        → (x : List ℤ) × IsInside area.now x × (sum_at row.now.terms x ≡ result) }
    ensures sum { result ≡ least_sum row.now.terms area.now }
    ensures small { unsigned_abs result ≤ 10 ^ 38 }
{
    sum_of_ends(Extreme::Least, row.terms.as_slice(), area.as_slice())
}

/// The greatest sum of a row over the points of a box.
pub fn greatest(row: &Row, area: &IntBox) -> i128
    requires { IsLinear (length area.now) row.now.terms }
    ensures bound { (x : List ℤ) → IsInside area.now x → sum_at row.now.terms x ≤ℤ result }
    ensures reached { IsNonEmpty area.now
        → (x : List ℤ) × IsInside area.now x × (sum_at row.now.terms x ≡ result) }
    ensures sum { result ≡ greatest_sum row.now.terms area.now }
    ensures small { unsigned_abs result ≤ 10 ^ 38 }
{
    sum_of_ends(Extreme::Greatest, row.terms.as_slice(), area.as_slice())
}

/// The least value of an objective over the points of a box.
pub fn floor(objective: &Objective, area: &IntBox) -> i128
    requires terms { IsLinear (length area.now) objective.now.terms }
    requires constant { unsigned_abs objective.now.constant ≤ 10 ^ 37 }
    ensures bound { (x : List ℤ) → IsInside area.now x → result ≤ℤ value_of objective.now x }
    ensures reached { IsNonEmpty area.now
        → (x : List ℤ) × IsInside area.now x × (value_of objective.now x ≡ result) }
    ensures sum { result ≡ box_floor objective.now area.now }
    ensures small { unsigned_abs result ≤ 4 * 10 ^ 37 }
{
    let least = sum_of_ends(Extreme::Least, objective.terms.as_slice(), area.as_slice());
    least + objective.constant
}

/// The least or the greatest sum of terms over the points of a box.
pub fn sum_of_ends(extreme: Extreme, terms: &[Term], sides: &[Interval]) -> i128
    requires { IsLinear (length sides.now) terms.now }
    ensures bound { (x : List ℤ) → IsInside sides.now x
        → IsBound extreme result (sum_at terms.now x) }
    ensures reached { IsNonEmpty sides.now
        → (x : List ℤ) × IsInside sides.now x × (sum_at terms.now x ≡ result) }
    ensures sum { result ≡ end_sum extreme terms.now sides.now }
    ensures small { unsigned_abs result ≤ 3 * 10 ^ 37 }
{
    add_ends(extreme, terms, sides)
}

#[tactic(auto, using(crate::proofs::EndLemmas::end_sum_more))]
fn add_ends(extreme: Extreme, terms: &[Term], sides: &[Interval]) -> i128
    requires { IsLinear (length sides.now) terms.now }
    ensures sum { result ≡ end_sum extreme terms.now sides.now }
    ensures small { unsigned_abs result ≤ 3 * 10 ^ 37 }
{
    let mut total = 0;
    for term in terms {
        total = add_end(extreme, total, *term, sides[term.column as usize]);
    }
    total
}

/// A total and one term more, at that end of its column's interval.
pub fn add_end(extreme: Extreme, total: i128, term: Term, side: Interval) -> i128
    requires total { unsigned_abs total ≤ 10 ^ 38 }
    requires factor { unsigned_abs term.factor ≤ 10 ^ 24 }
    ensures value { result ≡ total +ℤ (term.factor *ℤ end_of extreme term.factor side) }
    ensures small { unsigned_abs result ≤ unsigned_abs total + 10 ^ 24 * 2 ^ 31 }
{
    add_product(total, term.factor, end_at(extreme, term.factor, side))
}

/// The end of an interval at which its product with a coefficient is the least, or the greatest.
pub fn end_at(extreme: Extreme, factor: i128, side: Interval) -> i32
    ensures { result ≡ end_of extreme factor side }
{
    match extreme {
        Extreme::Least if factor < 0 => side.high,
        Extreme::Least => side.low,
        Extreme::Greatest if factor < 0 => side.low,
        Extreme::Greatest => side.high,
    }
}

/// The sum of the terms at a point.
#[tactic(auto, using(crate::proofs::SumLemmas::sum_at_more))]
pub fn sum(terms: &[Term], values: &[i32]) -> i128
    requires { IsLinear (length values.now) terms.now }
    ensures value { result ≡ sum_at terms.now values.now }
    ensures small { unsigned_abs result ≤ 3 * 10 ^ 37 }
{
    let mut total = 0;
    for term in terms {
        total = add_product(total, term.factor, values[term.column as usize]);
    }
    total
}

/// A total and one product more.
#[tactic(auto, using(crate::proofs::Products::products))]
pub fn add_product(total: i128, factor: i128, value: i32) -> i128
    requires total { unsigned_abs total ≤ 10 ^ 38 }
    requires factor { unsigned_abs factor ≤ 10 ^ 24 }
    ensures value { result ≡ total +ℤ (factor *ℤ value) }
    ensures small { unsigned_abs result ≤ unsigned_abs total + 10 ^ 24 * 2 ^ 31 }
{
    total + factor * i128::from(value)
}
