//! The bound that a weighted sum gives over a box.

ghost use Rattle.std.specs.Prelude.{◌≡◌, ℤ, ◌≤◌, ◌<◌, ◌+◌, ◌^◌, ◌+ℤ◌, length, unsigned_abs, IfOk, OnOk, IfErr};
ghost use Rattle.ug_rows.specs.Boxes.{IsNonEmpty, interval_at};
ghost use Rattle.ug_surrogate.specs.Columns.{least_product, least_to};
ghost use Rattle.ug_surrogate.specs.Magnitudes.{IsSmall, IsTooBig};
ghost use Rattle.ug_surrogate.specs.Weights.{AreMultipliers, IsLeastWeighted, rounded_up};

use crate::columns::{constant, factor};
use crate::exact::{divide_up, plus, times};
use crate::magnitude::check_size;
use crate::multipliers::{Multipliers, TooBig};
use ug_problem::Problem;
use ug_rows::{Extreme, IntBox, Interval, end_at};

// A total and a coefficient's least product over an interval more.
fn add_least(total: i128, factor: i128, side: Interval) -> i128
    requires product { unsigned_abs (least_product factor side) ≤ 10 ^ 38 }
    requires sum { unsigned_abs (total +ℤ least_product factor side) ≤ 10 ^ 38 }
    ensures value { result ≡ total +ℤ least_product factor side }
    ensures small { unsigned_abs result ≤ 10 ^ 38 }
{
    let end = i128::from(end_at(Extreme::Least, factor, side));
    plus(total, times(factor, end))
}

// A total and the least product of a column more.
fn add_column(
    problem: &Problem,
    area: &[Interval],
    m: &Multipliers,
    column: usize,
    total: i128,
) -> i128
    requires width { length area.now ≡ length problem.now.columns }
    requires multipliers { AreMultipliers problem.now m.now }
    requires small { IsSmall problem.now m.now area.now }
    requires there { column < length area.now }
    requires total { total ≡ least_to column problem.now m.now area.now }
    ensures value { result ≡ least_to (column + 1) problem.now m.now area.now }
    ensures small { unsigned_abs result ≤ 10 ^ 38 }
{
    add_least(total, factor(problem, m, column), area[column])
}

// The least of the weighted sum over the points of the box.
#[tactic(auto, using(crate::proofs::Sizes::total_small))]
fn least_weighted(problem: &Problem, area: &[Interval], m: &Multipliers) -> i128
    requires width { length area.now ≡ length problem.now.columns }
    requires multipliers { AreMultipliers problem.now m.now }
    requires small { IsSmall problem.now m.now area.now }
    ensures value { result ≡ least_to (length area.now) problem.now m.now area.now }
    ensures small { unsigned_abs result ≤ 10 ^ 38 }
{
    let mut total = constant(problem, m);
    for j in 0..area.len() {
        total = add_column(problem, area, m, j, total);
    }
    total
}

/// The least of the weighted sum over the points of a box, divided by the weight of the objective
/// and rounded up: no feasible point of the box has a value below it. It takes no memory.
///
/// # Errors
///
/// `TooBig` where the sum may pass 10^38: it names the row with which it does.
pub fn bound(problem: &Problem, area: &IntBox, m: &Multipliers) -> Result<i128, TooBig>
    requires width { length area.now ≡ length problem.now.columns }
    requires some { IsNonEmpty area.now }
    requires multipliers { AreMultipliers problem.now m.now }
    ensures value { IfOk result (λ value. (f : ℤ) × IsLeastWeighted problem.now area.now m.now f
        × (value ≡ rounded_up f m.now.d)) }
    ensures small { OnOk result (IsSmall problem.now m.now area.now) }
    ensures too_big { IfErr result (IsTooBig problem.now m.now area.now) }
{
    let sides = area.as_slice();
    check_size(problem, sides, m)?;
    let least = least_weighted(problem, sides, m);
    Ok(divide_up(least, u128::from(m.d)))
}
