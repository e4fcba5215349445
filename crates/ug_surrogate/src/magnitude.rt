//! Whether a weighted sum stays small enough over a box to be taken.

ghost use Rattle.std.specs.Prelude.{◌≡◌, pos, ◌≤◌, ◌<◌, ◌+◌, ◌*◌, ◌^◌, length, unsigned_abs, IsNone, IfSome, OnOk, IfErr};
ghost use Rattle.std.specs.Option.{unwrap_or};
ghost use Rattle.ug_rows.specs.Rows.{IsLinear};
ghost use Rattle.ug_problem.specs.Instances.{row_at};
ghost use Rattle.ug_problem.specs.Limits.{IsProblem};
ghost use Rattle.ug_surrogate.specs.Magnitudes.{IsSmall, IsTooBig, magnitude, objective_magnitude, reach_of, row_magnitude};
ghost use Rattle.ug_surrogate.specs.Weights.{AreMultipliers, HasSide, side_under};

use crate::multipliers::{Multiplier, Multipliers, TooBig, side_of};
use ug_problem::Problem;
use ug_rows::{Interval, Objective, Row, Term};

// The greatest sum that is taken.
const MOST: u128 = 100_000_000_000_000_000_000_000_000_000_000_000_000;

fn reach(side: Interval) -> u128
    ensures value { result ≡ reach_of side }
    ensures small { result ≤ 2 ^ 31 }
{
    let low = side.low.unsigned_abs();
    let high = side.high.unsigned_abs();
    u128::from(if low < high { high } else { low })
}

// The size of one term.
fn term_size(factor: i128, side: Interval) -> u128
    requires { unsigned_abs factor ≤ 10 ^ 24 }
    ensures value { result ≡ unsigned_abs factor * reach_of side }
    ensures small { result ≤ 10 ^ 24 * 2 ^ 31 }
{
    factor.unsigned_abs() * reach(side)
}

#[tactic(auto, using(crate::proofs::Sizes::magnitude_more))]
fn terms_size(terms: &[Term], area: &[Interval]) -> u128
    requires { IsLinear (length area.now) terms.now }
    ensures value { result ≡ magnitude terms.now area.now }
    ensures small { result ≤ 3 * 10 ^ 37 }
{
    let mut total = 0;
    for term in terms {
        total += term_size(term.factor, area[term.column as usize]);
    }
    total
}

fn objective_size(objective: &Objective, area: &[Interval]) -> u128
    requires terms { IsLinear (length area.now) objective.now.terms }
    requires constant { unsigned_abs objective.now.constant ≤ 10 ^ 37 }
    ensures value { result ≡ objective_magnitude objective.now area.now }
{
    terms_size(objective.terms.as_slice(), area) + objective.constant.unsigned_abs()
}

/// The row of a multiplier.
pub fn row_under(problem: &Problem, multiplier: Multiplier) -> &Row
    requires { HasSide problem.now multiplier }
    ensures value { result.now ≡ row_at problem.now multiplier.row }
    ensures problem { IsProblem problem.now }
{
    &problem.rows()[multiplier.row as usize].row
}

/// The side that a multiplier weighs.
pub fn side_under(problem: &Problem, multiplier: Multiplier) -> i128
    requires { HasSide problem.now multiplier }
    ensures { result ≡ side_under problem.now multiplier }
{
    let side = side_of(row_under(problem, multiplier), multiplier.side);
    side.unwrap_or(0)
}

// The size of the row of a multiplier, with its side.
fn row_size(problem: &Problem, multiplier: Multiplier, area: &[Interval]) -> u128
    requires side { HasSide problem.now multiplier }
    requires width { length area.now ≡ length problem.now.columns }
    ensures value { result ≡ row_magnitude problem.now multiplier area.now }
{
    let row = row_under(problem, multiplier);
    terms_size(row.terms.as_slice(), area) + side_under(problem, multiplier).unsigned_abs()
}

// A total and a weighted size more, where that is small.
fn add_size(total: u128, weight: u32, size: u128) -> Option<u128>
    requires { total ≤ 10 ^ 38 }
    ensures some { IfSome result (λ sum. (sum ≡ total + weight * size) × (sum ≤ 10 ^ 38)) }
    ensures none { IsNone result → 10 ^ 38 < total + weight * size }
{
    let product = u128::from(weight).checked_mul(size)?;
    if product > MOST - total {
        return None;
    }
    Some(total + product)
}

/// Whether the weighted sum is small over the box, or else where it is not. It takes no memory.
#[tactic(auto, using(crate::proofs::Sizes::size_more))]
pub fn check_size(problem: &Problem, area: &[Interval], m: &Multipliers) -> Result<(), TooBig>
    requires width { length area.now ≡ length problem.now.columns }
    requires multipliers { AreMultipliers problem.now m.now }
    ensures ok { OnOk result (IsSmall problem.now m.now area.now) }
    ensures err { IfErr result (IsTooBig problem.now m.now area.now) }
    ensures problem { IsProblem problem.now }
{
    let size = objective_size(problem.objective(), area);
    let Some(mut total) = add_size(0, m.d, size) else {
        return Err(TooBig { row: None });
    };
    for multiplier in m.list.as_slice() {
        match add_size(
            total,
            multiplier.weight,
            row_size(problem, *multiplier, area),
        ) {
            Some(sum) => total = sum,
            None => {
                return Err(TooBig {
                    row: Some(multiplier.row),
                });
            }
        }
    }
    Ok(())
}
