ghost use Rattle.std.specs.Prelude.{◌≡◌, [], ◌∷◌, ◌++◌, OnOk};
ghost use Rattle.ug_fields.specs.Reading.{Gives};
ghost use Rattle.ug_image.specs.Reading.{values_at, point_at, is_feasible, feasible_at, best_at};

use std::alloc::{AllocError, Global};
use ug_fields::{Fault, bound_at, count_at, small_at};
use ug_lists::Items;
use ug_problem::Problem;
use ug_rows::Point;

// Adds a value at the end.
fn push_value(values: &mut Items<i32>, value: i32) -> Result<(), AllocError>
    ensures { OnOk result (values.new ≡ values.old ++ value ∷ []) }
{
    values.push(value)
}

// This many values, which are put into an empty list.
fn values_at<'a>(bytes: &'a [u8], count: u32, values: &mut Items<i32>) -> Result<&'a [u8], Fault>
    requires { values.old ≡ [] }
    ensures { Gives (λ rest. ((values.new, tt), rest.now)) result (values_at count bytes.now) }
{
    let mut rest = bytes;
    for _ in 0..count {
        let (value, after) = bound_at(rest)?;
        push_value(values, value)?;
        rest = after;
    }
    Ok(rest)
}

// A point: how many values it has, and each.
#[tactic(auto, unfolding(crate::specs::Reading::point_at))]
fn point_at(alloc: Global, bytes: &[u8]) -> Result<(Point, &[u8]), Fault>
    ensures { Gives (λ x. (x.0, x.1.now)) result (point_at bytes.now) }
{
    let (count, rest) = count_at(bytes, 10_000)?;
    let mut values = Items::new(alloc);
    match values_at(rest, count, &mut values) {
        Ok(rest) => Ok((Point::from_vec(values.into_vec()), rest)),
        Err(fault) => {
            drop(values);
            Err(fault)
        }
    }
}

// Whether the point is feasible.
fn is_feasible(problem: &Problem, point: &Point) -> bool
    ensures { result ≡ is_feasible problem.now point.now }
{
    problem.first_broken(point).is_none()
}

// A point that is feasible.
#[tactic(auto, unfolding(crate::specs::Reading::feasible_at))]
fn feasible_at<'a>(
    alloc: Global,
    bytes: &'a [u8],
    problem: &Problem,
) -> Result<(Point, &'a [u8]), Fault>
    ensures { Gives (λ x. (x.0, x.1.now)) result (feasible_at problem.now bytes.now) }
{
    let (point, rest) = point_at(alloc, bytes)?;
    if is_feasible(problem, &point) {
        Ok((point, rest))
    } else {
        Err(Fault::Bad(bytes.len()))
    }
}

/// The best point: a flag, and the point where there is one.
#[tactic(auto, unfolding(ug_fields::specs::Reading::flagged_at, ug_fields::specs::Reading::flagged_if))]
pub fn best_at<'a>(
    alloc: Global,
    bytes: &'a [u8],
    problem: &Problem,
) -> Result<(Option<Point>, &'a [u8]), Fault>
    ensures { Gives (λ x. (x.0, x.1.now)) result (best_at problem.now bytes.now) }
{
    let (flag, rest) = small_at(bytes, 0, 1)?;
    if flag == 0 {
        return Ok((None, rest));
    }
    let (point, rest) = feasible_at(alloc, rest, problem)?;
    Ok((Some(point), rest))
}
