//! Every point of a small problem, examined.

use std::alloc::Global;
use ug_problem::Problem;
use ug_restart::End;
use ug_rows::{Interval, Point};

// How many points are examined. No problem of these tests has as many.
const MANY: u32 = 10_000;

// The next point of a box, the first column first, or false where there is none.
fn advance(values: &mut [i32], sides: &[Interval]) -> bool {
    for (value, side) in values.iter_mut().zip(sides) {
        if *value < side.high {
            *value += 1;
            return true;
        }
        *value = side.low;
    }
    false
}

// The value of the point, if it has a value for each column.
fn value(problem: &Problem, point: &Point) -> Option<i128> {
    if point.as_slice().len() == problem.columns().len() {
        Some(problem.value(point))
    } else {
        None
    }
}

// The smaller of the two, or the one that there is.
fn lesser(best: Option<i128>, value: Option<i128>) -> Option<i128> {
    match (best, value) {
        (Some(best), Some(value)) => Some(best.min(value)),
        (Some(best), None) => Some(best),
        (None, value) => value,
    }
}

// Looks at the point of these values. Whether there was memory for it.
fn look(alloc: Global, problem: &Problem, values: &[i32], least: &mut Option<i128>) -> bool {
    let Ok(values) = values.to_vec(alloc) else {
        return false;
    };
    let point = Point::from_vec(values);
    if problem.first_broken(&point).is_none() {
        *least = lesser(*least, value(problem, &point));
    }
    drop(point);
    true
}

// Looks at all points from that of these values on.
fn look_from(
    alloc: Global,
    problem: &Problem,
    values: &mut [i32],
    least: &mut Option<i128>,
) -> bool {
    for _ in 0..MANY {
        if !look(alloc, problem, values, least) {
            return false;
        }
        if !advance(values, problem.root().as_slice()) {
            return true;
        }
    }
    false
}

/// Finds the least value over all points, if one of them is feasible. Whether all were examined.
pub fn find_least(alloc: Global, problem: &Problem, least: &mut Option<i128>) -> bool {
    let mut values = Vec::new(alloc);
    let mut so = true;
    for side in problem.root().as_slice() {
        so = so && values.extend_from_slice(&[side.low]).is_ok();
    }
    so = so && look_from(alloc, problem, &mut values, least);
    drop(values);
    so
}

/// Whether a run that ended so has found this value, or one that is no more than the gap above it;
/// or that there is none.
pub fn has_found(problem: &Problem, end: &End, least: Option<i128>, gap: i128) -> bool {
    let End::Answered(book) = end else {
        return false;
    };
    let found = match book.best() {
        Some(point) => value(problem, point),
        None => None,
    };
    match (least, found) {
        (Some(least), Some(found)) => least <= found && found.saturating_sub(least) <= gap,
        (None, None) => true,
        _ => false,
    }
}
