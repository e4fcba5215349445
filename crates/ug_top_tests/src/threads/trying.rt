//! The answer of a small problem by trying each of its points.

use crate::threads::answer::Answer;
use crate::threads::problems::{Small, SmallRow};
use std::alloc::{AllocError, Global};

/// The least value of a point that keeps each row.
pub fn least_by_trying(alloc: Global, small: &Small<'_>) -> Result<Answer, AllocError> {
    let mut least = Answer::Infeasible;
    for number in 0..points(small) {
        let point = point_of(alloc, small, number)?;
        if keeps_rows(small, &point) {
            least = lesser(least, sum(small.objective, &point));
        }
    }
    Ok(least)
}

// How many values a column has.
fn width((low, high): (i32, i32)) -> u64 {
    u64::from(high.abs_diff(low)).saturating_add(1)
}

fn points(small: &Small<'_>) -> u64 {
    let mut points = 1u64;
    for column in small.columns {
        points = points.saturating_mul(width(*column));
    }
    points
}

// The point of this number, whose digits are how far each value lies above its column's low bound.
fn point_of(alloc: Global, small: &Small<'_>, number: u64) -> Result<Vec<i128>, AllocError> {
    let mut point = Vec::new(alloc);
    let mut rest = number;
    for column in small.columns {
        let values = width(*column);
        let above = rest.checked_rem(values).unwrap_or(0);
        rest = rest.checked_div(values).unwrap_or(0);
        point.push(i128::from(column.0).wrapping_add(i128::from(above)))?;
    }
    Ok(point)
}

fn sum(factors: &[i128], point: &[i128]) -> i128 {
    let mut sum = 0i128;
    for (factor, value) in factors.iter().zip(point) {
        sum = sum.wrapping_add(factor.wrapping_mul(*value));
    }
    sum
}

fn keeps_rows(small: &Small<'_>, point: &[i128]) -> bool {
    for row in small.rows {
        if !keeps_row(row, point) {
            return false;
        }
    }
    true
}

fn keeps_row(row: &SmallRow<'_>, point: &[i128]) -> bool {
    let sum = sum(row.factors, point);
    row.low.is_none_or(|low| low <= sum) && row.high.is_none_or(|high| sum <= high)
}

fn lesser(least: Answer, value: i128) -> Answer {
    match least {
        Answer::Value(other) => Answer::Value(other.min(value)),
        Answer::Infeasible | Answer::Other => Answer::Value(value),
    }
}
