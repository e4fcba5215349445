//! The rows that multipliers imply.

use crate::bounds::texts::{KNAPSACK, RANGED, WIDE};
use crate::bounds::{HIGH, LOW, TOO_BIG_ROW, is_small, multipliers_of};
use crate::expect::holds_at;
use crate::tasks::SQUARE;
use std::alloc::Global;
use ug_mps::read;
use ug_problem::Problem;
use ug_rows::{Row, Term};
use ug_surrogate::{ImpliedError, Multipliers, Side, are_of, implied};

// The terms, by column and coefficient, and the high side of a row.
type Wanted = (&'static [(u32, i128)], i128);

// A problem, the weight of its objective, weights of sides, a cutoff, and the row that they imply.
type Implication = (
    &'static [u8],
    u32,
    &'static [(u32, Side, u32)],
    i128,
    Result<Wanted, ImpliedError>,
);

const IMPLICATIONS: &[Implication] = &[
    (SQUARE, 1, &[(0, LOW, 1)], 6, Ok((&[], 0))),
    (SQUARE, 2, &[(0, LOW, 1)], 6, Ok((&[(0, 1), (1, 1)], 5))),
    (SQUARE, 2, &[(0, LOW, 1)], 7, Ok((&[(0, 1), (1, 1)], 7))),
    (
        KNAPSACK,
        1,
        &[(0, HIGH, 1)],
        -12,
        Ok((&[(0, -3), (1, -1), (2, -2)], -8)),
    ),
    (
        RANGED,
        3,
        &[(0, LOW, 2), (0, HIGH, 1)],
        0,
        Ok((&[(0, 5), (1, -5)], -15)),
    ),
    (WIDE, 1, &[(0, HIGH, 1)], 1, Err(ImpliedError::TooWide)),
    (
        WIDE,
        1,
        &[(0, HIGH, 1_000_000)],
        1,
        Err(ImpliedError::TooBig(TOO_BIG_ROW)),
    ),
];

fn are_terms(terms: &[Term], wanted: &[(u32, i128)]) -> bool {
    for (term, (column, factor)) in terms.iter().zip(wanted) {
        if term.column != *column || term.factor != *factor {
            return false;
        }
    }
    terms.len() == wanted.len()
}

fn is_wanted(told: &Result<Row, ImpliedError>, wanted: &Result<Wanted, ImpliedError>) -> bool {
    match (told, wanted) {
        (Ok(row), Ok((terms, high))) => {
            row.low.is_none() && row.high == Some(*high) && are_terms(row.terms.as_slice(), terms)
        }
        (Err(told), Err(wanted)) => *told == *wanted,
        _ => false,
    }
}

// Whether the row of these multipliers is the one wanted.
fn implies_it(
    alloc: Global,
    problem: &Problem,
    m: &Multipliers,
    cutoff: i128,
    wanted: &Result<Wanted, ImpliedError>,
) -> bool {
    if !are_of(problem, m) || !is_small(Some(cutoff)) {
        return false;
    }
    let told = implied(alloc, problem, m, cutoff);
    let is_so = is_wanted(&told, wanted);
    drop(told);
    is_so
}

fn implies_so(alloc: Global, case: &Implication) -> bool {
    let Ok(problem) = read(alloc, case.0, None) else {
        return false;
    };
    let Some(m) = multipliers_of(alloc, case.1, case.2) else {
        drop(problem);
        return false;
    };
    let is_so = implies_it(alloc, &problem, &m, case.3, &case.4);
    drop(m);
    drop(problem);
    is_so
}

#[test]
fn multipliers_imply_rows(rt: HostRuntime) {
    for (k, case) in IMPLICATIONS.iter().enumerate() {
        holds_at(&rt, implies_so(rt.alloc(), case), &k);
    }
}
