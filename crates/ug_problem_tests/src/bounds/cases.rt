//! Bounds that were worked out by hand.

use crate::bounds::texts::{COSTLY, COVER, KNAPSACK, ODD_SUM, RANGED, WIDE};
use crate::bounds::{HIGH, LOW, TOO_BIG_OBJECTIVE, TOO_BIG_ROW, bound_of, multipliers_of};
use crate::expect::holds_at;
use crate::tasks::SQUARE;
use std::alloc::Global;
use ug_mps::read;
use ug_problem::Problem;
use ug_surrogate::{Side, TooBig};

// A problem, the weight of its objective, weights of sides of its rows, and the bound of its root.
type Case = (
    &'static [u8],
    u32,
    &'static [(u32, Side, u32)],
    Result<i128, TooBig>,
);

const CASES: &[Case] = &[
    (SQUARE, 1, &[(0, LOW, 1)], Ok(5)),
    (SQUARE, 2, &[(0, LOW, 1)], Ok(3)),
    (SQUARE, 1, &[], Ok(0)),
    (KNAPSACK, 1, &[(0, HIGH, 1), (2, HIGH, 1)], Ok(-13)),
    (KNAPSACK, 1, &[(1, HIGH, 1)], Ok(-61)),
    (COVER, 2, &[(0, LOW, 1), (1, LOW, 1), (2, LOW, 1)], Ok(2)),
    (COVER, 1, &[(0, LOW, 1)], Ok(1)),
    (RANGED, 3, &[(0, LOW, 2), (0, HIGH, 1)], Ok(-4)),
    (ODD_SUM, 2, &[(0, LOW, 1)], Ok(-2)),
    (WIDE, 1, &[(0, HIGH, 1_000_000)], Err(TOO_BIG_ROW)),
    (WIDE, 1, &[(0, HIGH, 99_999)], Ok(0)),
    (COSTLY, 1_000_000, &[(0, LOW, 1)], Err(TOO_BIG_OBJECTIVE)),
];

// Whether the bound is the one of the case.
fn is_right_of(alloc: Global, problem: &Problem, case: &Case) -> bool {
    let Some(m) = multipliers_of(alloc, case.1, case.2) else {
        return false;
    };
    let is_right = bound_of(problem, &m) == Some(case.3);
    drop(m);
    is_right
}

fn is_right(alloc: Global, case: &Case) -> bool {
    let Ok(problem) = read(alloc, case.0, None) else {
        return false;
    };
    let is_right = is_right_of(alloc, &problem, case);
    drop(problem);
    is_right
}

#[test]
fn bounds_are_what_is_worked_out_by_hand(rt: HostRuntime) {
    for (k, case) in CASES.iter().enumerate() {
        holds_at(&rt, is_right(rt.alloc(), case), &k);
    }
}
