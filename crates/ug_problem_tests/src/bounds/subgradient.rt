//! Bounds by the multipliers of subgradient runs.

use crate::bounds::bound_of;
use crate::bounds::texts::{COVER, KNAPSACK, RANGED};
use crate::expect::holds_at;
use crate::tasks::SQUARE;
use std::alloc::Global;
use ug_mps::read;
use ug_problem::Problem;
use ug_surrogate::subgradient_multipliers;

// Problems, and a bound that the multipliers of a subgradient run give at least.
const SUBGRADIENT_BOUNDS: &[(&[u8], i128)] = &[
    (SQUARE, 5),
    (COVER, 2),
    (KNAPSACK, -14),
    (RANGED, -4),
];

fn reaches(alloc: Global, problem: &Problem, least: i128) -> bool {
    let Ok(m) = subgradient_multipliers(alloc, problem, problem.root(), 200) else {
        return false;
    };
    let told = bound_of(problem, &m);
    drop(m);
    match told {
        Some(Ok(told)) => least <= told,
        _ => false,
    }
}

fn subgradient_reaches(alloc: Global, text: &[u8], least: i128) -> bool {
    let Ok(problem) = read(alloc, text, None) else {
        return false;
    };
    let reaches = reaches(alloc, &problem, least);
    drop(problem);
    reaches
}

#[test]
fn subgradient_bounds_well(rt: HostRuntime) {
    for (text, least) in SUBGRADIENT_BOUNDS {
        holds_at(&rt, subgradient_reaches(rt.alloc(), text, *least), least);
    }
}
