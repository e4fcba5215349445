//! Bounds by multipliers, and rounded sides, on small problems: what is worked out by hand.

ghost use Rattle.std.specs.Prelude.{IsTrue};
ghost use Rattle.ug_problem.specs.Better.{IsSmallCutoff};

mod cases;
mod implications;
mod roundings;
mod subgradient;
mod texts;

use std::alloc::Global;
use ug_lists::Items;
use ug_problem::Problem;
use ug_rows::has_point;
use ug_surrogate::{Multiplier, Multipliers, Side, TooBig, are_of, bound};

const LOW: Side = Side::Low;

const HIGH: Side = Side::High;

const TOO_BIG_ROW: TooBig = TooBig { row: Some(0) };

const TOO_BIG_OBJECTIVE: TooBig = TooBig { row: None };

// The multipliers with this weight of the objective and these of sides of rows.
fn multipliers_of(alloc: Global, d: u32, weights: &[(u32, Side, u32)]) -> Option<Multipliers> {
    let mut all = Vec::new(alloc);
    let mut so = true;
    for (row, side, weight) in weights {
        let multiplier = Multiplier {
            row: *row,
            side: *side,
            weight: *weight,
        };
        so = so && all.extend_from_slice(&[multiplier]).is_ok();
    }
    if so {
        let list = Items::from_vec(all);
        Some(Multipliers { d, list })
    } else {
        drop(all);
        None
    }
}

// The bound of the root, if it has a point.
fn bound_of(problem: &Problem, m: &Multipliers) -> Option<Result<i128, TooBig>> {
    if are_of(problem, m) && has_point(problem.root().as_slice()) {
        Some(bound(problem, problem.root(), m))
    } else {
        None
    }
}

const LARGEST: i128 = 1_000_000_000;

/// Whether the cutoff is one of small numbers.
pub fn is_small(cutoff: Option<i128>) -> bool
    ensures { IsTrue result → IsSmallCutoff cutoff }
{
    match cutoff {
        Some(cutoff) => -LARGEST <= cutoff && cutoff <= LARGEST,
        None => true,
    }
}
