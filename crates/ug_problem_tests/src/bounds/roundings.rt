//! What rounding leaves of the sides of rows.

use crate::bounds::texts::{ODD_SUM, STEPS};
use crate::expect::holds_at;
use std::alloc::Global;
use ug_mps::read;
use ug_problem::Problem;
use ug_rows::{IntBox, Interval};
use ug_surrogate::{Narrowed, rounded};

// A problem, the intervals of x, y and w, and what is left of the sides of its row, or `None` where
// nothing is.
type Rounding = (&'static [u8], [(i32, i32); 3], Option<(i128, i128)>);

const ROUNDINGS: &[Rounding] = &[
    (STEPS, [(0, 3), (0, 3), (0, 3)], Some((3, 21))),
    (STEPS, [(0, 3), (0, 3), (0, 0)], Some((4, 20))),
    (STEPS, [(0, 3), (0, 3), (1, 1)], Some((3, 21))),
    (STEPS, [(1, 1), (0, 3), (1, 1)], Some((3, 19))),
    (STEPS, [(1, 1), (1, 1), (1, 1)], Some((3, 21))),
    (ODD_SUM, [(0, 3), (0, 3), (0, 3)], None),
    (ODD_SUM, [(0, 3), (1, 1), (0, 3)], None),
    (ODD_SUM, [(1, 1), (1, 1), (1, 1)], Some((7, 7))),
];

// Puts intervals. Whether there was memory for them.
fn put_sides(sides: &mut Vec<Interval>, bounds: &[(i32, i32)]) -> bool {
    let mut so = true;
    for (low, high) in bounds {
        let side = Interval {
            low: *low,
            high: *high,
        };
        so = so && sides.extend_from_slice(&[side]).is_ok();
    }
    so
}

// Returns the rest of the sides of the first row over a box.
#[tactic(auto, using(ug_surrogate::proofs::Parts::row_linear, ug_surrogate::proofs::Parts::small_sides))]
fn rounded_first(problem: &Problem, area: &IntBox) -> Option<Narrowed> {
    let rows = problem.rows();
    if rows.is_empty() || area.as_slice().len() != problem.columns().len() {
        return None;
    }
    Some(rounded(&rows[0].row, area))
}

fn is_left(told: Option<Narrowed>, wanted: &Option<(i128, i128)>) -> bool {
    match (told, wanted) {
        (Some(Narrowed::To(sides)), Some((low, high))) => {
            sides.low == Some(*low) && sides.high == Some(*high)
        }
        (Some(Narrowed::Empty), None) => true,
        _ => false,
    }
}

// Whether the case comes out as it was worked out by hand.
fn rounds_so(alloc: Global, case: &Rounding) -> bool {
    let Ok(problem) = read(alloc, case.0, None) else {
        return false;
    };
    let mut sides = Vec::new(alloc);
    let is_put = put_sides(&mut sides, &case.1);
    let area = IntBox::from_vec(sides);
    let told = rounded_first(&problem, &area);
    drop(area);
    drop(problem);
    is_put && is_left(told, &case.2)
}

#[test]
fn sides_are_rounded_inwards(rt: HostRuntime) {
    for (k, case) in ROUNDINGS.iter().enumerate() {
        holds_at(&rt, rounds_so(rt.alloc(), case), &k);
    }
}
