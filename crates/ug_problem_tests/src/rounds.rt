//! Bound propagation on small problems, by the fast body and by the slow one that the definition
//! is.

ghost use Rattle.ug_problem.specs.Better.{IsSmallCutoff};

use crate::bounds::is_small;
use crate::expect::holds_at;
use std::alloc::{AllocError, Global};
use ug_mps::read;
use ug_problem::Problem;
use ug_propagate::{Reason, Side, Tight, tighten, tighten_plain};
use ug_rows::Interval;

// 2 x is at most 7.
const AT_MOST_7: &[u8] = b"ROWS
 N Z
 L r
COLUMNS
 M 'MARKER' 'INTORG'
 x Z 1 r 2
RHS
 r 7
BOUNDS
 UP x 9
ENDATA
";

// 2 x is at least 7.
const AT_LEAST_7: &[u8] = b"ROWS
 N Z
 L r
COLUMNS
 M 'MARKER' 'INTORG'
 x Z 1 r -2
RHS
 r -7
BOUNDS
 UP x 9
ENDATA
";

// 2 x is at least 19.
const AT_LEAST_19: &[u8] = b"ROWS
 N Z
 L r
COLUMNS
 M 'MARKER' 'INTORG'
 x Z 1 r -2
RHS
 r -19
BOUNDS
 UP x 9
ENDATA
";

// x is at least 5, and at most 2.
const TOO_LITTLE: &[u8] = b"ROWS
 N Z
 G r
COLUMNS
 M 'MARKER' 'INTORG'
 x Z 1 r 1
RHS
 r 5
BOUNDS
 UP x 2
ENDATA
";

// x is at least y, and y at least x + 1.
const CHASE: &[u8] = b"ROWS
 N Z
 G r
 G s
COLUMNS
 M 'MARKER' 'INTORG'
 x Z 1 r 1
 x s -1
 y r -1 s 1
RHS
 s 1
BOUNDS
 UP x 63
 UP y 63
ENDATA
";

// 2 x + 2 y + 2 w is 7.
const ODD_SUM: &[u8] = b"ROWS
 N Z
 E r
COLUMNS
 M 'MARKER' 'INTORG'
 x Z 1 r 2
 y r 2
 w r 2
RHS
 r 7
BOUNDS
 UP x 10
 UP y 10
 UP w 10
ENDATA
";

// 3 x + 2 y is 7: the row tightens again at its second propagation.
const SECOND_PROPAGATION: &[u8] = b"ROWS
 N Z
 E r
COLUMNS
 M 'MARKER' 'INTORG'
 x Z 1 r 3
 y r 2
RHS
 r 7
BOUNDS
 UP x 10
 UP y 10
ENDATA
";

// The same with coefficients whose sums are kept in 128 bits.
const SECOND_WIDE_PROPAGATION: &[u8] = b"ROWS
 N Z
 E r
COLUMNS
 M 'MARKER' 'INTORG'
 x Z 1 r 3000000000
 y r 2000000000
RHS
 r 7000000000
BOUNDS
 UP x 10
 UP y 10
ENDATA
";

// A side that leaves no slack of 64 bits, and one that is within them.
const FAR_SIDES: &[u8] = b"ROWS
 N Z
 L r
 G s
COLUMNS
 M 'MARKER' 'INTORG'
 x Z 1 r 2
 x s -536870912
RHS
 r 9000000000000000000
 s -1610612737
BOUNDS
 UP x 1000000000
ENDATA
";

// A row whose side is so far off that no point satisfies it.
const TOO_FAR: &[u8] = b"ROWS
 N Z
 G r
COLUMNS
 M 'MARKER' 'INTORG'
 x Z 1 r 1
RHS
 r 9000000000000000000
BOUNDS
 UP x 1000000000
ENDATA
";

// The rest of each column, or why nothing is left.
type Outcome = Result<&'static [(i32, i32)], Reason>;

// What the rounds leave of the root under a cutoff.
const CASES: &[(&[u8], Option<i128>, Outcome)] = &[
    (AT_MOST_7, None, Ok(&[(0, 3)])),
    (AT_LEAST_7, Some(9), Ok(&[(4, 8)])),
    (AT_LEAST_19, None, Err(NO_HIGH)),
    (AT_LEAST_7, Some(4), Err(NO_VALUE)),
    (TOO_LITTLE, None, Err(NO_LOW)),
    (CHASE, None, Err(NO_LOW)),
    (ODD_SUM, None, Ok(&[(0, 3), (0, 3), (0, 3)])),
    (SECOND_PROPAGATION, None, Ok(&[(1, 1), (2, 2)])),
    (SECOND_WIDE_PROPAGATION, None, Ok(&[(1, 1), (2, 2)])),
    (FAR_SIDES, Some(3), Ok(&[(0, 2)])),
    (FAR_SIDES, None, Ok(&[(0, 3)])),
    (TOO_FAR, None, Err(NO_LOW)),
];

const NO_LOW: Reason = Reason {
    row: Some(0),
    side: Side::Low,
};

const NO_HIGH: Reason = Reason {
    row: Some(0),
    side: Side::High,
};

const NO_VALUE: Reason = Reason {
    row: None,
    side: Side::High,
};

// Whether these are the intervals.
fn are(sides: &[Interval], wanted: &[(i32, i32)]) -> bool {
    for (side, (low, high)) in sides.iter().zip(wanted) {
        if side.low != *low || side.high != *high {
            return false;
        }
    }
    sides.len() == wanted.len()
}

// Whether this is what was needed.
fn is_wanted(tight: &Tight, wanted: &Outcome) -> bool {
    match (tight, wanted) {
        (Tight::Kept(area), Ok(wanted)) => are(area.as_slice(), wanted),
        (Tight::Empty(reason), Err(wanted)) => reason == wanted,
        _ => false,
    }
}

// Whether it is, if there was memory for it.
fn is_so(tight: Result<Tight, AllocError>, wanted: &Outcome) -> bool {
    let Ok(tight) = tight else {
        return false;
    };
    let is_so = is_wanted(&tight, wanted);
    drop(tight);
    is_so
}

fn both_leave_of(alloc: Global, problem: &Problem, cutoff: Option<i128>, wanted: &Outcome) -> bool
    requires { IsSmallCutoff cutoff }
{
    let root = problem.root();
    is_so(tighten(alloc, problem, cutoff, root), wanted)
        && is_so(tighten_plain(alloc, problem, cutoff, root), wanted)
}

// Whether both bodies leave what is needed of the root of this problem.
fn both_leave(alloc: Global, text: &[u8], cutoff: Option<i128>, wanted: &Outcome) -> bool {
    if !is_small(cutoff) {
        return false;
    }
    let Ok(problem) = read(alloc, text, None) else {
        return false;
    };
    let leave = both_leave_of(alloc, &problem, cutoff, wanted);
    drop(problem);
    leave
}

#[test]
fn both_bodies_leave_what_is_worked_out_by_hand(rt: HostRuntime) {
    for (k, (text, cutoff, wanted)) in CASES.iter().enumerate() {
        holds_at(&rt, both_leave(rt.alloc(), text, *cutoff, wanted), &k);
    }
}
