//! A search of more than a round: what is left is reported between two rounds, and boxes are
//! handed. 65536 a - b - c is minimised, a from 0 to 11, b and c from 0 to 32767, upper halves
//! first.
//!
//! By hand, of the root: a is branched into 6..11, 9..11 and 11, then b fifteen times into 32767,
//! and c. The 33 branchings lead to (11, 32767, 32767), of value 720896 - 65534 = 655362. The 30
//! boxes that b and c left have no smaller value. These are the 64 steps of the first round. Three
//! boxes are left: a 0..5, 6..8 and 9..10, whose floors are -65534, 393216 - 65534 = 327682 and
//! 589824 - 65534 = 524290.
//!
//! The second round branches 9..10 into 10, then b and c, finds (10, 32767, 32767), of value
//! 655360 - 65534 = 589826, and drops the 30 boxes left of it: 62 steps. Then a is 9, and b is
//! branched into 16384..32767 and into 24576..32767: in place of 9..10 three boxes are left, with b
//! 0..16383, 16384..24575 and 24576..32767, whose floors are 540674, 532482 and 524290.
//!
//! No value is below -65534, so with this cutoff each box is dropped.

mod asked;
mod between;
mod consts;
mod races;

use crate::served::cases::{Case, GAP};
use crate::served::stairs::consts::{
    COLLECT_5, DONE_4, FIRST_ROUND, FOURTH, LEAST, LOW, MIDDLE, ONE_LEFT, ROOT, SECOND_ROUND, THIRD,
};
use crate::served::words::{Ordered, Reported};
use ug_serve::Served;

/// Steps of a, each with b and c below it.
pub const STAIRS: &[u8] = b"ROWS
 N Z
COLUMNS
 M 'MARKER' 'INTORG'
 a Z 65536
 b Z -1
 c Z -1
BOUNDS
 UP a 11
 UP b 32767
 UP c 32767
ENDATA
";

/// Five boxes are asked for, of three that are left two are handed, and of the next three two more.
pub const MORE: Case = Case {
    what: "more than there are",
    gap: 0,
    pieces: &[&[ROOT, COLLECT_5], GAP, GAP, &[LEAST], GAP, &[Ordered::End]],
    told: &[
        Reported::Ready,
        FIRST_ROUND,
        LOW,
        MIDDLE,
        ONE_LEFT,
        SECOND_ROUND,
        THIRD,
        FOURTH,
        ONE_LEFT,
        DONE_4,
        Reported::Ended,
    ],
    end: Served::Ended,
};
