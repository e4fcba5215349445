//! Three columns under three rows: a point after another is found, each better than those before.

use crate::served::cases::{Case, GAP, each_is_served_so};
use crate::served::staffed::crew_tells_the_same;
use crate::served::words::{FIRST, Ordered, Reported, Work};
use ug_serve::Served;

// 5 a + 4 b + 3 c is maximised, so its negative is what is minimised.
const KNAPSACK: &[u8] = b"OBJSENSE MAX
ROWS
 N Z
 L p
 L q
 L r
COLUMNS
 M 'MARKER' 'INTORG'
 a Z 5 p 2
 a q 4 r 3
 b Z 4 p 3
 b q 1 r 4
 c Z 3 p 1
 c q 2 r 2
RHS
 S p 5 q 11
 S r 8
BOUNDS
 UP D a 10
 UP D b 10
 UP D c 10
ENDATA
";

// By hand: the rows leave a 0..2, b 0..1 and c 0..4. With a and b 0, c goes up from 0 to 4, a point
// each. With a 0 and b 1, c is 2 at most and 3 at least for a better value. With a 1, b has to be 1
// and c 2, which breaks the first row. With a 2 the rows leave b 0 and c at most 1, and it has to
// be 1.
const CASES: &[Case] = &[Case {
    what: "the root",
    gap: 0,
    pieces: &[
        &[Ordered::Work(Work {
            ticket: FIRST,
            params: 0,
            race: false,
            cutoff: None,
            changes: &[],
        })],
        GAP,
        &[Ordered::End],
    ],
    told: &[
        Reported::Ready,
        Reported::Solution {
            ticket: FIRST,
            point: &[0, 0, 0],
        },
        Reported::Solution {
            ticket: FIRST,
            point: &[0, 0, 1],
        },
        Reported::Solution {
            ticket: FIRST,
            point: &[0, 0, 2],
        },
        Reported::Solution {
            ticket: FIRST,
            point: &[0, 0, 3],
        },
        Reported::Solution {
            ticket: FIRST,
            point: &[0, 0, 4],
        },
        Reported::Solution {
            ticket: FIRST,
            point: &[2, 0, 1],
        },
        Reported::Done {
            ticket: FIRST,
            cutoff: Some(-13),
            count: 0,
        },
        Reported::Ended,
    ],
    end: Served::Ended,
}];

#[test]
fn searches_the_knapsack_at_a_link(rt: HostRuntime) {
    each_is_served_so(&rt, rt.alloc(), KNAPSACK, CASES);
}

#[test]
fn searches_the_knapsack_in_a_crew(rt: HostRuntime) {
    for case in CASES {
        crew_tells_the_same(&rt, rt.alloc(), KNAPSACK, case);
    }
}
