//! What else is ordered between two rounds.

use crate::served::cases::{Case, GAP, each_is_served_so};
use crate::served::stairs::STAIRS;
use crate::served::stairs::consts::{
    DONE_0, FIRST_ROUND, FIVE_LEFT, LEAST, NOTHING_BELOW, ROOT, SECOND_DONE, SECOND_ROOT,
    SECOND_ROUND, THREE_LEFT,
};
use crate::served::words::{FIRST, Ordered, Reported, SECOND};
use ug_serve::Served;

const BETWEEN: &[Case] = &[
    Case {
        what: "an incumbent",
        gap: 0,
        pieces: &[&[ROOT], GAP, &[LEAST], GAP, &[Ordered::End]],
        told: &[
            Reported::Ready,
            FIRST_ROUND,
            THREE_LEFT,
            DONE_0,
            Reported::Ended,
        ],
        end: Served::Ended,
    },
    Case {
        what: "the end",
        gap: 0,
        pieces: &[&[ROOT], GAP, &[Ordered::End]],
        told: &[Reported::Ready, FIRST_ROUND, THREE_LEFT, Reported::Ended],
        end: Served::Ended,
    },
    // Nothing is reported of the task that is dropped.
    Case {
        what: "a stop, and work behind it",
        gap: 0,
        pieces: &[
            &[ROOT],
            GAP,
            &[Ordered::Stop { ticket: FIRST }, NOTHING_BELOW],
            GAP,
            &[Ordered::End],
        ],
        told: &[
            Reported::Ready,
            FIRST_ROUND,
            THREE_LEFT,
            SECOND_DONE,
            Reported::Ended,
        ],
        end: Served::Ended,
    },
    Case {
        what: "a stop under another ticket",
        gap: 0,
        pieces: &[
            &[ROOT],
            GAP,
            &[Ordered::Stop { ticket: SECOND }],
            GAP,
            &[Ordered::End],
        ],
        told: &[
            Reported::Ready,
            FIRST_ROUND,
            THREE_LEFT,
            SECOND_ROUND,
            FIVE_LEFT,
            Reported::Ended,
        ],
        end: Served::Ended,
    },
    // The first order has 141 bytes, and that of the root 28.
    Case {
        what: "work",
        gap: 0,
        pieces: &[&[ROOT], GAP, &[SECOND_ROOT], GAP, &[Ordered::End]],
        told: &[Reported::Ready, FIRST_ROUND, THREE_LEFT],
        end: Served::BadFrame { at: 169 },
    },
    Case {
        what: "nothing ever again",
        gap: 0,
        pieces: &[&[ROOT], GAP],
        told: &[Reported::Ready, FIRST_ROUND, THREE_LEFT],
        end: Served::LinkFault,
    },
];

#[test]
fn takes_orders_between_two_rounds(rt: HostRuntime) {
    each_is_served_so(&rt, rt.alloc(), STAIRS, BETWEEN);
}
