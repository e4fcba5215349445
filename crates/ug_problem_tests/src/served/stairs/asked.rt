//! Boxes that are asked for.

use crate::served::cases::{Case, GAP, each_is_served_so};
use crate::served::stairs::consts::{
    COLLECT_1, COLLECT_2, COLLECT_5, DONE_0, DONE_1, DONE_2, DONE_3, FIRST_ROUND, FOUR_LEFT,
    LAST_TWO_LEFT, LEAST, LOW, MIDDLE, NEXT_COLLECT_2, NINES_LEFT, ONE_LEFT, ROOT,
    SECOND_COLLECT_2, SECOND_ROOT, SECOND_ROUND, SECOND_TASK, SECOND_THREE_LEFT, THIRD, THREE_LEFT,
    TWO_LEFT,
};
use crate::served::stairs::{MORE, STAIRS};
use crate::served::words::{FIRST, NEXT_RUN, Ordered, Reported, SECOND};
use ug_serve::Served;

const ASKED: &[Case] = &[
    MORE,
    Case {
        what: "two",
        gap: 0,
        pieces: &[&[ROOT, COLLECT_2], GAP, &[LEAST], GAP, &[Ordered::End]],
        told: &[
            Reported::Ready,
            FIRST_ROUND,
            LOW,
            MIDDLE,
            ONE_LEFT,
            DONE_2,
            Reported::Ended,
        ],
        end: Served::Ended,
    },
    Case {
        what: "one, and no more later",
        gap: 0,
        pieces: &[&[ROOT, COLLECT_1], GAP, GAP, &[LEAST], GAP, &[Ordered::End]],
        told: &[
            Reported::Ready,
            FIRST_ROUND,
            LOW,
            TWO_LEFT,
            SECOND_ROUND,
            FOUR_LEFT,
            DONE_1,
            Reported::Ended,
        ],
        end: Served::Ended,
    },
    Case {
        what: "after the first round",
        gap: 0,
        pieces: &[
            &[ROOT],
            GAP,
            &[COLLECT_2],
            GAP,
            &[LEAST],
            GAP,
            &[Ordered::End],
        ],
        told: &[
            Reported::Ready,
            FIRST_ROUND,
            THREE_LEFT,
            SECOND_ROUND,
            LOW,
            MIDDLE,
            NINES_LEFT,
            DONE_2,
            Reported::Ended,
        ],
        end: Served::Ended,
    },
    Case {
        what: "one in place of five",
        gap: 0,
        pieces: &[
            &[ROOT, COLLECT_5, COLLECT_1],
            GAP,
            &[LEAST],
            GAP,
            &[Ordered::End],
        ],
        told: &[
            Reported::Ready,
            FIRST_ROUND,
            LOW,
            TWO_LEFT,
            DONE_1,
            Reported::Ended,
        ],
        end: Served::Ended,
    },
    Case {
        what: "one in place of three that are left of five",
        gap: 0,
        pieces: &[
            &[ROOT, COLLECT_5],
            GAP,
            &[COLLECT_1],
            GAP,
            &[LEAST],
            GAP,
            &[Ordered::End],
        ],
        told: &[
            Reported::Ready,
            FIRST_ROUND,
            LOW,
            MIDDLE,
            ONE_LEFT,
            SECOND_ROUND,
            THIRD,
            LAST_TWO_LEFT,
            DONE_3,
            Reported::Ended,
        ],
        end: Served::Ended,
    },
    Case {
        what: "no more of five",
        gap: 0,
        pieces: &[
            &[ROOT, COLLECT_5],
            GAP,
            &[Ordered::CollectOut { ticket: FIRST }],
            GAP,
            &[LEAST],
            GAP,
            &[Ordered::End],
        ],
        told: &[
            Reported::Ready,
            FIRST_ROUND,
            LOW,
            MIDDLE,
            ONE_LEFT,
            SECOND_ROUND,
            NINES_LEFT,
            DONE_2,
            Reported::Ended,
        ],
        end: Served::Ended,
    },
    Case {
        what: "under other tickets",
        gap: 0,
        pieces: &[
            &[ROOT, SECOND_COLLECT_2, NEXT_COLLECT_2],
            GAP,
            &[LEAST],
            GAP,
            &[Ordered::End],
        ],
        told: &[
            Reported::Ready,
            FIRST_ROUND,
            THREE_LEFT,
            DONE_0,
            Reported::Ended,
        ],
        end: Served::Ended,
    },
    Case {
        what: "no more under other tickets",
        gap: 0,
        pieces: &[
            &[
                ROOT,
                COLLECT_2,
                Ordered::CollectOut { ticket: SECOND },
                Ordered::CollectOut { ticket: NEXT_RUN },
            ],
            GAP,
            &[LEAST],
            GAP,
            &[Ordered::End],
        ],
        told: &[
            Reported::Ready,
            FIRST_ROUND,
            LOW,
            MIDDLE,
            ONE_LEFT,
            DONE_2,
            Reported::Ended,
        ],
        end: Served::Ended,
    },
    Case {
        what: "nothing by what was asked of a task before",
        gap: 0,
        pieces: &[
            &[
                ROOT,
                COLLECT_5,
                Ordered::Stop { ticket: FIRST },
                SECOND_ROOT,
            ],
            GAP,
            &[Ordered::End],
        ],
        told: &[
            Reported::Ready,
            SECOND_TASK,
            SECOND_THREE_LEFT,
            Reported::Ended,
        ],
        end: Served::Ended,
    },
];

#[test]
fn hands_boxes_at_a_link(rt: HostRuntime) {
    each_is_served_so(&rt, rt.alloc(), STAIRS, ASKED);
}
