//! Boxes that others search too.

use crate::served::cases::{Case, GAP, each_is_served_so};
use crate::served::stairs::STAIRS;
use crate::served::stairs::consts::{
    COLLECT_2, DONE_0, DONE_2, FIRST_ROUND, FIVE_LEFT, LEAST, LOW, MIDDLE, NINES_LEFT, ONE_LEFT,
    RACE, SECOND_COLLECT_2, SECOND_LOW, SECOND_MIDDLE, SECOND_ONE_LEFT, SECOND_ROOT, SECOND_ROUND,
    SECOND_TASK, THREE_LEFT,
};
use crate::served::words::{FIRST, NEXT_RUN, Ordered, Reported, SECOND};
use ug_serve::Served;

const RACES: &[Case] = &[
    Case {
        what: "asked before it is won",
        gap: 0,
        pieces: &[
            &[RACE, COLLECT_2],
            GAP,
            &[Ordered::Winner { ticket: FIRST }],
            GAP,
            &[LEAST],
            GAP,
            &[Ordered::End],
        ],
        told: &[
            Reported::Ready,
            FIRST_ROUND,
            THREE_LEFT,
            SECOND_ROUND,
            LOW,
            MIDDLE,
            NINES_LEFT,
            DONE_2,
            Reported::Ended,
        ],
        end: Served::Ended,
    },
    Case {
        what: "won before it is asked",
        gap: 0,
        pieces: &[
            &[RACE, Ordered::Winner { ticket: FIRST }, COLLECT_2],
            GAP,
            &[LEAST],
            GAP,
            &[Ordered::End],
        ],
        told: &[
            Reported::Ready,
            FIRST_ROUND,
            LOW,
            MIDDLE,
            ONE_LEFT,
            DONE_2,
            Reported::Ended,
        ],
        end: Served::Ended,
    },
    Case {
        what: "won under other tickets",
        gap: 0,
        pieces: &[
            &[RACE, COLLECT_2],
            GAP,
            &[
                Ordered::Winner { ticket: SECOND },
                Ordered::Winner { ticket: NEXT_RUN },
            ],
            GAP,
            &[LEAST],
            GAP,
            &[Ordered::End],
        ],
        told: &[
            Reported::Ready,
            FIRST_ROUND,
            THREE_LEFT,
            SECOND_ROUND,
            FIVE_LEFT,
            DONE_0,
            Reported::Ended,
        ],
        end: Served::Ended,
    },
    Case {
        what: "asked no more before it is won",
        gap: 0,
        pieces: &[
            &[RACE, COLLECT_2],
            GAP,
            &[
                Ordered::CollectOut { ticket: FIRST },
                Ordered::Winner { ticket: FIRST },
            ],
            GAP,
            &[LEAST],
            GAP,
            &[Ordered::End],
        ],
        told: &[
            Reported::Ready,
            FIRST_ROUND,
            THREE_LEFT,
            SECOND_ROUND,
            FIVE_LEFT,
            DONE_0,
            Reported::Ended,
        ],
        end: Served::Ended,
    },
    Case {
        what: "dropped, and the next task is no race",
        gap: 0,
        pieces: &[
            &[
                RACE,
                Ordered::Stop { ticket: FIRST },
                SECOND_ROOT,
                SECOND_COLLECT_2,
            ],
            GAP,
            &[Ordered::End],
        ],
        told: &[
            Reported::Ready,
            SECOND_TASK,
            SECOND_LOW,
            SECOND_MIDDLE,
            SECOND_ONE_LEFT,
            Reported::Ended,
        ],
        end: Served::Ended,
    },
];

#[test]
fn hands_none_in_a_race(rt: HostRuntime) {
    each_is_served_so(&rt, rt.alloc(), STAIRS, RACES);
}
