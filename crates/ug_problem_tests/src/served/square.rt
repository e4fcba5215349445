//! Two columns whose sum is at least 5 and minimised, each search within one round of steps.
//! By hand: the lower half of the first column that is open is examined first. So five branchings
//! lead to (0, 5), which is found, and the five boxes left have no smaller sum. The first order has
//! 175 bytes, and one to work without a cutoff 28 and 12 for each change.

use crate::served::cases::{Case, GAP, each_is_served_so};
use crate::served::words::{FIRST, NEXT_RUN, Ordered, Reported, SECOND, Work};
use crate::tasks::SQUARE;
use ug_nodes::Change;
use ug_serve::Served;

const WHOLE: Work = Work {
    ticket: FIRST,
    params: 0,
    race: false,
    cutoff: None,
    changes: &[],
};

const ROOT: Ordered = Ordered::Work(WHOLE);

const SECOND_ROOT: Ordered = Ordered::Work(Work {
    ticket: SECOND,
    ..WHOLE
});

// The smaller sums alone.
const ROOT_BELOW_4: Ordered = Ordered::Work(Work {
    cutoff: Some(4),
    ..WHOLE
});

const ROOT_BELOW_9: Ordered = Ordered::Work(Work {
    cutoff: Some(9),
    ..WHOLE
});

// The upper half is examined first.
const ROOT_FROM_ABOVE: Ordered = Ordered::Work(Work { params: 4, ..WHOLE });

// The first column from 4 on.
const RIGHT: Ordered = Ordered::Work(Work {
    ticket: SECOND,
    changes: &[Change {
        column: 0,
        low: 4,
        high: 7,
    }],
    ..WHOLE
});

// No sum is above 4.
const CORNER: Ordered = Ordered::Work(Work {
    changes: &[
        Change {
            column: 0,
            low: 0,
            high: 1,
        },
        Change {
            column: 1,
            low: 0,
            high: 3,
        },
    ],
    ..WHOLE
});

// A bound above that of the root.
const OUTSIDE: Ordered = Ordered::Work(Work {
    changes: &[Change {
        column: 0,
        low: 4,
        high: 8,
    }],
    ..WHOLE
});

// The bounds of the root, which are no change.
const UNCHANGED: Ordered = Ordered::Work(Work {
    changes: &[Change {
        column: 1,
        low: 0,
        high: 7,
    }],
    ..WHOLE
});

// A column that is not there.
const ELSEWHERE: Ordered = Ordered::Work(Work {
    ticket: SECOND,
    changes: &[Change {
        column: 2,
        low: 0,
        high: 1,
    }],
    ..WHOLE
});

const LEAST: Reported = Reported::Solution {
    ticket: FIRST,
    point: &[0, 5],
};

const SECOND_LEAST: Reported = Reported::Solution {
    ticket: SECOND,
    point: &[0, 5],
};

// The end of the first task, under the cutoff of the least sum.
const DONE_AT_5: Reported = Reported::Done {
    ticket: FIRST,
    cutoff: Some(5),
    count: 0,
};

const DONE_AT_4: Reported = Reported::Done {
    ticket: FIRST,
    cutoff: Some(4),
    count: 0,
};

const DONE_AT_3: Reported = Reported::Done {
    ticket: FIRST,
    cutoff: Some(3),
    count: 0,
};

const SECOND_DONE: Reported = Reported::Done {
    ticket: SECOND,
    cutoff: Some(5),
    count: 0,
};

/// The search goes down from (7, 7), a point at each step of the sum, first through the second
/// column, then at its 0 through the first. Below (5, 0) no sum is left.
pub const FROM_ABOVE: Case = Case {
    what: "upper halves first",
    gap: 0,
    pieces: &[&[ROOT_FROM_ABOVE], GAP, &[Ordered::End]],
    told: &[
        Reported::Ready,
        Reported::Solution {
            ticket: FIRST,
            point: &[7, 7],
        },
        Reported::Solution {
            ticket: FIRST,
            point: &[7, 6],
        },
        Reported::Solution {
            ticket: FIRST,
            point: &[7, 5],
        },
        Reported::Solution {
            ticket: FIRST,
            point: &[7, 4],
        },
        Reported::Solution {
            ticket: FIRST,
            point: &[7, 3],
        },
        Reported::Solution {
            ticket: FIRST,
            point: &[7, 2],
        },
        Reported::Solution {
            ticket: FIRST,
            point: &[7, 1],
        },
        Reported::Solution {
            ticket: FIRST,
            point: &[7, 0],
        },
        Reported::Solution {
            ticket: FIRST,
            point: &[6, 0],
        },
        Reported::Solution {
            ticket: FIRST,
            point: &[5, 0],
        },
        DONE_AT_5,
        Reported::Ended,
    ],
    end: Served::Ended,
};

// Tasks that begin without a cutoff, or with one.
const BEGUN: &[Case] = &[
    Case {
        what: "the root",
        gap: 0,
        pieces: &[&[ROOT], GAP, &[Ordered::End]],
        told: &[Reported::Ready, LEAST, DONE_AT_5, Reported::Ended],
        end: Served::Ended,
    },
    // Nothing is below the cutoff.
    Case {
        what: "a cutoff of its own",
        gap: 0,
        pieces: &[&[ROOT_BELOW_4], GAP, &[Ordered::End]],
        told: &[Reported::Ready, DONE_AT_4, Reported::Ended],
        end: Served::Ended,
    },
    // No point of the box is feasible, so no cutoff comes of it.
    Case {
        what: "a box without a point",
        gap: 0,
        pieces: &[&[CORNER], GAP, &[Ordered::End]],
        told: &[
            Reported::Ready,
            Reported::Done {
                ticket: FIRST,
                cutoff: None,
                count: 0,
            },
            Reported::Ended,
        ],
        end: Served::Ended,
    },
    // The first column is branched into 4, where the second one is 1 at least and is branched
    // into 1. The cutoff of the first task does not apply to the second one.
    Case {
        what: "two tasks",
        gap: 0,
        pieces: &[&[ROOT], GAP, &[RIGHT], GAP, &[Ordered::End]],
        told: &[
            Reported::Ready,
            LEAST,
            DONE_AT_5,
            Reported::Solution {
                ticket: SECOND,
                point: &[4, 1],
            },
            SECOND_DONE,
            Reported::Ended,
        ],
        end: Served::Ended,
    },
    FROM_ABOVE,
    // All is found within one round, so no box is handed.
    Case {
        what: "boxes asked for too late",
        gap: 0,
        pieces: &[
            &[
                ROOT,
                Ordered::CollectIn {
                    ticket: FIRST,
                    count: 7,
                },
            ],
            GAP,
            &[Ordered::End],
        ],
        told: &[Reported::Ready, LEAST, DONE_AT_5, Reported::Ended],
        end: Served::Ended,
    },
];

// Cutoffs that are reported, and gaps.
const CUTOFFS: &[Case] = &[
    Case {
        what: "an incumbent as good as the best",
        gap: 0,
        pieces: &[
            &[ROOT],
            &[Ordered::Incumbent { cutoff: 5 }],
            GAP,
            &[Ordered::End],
        ],
        told: &[Reported::Ready, DONE_AT_5, Reported::Ended],
        end: Served::Ended,
    },
    // The point that is found has the smaller cutoff.
    Case {
        what: "an incumbent that is worse",
        gap: 0,
        pieces: &[
            &[ROOT, Ordered::Incumbent { cutoff: 9 }],
            GAP,
            &[Ordered::End],
        ],
        told: &[Reported::Ready, LEAST, DONE_AT_5, Reported::Ended],
        end: Served::Ended,
    },
    Case {
        what: "two incumbents, the better first",
        gap: 0,
        pieces: &[
            &[ROOT],
            &[
                Ordered::Incumbent { cutoff: 4 },
                Ordered::Incumbent { cutoff: 9 },
            ],
            GAP,
            &[Ordered::End],
        ],
        told: &[Reported::Ready, DONE_AT_4, Reported::Ended],
        end: Served::Ended,
    },
    Case {
        what: "an incumbent above the task's cutoff",
        gap: 0,
        pieces: &[
            &[ROOT_BELOW_4],
            &[Ordered::Incumbent { cutoff: 9 }],
            GAP,
            &[Ordered::End],
        ],
        told: &[Reported::Ready, DONE_AT_4, Reported::Ended],
        end: Served::Ended,
    },
    Case {
        what: "an incumbent below the task's cutoff",
        gap: 0,
        pieces: &[
            &[ROOT_BELOW_9],
            &[Ordered::Incumbent { cutoff: 4 }],
            GAP,
            &[Ordered::End],
        ],
        told: &[Reported::Ready, DONE_AT_4, Reported::Ended],
        end: Served::Ended,
    },
    Case {
        what: "an incumbent where there is no task",
        gap: 0,
        pieces: &[
            &[Ordered::Incumbent { cutoff: 4 }],
            &[ROOT],
            GAP,
            &[Ordered::End],
        ],
        told: &[Reported::Ready, LEAST, DONE_AT_5, Reported::Ended],
        end: Served::Ended,
    },
    // 5 less the gap.
    Case {
        what: "a gap of 2",
        gap: 2,
        pieces: &[&[ROOT], GAP, &[Ordered::End]],
        told: &[Reported::Ready, LEAST, DONE_AT_3, Reported::Ended],
        end: Served::Ended,
    },
    // 5 less the gap would be less than any sum of the root.
    Case {
        what: "a gap of 9",
        gap: 9,
        pieces: &[&[ROOT], GAP, &[Ordered::End]],
        told: &[
            Reported::Ready,
            LEAST,
            Reported::Done {
                ticket: FIRST,
                cutoff: Some(0),
                count: 0,
            },
            Reported::Ended,
        ],
        end: Served::Ended,
    },
    // A cutoff that is sent has the gap in it already.
    Case {
        what: "an incumbent under a gap",
        gap: 2,
        pieces: &[
            &[ROOT],
            &[Ordered::Incumbent { cutoff: 6 }],
            GAP,
            &[Ordered::End],
        ],
        told: &[Reported::Ready, LEAST, DONE_AT_3, Reported::Ended],
        end: Served::Ended,
    },
    Case {
        what: "an incumbent under a gap, as good as the best",
        gap: 2,
        pieces: &[
            &[ROOT],
            &[Ordered::Incumbent { cutoff: 5 }],
            GAP,
            &[Ordered::End],
        ],
        told: &[Reported::Ready, DONE_AT_5, Reported::Ended],
        end: Served::Ended,
    },
];

// Tasks that are dropped, and orders that are refused.
const DROPPED: &[Case] = &[
    // Nothing is reported of the task that is dropped.
    Case {
        what: "work behind a stop, in one piece",
        gap: 0,
        pieces: &[
            &[ROOT],
            &[Ordered::Stop { ticket: FIRST }, SECOND_ROOT],
            GAP,
            &[Ordered::End],
        ],
        told: &[Reported::Ready, SECOND_LEAST, SECOND_DONE, Reported::Ended],
        end: Served::Ended,
    },
    Case {
        what: "stops of other tickets",
        gap: 0,
        pieces: &[
            &[ROOT],
            &[
                Ordered::Stop { ticket: SECOND },
                Ordered::Stop { ticket: NEXT_RUN },
            ],
            GAP,
            &[Ordered::End],
        ],
        told: &[Reported::Ready, LEAST, DONE_AT_5, Reported::Ended],
        end: Served::Ended,
    },
    Case {
        what: "the end ahead of the first step",
        gap: 0,
        pieces: &[&[ROOT, Ordered::End]],
        told: &[Reported::Ready, Reported::Ended],
        end: Served::Ended,
    },
    Case {
        what: "work of a box above the root",
        gap: 0,
        pieces: &[&[OUTSIDE], GAP, &[Ordered::End]],
        told: &[Reported::Ready],
        end: Served::BadFrame { at: 175 },
    },
    Case {
        what: "work with a change that is none",
        gap: 0,
        pieces: &[&[UNCHANGED], GAP, &[Ordered::End]],
        told: &[Reported::Ready],
        end: Served::BadFrame { at: 175 },
    },
    Case {
        what: "work of a column that is not there, behind a task",
        gap: 0,
        pieces: &[&[ROOT], GAP, &[ELSEWHERE], GAP, &[Ordered::End]],
        told: &[Reported::Ready, LEAST, DONE_AT_5],
        end: Served::BadFrame { at: 203 },
    },
    Case {
        what: "work within a task",
        gap: 0,
        pieces: &[&[ROOT], &[SECOND_ROOT], GAP, &[Ordered::End]],
        told: &[Reported::Ready],
        end: Served::BadFrame { at: 203 },
    },
];

#[test]
fn searches_the_square_at_a_link(rt: HostRuntime) {
    each_is_served_so(&rt, rt.alloc(), SQUARE, BEGUN);
}

#[test]
fn takes_cutoffs_over_a_link(rt: HostRuntime) {
    each_is_served_so(&rt, rt.alloc(), SQUARE, CUTOFFS);
}

#[test]
fn drops_tasks_at_a_link(rt: HostRuntime) {
    each_is_served_so(&rt, rt.alloc(), SQUARE, DROPPED);
}
