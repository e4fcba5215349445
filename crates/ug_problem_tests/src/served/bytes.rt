//! A worker over a link in memory, byte for byte.

use crate::expect::holds_at;
use crate::frames::bytes::spell;
use crate::served::cases::push_piece;
use crate::served::link::{Calls, SOUND, is_told};
use std::alloc::Global;
use std::sync::Wait;
use ug_serve::Served;

/// What comes over the link, in pieces, the calls that fail, and what is reported and how it ends.
struct Case {
    pieces: &'static [&'static str],
    failing: &'static [u64],
    told: &'static str,
    end: Served,
}

// The problem with no column, no row and an objective of 0.
const SETUP: &str = "0000002f 01 00000000000000000000000000000000 \
                     000000000000000000000000000000000000000000000000000000000000";

const WORK: &str = "00000018 02 0000000000000001 0000000000000001 00 00 00 00000000";

const STOP: &str = "00000011 07 0000000000000001 0000000000000001";

const LOWER: &str = "00000011 03 00000000000000000000000000000000";

const END: &str = "00000001 08";

const CASES: &[Case] = &[
    // It is set up, finds the one point, and ends.
    Case {
        pieces: &[SETUP, WORK, "", END],
        failing: &[],
        told: "00000001 11 00000015 12 0000000000000001 0000000000000001 00000000 \
               0000002a 15 0000000000000001 0000000000000001 01 00000000000000000000000000000000 \
               0000000000000000 00000001 16",
        end: Served::Ended,
    },
    // The link ends before the end is ordered.
    Case {
        pieces: &[SETUP, WORK, ""],
        failing: &[],
        told: "00000001 11 00000015 12 0000000000000001 0000000000000001 00000000 \
               0000002a 15 0000000000000001 0000000000000001 01 00000000000000000000000000000000 \
               0000000000000000",
        end: Served::LinkFault,
    },
    // Work comes first.
    Case {
        pieces: &[WORK],
        failing: &[],
        told: "",
        end: Served::BadFrame { at: 0 },
    },
    // The problem comes twice.
    Case {
        pieces: &[SETUP, SETUP],
        failing: &[],
        told: "00000001 11",
        end: Served::BadFrame { at: 51 },
    },
    // Without a task other orders are passed over.
    Case {
        pieces: &[SETUP, STOP, LOWER, END],
        failing: &[],
        told: "00000001 11 00000001 16",
        end: Served::Ended,
    },
    // The task is dropped before its first step: by a stop, and by the end.
    Case {
        pieces: &[SETUP, WORK, STOP, END],
        failing: &[],
        told: "00000001 11 00000001 16",
        end: Served::Ended,
    },
    Case {
        pieces: &[SETUP, WORK, END],
        failing: &[],
        told: "00000001 11 00000001 16",
        end: Served::Ended,
    },
    // No point has a value below the cutoff.
    Case {
        pieces: &[SETUP, WORK, LOWER, "", END],
        failing: &[],
        told: "00000001 11 0000002a 15 0000000000000001 0000000000000001 01 \
               00000000000000000000000000000000 0000000000000000 00000001 16",
        end: Served::Ended,
    },
    // Each frame comes in three pieces, that of the problem with a gap between them.
    Case {
        pieces: &[
            "0000",
            "",
            "002f 01 00000000000000000000000000000000 00000000",
            "0000000000000000000000000000000000000000000000000000",
            "00",
            "000018 02 0000000000000001 0000000000000001 00 00 00 000000",
            "00",
            "",
            "00",
            "0000",
            "01 08",
        ],
        failing: &[],
        told: "00000001 11 00000015 12 0000000000000001 0000000000000001 00000000 \
               0000002a 15 0000000000000001 0000000000000001 01 00000000000000000000000000000000 \
               0000000000000000 00000001 16",
        end: Served::Ended,
    },
    // A stop that is cut short between the orders before the first round is ignored, and behind it
    // there is no task.
    Case {
        pieces: &[
            SETUP,
            WORK,
            "00000011 07 0000000000000001",
            "",
            "0000000000000001",
            END,
        ],
        failing: &[],
        told: "00000001 11 00000015 12 0000000000000001 0000000000000001 00000000 \
               0000002a 15 0000000000000001 0000000000000001 01 00000000000000000000000000000000 \
               0000000000000000 00000001 16",
        end: Served::Ended,
    },
    // The link ends within a frame.
    Case {
        pieces: &[SETUP, "00000001"],
        failing: &[],
        told: "00000001 11",
        end: Served::LinkFault,
    },
    // Behind a whole order in one piece a tag that no order has; the same in a task, with a tag of
    // a report; and a length of none.
    Case {
        pieces: &[
            SETUP,
            "00000011 07 0000000000000001 0000000000000001 00000001 09",
        ],
        failing: &[],
        told: "00000001 11",
        end: Served::BadFrame { at: 72 },
    },
    Case {
        pieces: &[SETUP, WORK, "00000001 11", ""],
        failing: &[],
        told: "00000001 11",
        end: Served::BadFrame { at: 79 },
    },
    Case {
        pieces: &[SETUP, WORK, "", "00000000"],
        failing: &[],
        told: "00000001 11 00000015 12 0000000000000001 0000000000000001 00000000 \
               0000002a 15 0000000000000001 0000000000000001 01 00000000000000000000000000000000 \
               0000000000000000",
        end: Served::BadFrame { at: 79 },
    },
    // The problem comes in a task; so does work.
    Case {
        pieces: &[SETUP, WORK, SETUP],
        failing: &[],
        told: "00000001 11",
        end: Served::BadFrame { at: 79 },
    },
    Case {
        pieces: &[SETUP, WORK, WORK],
        failing: &[],
        told: "00000001 11",
        end: Served::BadFrame { at: 79 },
    },
    // The record of the problem lacks a byte, has one too many, and has a column without a name.
    Case {
        pieces: &[
            "0000002e 01 00000000000000000000000000000000 \
                   0000000000000000000000000000000000000000000000000000000000",
        ],
        failing: &[],
        told: "",
        end: Served::BadFrame { at: 0 },
    },
    Case {
        pieces: &[
            "00000030 01 00000000000000000000000000000000 \
                   00000000000000000000000000000000000000000000000000000000000000",
        ],
        failing: &[],
        told: "",
        end: Served::BadFrame { at: 0 },
    },
    Case {
        pieces: &[
            "00000038 01 00000000000000000000000000000000 00000001 00 00000000 00000000 \
                   0000000000000000000000000000000000000000000000000000",
        ],
        failing: &[],
        told: "",
        end: Served::BadFrame { at: 0 },
    },
    // A change of a column that is not there.
    Case {
        pieces: &[
            SETUP,
            "00000024 02 0000000000000001 0000000000000001 00 00 00 00000001 00000000 00000000 \
             00000004",
            "",
            END,
        ],
        failing: &[],
        told: "00000001 11",
        end: Served::BadFrame { at: 51 },
    },
    // The first read fails; the first write.
    Case {
        pieces: &[SETUP, END],
        failing: &[1],
        told: "",
        end: Served::LinkFault,
    },
    Case {
        pieces: &[SETUP, END],
        failing: &[2],
        told: "",
        end: Served::LinkFault,
    },
];

// Adds the bytes of each text as a piece.
fn add_pieces(alloc: Global, pieces: &mut Vec<Vec<u8>>, texts: &[&str]) -> bool {
    let mut so = true;
    for text in texts {
        let mut piece = Vec::new(alloc);
        so = spell(&mut piece, text) && so;
        so = push_piece(pieces, piece, so);
    }
    so
}

// Whether the case is served as it has it.
fn is_served_so<R: Wait>(rt: &R, alloc: Global, case: &Case) -> bool {
    let calls = Calls {
        failing: case.failing,
        ..SOUND
    };
    let mut pieces = Vec::new(alloc);
    let mut wanted = Vec::new(alloc);
    let is_so = add_pieces(alloc, &mut pieces, case.pieces)
        && spell(&mut wanted, case.told)
        && is_told(rt, alloc, &pieces, calls, &wanted, case.end);
    drop(pieces);
    drop(wanted);
    is_so
}

#[test]
fn worker_at_a_link_tells_byte_for_byte(rt: HostRuntime) {
    for (at, case) in CASES.iter().enumerate() {
        holds_at(&rt, is_served_so(&rt, rt.alloc(), case), &at);
    }
}
