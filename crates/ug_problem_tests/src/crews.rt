//! A crew in memory: what comes of each rank, who is lost, and calls that fail.

use crate::expect::holds;
use std::alloc::Global;
use ug_io::{Came, Crew, Exchange, MemoryCrew, Piece, Script};

/// A call of a crew, and its result.
#[derive(Clone, Copy)]
enum Call {
    /// A turn: what came, or that it failed.
    Turn {
        came: Option<Came>,
    },
    /// Bytes to a rank that lives, and whether they could be reported.
    Send {
        rank: u32,
        bytes: &'static [u8],
        done: bool,
    },
    /// A rank that lives is received no more.
    Shut {
        rank: u32,
    },
}

// What comes, rank by rank.
const PIECES: &[Piece<'static>] = &[
    Piece {
        rank: 1,
        bytes: b"abc",
    },
    Piece {
        rank: 2,
        bytes: b"none",
    },
    Piece {
        rank: 0,
        bytes: b"d",
    },
    Piece {
        rank: 1,
        bytes: b"",
    },
    Piece {
        rank: 1,
        bytes: b"late",
    },
    Piece {
        rank: 0,
        bytes: b"ef",
    },
];

// Two ranks are launched, by calls 1 and 2; a turn brings two bytes at most. The third rank is not
// in the crew.
const CALLS: &[Call] = &[
    Call::Turn {
        came: Some(Came::Bytes { rank: 1, count: 2 }),
    },
    Call::Send {
        rank: 0,
        bytes: b"x",
        done: true,
    },
    Call::Turn {
        came: Some(Came::Bytes { rank: 1, count: 1 }),
    },
    Call::Turn {
        came: Some(Came::Bytes { rank: 0, count: 1 }),
    },
    Call::Turn {
        came: Some(Came::Gone { rank: 1 }),
    },
    Call::Turn {
        came: Some(Came::Bytes { rank: 0, count: 2 }),
    },
    Call::Turn { came: None },
];

const EXCHANGED: &[Exchange] = &[
    Exchange::Heard {
        rank: 1,
        byte: b'a',
    },
    Exchange::Heard {
        rank: 1,
        byte: b'b',
    },
    Exchange::Told {
        rank: 0,
        byte: b'x',
    },
    Exchange::Heard {
        rank: 1,
        byte: b'c',
    },
    Exchange::Heard {
        rank: 0,
        byte: b'd',
    },
    Exchange::Gone { rank: 1 },
    Exchange::Heard {
        rank: 0,
        byte: b'e',
    },
    Exchange::Heard {
        rank: 0,
        byte: b'f',
    },
];

// The fourth call and the fifth fail; the rank in whose piece a turn stood is shut, and the rest of
// it is passed over.
const FAILING: &[Call] = &[
    Call::Turn {
        came: Some(Came::Bytes { rank: 1, count: 2 }),
    },
    Call::Turn { came: None },
    Call::Send {
        rank: 0,
        bytes: b"x",
        done: false,
    },
    Call::Shut { rank: 1 },
    Call::Turn {
        came: Some(Came::Bytes { rank: 0, count: 1 }),
    },
];

const EXCHANGED_FAILING: &[Exchange] = &[
    Exchange::Heard {
        rank: 1,
        byte: b'a',
    },
    Exchange::Heard {
        rank: 1,
        byte: b'b',
    },
    Exchange::Heard {
        rank: 0,
        byte: b'd',
    },
];

// Does the call have this result?
fn comes_so(crew: &mut MemoryCrew<'_>, call: Call) -> bool {
    let mut buffer = [0u8; 8];
    match call {
        Call::Turn { came } => crew.turn(&mut buffer).ok() == came,
        Call::Send { rank, bytes, done } => {
            crew.is_alive(rank) && crew.send(rank, bytes).is_ok() == done
        }
        Call::Shut { rank } => {
            if !crew.is_alive(rank) {
                return false;
            }
            crew.shut(rank);
            !crew.is_alive(rank)
        }
    }
}

// Does each call have its result under a script, and was this received and sent in the end?
fn are_so(alloc: Global, failing: &[u64], calls: &[Call], exchanged: &[Exchange]) -> bool {
    let Ok(failing) = failing.to_vec(alloc) else {
        return false;
    };
    let Ok(mut crew) = MemoryCrew::new(alloc, 2, PIECES, Script::new(failing, 2)) else {
        return false;
    };
    let mut so = crew.launch(0).is_ok();
    so = crew.launch(1).is_ok() && so;
    for call in calls {
        so = comes_so(&mut crew, *call) && so;
    }
    so = crew.exchanged() == exchanged && so;
    crew.finish();
    drop(crew);
    so
}

#[test]
fn crews_in_memory_say_what_goes_and_comes(rt: HostRuntime) {
    holds(&rt, are_so(rt.alloc(), &[], CALLS, EXCHANGED));
    holds(&rt, are_so(rt.alloc(), &[4, 5], FAILING, EXCHANGED_FAILING));
}
