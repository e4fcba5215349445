//! A coordinator over a crew in memory, byte for byte: what it reports each rank, how it ends, and
//! what it saves.

ghost use Rattle.std.specs.Prelude.{◌≡◌, ◌<◌, ◌≤◌};
ghost use Rattle.ug_rules.specs.Books.{AreSettings};

mod frames;
mod observed;
mod saved;

use crate::coordinated::frames::{ALL, END, READY, SECOND, SETUP, WHOLE, WHOLE_AGAIN, WORK};
use crate::expect::holds;
use crate::problems::line;
use std::alloc::Global;
use std::sync::Wait;
use ug_book::Opening;
use ug_branch::Base;
use ug_coord::{Coordinated, coordinate};
use ug_disk::{MemoryDisk, Script as DiskScript};
use ug_io::{Exchange, MemoryCrew, Piece, Script};
use ug_problem::Shared;
use ug_restart::{End, Host, Observer, Unobserved};
use ug_rules::Settings;

/// How a run ends.
#[derive(Clone, Copy, PartialEq, Eq)]
pub enum Way {
    Answered,
    Limited,
    Stranded,
    Memory,
}

/// What comes from each rank, and which calls fail; what is sent to each behind the problem, or
/// that not even this is; and how it ends.
#[derive(Clone, Copy)]
pub struct Case {
    pub limit: u64,
    pub pieces: &'static [Piece<'static>],
    pub failing: &'static [u64],
    pub most: usize,
    pub told: &'static [Option<&'static [u8]>],
    pub way: Way,
}

/// A rank that does it all.
pub const BY_ITSELF: &[Piece<'static>] = &[Piece {
    rank: 0,
    bytes: ALL,
}];

const CASES: &[Case] = &[
    // One rank does it all, in one piece, and in pieces of three bytes.
    Case {
        limit: 100,
        pieces: BY_ITSELF,
        failing: &[],
        most: 1000,
        told: &[Some(WHOLE)],
        way: Way::Answered,
    },
    Case {
        limit: 100,
        pieces: BY_ITSELF,
        failing: &[],
        most: 3,
        told: &[Some(WHOLE)],
        way: Way::Answered,
    },
    // The first that comes is that the only rank is lost.
    Case {
        limit: 100,
        pieces: &[Piece {
            rank: 0,
            bytes: b"",
        }],
        failing: &[],
        most: 1000,
        told: &[Some(b"")],
        way: Way::Stranded,
    },
    // The first rank sends a malformed message and is not read again; the second does all the work.
    Case {
        limit: 100,
        pieces: &[
            Piece {
                rank: 0,
                bytes: b"\0\0\0\0",
            },
            Piece {
                rank: 0,
                bytes: READY,
            },
            Piece {
                rank: 1,
                bytes: ALL,
            },
        ],
        failing: &[],
        most: 1000,
        told: &[Some(b""), Some(WHOLE)],
        way: Way::Answered,
    },
    // The first is lost with its work, which the second gets.
    Case {
        limit: 100,
        pieces: &[
            Piece {
                rank: 0,
                bytes: READY,
            },
            Piece {
                rank: 0,
                bytes: b"",
            },
            Piece {
                rank: 1,
                bytes: SECOND,
            },
        ],
        failing: &[],
        most: 1000,
        told: &[Some(WORK), Some(WHOLE_AGAIN)],
        way: Way::Answered,
    },
    // One report is all that is taken.
    Case {
        limit: 1,
        pieces: BY_ITSELF,
        failing: &[],
        most: 1000,
        told: &[Some(END)],
        way: Way::Limited,
    },
    // The rank can not be started; it can not be sent the problem; the first turn fails; and
    // its work can not be reported.
    Case {
        limit: 100,
        pieces: BY_ITSELF,
        failing: &[1],
        most: 1000,
        told: &[None],
        way: Way::Stranded,
    },
    Case {
        limit: 100,
        pieces: BY_ITSELF,
        failing: &[2],
        most: 1000,
        told: &[None],
        way: Way::Stranded,
    },
    Case {
        limit: 100,
        pieces: BY_ITSELF,
        failing: &[3],
        most: 1000,
        told: &[Some(b"")],
        way: Way::Stranded,
    },
    Case {
        limit: 100,
        pieces: BY_ITSELF,
        failing: &[4],
        most: 1000,
        told: &[Some(b"")],
        way: Way::Stranded,
    },
];

/// Of this many ranks, with a save after this many reports, and with this many reports at most.
pub fn settings(solvers: u32, every: u64, limit: u64) -> Settings
    requires some { 0 < solvers }
    requires few { solvers ≤ 256 }
    ensures are { AreSettings result }
    ensures solvers { result.solvers ≡ solvers }
{
    Settings {
        solvers,
        racing: false,
        base: Base::Bound,
        low: 2,
        high: 3,
        every,
        limit,
        winner: 20,
        gap: 0,
    }
}

/// How it ended.
pub fn way_of(end: &End) -> Way {
    match end {
        End::Answered(_) => Way::Answered,
        End::Limited(_) => Way::Limited,
        End::Stranded(_) => Way::Stranded,
        End::Memory => Way::Memory,
    }
}

// The byte at a place of the problem and of what is reported behind it; none where not even this
// is.
fn byte_at(wanted: Option<&[u8]>, place: usize) -> Option<u8> {
    let wanted = wanted?;
    if place < SETUP.len() {
        SETUP.get(place).copied()
    } else {
        wanted.get(place - SETUP.len()).copied()
    }
}

// Whether that was sent to the rank, behind the problem.
fn is_told_so(exchanged: &[Exchange], rank: u32, wanted: Option<&[u8]>) -> bool {
    let mut told = 0usize;
    for one in exchanged {
        if let Exchange::Told { rank: to, byte } = *one
            && to == rank
        {
            if byte_at(wanted, told) != Some(byte) {
                return false;
            }
            told = told.saturating_add(1);
        }
    }
    byte_at(wanted, told).is_none() && (wanted.is_none() || SETUP.len() <= told)
}

// Whether that was sent to each rank.
fn are_told_so(exchanged: &[Exchange], wanted: &[Option<&[u8]>]) -> bool {
    let mut so = true;
    let mut rank = 0u32;
    for wanted in wanted {
        so = so && is_told_so(exchanged, rank, *wanted);
        rank = rank.saturating_add(1);
    }
    so
}

/// A disk on which nothing is.
pub fn empty_disk(alloc: Global) -> MemoryDisk {
    let script = DiskScript {
        failing: Vec::new(alloc),
        stopping: Vec::new(alloc),
    };
    MemoryDisk::new(alloc, Vec::new(alloc), Vec::new(alloc), script)
}

/// Whether the run ends so, and says that.
pub fn comes_so<R: Wait, O: Observer>(rt: &R, alloc: Global, case: &Case, observer: &O) -> bool {
    let count = case.told.len();
    if count == 0 || 256 < count {
        return false;
    }
    let solvers = count as u32;
    let settings = settings(solvers, 1, case.limit);
    let Ok(failing) = case.failing.to_vec(alloc) else {
        return false;
    };
    let script = Script::new(failing, case.most);
    let Ok(crew) = MemoryCrew::new(alloc, solvers, case.pieces, script) else {
        return false;
    };
    let Some(problem) = line(alloc).ok() else {
        drop(crew);
        return false;
    };
    let Ok(opening) = Opening::new(alloc, Shared::own(problem), 1, settings) else {
        drop(crew);
        return false;
    };
    let mut disk = empty_disk(alloc);
    let host = Host {
        rt,
        alloc,
        observer,
    };
    let Coordinated { crew, outcome } = coordinate(&host, &opening, None, &mut disk, crew);
    drop(opening);
    drop(disk);
    let so = way_of(&outcome.end) == case.way && are_told_so(crew.exchanged(), case.told);
    drop(outcome);
    drop(crew);
    so
}

#[test]
fn crews_are_told_byte_for_byte(rt: HostRuntime) {
    for case in CASES {
        holds(&rt, comes_so(&rt, rt.alloc(), case, &Unobserved));
    }
}
