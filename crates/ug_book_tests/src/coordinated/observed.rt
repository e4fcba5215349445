//! What an observer is reported of a coordinator over a crew in memory.

use crate::coordinated::frames::{ALL, END, READY, WHOLE};
use crate::coordinated::{Case, Way, comes_so};
use crate::expect::holds;
use std::sync::atomic::{AtomicU64, Ordering};
use ug_io::Piece;
use ug_restart::{Begun, Dropped, Moment, Observer, Progress};

/// Keeps what it was reported: of what a run began, after how many reports it stood how, and which
/// rank was dropped last for which cause, and how many.
#[derive(Drop)]
struct Notes {
    begun: AtomicU64,
    told: AtomicU64,
    nonsense: AtomicU64,
    untrue: AtomicU64,
    dropped: AtomicU64,
}

impl Notes {
    fn new() -> Notes {
        Notes {
            begun: AtomicU64::new(0),
            told: AtomicU64::new(0),
            nonsense: AtomicU64::new(99),
            untrue: AtomicU64::new(99),
            dropped: AtomicU64::new(0),
        }
    }

    fn has(&self, wanted: [u64; 5]) -> bool {
        let found = [
            self.begun.load(Ordering::SeqCst),
            self.told.load(Ordering::SeqCst),
            self.nonsense.load(Ordering::SeqCst),
            self.untrue.load(Ordering::SeqCst),
            self.dropped.load(Ordering::SeqCst),
        ];
        found == wanted
    }
}

impl Observer for Notes {
    fn pass(&self, _rank: u32, _moment: Moment) {}

    fn begin(&self, begun: &Begun) {
        let is_minimised = !begun.maximise && begun.constant.as_deref() == Some(b"0".as_slice());
        if begun.columns == 1 && begun.rows == 0 && is_minimised {
            self.begun.store(begun.solvers as u64, Ordering::SeqCst);
        }
    }

    fn wants(&self, _heard: u64, is_better: bool) -> bool {
        is_better
    }

    fn tell(&self, progress: &Progress) {
        let is_best = progress.best.as_deref() == Some(b"2".as_slice());
        let is_bound = progress.bound.as_deref() == Some(b"2".as_slice());
        if is_best && is_bound && progress.nodes == 1 {
            self.told.store(progress.heard, Ordering::SeqCst);
        }
    }

    fn drops(&self, rank: u32, why: Dropped) {
        self.dropped.fetch_add(1, Ordering::SeqCst);
        match why {
            Dropped::Nonsense => self.nonsense.store(rank as u64, Ordering::SeqCst),
            Dropped::Untrue => self.untrue.store(rank as u64, Ordering::SeqCst),
        }
    }
}

// Rank 0 sends a malformed message, rank 1 an Ended before it is ready, and rank 2 does all the
// work: it is ready with the third report that is received, and reports the point with the fourth.
const TWO_ARE_DROPPED: Case = Case {
    limit: 100,
    pieces: &[
        Piece {
            rank: 0,
            bytes: b"\0\0\0\0",
        },
        Piece {
            rank: 1,
            bytes: b"\0\0\0\x01\x16",
        },
        Piece {
            rank: 1,
            bytes: READY,
        },
        Piece {
            rank: 2,
            bytes: ALL,
        },
    ],
    failing: &[],
    most: 1000,
    told: &[Some(b""), Some(END), Some(WHOLE)],
    way: Way::Answered,
};

#[test]
fn observer_is_told_how_a_coordinator_gets_on(rt: HostRuntime) {
    let notes = Notes::new();
    let so = comes_so(&rt, rt.alloc(), &TWO_ARE_DROPPED, &notes);
    holds(&rt, so);
    holds(&rt, notes.has([3, 4, 0, 1, 2]));
}
