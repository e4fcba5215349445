//! When the seats of a desk send snapshots.

ghost use Rattle.std.specs.Prelude.{◌≡◌, ◌+◌, ◌*◌, ◌-◌, ◌^◌, min};

use std::sync::atomic::{AtomicU64, Ordering};

// No other call of the desk gets a turn while the nodes of a snapshot are copied. Between two
// snapshots there are this many reports for each node, so that copying takes a small part of the
// time, however many nodes there are.
const REPORTS_A_NODE: u64 = 8;

/// When a snapshot is due, for all seats of a desk together: behind a report whose number is a
/// multiple of `every`, and no sooner than 8 reports for each node of the one before.
#[derive(Drop)]
pub struct Pace {
    // 0 if no snapshot is needed.
    every: u64,
    // The number of the first report behind which one may come.
    next: AtomicU64,
}

impl Pace {
    /// Returns a pace with a snapshot after each `every` reports, or never.
    pub fn new(every: Option<u64>) -> Pace {
        Pace {
            every: every.unwrap_or(0),
            next: AtomicU64::new(0),
        }
    }

    /// Are snapshots needed?
    pub fn is_wanted(&self) -> bool {
        self.every != 0
    }

    /// Is a snapshot due after this number of reports?
    pub fn is_due(&self, heard: u64) -> bool {
        heard.checked_rem(self.every) == Some(0) && self.next.load(Ordering::SeqCst) <= heard
    }

    /// Records that a snapshot with this number of nodes was sent, after this number of reports.
    pub fn sent(&self, heard: u64, nodes: usize) {
        self.next
            .store(next_after(heard, nodes as u64), Ordering::SeqCst);
    }
}

// Returns the first report after which the next snapshot may come, if one with this number of nodes
// came after report `heard`.
fn next_after(heard: u64, nodes: u64) -> u64
    ensures { result ≡ min (heard + min (nodes * 8) (2 ^ 64 - 1)) (2 ^ 64 - 1) }
{
    heard.saturating_add(nodes.saturating_mul(REPORTS_A_NODE))
}
