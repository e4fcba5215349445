use std::sync::atomic::{AtomicU64, Ordering};
use std::thread;
use ug_restart::{Moment, Observer};

// An odd number without a pattern.
const STRIDE: u64 = 0x9e37_79b9_7f4a_7c15;

/// An observer at which some threads let others go first, at turns that are made up from a number.
#[derive(Drop)]
pub struct YieldingObserver {
    next: AtomicU64,
}

impl YieldingObserver {
    pub fn new(number: u64) -> YieldingObserver {
        YieldingObserver {
            next: AtomicU64::new(number),
        }
    }
}

impl Observer for YieldingObserver {
    fn pass(&self, _rank: u32, _moment: Moment) {
        let drawn = self.next.fetch_add(STRIDE, Ordering::SeqCst);
        for _ in 0..mixed(drawn) % 4 {
            thread::yield_now();
        }
    }
}

// The bits of a number, mixed.
fn mixed(number: u64) -> u64 {
    let half = (number ^ (number >> 30)).wrapping_mul(0xbf58_476d_1ce4_e5b9);
    (half ^ (half >> 27)) >> 32
}
