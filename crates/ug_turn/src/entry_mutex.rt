use std::hint::spin_loop;
use std::sync::Wait;
use std::sync::atomic::{AtomicU64, Ordering};

// How often a thread tries before it sleeps.
const SPINS_BEFORE_SLEEP: u32 = 100;

/// Lets one in at a time, whoever tries first once it is free. Those that draw numbers draw them
/// within, so that the number is served at once: were they served in the order in which they came,
/// each that sleeps would keep all behind it waiting until it is awake. No promise depends on it.
#[derive(Drop)]
pub struct EntryMutex {
    // 0 where nobody is in, 1 where somebody is, 2 where others may sleep besides.
    word: AtomicU64,
}

impl EntryMutex {
    /// Nobody is in.
    pub fn new() -> EntryMutex {
        EntryMutex {
            word: AtomicU64::new(0),
        }
    }

    /// Goes in, as soon as nobody is.
    pub fn enter<R: Wait>(&self, rt: &R) {
        if self.spins() {
            return;
        }
        for _ in rt.forever() {
            if self.word.swap(2, Ordering::SeqCst) == 0 {
                return;
            }
            self.word.park(rt, 2);
        }
        unreachable!()
    }

    // Spins a little while, and goes in if nobody is.
    fn spins(&self) -> bool {
        for _ in 0..SPINS_BEFORE_SLEEP {
            if self.word.load(Ordering::SeqCst) == 0 && self.takes() {
                return true;
            }
            spin_loop();
        }
        false
    }

    // Goes in, if nobody is.
    fn takes(&self) -> bool {
        self.word
            .compare_exchange(0, 1, Ordering::SeqCst, Ordering::SeqCst)
            .is_ok()
    }

    /// Goes out, and wakes one that may sleep.
    pub fn leave(&self) {
        if self.word.swap(0, Ordering::SeqCst) == 2 {
            self.word.wake_one();
        }
    }
}
