use std::sync::Wait;
use std::sync::atomic::{AtomicU64, Ordering};

/// Wakes a sleeper. A ring stays until the sleeper has seen it, so none is lost that comes before
/// the sleep. No contract depends on it.
#[derive(Drop)]
pub struct Wakeup {
    // 1 if it was rung and nobody has seen it yet, else 0.
    word: AtomicU64,
}

impl Wakeup {
    /// It was not rung.
    pub fn new() -> Wakeup {
        Wakeup {
            word: AtomicU64::new(0),
        }
    }

    /// Rings.
    pub fn ring(&self) {
        if self.word.swap(1, Ordering::SeqCst) == 0 {
            self.word.wake_one();
        }
    }

    /// Sleeps until it is rung, unless it was rung since the last call.
    pub fn hear<R: Wait>(&self, rt: &R) {
        for _ in rt.forever() {
            if self.word.swap(0, Ordering::SeqCst) == 1 {
                return;
            }
            self.word.park(rt, 0);
        }
        unreachable!()
    }
}
