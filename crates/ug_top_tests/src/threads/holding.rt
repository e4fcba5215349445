use std::alloc::{AllocError, Global};
use std::sync::atomic::{AtomicU64, Ordering};
use std::thread;
use ug_restart::{Moment, Observer};

/// A moment that a rank reaches for the time of this number, of which 1 is the first.
#[derive(Clone, Copy, PartialEq, Eq)]
pub struct Coming {
    pub rank: u32,
    pub moment: Moment,
    pub number: u64,
}

/// If a rank is held, until another has come, for at most this many turns.
#[derive(Clone, Copy)]
pub struct Hold {
    pub at: Coming,
    pub until: Coming,
    pub turns: u64,
}

// The number of times that a rank has reached each moment.
#[derive(Drop)]
struct Comings {
    asking: AtomicU64,
    answered: AtomicU64,
}

/// An observer that holds ranks until others have come.
#[derive(Drop)]
pub struct HoldingObserver {
    comings: Vec<Comings>,
    holds: Vec<Hold>,
    missed: AtomicU64,
}

impl HoldingObserver {
    /// An observer for this many ranks, to which none has come.
    pub fn new(alloc: Global, ranks: u32, holds: &[Hold]) -> Result<HoldingObserver, AllocError> {
        let mut comings = Vec::new(alloc);
        for _ in 0..ranks {
            comings.push(Comings {
                asking: AtomicU64::new(0),
                answered: AtomicU64::new(0),
            })?;
        }
        Ok(HoldingObserver {
            comings,
            holds: Vec::from_slice(alloc, holds)?,
            missed: AtomicU64::new(0),
        })
    }

    /// How many holds ended by their turns, and not because another had come.
    pub fn missed(&self) -> u64 {
        self.missed.load(Ordering::SeqCst)
    }

    // Returns how often a rank has reached a moment; 0 for a number that the observer has not.
    fn count_of(&self, rank: u32, moment: Moment) -> Option<&AtomicU64> {
        let comings = self.comings.get(rank as usize)?;
        Some(match moment {
            Moment::Asking => &comings.asking,
            Moment::Answered => &comings.answered,
        })
    }

    // Whether it came so often already.
    fn has_come(&self, coming: Coming) -> bool {
        match self.count_of(coming.rank, coming.moment) {
            Some(count) => count.load(Ordering::SeqCst) >= coming.number,
            None => false,
        }
    }

    // Waits for the end of a hold.
    fn wait(&self, hold: &Hold) {
        for _ in 0..hold.turns {
            if self.has_come(hold.until) {
                return;
            }
            thread::yield_now();
        }
        self.missed.fetch_add(1, Ordering::SeqCst);
    }
}

impl Observer for HoldingObserver {
    fn pass(&self, rank: u32, moment: Moment) {
        let Some(count) = self.count_of(rank, moment) else {
            return;
        };
        let number = count.fetch_add(1, Ordering::SeqCst).wrapping_add(1);
        let here = Coming {
            rank,
            moment,
            number,
        };
        for hold in &self.holds {
            if hold.at == here {
                self.wait(hold);
            }
        }
    }
}
