ghost use Rattle.std.specs.Prelude.{◌≡◌, ◌<◌};
ghost use Rattle.ug_turn.specs.Locks.{passes_of};

use crate::locked_book::LockedBook;
use crate::pass::Pass;
use crate::waiting::Woken;
use crate::wakeup::Wakeup;
use std::alloc::{AllocError, Global};
use std::sync::Wait;
use ug_turn::Turn;

/// One book that threads share in turns, each through passes of its own. What a call does is said
/// by the call of `Locked` of the same name, for the rank of the pass: it is an entry more in the
/// one history, behind all that the pass had seen.
#[derive(Drop)]
pub struct Desk {
    pub(crate) turn: Turn<LockedBook>,
    // What wakes each rank.
    pub(crate) wakeups: Vec<Wakeup>,
    ghost some: { 0 < passes_of turn },
}

/// Returns a wakeup for each rank.
pub fn wakeups(alloc: Global, ranks: u32) -> Result<Vec<Wakeup>, AllocError> {
    let mut wakeups = Vec::with_capacity(alloc, ranks as usize)?;
    for _ in 0..ranks {
        wakeups.push(Wakeup::new())?;
    }
    Ok(wakeups)
}

impl Desk {
    /// The desk of a lock.
    pub(crate) fn over(turn: Turn<LockedBook>, wakeups: Vec<Wakeup>) -> Desk
        requires { 0 < passes_of turn }
        ensures { result.turn ≡ turn }
    {
        Desk { turn, wakeups }
    }

    /// Sleeps until there is something for the rank of a pass that was answered Wait: work, the
    /// end, or that it is time to look again.
    pub fn rest<R: Wait>(&self, rt: &R, pass: &Pass) {
        if let Some(wakeup) = self.wakeups.get(pass.rank as usize) {
            wakeup.hear(rt);
        }
    }

    // Wakes those that are to be woken.
    pub(crate) fn wake(&self, woken: Woken) {
        match woken {
            Woken::Nobody => {}
            Woken::One(rank) => {
                if let Some(wakeup) = self.wakeups.get(rank as usize) {
                    wakeup.ring();
                }
            }
            Woken::All => {
                for wakeup in self.wakeups.iter() {
                    wakeup.ring();
                }
            }
        }
    }
}
