ghost use Rattle.std.specs.Prelude.{◌≡◌, IfOk};
ghost use Rattle.ug_book.specs.Openings.{IsOpening};
ghost use Rattle.ug_desk.specs.DeskStates.{opening_state};
ghost use Rattle.ug_desk.specs.LockedBooks.{on};

use crate::entry::Entry;
use crate::locked::Locked;
use std::alloc::{AllocError, Global};
use std::boxed::Box;
use ug_book::Opening;
use ug_turn::Lasting;

/// What lies behind the lock of a desk: a pointer, so that a turn moves no book.
#[derive(Drop)]
pub struct LockedBook {
    pub locked: Box<Locked, Global>,
}

impl LockedBook {
    /// With what stands when a run begins.
    pub fn new(alloc: Global, opening: Opening) -> Result<LockedBook, AllocError>
        requires { IsOpening opening }
        ensures { IfOk result (λ s. on s ≡ record {
          opening = opening;
          now = opening_state opening;
          count = 0;
        }) }
    {
        let locked = Locked::new(alloc, opening)?;
        match Box::new(alloc, locked) {
            Ok(locked) => Ok(LockedBook { locked }),
            Err(failed) => {
                drop(failed);
                Err(AllocError)
            }
        }
    }
}

impl Lasting for LockedBook {
    ghost use Rattle.ug_desk.specs.LockedBooks.{Leads, opening_of, pass_by, word_on};

    type Opening = Opening;

    type Entry = Entry;

    ghost opening = { opening_of };

    ghost replays = { Leads };

    ghost by = { pass_by };

    ghost cutoff = { word_on };

    fn word(&self) -> u64 {
        self.locked.word()
    }
}
