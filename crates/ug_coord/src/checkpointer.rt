//! Saving the coordinator's book.

ghost use Rattle.std.specs.Prelude.{◌≡◌};
ghost use Rattle.ug_rules.specs.Books.{IsSoundBook};
ghost use Rattle.ug_restart.specs.Outcomes.{IfBook};
ghost use Rattle.ug_coord.specs.Keeping.{HasSaved, HasTried, IsEndKept, IsKeptBy, IsOurs, Moves, missed_by};
ghost use Rattle.ug_coord.specs.Keeping.{unsaved_by};
ghost use Rattle.ug_coord.specs.Checkpointers.{kept_seen};

use std::alloc::Global;
use ug_book::Book;
use ug_disk::Disk;
use ug_restart::{Attempt, End, Saves, save_end};

/// What saves a coordinator's book, if it is to be saved.
#[derive(Drop)]
pub struct Checkpointer {
    pub alloc: Global,
    pub saves: Option<Saves>,
}

impl Checkpointer {
    /// Saves the book as it is.
    pub fn keep<D: Disk>(&mut self, disk: &mut D, book: &Book)
        requires { IsKeptBy (kept_seen self.old (D.seen disk.old)) }
        ensures kept { IsKeptBy (kept_seen self.new (D.seen disk.new)) }
        ensures moves { Moves (IsSoundBook book.now)
            (IsOurs (kept_seen self.old (D.seen disk.old)) book.now)
            (kept_seen self.old (D.seen disk.old)) (kept_seen self.new (D.seen disk.new)) }
        ensures tried { HasTried 1 (kept_seen self.old (D.seen disk.old))
            (kept_seen self.new (D.seen disk.new)) }
        ensures saved { HasSaved book.now (kept_seen self.old (D.seen disk.old))
            (kept_seen self.new (D.seen disk.new)) }
    {
        match &mut self.saves {
            Some(saves) => {
                saves.finish(self.alloc, disk, book);
            }
            None => {}
        }
    }

    /// Saves the final book, if there is one. Returns what became of the save.
    pub fn keep_end<D: Disk>(&mut self, disk: &mut D, end: &End) -> Option<Attempt>
        requires { IsKeptBy (kept_seen self.old (D.seen disk.old)) }
        ensures became { IsEndKept end.now result
            (kept_seen self.old (D.seen disk.old)) (kept_seen self.new (D.seen disk.new)) }
        ensures moves { Moves (IfBook end.now IsSoundBook)
            (IfBook end.now (IsOurs (kept_seen self.old (D.seen disk.old))))
            (kept_seen self.old (D.seen disk.old)) (kept_seen self.new (D.seen disk.new)) }
    {
        match &mut self.saves {
            Some(saves) => save_end(self.alloc, disk, saves, end),
            None => None,
        }
    }

    /// Saves that were missed, since the disk failed in them.
    pub fn missed(&self) -> u64
        ensures { result ≡ missed_by self.now.saves }
    {
        match &self.saves {
            Some(saves) => saves.missed(),
            None => 0,
        }
    }

    /// Returns the number of saves that ran out of memory or of numbers.
    pub fn unsaved(&self) -> u64
        ensures { result ≡ unsaved_by self.now.saves }
    {
        match &self.saves {
            Some(saves) => saves.unsaved(),
            None => 0,
        }
    }
}
