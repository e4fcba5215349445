ghost use Rattle.std.specs.Prelude.{◌≡◌, IsSomeAnd};
ghost use Rattle.ug_checkpoint.specs.Savers.{IsKept};
ghost use Rattle.ug_rules.specs.Books.{IsSoundBook};
ghost use Rattle.ug_book.specs.Views.{IsSameRun};
ghost use Rattle.ug_restart.specs.Saves.{IsOfBook, book_of, saver_of};
ghost use Rattle.ug_restart.specs.Going.{GoesOn, IsAttempted, time};
ghost use Rattle.ug_restart.specs.Outcomes.{IfBook};

use crate::outcome::{Attempt, End};
use crate::saves::Saves;
use std::alloc::Global;
use ug_disk::Disk;

/// Saves the final book, if there is one. Returns what became of the save.
pub fn save_end<D: Disk>(
    alloc: Global,
    disk: &mut D,
    saves: &mut Saves,
    end: &End,
) -> Option<Attempt>
    requires { IsKept (saver_of saves.old) (D.seen disk.old).told }
    ensures became { IfBook end.now (λ book. IsSomeAnd result (λ attempt.
        IsAttempted (IsOfBook book) attempt (time saves.old (D.seen disk.old))
        (time saves.new (D.seen disk.new)))) }
    ensures goes_on { GoesOn (IfBook end.now IsSoundBook)
        (IfBook end.now (IsSameRun (book_of saves.old)))
        (time saves.old (D.seen disk.old))
        (time saves.new (D.seen disk.new)) }
{
    match end {
        End::Answered(book) => Some(saves.finish(alloc, disk, book)),
        End::Limited(book) => Some(saves.finish(alloc, disk, book)),
        End::Stranded(book) => Some(saves.finish(alloc, disk, book)),
        End::Memory => None,
    }
}
