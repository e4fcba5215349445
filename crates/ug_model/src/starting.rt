ghost use Rattle.std.specs.Prelude.{◌≡◌, Some, IfOk, IfErr};
ghost use Rattle.ug_io.specs.Outside.{IsCountedBy};
ghost use Rattle.ug_disk.specs.Memories.{faults_of, history_of};
ghost use Rattle.ug_disk.specs.Crashes.{Leaves};
ghost use Rattle.ug_rules.specs.Books.{AreSettings};
ghost use Rattle.ug_checkpoint.specs.Savers.{IsKept};
ghost use Rattle.ug_restart.specs.Faults.{start_cause};
ghost use Rattle.ug_restart.specs.Openings.{IsAcknowledgedStart};
ghost use Rattle.ug_restart.specs.Starts.{IsGoneOn, IsNotGoneOn, IsSafeStart};

use std::alloc::Global;
use ug_book::Book;
use ug_checkpoint::Saver;
use ug_disk::MemoryDisk;
use ug_restart::{Start, StartFault, restart};
use ug_rules::Settings;

/// Restarts the run of a book's problem from what the disk has.
pub fn begin_again(
    alloc: Global,
    disk: &mut MemoryDisk,
    book: &Book,
    settings: Settings,
) -> Result<(Book, Saver), StartFault>
    requires { AreSettings settings }
    ensures book { IfOk result (λ x.
        IsGoneOn book.now.problem settings (Some (history_of disk.old)) x.0) }
    ensures acknowledged { IfOk result (λ x.
        IsAcknowledgedStart (Some (history_of disk.new)) x.0 x.1) }
    ensures kept { IfOk result (λ x. IsKept x.1 (Some (history_of disk.new))) }
    ensures refused { IfErr result (IsNotGoneOn book.now.problem settings
        (Some (history_of disk.old)) (Some (history_of disk.new))) }
    ensures any_moment { Leaves (IsSafeStart (Some (history_of disk.old))
        (IsGoneOn book.now.problem settings (Some (history_of disk.old))))
        (Some (history_of disk.old)) (Some (history_of disk.new)) }
    ensures cause { IsCountedBy start_cause result (faults_of disk.old) (faults_of disk.new) }
{
    let problem = book.problem().share()?;
    let start = restart(alloc, disk, problem, settings)?;
    let Start { opening, saver } = start;
    let made = Book::new(alloc, &opening);
    drop(opening);
    Ok((made?, saver))
}
