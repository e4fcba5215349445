ghost use Rattle.std.specs.Prelude.{IfSome};
ghost use Rattle.ug_checkpoint.specs.Savers.{IsKept};
ghost use Rattle.ug_book.specs.Openings.{IsOpening, opening_book};
ghost use Rattle.ug_coord.specs.Keeping.{AreEachSaved, HasKept, IsKeptSafe};
ghost use Rattle.ug_top.specs.Outside.{seen_if};
ghost use Rattle.ug_top.specs.Solved.{FitsCrew, HasSolvedSafely, IsStillThere, crewed};

use std::sync::Wait;
use std::thread::Threads;
use ug_book::Opening;
use ug_checkpoint::Saver;
use ug_coord::{Coordinated, coordinate};
use ug_disk::Disk;
use ug_io::Crew;
use ug_laws::{calm_workers_live, coordinators_lose_nothing};
use ug_restart::{Host, Observer, Outcome};
use ug_threads::solve_threads;

/// Solves what the opening has left: by the crew, where there is one, and else by as many threads
/// as the opening's settings have solvers. With a saver the book is saved, and at last the ending
/// one.
pub fn solve_by<R: Threads + Wait + Sync, D: Disk, O: Observer, C: Crew + Drop>(
    host: &Host<'_, R, O>,
    crew: &mut Option<C>,
    opening: &Opening,
    saver: Option<Saver>,
    disk: &mut D,
) -> Outcome
    requires opening { IsOpening opening.now }
    requires kept { IfSome saver (λ s. IsKept s (D.seen disk.old).told) }
    requires fits { FitsCrew opening.now.settings.solvers (seen_if C.seen crew.old) }
    ensures solved { HasSolvedSafely (crewed C.seen crew.old crew.new)
        (opening_book opening.now) result.end
        (AreEachSaved saver result (D.seen disk.new))
        (IsKeptSafe saver (D.seen disk.old) (D.seen disk.new)) }
    ensures kept { HasKept (opening_book opening.now) saver result
        (D.seen disk.old) (D.seen disk.new) }
    ensures crew { IsStillThere (seen_if C.seen crew.old) (seen_if C.seen crew.new) }
{
    coordinators_lose_nothing();
    calm_workers_live();
    match crew.take() {
        None => solve_threads(host, opening, saver, disk),
        Some(solvers) => {
            let Coordinated {
                crew: solvers,
                outcome,
            } = coordinate(host, opening, saver, disk, solvers);
            *crew = Some(solvers);
            outcome
        }
    }
}
