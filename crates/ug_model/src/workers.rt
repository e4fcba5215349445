//! A solve by workers in memory.

ghost use Rattle.std.specs.Prelude.{IfSome};
ghost use Rattle.ug_io.specs.Outside.{IsCalm};
ghost use Rattle.ug_checkpoint.specs.Savers.{IsKept};
ghost use Rattle.ug_book.specs.Openings.{IsCoveredOpening, IsOpening, opening_book};
ghost use Rattle.ug_restart.specs.Outcomes.{IsStranded};
ghost use Rattle.ug_coord.specs.Coordinators.{HasCoordinated, IsFresh};
ghost use Rattle.ug_coord.specs.Keeping.{AreEachSaved, HasKept, IsKeptSafe};
ghost use Rattle.ug_model.specs.WorkerCrews.{crew_seen};
ghost use Rattle.ug_model.specs.Solved.{HasSolved};

use crate::crew::WorkerCrew;
use std::sync::Wait;
use ug_book::Opening;
use ug_checkpoint::Saver;
use ug_coord::{Coordinated, coordinate};
use ug_disk::Disk;
use ug_laws::{calm_workers_live, coordinators_of_workers_lose_nothing};
use ug_restart::{Host, Observer};

/// Solves what the opening has left, by a crew of workers in memory of which none was started yet.
/// With a saver the book is saved, and the final one at last. Whatever the schedule of their
/// visits, if the opening has each better point, an answer is right, and what is saved stays
/// Covered. If no call of the crew failed, as its count shows before and after, there is an answer,
/// unless the limit was reached or memory ran out. Nothing is assumed of the workers.
pub fn solve_by_workers<'a, R: Wait, D: Disk, O: Observer>(
    host: &Host<'_, R, O>,
    opening: &Opening,
    saver: Option<Saver>,
    disk: &mut D,
    crew: WorkerCrew<'a>,
) -> Coordinated<WorkerCrew<'a>>
    requires opening { IsOpening opening.now }
    requires kept { IfSome saver (λ s. IsKept s (D.seen disk.old).told) }
    requires fresh { IsFresh (crew_seen crew) opening.now.settings.solvers }
    ensures solved { IsCoveredOpening opening.now
        → HasSolved opening.now saver result.outcome.end (D.seen disk.old) (D.seen disk.new) }
    ensures calm { IsCalm (crew_seen crew.entry).faults (crew_seen result.crew).faults
        → ¬ IsStranded result.outcome.end }
    ensures kept { HasKept (opening_book opening.now) saver result.outcome
        (D.seen disk.old) (D.seen disk.new) }
    ensures coordinated { HasCoordinated (opening_book opening.now) (crew_seen crew.entry).faults
        (crew_seen result.crew) result.outcome.end
        (AreEachSaved saver result.outcome (D.seen disk.new))
        (IsKeptSafe saver (D.seen disk.old) (D.seen disk.new)) }
{
    coordinators_of_workers_lose_nothing();
    calm_workers_live();
    let Coordinated { outcome, crew } = coordinate(host, opening, saver, disk, crew);
    crew.is_worked();
    Coordinated { outcome, crew }
}
