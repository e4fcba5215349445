ghost use Rattle.std.specs.Prelude.{Some, IfOk, IfErr};
ghost use Rattle.ug_checkpoint.specs.Savers.{IsKept};
ghost use Rattle.ug_book.specs.Openings.{IsOpening, opening_book};
ghost use Rattle.ug_coord.specs.Keeping.{AreEachSaved, HasKept, IsKeptSafe};
ghost use Rattle.ug_rules.specs.Books.{AreSettings};
ghost use Rattle.ug_restart.specs.Faults.{start_cause};
ghost use Rattle.ug_restart.specs.Outcomes.{IsUntouched};
ghost use Rattle.ug_top.specs.Outside.{seen_if};
ghost use Rattle.ug_top.specs.Runs.{IsNewRun, IsNoRunOn, IsNoSavedRun, IsRunOn, IsSavedRun};
ghost use Rattle.ug_top.specs.Solved.{FitsCrew, HasSolvedSafely, IsStillThere, KeepsCoveredBy};
ghost use Rattle.ug_top.specs.Solved.{crewed};

use crate::solvers::solve_by;
use std::sync::Wait;
use std::thread::Threads;
use ug_book::Opening;
use ug_disk::Disk;
use ug_io::Crew;
use ug_laws::coordinators_lose_nothing;
use ug_problem::Shared;
use ug_restart::{End, Host, Observer, Outcome, Start, StartFault, begin, restart, tell_end};
use ug_rules::Settings;

/// Solves the problem without checkpoints, by the crew or by as many threads as the settings have
/// solvers. The disk is left alone.
pub fn solve_new<R: Threads + Wait + Sync, D: Disk, O: Observer, C: Crew + Drop>(
    host: &Host<'_, R, O>,
    crew: &mut Option<C>,
    problem: Shared,
    settings: Settings,
    disk: &mut D,
) -> Outcome
    requires settings { AreSettings settings }
    requires fits { FitsCrew settings.solvers (seen_if C.seen crew.old) }
    ensures ran { IsNewRun (crewed C.seen crew.old crew.new) problem settings result }
    ensures untouched { IsUntouched result (D.seen disk.old) (D.seen disk.new) }
    ensures crew { IsStillThere (seen_if C.seen crew.old) (seen_if C.seen crew.new) }
{
    coordinators_lose_nothing();
    let Ok(opening) = Opening::new(host.alloc, problem, 1, settings) else {
        return Outcome {
            end: End::Memory,
            missed: 0,
            unsaved: 0,
            last: None,
        };
    };
    let outcome = solve_by(host, crew, &opening, None, disk);
    drop(opening);
    tell_end(host.observer, &outcome.end);
    outcome
}

/// Solves the problem and saves checkpoints, whatever the disk has: the run number is above that of
/// the checkpoint there. The first image is acknowledged before a solver begins; the snapshots that
/// come are saved, and the book at the end.
pub fn solve_saved<R: Threads + Wait + Sync, D: Disk, O: Observer, C: Crew + Drop>(
    host: &Host<'_, R, O>,
    crew: &mut Option<C>,
    problem: Shared,
    settings: Settings,
    disk: &mut D,
) -> Result<Outcome, StartFault>
    requires settings { AreSettings settings }
    requires fits { FitsCrew settings.solvers (seen_if C.seen crew.old) }
    ensures ran { IfOk result (λ o. IsSavedRun (crewed C.seen crew.old crew.new) problem settings o
        (D.seen disk.old) (D.seen disk.new)) }
    ensures refused { IfErr result (IsNoSavedRun (crewed C.seen crew.old crew.new) problem settings
        (D.seen disk.old) (D.seen disk.new)) }
    ensures cause { IfErr result (λ fault. start_cause fault
        (D.seen disk.old).faults (D.seen disk.new).faults) }
    ensures any_moment { KeepsCoveredBy (crewed C.seen crew.old crew.new)
        (D.seen disk.old) (D.seen disk.new) }
    ensures crew { IsStillThere (seen_if C.seen crew.old) (seen_if C.seen crew.new) }
{
    coordinators_lose_nothing();
    match begin(host.alloc, disk, problem, settings) {
        Ok(start) => Ok(solve_from(host, crew, start, disk)),
        Err(fault) => Err(fault),
    }
}

/// Resumes from the checkpoint on the disk, which is of the same problem, with its incumbent and
/// its boxes, under the run number after its own.
pub fn go_on<R: Threads + Wait + Sync, D: Disk, O: Observer, C: Crew + Drop>(
    host: &Host<'_, R, O>,
    crew: &mut Option<C>,
    problem: Shared,
    settings: Settings,
    disk: &mut D,
) -> Result<Outcome, StartFault>
    requires settings { AreSettings settings }
    requires fits { FitsCrew settings.solvers (seen_if C.seen crew.old) }
    ensures ran { IfOk result (λ o. IsRunOn (crewed C.seen crew.old crew.new) problem settings o
        (D.seen disk.old) (D.seen disk.new)) }
    ensures refused { IfErr result (IsNoRunOn (crewed C.seen crew.old crew.new) problem settings
        (D.seen disk.old) (D.seen disk.new)) }
    ensures cause { IfErr result (λ fault. start_cause fault
        (D.seen disk.old).faults (D.seen disk.new).faults) }
    ensures any_moment { KeepsCoveredBy (crewed C.seen crew.old crew.new)
        (D.seen disk.old) (D.seen disk.new) }
    ensures crew { IsStillThere (seen_if C.seen crew.old) (seen_if C.seen crew.new) }
{
    coordinators_lose_nothing();
    match restart(host.alloc, disk, problem, settings) {
        Ok(next) => Ok(solve_from(host, crew, next, disk)),
        Err(fault) => Err(fault),
    }
}

// Solves from this start, and saves.
fn solve_from<R: Threads + Wait + Sync, D: Disk, O: Observer, C: Crew + Drop>(
    host: &Host<'_, R, O>,
    crew: &mut Option<C>,
    start: Start,
    disk: &mut D,
) -> Outcome
    requires opening { IsOpening start.opening }
    requires kept { IsKept start.saver (D.seen disk.old).told }
    requires fits { FitsCrew start.opening.settings.solvers (seen_if C.seen crew.old) }
    ensures solved { HasSolvedSafely (crewed C.seen crew.old crew.new)
        (opening_book start.opening) result.end
        (AreEachSaved (Some start.saver) result (D.seen disk.new))
        (IsKeptSafe (Some start.saver) (D.seen disk.old) (D.seen disk.new)) }
    ensures kept { HasKept (opening_book start.opening) (Some start.saver) result
        (D.seen disk.old) (D.seen disk.new) }
    ensures crew { IsStillThere (seen_if C.seen crew.old) (seen_if C.seen crew.new) }
{
    let Start { opening, saver } = start;
    let outcome = solve_by(host, crew, &opening, Some(saver), disk);
    drop(opening);
    tell_end(host.observer, &outcome.end);
    outcome
}
