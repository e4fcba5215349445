ghost use Rattle.std.specs.Prelude.{◌≡◌, None};
ghost use Rattle.ug_top.specs.Outside.{outside, seen_if};
ghost use Rattle.ug_top.specs.Plans.{IsPlanned};
ghost use Rattle.ug_top.specs.Ends.{AreLinesOf, AreRestartLines, AreSolveLines, BeginsAlways, HasNeeds};
ghost use Rattle.ug_top.specs.Ends.{HasNotBegun, HasNotGoneOn, HasRunAlone, HasRunOn, HasRunSaved};
ghost use Rattle.ug_top.specs.Ends.{IsAccounted, IsDiskless, IsLeftAlone, IsPlannedOf, IsStored};
ghost use Rattle.ug_top.specs.Ends.{status_of, text_of};
ghost use Rattle.ug_top.specs.Left.{IsLeftBy};
ghost use Rattle.ug_top.specs.Outcomes.{TellsRun};
ghost use Rattle.ug_cli.specs.declared.plan.Plan.TheVariants as plans;
ghost use Rattle.ug_top.specs.Solved.{FitsCrew, IsStillThere, KeepsCoveredBy, crewed};
ghost use Rattle.ug_top.specs.Unread.{HasStopped};

use crate::boxes::{Stated, tell_boxes};
use crate::ended::Ended;
use crate::made::run_made;
use crate::objects::Objects;
use crate::one_run::{go_on, solve_new, solve_saved};
use crate::outcome::{tell_fault, tell_outcome};
use crate::reading::read_problem;
use crate::served::run_worker;
use crate::settings::settings_for;
use crate::show::show;
use std::sync::Wait;
use std::thread::Threads;
use ug_cli::{Asked, Plan, Restart, Solve};
use ug_disk::Disk;
use ug_io::{Crew, Link, Source};
use ug_restart::{Host, Observer};

/// Does what the plan asks for, up to the lines, which it does not write: it reads the source,
/// runs, saves to the disk, and works with the crew or over the link, each as far as the plan has
/// it.
#[tactic(auto, using(crate::proofs::Gathered::has_stopped, crate::proofs::Gathered::stops_unread))]
pub fn run_plan<
    R: Threads + Wait + Sync,
    S: Source,
    D: Disk,
    O: Observer,
    C: Crew + Drop,
    L: Link + Drop,
>(host: &Host<'_, R, O>, plan: &Plan<'_>, objects: &mut Objects<S, D, C, L>) -> Ended
    requires planned { IsPlannedOf plan.now }
    requires needs { HasNeeds plan.now (outside S.seen D.seen C.seen L.seen objects.old) }
    ensures lines { AreLinesOf plan.now (outside S.seen D.seen C.seen L.seen objects.old)
        (outside S.seen D.seen C.seen L.seen objects.new) (status_of result) (text_of result) }
    ensures accounted { IsAccounted (KeepsCoveredBy (crewed C.seen objects.old.crew objects.new.crew)
        (D.seen objects.old.disk) (D.seen objects.new.disk)) (outside S.seen D.seen C.seen L.seen objects.old)
        (outside S.seen D.seen C.seen L.seen objects.new) (status_of result) }
    ensures alone { IsDiskless plan.now
        → IsLeftAlone (D.seen objects.old.disk) (D.seen objects.new.disk) }
    ensures stopped { HasStopped (S.seen objects.old.input).left (S.seen objects.new.input).left
        result }
    ensures crew { IsStillThere (seen_if C.seen objects.old.crew) (seen_if C.seen objects.new.crew) }
    ensures left { IsLeftBy plan.now (outside S.seen D.seen C.seen L.seen objects.old)
        (outside S.seen D.seen C.seen L.seen objects.new) result }
{
    match plan {
        Plan::Solve(solve) => run_solve(host, solve, objects),
        Plan::Restart(restart) => run_restart(host, restart, objects),
        Plan::Worker(_) => run_worker(host, &mut objects.link),
        Plan::Show(_) => show(host.alloc, &mut objects.disk),
        Plan::Gen(asked) => run_made(host, asked, &mut objects.disk, &mut objects.crew),
    }
}

// Reads the problem and solves it.
#[tactic(auto, using(crate::proofs::Gathered::has_stopped, crate::proofs::Gathered::stops_unread))]
fn run_solve<
    R: Threads + Wait + Sync,
    S: Source,
    D: Disk,
    O: Observer,
    C: Crew + Drop,
    L: Link + Drop,
>(host: &Host<'_, R, O>, solve: &Solve<'_>, objects: &mut Objects<S, D, C, L>) -> Ended
    requires planned { IsPlanned solve.now.settings }
    requires fits { FitsCrew solve.now.settings.ranks.solvers (seen_if C.seen objects.old.crew) }
    ensures lines { AreSolveLines solve.now.checkpoint solve.now.settings (outside S.seen D.seen C.seen L.seen objects.old)
        (outside S.seen D.seen C.seen L.seen objects.new) (status_of result) (text_of result) }
    ensures accounted { IsAccounted (KeepsCoveredBy (crewed C.seen objects.old.crew objects.new.crew)
        (D.seen objects.old.disk) (D.seen objects.new.disk)) (outside S.seen D.seen C.seen L.seen objects.old)
        (outside S.seen D.seen C.seen L.seen objects.new) (status_of result) }
    ensures alone { solve.now.checkpoint ≡ None
        → IsLeftAlone (D.seen objects.old.disk) (D.seen objects.new.disk) }
    ensures stopped { HasStopped (S.seen objects.old.input).left (S.seen objects.new.input).left
        result }
    ensures crew { IsStillThere (seen_if C.seen objects.old.crew) (seen_if C.seen objects.new.crew) }
    ensures left { IsLeftBy (plans.Solve solve.now) (outside S.seen D.seen C.seen L.seen objects.old)
        (outside S.seen D.seen C.seen L.seen objects.new) result }
{
    let boxed = solve.settings.bounds.boxed;
    let stated = match read_problem(host.alloc, boxed, &mut objects.input) {
        Ok(stated) => stated,
        Err(ended) => return ended,
    };
    let Objects { disk, crew, .. } = objects;
    match solve.checkpoint {
        None => run_alone(host, &solve.settings, stated, disk, crew),
        Some(_) => run_saved(host, &solve.settings, stated, disk, crew),
    }
}

// Reads the problem and continues with it.
#[tactic(auto, using(crate::proofs::Gathered::has_stopped, crate::proofs::Gathered::stops_unread))]
fn run_restart<
    R: Threads + Wait + Sync,
    S: Source,
    D: Disk,
    O: Observer,
    C: Crew + Drop,
    L: Link + Drop,
>(host: &Host<'_, R, O>, restart: &Restart<'_>, objects: &mut Objects<S, D, C, L>) -> Ended
    requires planned { IsPlanned restart.now.settings }
    requires fits { FitsCrew restart.now.settings.ranks.solvers (seen_if C.seen objects.old.crew) }
    ensures lines { AreRestartLines restart.now.settings (outside S.seen D.seen C.seen L.seen objects.old)
        (outside S.seen D.seen C.seen L.seen objects.new) (status_of result) (text_of result) }
    ensures accounted { IsAccounted (KeepsCoveredBy (crewed C.seen objects.old.crew objects.new.crew)
        (D.seen objects.old.disk) (D.seen objects.new.disk)) (outside S.seen D.seen C.seen L.seen objects.old)
        (outside S.seen D.seen C.seen L.seen objects.new) (status_of result) }
    ensures stopped { HasStopped (S.seen objects.old.input).left (S.seen objects.new.input).left
        result }
    ensures crew { IsStillThere (seen_if C.seen objects.old.crew) (seen_if C.seen objects.new.crew) }
    ensures left { IsLeftBy (plans.Restart restart.now) (outside S.seen D.seen C.seen L.seen objects.old)
        (outside S.seen D.seen C.seen L.seen objects.new) result }
{
    let boxed = restart.settings.bounds.boxed;
    let stated = match read_problem(host.alloc, boxed, &mut objects.input) {
        Ok(stated) => stated,
        Err(ended) => return ended,
    };
    let Objects { disk, crew, .. } = objects;
    run_on(host, &restart.settings, stated, disk, crew)
}

// Solves the problem without a checkpoint.
fn run_alone<R: Threads + Wait + Sync, D: Disk, O: Observer, C: Crew + Drop>(
    host: &Host<'_, R, O>,
    asked: &Asked<'_>,
    stated: Stated,
    disk: &mut D,
    crew: &mut Option<C>,
) -> Ended
    requires planned { IsPlanned asked.now }
    requires fits { FitsCrew asked.now.ranks.solvers (seen_if C.seen crew.old) }
    ensures run { TellsRun
        (HasRunAlone (crewed C.seen crew.old crew.new) asked.now (D.seen disk.old) (D.seen disk.new)
        stated.problem)
        (BeginsAlways stated.problem) asked.now.bounds.gap result }
    ensures stored { IsStored
        (KeepsCoveredBy (crewed C.seen crew.old crew.new) (D.seen disk.old) (D.seen disk.new))
        (D.seen disk.old) (D.seen disk.new) (status_of result) }
    ensures alone { IsLeftAlone (D.seen disk.old) (D.seen disk.new) }
    ensures crew { IsStillThere (seen_if C.seen crew.old) (seen_if C.seen crew.new) }
{
    let Stated { problem, ends } = stated;
    let settings = settings_for(asked, problem.problem());
    let outcome = solve_new(host, crew, problem, settings, disk);
    let ended = tell_outcome(host.alloc, &outcome, asked.bounds.gap);
    tell_boxes(host.observer, &outcome.end, ends);
    drop(outcome);
    ended
}

// Solves the problem and keeps a checkpoint.
fn run_saved<R: Threads + Wait + Sync, D: Disk, O: Observer, C: Crew + Drop>(
    host: &Host<'_, R, O>,
    asked: &Asked<'_>,
    stated: Stated,
    disk: &mut D,
    crew: &mut Option<C>,
) -> Ended
    requires planned { IsPlanned asked.now }
    requires fits { FitsCrew asked.now.ranks.solvers (seen_if C.seen crew.old) }
    ensures run { TellsRun
        (HasRunSaved (crewed C.seen crew.old crew.new) asked.now (D.seen disk.old) (D.seen disk.new)
        stated.problem)
        (HasNotBegun (crewed C.seen crew.old crew.new) asked.now (D.seen disk.old) (D.seen disk.new)
        stated.problem)
        asked.now.bounds.gap result }
    ensures stored { IsStored
        (KeepsCoveredBy (crewed C.seen crew.old crew.new) (D.seen disk.old) (D.seen disk.new))
        (D.seen disk.old) (D.seen disk.new) (status_of result) }
    ensures crew { IsStillThere (seen_if C.seen crew.old) (seen_if C.seen crew.new) }
{
    let Stated { problem, ends } = stated;
    let settings = settings_for(asked, problem.problem());
    match solve_saved(host, crew, problem, settings, disk) {
        Ok(outcome) => {
            let ended = tell_outcome(host.alloc, &outcome, asked.bounds.gap);
            tell_boxes(host.observer, &outcome.end, ends);
            drop(outcome);
            ended
        }
        Err(fault) => {
            drop(ends);
            tell_fault(host.alloc, &fault)
        }
    }
}

// Continues with the problem from the checkpoint.
fn run_on<R: Threads + Wait + Sync, D: Disk, O: Observer, C: Crew + Drop>(
    host: &Host<'_, R, O>,
    asked: &Asked<'_>,
    stated: Stated,
    disk: &mut D,
    crew: &mut Option<C>,
) -> Ended
    requires planned { IsPlanned asked.now }
    requires fits { FitsCrew asked.now.ranks.solvers (seen_if C.seen crew.old) }
    ensures run { TellsRun
        (HasRunOn (crewed C.seen crew.old crew.new) asked.now (D.seen disk.old) (D.seen disk.new)
        stated.problem)
        (HasNotGoneOn (crewed C.seen crew.old crew.new) asked.now (D.seen disk.old) (D.seen disk.new)
        stated.problem)
        asked.now.bounds.gap result }
    ensures stored { IsStored
        (KeepsCoveredBy (crewed C.seen crew.old crew.new) (D.seen disk.old) (D.seen disk.new))
        (D.seen disk.old) (D.seen disk.new) (status_of result) }
    ensures crew { IsStillThere (seen_if C.seen crew.old) (seen_if C.seen crew.new) }
{
    let Stated { problem, ends } = stated;
    let settings = settings_for(asked, problem.problem());
    match go_on(host, crew, problem, settings, disk) {
        Ok(outcome) => {
            let ended = tell_outcome(host.alloc, &outcome, asked.bounds.gap);
            tell_boxes(host.observer, &outcome.end, ends);
            drop(outcome);
            ended
        }
        Err(fault) => {
            drop(ends);
            tell_fault(host.alloc, &fault)
        }
    }
}
