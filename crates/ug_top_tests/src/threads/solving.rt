//! Solves of small problems.

ghost use Rattle.ug_rules.specs.Books.{AreSettings};

use crate::running::sound_disk;
use crate::threads::answer::{Answer, answer_of};
use crate::threads::problems::{Small, made};
use std::alloc::Global;
use std::sync::Wait;
use std::thread::Threads;
use ug_book::Opening;
use ug_branch::Base;
use ug_disk::MemoryDisk;
use ug_problem::Shared;
use ug_restart::{Host, Observer, Outcome, Start, Unobserved, begin};
use ug_rules::Settings;
use ug_threads::solve_threads;

/// One box in the pool is enough, each report is followed by a snapshot, and this many may be
/// received.
pub fn settings(solvers: u32, racing: bool, limit: u64) -> Settings
    ensures { AreSettings result }
{
    Settings {
        solvers: solvers.max(1),
        racing,
        base: Base::Bound,
        low: 1,
        high: 1,
        every: 1,
        limit,
        winner: 20,
        gap: 0,
    }
}

/// The outcome of a solve without a saver, if it has not touched the disk.
pub fn solved_without<R: Threads + Wait + Sync, O: Observer>(
    rt: &R,
    alloc: Global,
    small: &Small<'_>,
    settings: Settings,
    observer: &O,
) -> Option<Outcome>
    requires { AreSettings settings }
{
    let problem = made(alloc, small)?;
    let Ok(opening) = Opening::new(alloc, Shared::own(problem), 1, settings) else {
        return None;
    };
    let mut disk = sound_disk(alloc);
    let outcome = solve_threads(
        &Host {
            rt,
            alloc,
            observer,
        },
        &opening,
        None,
        &mut disk,
    );
    let calls = disk.calls();
    drop(opening);
    drop(disk);
    if calls == 0 {
        Some(outcome)
    } else {
        drop(outcome);
        None
    }
}

/// Returns the answer of a problem, without a saver.
pub fn solved<R: Threads + Wait + Sync, O: Observer>(
    rt: &R,
    alloc: Global,
    small: &Small<'_>,
    solvers: u32,
    racing: bool,
    observer: &O,
) -> Answer {
    let settings = settings(solvers, racing, u64::MAX);
    let Some(outcome) = solved_without(rt, alloc, small, settings, observer) else {
        return Answer::Other;
    };
    let answer = answer_of(&outcome);
    drop(outcome);
    answer
}

/// The outcome of a solve that begins on a disk.
pub fn solved_on<R: Threads + Wait + Sync>(
    rt: &R,
    alloc: Global,
    small: &Small<'_>,
    disk: &mut MemoryDisk,
) -> Option<Outcome> {
    let problem = made(alloc, small)?;
    let settings = settings(3, false, u64::MAX);
    let Ok(start) = begin(alloc, disk, Shared::own(problem), settings) else {
        return None;
    };
    let Start { opening, saver } = start;
    let observer = &Unobserved;
    let outcome = solve_threads(
        &Host {
            rt,
            alloc,
            observer,
        },
        &opening,
        Some(saver),
        disk,
    );
    drop(opening);
    Some(outcome)
}
