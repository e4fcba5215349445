//! A coordinator over a crew of workers in memory, in whatever order and pieces their bytes go:
//! each answer is what looking at every point gives.

ghost use Rattle.ug_book.specs.Openings.{IsOpening};

mod failing;
mod points;
mod texts;
mod ways;

use crate::coordinated::empty_disk;
use crate::expect::holds;
use crate::problems::SQUARE;
use crate::worked::points::{find_least, has_found};
use crate::worked::texts::{BOUNDS, COLUMNS, HEADS, KNAPSACK, SIDES};
use crate::worked::ways::{WAYS, Way, push_visits, settings_of};
use std::alloc::Global;
use std::sync::Wait;
use ug_book::Opening;
use ug_coord::Coordinated;
use ug_model::{Visit, WorkerCrew, solve_by_workers};
use ug_mps::read;
use ug_problem::{Problem, Shared};
use ug_restart::{Host, Unobserved};

// Whether workers that are visited so give a right answer to the opening, and no call of their crew
// fails. This is the least value, if a point is feasible.
fn is_right<R: Wait>(
    rt: &R,
    alloc: Global,
    opening: &Opening,
    schedule: &[Visit],
    least: Option<i128>,
) -> bool
    requires { IsOpening opening.now }
{
    let host = Host {
        rt,
        alloc,
        observer: &Unobserved,
    };
    let Ok(crew) = WorkerCrew::new(alloc, opening.settings.solvers, schedule) else {
        return false;
    };
    let mut disk = empty_disk(alloc);
    let Coordinated { crew, outcome } = solve_by_workers(&host, opening, None, &mut disk, crew);
    drop(disk);
    let gap = opening.settings.gap;
    let so = has_found(opening.problem.problem(), &outcome.end, least, gap) && crew.faults() == 0;
    drop(crew);
    drop(outcome);
    so
}

// Whether the answer in this way is right.
fn is_right_in<R: Wait>(
    rt: &R,
    alloc: Global,
    problem: Shared,
    least: Option<i128>,
    way: Way,
) -> bool {
    let Some(settings) = settings_of(way) else {
        drop(problem);
        return false;
    };
    let Ok(opening) = Opening::new(alloc, problem, 1, settings) else {
        return false;
    };
    let mut schedule = Vec::new(alloc);
    let so = push_visits(&mut schedule, way) && is_right(rt, alloc, &opening, &schedule, least);
    drop(schedule);
    drop(opening);
    so
}

// Whether it is so in each way.
fn is_right_always<R: Wait>(rt: &R, alloc: Global, problem: &Shared, least: Option<i128>) -> bool {
    for way in WAYS {
        let Ok(shared) = problem.share() else {
            return false;
        };
        if !is_right_in(rt, alloc, shared, least, *way) {
            return false;
        }
    }
    true
}

// Whether each way gives a right answer to the problem.
fn is_solved<R: Wait>(rt: &R, alloc: Global, problem: Problem) -> bool {
    let mut least = None;
    let is_found = find_least(alloc, &problem, &mut least);
    let problem = Shared::own(problem);
    let so = is_found && is_right_always(rt, alloc, &problem, least);
    drop(problem);
    so
}

// The same of the problem of this text.
fn is_text_solved<R: Wait>(rt: &R, alloc: Global, text: &[u8]) -> bool {
    match read(alloc, text, None) {
        Ok(problem) => is_solved(rt, alloc, problem),
        Err(error) => {
            drop(error);
            false
        }
    }
}

#[test]
fn workers_solve_a_square(rt: HostRuntime) {
    holds(&rt, is_text_solved(&rt, rt.alloc(), SQUARE));
}

#[test]
fn workers_fill_a_knapsack(rt: HostRuntime) {
    holds(&rt, is_text_solved(&rt, rt.alloc(), KNAPSACK));
}

fn push(text: &mut Vec<u8>, part: &str) -> bool {
    text.extend_from_slice(part.as_bytes()).is_ok()
}

// The same of the file of these parts.
fn are_parts_solved<R: Wait>(
    rt: &R,
    alloc: Global,
    head: &str,
    columns: &str,
    sides: &str,
) -> bool {
    let mut text = Vec::new(alloc);
    let so = push(&mut text, head)
        && push(&mut text, columns)
        && push(&mut text, sides)
        && push(&mut text, BOUNDS)
        && is_text_solved(rt, alloc, &text);
    drop(text);
    so
}

// The same of all texts with this head.
fn are_all_solved<R: Wait>(rt: &R, alloc: Global, head: &str) -> bool {
    let mut so = true;
    for columns in COLUMNS {
        for sides in SIDES {
            so = so && are_parts_solved(rt, alloc, head, columns, sides);
        }
    }
    so
}

#[test]
fn workers_solve_small_problems(rt: HostRuntime) {
    for head in HEADS {
        holds(&rt, are_all_solved(&rt, rt.alloc(), head));
    }
}
