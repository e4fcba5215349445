//! Searches with surrogate rows, beside those over the problem's rows alone: they end at one value,
//! and early if such rows help.

ghost use Rattle.std.specs.Prelude.{◌≤◌, ◌<◌};

use crate::expect::{holds_at, same_at};
use crate::small::problem;
use crate::tasks::task_of;
use std::alloc::Global;
use std::process::Abort;
use ug_base::{Step, Task};
use ug_branch::Params;
use ug_gen::make;
use ug_mps::read;
use ug_problem::Problem;

// Sums of even coefficients are to be odd.
const ODD: &[u8] = b"ROWS
 N Z
 E R
COLUMNS
 M 'MARKER' 'INTORG'
 a R 2
 b R 2
 c R 2
 d R 2
 e R 2
 f R 2
 g R 2
 h R 2
 i R 2
 j R 2
 k R 2
 l R 2
RHS
 S R 13
ENDATA
";

// The value below which nothing is left at the end of a search, and its steps.
#[derive(Clone, Copy, Debug, PartialEq, Eq)]
struct Ended {
    cutoff: Option<i128>,
    steps: u32,
}

// A search to its end.
fn ended_of(task: &mut Task) -> Option<Ended> {
    for steps in 0..100_000 {
        let step = task.step().ok()?;
        let is_empty = matches!(step, Step::Empty);
        drop(step);
        if is_empty {
            return Some(Ended {
                cutoff: task.cutoff(),
                steps,
            });
        }
    }
    None
}

// A search of a copy of a problem to its end.
fn searched(alloc: Global, problem: &Problem, params: u8) -> Option<Ended>
    requires { params < 16 }
{
    let mut task = task_of(alloc, problem.copy().ok()?, 1, Params::new(params), 0)?;
    let ended = ended_of(&mut task);
    drop(task);
    ended
}

// Expects the searches of a problem with the params of a number and with those of eight more to end
// at one value; the steps of both.
fn both_steps(
    rt: &impl Abort,
    alloc: Global,
    problem: &Problem,
    params: u8,
    case: u32,
) -> (u32, u32)
    requires { params < 8 }
{
    let alone = searched(alloc, problem, params);
    let strengthened = searched(alloc, problem, params + 8);
    let (Some(alone), Some(strengthened)) = (alone, strengthened) else {
        holds_at(rt, false, &(case, params));
        return (0, 0);
    };
    same_at(rt, &strengthened.cutoff, &alone.cutoff, &(case, params));
    (alone.steps, strengthened.steps)
}

// The same of the small problem of a number, with all params.
fn small_problem_ends_alike(rt: &impl Abort, alloc: Global, number: u32) {
    match problem(alloc, number) {
        Some(problem) => {
            for params in 0..8u8 {
                both_steps(rt, alloc, &problem, params, number);
            }
            drop(problem);
        }
        None => holds_at(rt, false, &number),
    }
}

#[test]
fn all_sixteen_params_end_at_one_value(rt: HostRuntime) {
    for number in 1..121 {
        small_problem_ends_alike(&rt, rt.alloc(), number);
    }
}

// The steps of both searches of the made instance of a seed.
fn made_steps(rt: &impl Abort, alloc: Global, seed: u32) -> (u32, u32)
    requires least { 1 ≤ seed }
    requires most { seed ≤ 20 }
{
    match make(alloc, seed, 24) {
        Ok(problem) => {
            let steps = both_steps(rt, alloc, &problem, 0, seed);
            drop(problem);
            steps
        }
        Err(_) => {
            holds_at(rt, false, &seed);
            (0, 0)
        }
    }
}

#[test]
fn made_instances_end_in_a_fortieth_of_the_steps(rt: HostRuntime) {
    let mut alone = 0u32;
    let mut strengthened = 0u32;
    for seed in 1..6 {
        let (more, fewer) = made_steps(&rt, rt.alloc(), seed);
        alone = alone.saturating_add(more);
        strengthened = strengthened.saturating_add(fewer);
    }
    holds_at(&rt, 50_000 < alone, &alone);
    // Without the scores of columns under multipliers they take half as many again.
    holds_at(&rt, strengthened < alone / 40, &(alone, strengthened));
}

#[test]
fn sums_of_even_factors_that_are_to_be_odd_end_at_once(rt: HostRuntime) {
    match read(rt.alloc(), ODD, Some(1)) {
        Ok(problem) => {
            let (alone, strengthened) = both_steps(&rt, rt.alloc(), &problem, 0, 0);
            drop(problem);
            holds_at(&rt, 500 < alone, &alone);
            holds_at(&rt, strengthened < 32, &strengthened);
        }
        Err(_) => holds_at(&rt, false, &0),
    }
}
