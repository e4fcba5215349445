//! Some hundred small problems, each searched by two tasks: one whose sums are kept in 64 bits, and
//! one of the same problem with a row more, which no point breaks and whose coefficient is so large
//! that they are kept in 128. Both are the same, step by step. And what bound propagation leaves of
//! each is what its slow body leaves.

ghost use Rattle.ug_problem.specs.Better.{IsGap, IsSmallCutoff};

use crate::bounds::is_small;
use crate::expect::holds_at;
use crate::small::{problem, wide_problem};
use crate::tasks::task_of;
use std::alloc::{AllocError, Global};
use ug_base::{Handed, Step, Task};
use ug_branch::Params;
use ug_problem::Problem;
use ug_propagate::{Tight, tighten, tighten_plain};

fn are_same_steps(first: &Step, second: &Step) -> bool {
    match (first, second) {
        (Step::Found(point), Step::Found(other)) => point.as_slice() == other.as_slice(),
        (Step::Pruned, Step::Pruned) => true,
        (Step::Split, Step::Split) => true,
        (Step::Empty, Step::Empty) => true,
        _ => false,
    }
}

fn are_same_boxes(first: &Option<Handed>, second: &Option<Handed>) -> bool {
    match (first, second) {
        (Some(first), Some(second)) => first.area.as_slice() == second.area.as_slice(),
        (None, None) => true,
        _ => false,
    }
}

// Whether both report the same of what is left.
fn agree(first: &mut Task, second: &mut Task) -> bool {
    first.left() == second.left()
        && first.cutoff() == second.cutoff()
        && first.lowest() == second.lowest()
}

// Hands a box of each away. Whether it is the same.
fn hand_both(first: &mut Task, second: &mut Task) -> bool {
    let Ok(given) = first.hand() else {
        return false;
    };
    let Ok(other) = second.hand() else {
        drop(given);
        return false;
    };
    let is_same = are_same_boxes(&given, &other);
    drop(given);
    drop(other);
    is_same
}

// One step of both. Whether both are the same after it, and if so whether they ended.
fn step_both(first: &mut Task, second: &mut Task) -> Option<bool> {
    let Ok(told) = first.step() else {
        return None;
    };
    let Ok(other) = second.step() else {
        drop(told);
        return None;
    };
    let is_same = are_same_steps(&told, &other);
    let ended = matches!(told, Step::Empty);
    drop(told);
    drop(other);
    if is_same && agree(first, second) {
        Some(ended)
    } else {
        None
    }
}

// Whether both searches are the same to their end, where every this many steps a box of each is
// handed away; how many steps.
fn steps_to_end(first: &mut Task, second: &mut Task, hands: u32) -> Option<u32> {
    for at in 0..3000 {
        if step_both(first, second)? {
            return Some(at);
        }
        if hands > 0 && at % hands == 1 && !hand_both(first, second) {
            return None;
        }
    }
    None
}

// The same of the tasks of two problems.
fn steps_of(first: Option<Task>, second: Option<Task>, hands: u32) -> Option<u32> {
    match (first, second) {
        (Some(mut first), Some(mut second)) => {
            let steps = steps_to_end(&mut first, &mut second, hands);
            drop(first);
            drop(second);
            steps
        }
        (first, second) => {
            drop(first);
            drop(second);
            None
        }
    }
}

// The task of a problem.
fn task(alloc: Global, problem: Option<Problem>, params: Params, gap: i128) -> Option<Task>
    requires { IsGap gap }
{
    match problem {
        Some(problem) => task_of(alloc, problem, 1, params, gap),
        None => None,
    }
}

// How both searches of a number go: the gap, and how often a box is handed away.
const TRACES: &[(i128, u32)] = &[(0, 0), (2, 4)];

#[test]
fn tasks_go_alike_in_64_bits_and_in_128(rt: HostRuntime) {
    let alloc = rt.alloc();
    let mut longest = 0;
    for number in 1..121 {
        for (gap, hands) in TRACES {
            let params = Params::new((number % 8) as u8);
            let short = task(alloc, problem(alloc, number), params, *gap);
            let wide = task(alloc, wide_problem(alloc, number), params, *gap);
            let steps = steps_of(short, wide, *hands);
            holds_at(&rt, steps.is_some(), &(number, *hands));
            longest = longest.max(steps.unwrap_or(0));
        }
    }
    holds_at(&rt, longest > 30, &longest);
}

fn are_same(fast: &Tight, slow: &Tight) -> bool {
    match (fast, slow) {
        (Tight::Kept(area), Tight::Kept(other)) => area.as_slice() == other.as_slice(),
        (Tight::Empty(reason), Tight::Empty(other)) => reason == other,
        _ => false,
    }
}

// Whether two outcomes are one.
fn both_same(fast: Result<Tight, AllocError>, slow: Result<Tight, AllocError>) -> bool {
    match (fast, slow) {
        (Ok(fast), Ok(slow)) => {
            let so = are_same(&fast, &slow);
            drop(fast);
            drop(slow);
            so
        }
        (fast, slow) => {
            drop(fast);
            drop(slow);
            false
        }
    }
}

// Whether both bodies leave the same of the root of the problem.
fn leave_the_same(alloc: Global, problem: &Problem, cutoff: Option<i128>) -> bool
    requires { IsSmallCutoff cutoff }
{
    let root = problem.root();
    both_same(
        tighten(alloc, problem, cutoff, root),
        tighten_plain(alloc, problem, cutoff, root),
    )
}

// The same of a problem, if it was made.
fn is_left_the_same(alloc: Global, problem: Option<Problem>, cutoff: Option<i128>) -> bool {
    let Some(problem) = problem else {
        return false;
    };
    let so = is_small(cutoff) && leave_the_same(alloc, &problem, cutoff);
    drop(problem);
    so
}

const CUTOFFS: &[Option<i128>] = &[None, Some(12), Some(-3)];

#[test]
fn both_bodies_leave_the_same(rt: HostRuntime) {
    let alloc = rt.alloc();
    for number in 1..121 {
        for cutoff in CUTOFFS {
            let short = is_left_the_same(alloc, problem(alloc, number), *cutoff);
            let wide = is_left_the_same(alloc, wide_problem(alloc, number), *cutoff);
            holds_at(&rt, short && wide, &(number, cutoff.unwrap_or(0)));
        }
    }
}
