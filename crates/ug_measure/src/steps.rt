use crate::serving::problem_of;
use std::alloc::Global;
use std::rt::Files;
use ug_base::{Step, Task};
use ug_branch::Params;
use ug_nodes::Ticket;
use ug_problem::{Problem, Shared};
use ug_rows::below;

// The search of all of a problem under the params of a number.
fn task_of(alloc: Global, problem: Problem, params: u8) -> Option<Task> {
    if params >= 16 {
        drop(problem);
        return None;
    }
    let Ok(whole) = problem.root().clone() else {
        drop(problem);
        return None;
    };
    if !below(&whole, problem.root()) {
        drop(whole);
        drop(problem);
        return None;
    }
    let ticket = Ticket { run: 1, number: 1 };
    Task::new(
        alloc,
        Shared::own(problem),
        ticket,
        Params::new(params),
        whole,
        None,
        0,
    )
    .ok()
}

/// A search to its end.
#[derive(Clone, Copy)]
pub struct Searched {
    pub steps: u64,
    /// The least value, multiplied by ten to the objective's scale. None where no point is
    /// feasible.
    pub best: Option<i128>,
}

// Makes steps until no box is left.
fn search(task: &mut Task) -> Option<Searched> {
    for steps in 0..u64::MAX {
        let step = task.step().ok()?;
        let is_empty = matches!(step, Step::Empty);
        drop(step);
        if is_empty {
            // Without a gap the cutoff is the value of the last point found.
            let best = task.cutoff();
            return Some(Searched { steps, best });
        }
    }
    None
}

/// Searches all of the problem of a file under the params of a number. None where the file is
/// refused, memory runs out or the number is above 15.
pub fn search_file<R: Files>(rt: &R, alloc: Global, path: &str, params: u8) -> Option<Searched> {
    let problem = problem_of(rt, alloc, path)?;
    let mut task = task_of(alloc, problem, params)?;
    let searched = search(&mut task);
    drop(task);
    searched
}
