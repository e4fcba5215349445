use crate::observer::{Begun, Observer, Progress};
use crate::outcome::End;
use std::alloc::Global;
use ug_book::Opening;
use ug_image::Image;
use ug_problem::Problem;
use ug_rows::Point;

// No value of a point is larger, and no larger one is printed.
const MOST: u128 = 100_000_000_000_000_000_000_000_000_000_000_000_000;

/// Calls the observer when a run begins.
pub fn tell_begin<O: Observer>(observer: &O, alloc: Global, opening: &Opening) {
    let problem = opening.problem.problem();
    let objective = problem.objective();
    let begun = Begun {
        columns: problem.columns().len(),
        rows: problem.rows().len(),
        solvers: opening.settings.solvers,
        maximise: objective.maximise,
        constant: printed(alloc, problem, objective.constant),
    };
    observer.begin(&begun);
    drop(begun);
}

/// Calls the observer when a run has ended.
pub fn tell_end<O: Observer>(observer: &O, end: &End) {
    match end {
        End::Answered(book) | End::Limited(book) | End::Stranded(book) => observer.end(
            book.heard(),
        ),
        End::Memory => {}
    }
}

/// Returns the progress of a run, from an image of it and the bound of its held nodes, now or
/// before; `None` if memory runs out for the value of the incumbent.
pub fn progress_of(alloc: Global, image: &Image, held: Option<i128>) -> Option<Progress> {
    let problem = image.problem.problem();
    let value = match &image.best {
        Some(best) => Some(value_of(problem, best)?),
        None => None,
    };
    let best = match value {
        Some(value) => Some(printed(alloc, problem, value)?),
        None => None,
    };
    let bound = match bound_of(value, image.gap, held) {
        Some(bound) => printed(alloc, problem, bound),
        None => None,
    };
    Some(Progress {
        heard: image.heard,
        best,
        bound,
        nodes: image.nodes.len(),
    })
}

// Returns the dual bound. A node that left for the incumbent is no better than the incumbent's
// value less the gap.
fn bound_of(value: Option<i128>, gap: i128, held: Option<i128>) -> Option<i128> {
    let Some(value) = value else {
        return held;
    };
    let near = value.saturating_sub(gap);
    match held {
        Some(held) => Some(held.min(near)),
        None => Some(near),
    }
}

// Returns the value of a point with this number of columns.
fn value_of(problem: &Problem, point: &Point) -> Option<i128> {
    if point.as_slice().len() != problem.columns().len() {
        return None;
    }
    Some(problem.value(point))
}

// Returns a value as it is printed, if it is one and memory suffices.
fn printed(alloc: Global, problem: &Problem, value: i128) -> Option<Vec<u8>> {
    if value.unsigned_abs() > MOST {
        return None;
    }
    let text = problem.print_value(alloc, value).ok()?;
    Some(text.into_vec())
}
