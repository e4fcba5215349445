ghost use Rattle.std.specs.Prelude.{◌<◌, ◌≤◌, ◌*◌, ◌^◌, IfSome, unsigned_abs};
ghost use Rattle.ug_rows.specs.Boxes.{IsBelow};
ghost use Rattle.ug_problem.specs.Instances.{root_of};
ghost use Rattle.ug_problem.specs.Better.{IsGap};

use crate::expect::{holds, same, same_at};
use std::alloc::{AllocError, Global};
use ug_base::{Handed, Step, Task};
use ug_branch::Params;
use ug_mps::read;
use ug_nodes::{Ticket, Walk};
use ug_problem::{Problem, Shared};
use ug_rows::{IntBox, Interval, below};

/// Two columns from 0 to 7, whose sum is at least 5 and minimised.
pub const SQUARE: &[u8] = b"ROWS
 N Z
 G r
COLUMNS
 M 'MARKER' 'INTORG'
 x Z 1 r 1
 y Z 1 r 1
RHS
 r 5
BOUNDS
 UP x 7
 UP y 7
ENDATA
";

/// The whole box of a problem, if there is memory for it.
pub fn whole_of(problem: &Problem) -> Option<IntBox>
    ensures { IfSome result (λ whole. IsBelow whole (root_of problem.now)) }
{
    let whole = problem.root().clone().ok()?;
    if below(&whole, problem.root()) {
        Some(whole)
    } else {
        drop(whole);
        None
    }
}

/// The task of a problem, with this number in its ticket.
pub fn task_of(
    alloc: Global,
    problem: Problem,
    number: u64,
    params: Params,
    gap: i128,
) -> Option<Task>
    requires { IsGap gap }
{
    let own = Shared::own(problem);
    let Some(whole) = whole_of(own.problem()) else {
        drop(own);
        return None;
    };
    let ticket = Ticket { run: 1, number };
    Task::new(alloc, own, ticket, params, whole, None, gap).ok()
}

// The task of all of the square, with these params and this gap.
fn task(alloc: Global, number: u8, gap: i128) -> Option<Task>
    requires number { number < 8 }
    requires gap { IsGap gap }
{
    task_of(
        alloc,
        read(alloc, SQUARE, None).ok()?,
        3,
        Params::new(number),
        gap,
    )
}

// A letter for what a step did, where a point that is found is (0, 5).
fn letter(step: &Step) -> u8 {
    match step {
        Step::Pruned => b'P',
        Step::Found(point) if point.as_slice() == [0, 5].as_slice() => b'F',
        Step::Found(_) => b'?',
        Step::Split => b'S',
        Step::Empty => b'E',
    }
}

// The letter for the next step, if there is memory for it.
fn next_letter(task: &mut Task) -> Option<u8> {
    let step = task.step().ok()?;
    let letter = letter(&step);
    drop(step);
    Some(letter)
}

// Whether the next step has this letter.
fn steps_so(task: &mut Task, told: u8) -> bool {
    next_letter(task) == Some(told)
}

// What each step of the search of the square does, the boxes left and their least floor, by hand.
const BY_HAND: &[(u8, u64, Option<i128>)] = &[
    (b'S', 2, Some(0)),
    (b'S', 3, Some(2)),
    (b'S', 4, Some(4)),
    (b'S', 5, Some(4)),
    (b'S', 6, Some(4)),
    (b'F', 5, Some(4)),
    (b'P', 4, Some(4)),
    (b'P', 3, Some(4)),
    (b'P', 2, Some(4)),
    (b'P', 1, Some(4)),
    (b'P', 0, None),
    (b'E', 0, None),
];

// Whether the search of the square goes as it does by hand.
fn goes_as_by_hand(task: &mut Task) -> bool {
    for (told, left, lowest) in BY_HAND {
        if !steps_so(task, *told) || task.left() != *left || task.lowest() != *lowest {
            return false;
        }
    }
    true
}

// The cutoff with which the search of the square under a gap ends, if it goes as it does by hand.
fn ends_under(alloc: Global, gap: i128) -> Option<i128>
    requires { IsGap gap }
{
    let mut task = task(alloc, 0, gap)?;
    let is_so = task.lowest() == Some(0) && goes_as_by_hand(&mut task);
    let cutoff = task.cutoff();
    drop(task);
    if is_so { cutoff } else { None }
}

#[test]
fn searches_the_square_under_gaps(rt: HostRuntime) {
    let alloc = rt.alloc();
    let ends = [
        ends_under(alloc, 0),
        ends_under(alloc, 2),
        ends_under(alloc, 9),
    ];
    same(&rt, &ends, &[Some(5), Some(3), Some(0)]);
}

// Steps a task until nothing is left.
fn search(task: &mut Task) -> Result<(), AllocError> {
    loop {
        if matches!(task.step()?, Step::Empty) {
            return Ok(());
        }
    }
}

// The cutoff with which the search of the square ends.
fn ends_with(alloc: Global, number: u8) -> Option<i128>
    requires { number < 8 }
{
    let mut task = task(alloc, number, 0)?;
    let is_over = search(&mut task).is_ok();
    let cutoff = task.cutoff();
    drop(task);
    if is_over { cutoff } else { None }
}

#[test]
fn ends_with_the_least_value(rt: HostRuntime) {
    for number in 0..8 {
        same_at(&rt, &ends_with(rt.alloc(), number), &Some(5), &number);
    }
}

// Whether the task has this cutoff behind what lowers it.
fn lowered(task: &mut Task, given: i128, cutoff: i128) -> bool
    requires { unsigned_abs given ≤ 2 * 10 ^ 37 }
{
    task.lower(given);
    task.cutoff() == Some(cutoff)
}

// Whether it is lowered by what is below it alone, down to where nothing is left.
fn is_lowered(task: &mut Task) -> bool {
    lowered(task, 6, 6)
        && lowered(task, 9, 6)
        && lowered(task, 5, 5)
        && steps_so(task, b'P')
        && task.left() == 0
}

const UPPER: [Interval; 2] = [Interval { low: 4, high: 7 }, Interval { low: 0, high: 7 }];

const LOWER: [Interval; 2] = [Interval { low: 2, high: 3 }, Interval { low: 2, high: 7 }];

const LOWEST: [Interval; 2] = [Interval { low: 0, high: 1 }, Interval { low: 2, high: 7 }];

// Whether that box is given, by its number and its sides; or none, if none is needed.
fn is_given(given: Result<Option<Handed>, AllocError>, wanted: Option<(u64, &[Interval])>) -> bool {
    let is_so = match (&given, wanted) {
        (Ok(Some(given)), Some((number, sides))) => {
            given.number == number && given.area.as_slice() == sides
        }
        (Ok(None), None) => true,
        _ => false,
    };
    drop(given);
    is_so
}

// Whether it gives all boxes left, the last one too, and the search of it is then over.
fn gives_all(task: &mut Task) -> bool {
    steps_so(task, b'S')
        && steps_so(task, b'S')
        && is_given(task.give(), Some((0, &UPPER)))
        && is_given(task.give(), Some((1, &LOWER)))
        && is_given(task.give(), Some((2, &LOWEST)))
        && is_given(task.give(), None)
        && steps_so(task, b'E')
        && task.handed().len() == 3
}

// Whether it keeps what it handed.
fn has_handed(task: &Task) -> bool {
    let mut walk = task.handed().walk();
    let is_so = stands_at(&mut walk, &UPPER)
        && stands_at(&mut walk, &LOWER)
        && matches!(walk.step(), Ok(false));
    drop(walk);
    is_so
}

// Whether the next box has these sides.
fn stands_at(walk: &mut Walk, sides: &[Interval]) -> bool {
    matches!(walk.step(), Ok(true)) && walk.area() == sides
}

// Whether it hands the first boxes left, all but the last, and keeps what it handed.
fn hands_first(task: &mut Task) -> bool {
    steps_so(task, b'S')
        && steps_so(task, b'S')
        && is_given(task.hand(), Some((0, &UPPER)))
        && is_given(task.hand(), Some((1, &LOWER)))
        && is_given(task.hand(), None)
        && task.left() == 1
        && has_handed(task)
        && task.ticket() == Ticket { run: 1, number: 3 }
}

/// The facts examined in a search of the square.
#[derive(Clone, Copy)]
enum Looked {
    Lowered,
    GivesAll,
    HandsFirst,
}

// Whether that is so of a search of the square.
fn is_so(alloc: Global, looked: Looked) -> bool {
    let Some(mut task) = task(alloc, 0, 0) else {
        return false;
    };
    let is_so = match looked {
        Looked::Lowered => is_lowered(&mut task),
        Looked::GivesAll => gives_all(&mut task),
        Looked::HandsFirst => hands_first(&mut task),
    };
    drop(task);
    is_so
}

#[test]
fn lowers_the_cutoff(rt: HostRuntime) {
    holds(&rt, is_so(rt.alloc(), Looked::Lowered));
}

#[test]
fn gives_all_boxes(rt: HostRuntime) {
    holds(&rt, is_so(rt.alloc(), Looked::GivesAll));
}

#[test]
fn hands_the_first_boxes(rt: HostRuntime) {
    holds(&rt, is_so(rt.alloc(), Looked::HandsFirst));
}
