//! One call of a pass each, with a test of its answer.

ghost use Rattle.std.specs.Prelude.{◌≡◌, IfSome};
ghost use Rattle.ug_desk.specs.Backing.{IsKnownBacked};
ghost use Rattle.ug_desk.specs.Passes.{IsItsProblem, lock_of_desk};

use std::alloc::Global;
use std::sync::Wait;
use ug_base::{Step, Task};
use ug_desk::{Desk, Pass};
use ug_rows::Point;
use ug_rules::Heard;
use ug_worker::Took;

/// Returns the task that a pass takes, if there is one.
pub fn work<R: Wait>(rt: &R, desk: &Desk, pass: &mut Pass) -> Option<Task>
    requires { pass.old.lock ≡ lock_of_desk desk.now }
    ensures lock { pass.new.lock ≡ pass.old.lock }
    ensures known { IfSome result (λ task. IsKnownBacked pass.new task.cutoff) }
    ensures problem { IfSome result (λ task. IsItsProblem pass.new task.problem) }
{
    match desk.take(rt, pass) {
        Ok(Took::Work(task)) => Some(task),
        Ok(Took::Wait) | Ok(Took::Over) | Err(_) => None,
    }
}

/// Does a pass get `Wait` when it takes work?
pub fn waits<R: Wait>(rt: &R, desk: &Desk, pass: &mut Pass) -> bool
    requires { pass.old.lock ≡ lock_of_desk desk.now }
    ensures lock { pass.new.lock ≡ pass.old.lock }
{
    let took = desk.take(rt, pass);
    let waits = matches!(&took, Ok(Took::Wait));
    drop(took);
    waits
}

/// Does a pass get `Over` when it takes work?
pub fn is_over<R: Wait>(rt: &R, desk: &Desk, pass: &mut Pass) -> bool
    requires { pass.old.lock ≡ lock_of_desk desk.now }
    ensures lock { pass.new.lock ≡ pass.old.lock }
{
    let took = desk.take(rt, pass);
    let is_over = matches!(&took, Ok(Took::Over));
    drop(took);
    is_over
}

/// Does the next step of a task branch?
pub fn splits(task: &mut Task) -> bool
    ensures { task.new.problem ≡ task.old.problem }
{
    matches!(task.step(), Ok(Step::Split))
}

/// Does a report of two boxes left ask for this number of boxes?
pub fn is_asked_for<R: Wait>(rt: &R, desk: &Desk, pass: &mut Pass, count: u32) -> bool
    requires { pass.old.lock ≡ lock_of_desk desk.now }
    ensures lock { pass.new.lock ≡ pass.old.lock }
{
    match desk.state(rt, pass, 2, 0) {
        Ok(reply) => reply.collect == count && !reply.stop,
        Err(_) => false,
    }
}

/// Is the first box that a task hands kept?
pub fn hands<R: Wait>(rt: &R, desk: &Desk, pass: &mut Pass, task: &mut Task) -> bool
    requires { pass.old.lock ≡ lock_of_desk desk.now }
    ensures lock { pass.new.lock ≡ pass.old.lock }
{
    let Ok(Some(handed)) = task.hand() else {
        return false;
    };
    let heard = desk.hand(rt, pass, handed.number, &handed.area);
    drop(handed);
    heard == Heard::Kept
}

// Returns the point (0, 5).
fn least(alloc: Global) -> Option<Point> {
    Some(Point::from_vec(Vec::from_slice(alloc, &[0, 5]).ok()?))
}

/// Is the point (0, 5) kept when a pass reports it?
pub fn offers_least<R: Wait>(rt: &R, alloc: Global, desk: &Desk, pass: &mut Pass) -> bool
    requires { pass.old.lock ≡ lock_of_desk desk.now }
    ensures lock { pass.new.lock ≡ pass.old.lock }
{
    match least(alloc) {
        Some(point) => desk.solution(rt, pass, point) == Heard::Kept,
        None => false,
    }
}
