//! A task that ends, and a desk that is over.

ghost use Rattle.std.specs.Prelude.{◌≡◌, [], OnOk};
ghost use Rattle.ug_desk.specs.Passes.{lock_of_desk};
ghost use Rattle.ug_book_tests.specs.Both.{AreTwo};

use crate::desks::calls::{is_over, offers_least, waits, work};
use crate::desks::opened::Opened;
use std::alloc::{AllocError, Global};
use std::sync::Wait;
use ug_base::{Step, Task};
use ug_desk::{Desk, Pass};
use ug_rules::Heard;

// Whether a pass finds the point (0, 5), and is reported its value for a cutoff.
fn finds<R: Wait>(rt: &R, alloc: Global, desk: &Desk, pass: &mut Pass) -> bool
    requires { pass.old.lock ≡ lock_of_desk desk.now }
    ensures lock { pass.new.lock ≡ pass.old.lock }
{
    if !offers_least(rt, alloc, desk, pass) {
        return false;
    }
    match desk.state(rt, pass, 1, 0) {
        Ok(reply) => reply.cutoff == Some(5) && !reply.stop,
        Err(_) => false,
    }
}

// Steps a task to its end.
fn search(task: &mut Task) -> Result<(), AllocError>
    ensures none { OnOk result (task.new.boxes ≡ []) }
    ensures problem { task.new.problem ≡ task.old.problem }
{
    loop {
        if matches!(task.step()?, Step::Empty) {
            return Ok(());
        }
    }
}

// Whether a pass takes work, finds no point in it, and it is done, under the cutoff with which it
// was taken.
fn takes_and_ends<R: Wait>(rt: &R, desk: &Desk, pass: &mut Pass) -> bool
    requires { pass.old.lock ≡ lock_of_desk desk.now }
    ensures lock { pass.new.lock ≡ pass.old.lock }
{
    let Some(mut task) = work(rt, desk, pass) else {
        return false;
    };
    let cutoff = task.cutoff();
    let searched = search(&mut task);
    if searched.is_err() || task.cutoff() != cutoff {
        drop(task);
        return false;
    }
    desk.done(rt, pass, task) == Heard::Kept
}

// Whether the first pass finds the point, leaves, and then finds nothing below it, while the second
// one waits.
fn root_is_done<R: Wait>(
    rt: &R,
    alloc: Global,
    desk: &Desk,
    first: &mut Pass,
    second: &mut Pass,
) -> bool
    requires first { first.old.lock ≡ lock_of_desk desk.now }
    requires second { second.old.lock ≡ lock_of_desk desk.now }
    ensures first { first.new.lock ≡ first.old.lock }
    ensures second { second.new.lock ≡ second.old.lock }
{
    match work(rt, desk, first) {
        Some(task) => {
            let found = waits(rt, desk, second) && finds(rt, alloc, desk, first);
            desk.give_up(rt, first, task);
            takes_and_ends(rt, desk, first) && found
        }
        None => false,
    }
}

/// Whether the root is done by the first of two passes, after three calls, which wakes the second
/// where it rests: the desk is over for it.
pub fn is_over_with_the_root<R: Wait>(rt: &R, alloc: Global, opened: &mut Opened) -> bool
    requires { AreTwo opened.old.desk opened.old.first opened.old.second }
    ensures { AreTwo opened.new.desk opened.new.first opened.new.second }
{
    let is_done = root_is_done(
        rt,
        alloc,
        &opened.desk,
        &mut opened.first,
        &mut opened.second,
    );
    if !is_done || opened.first.heard() != 3 {
        return false;
    }
    opened.desk.rest(rt, &opened.second);
    is_over(rt, &opened.desk, &mut opened.second)
}
