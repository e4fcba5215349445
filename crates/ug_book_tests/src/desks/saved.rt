//! What a snapshot of a desk has.

ghost use Rattle.std.specs.Prelude.{◌≡◌, [], OnOk};
ghost use Rattle.ug_desk.specs.Passes.{IsItsProblem, lock_of_desk};
ghost use Rattle.ug_book_tests.specs.Both.{AreTwo};

use crate::desks::calls::{splits, work};
use crate::desks::opened::Opened;
use std::alloc::AllocError;
use std::sync::Wait;
use ug_base::Task;
use ug_desk::{Desk, Pass};
use ug_image::SavedNode;
use ug_rules::Heard;

// Gives all boxes of a task.
fn give_all<R: Wait>(
    rt: &R,
    desk: &Desk,
    pass: &mut Pass,
    task: &mut Task,
) -> Result<(), AllocError>
    requires { pass.old.lock ≡ lock_of_desk desk.now }
    ensures done { OnOk result (task.new.boxes ≡ []) }
    ensures problem { task.new.problem ≡ task.old.problem }
    ensures lock { pass.new.lock ≡ pass.old.lock }
    ensures opening { pass.new.opening ≡ pass.old.opening }
{
    loop {
        let Some(handed) = task.give()? else {
            return Ok(());
        };
        desk.hand(rt, pass, handed.number, &handed.area);
        drop(handed);
    }
}

// Whether the hand numbers of these nodes are those from 0 on.
fn are_first_hands(nodes: &[SavedNode]) -> bool {
    for (at, node) in nodes.iter().enumerate() {
        if node.name.hand != at as u64 {
            return false;
        }
    }
    true
}

// How many nodes are saved now, if they are the first hands of their tickets, or the root alone.
fn saved<R: Wait>(rt: &R, desk: &Desk, pass: &mut Pass) -> Option<usize>
    requires { pass.old.lock ≡ lock_of_desk desk.now }
    ensures lock { pass.new.lock ≡ pass.old.lock }
    ensures opening { pass.new.opening ≡ pass.old.opening }
{
    let image = desk.snapshot(rt, pass).ok()?.into_image();
    let nodes = image.nodes.as_slice();
    let count = nodes.len();
    let is_so = are_first_hands(nodes);
    drop(image);
    if is_so { Some(count) } else { None }
}

// Whether all boxes of the task can be given, and then it is done.
fn gives_all<R: Wait>(rt: &R, desk: &Desk, pass: &mut Pass, mut task: Task) -> bool
    requires lock { pass.old.lock ≡ lock_of_desk desk.now }
    requires problem { IsItsProblem pass.old task.problem }
    ensures lock { pass.new.lock ≡ pass.old.lock }
{
    let given = give_all(rt, desk, pass, &mut task);
    if given.is_err() || task.cutoff().is_some() {
        drop(task);
        return false;
    }
    desk.done(rt, pass, task) == Heard::Kept
}

/// Whether the root is what is saved of a task of three boxes, and its boxes once they were given,
/// of the first of two passes.
pub fn boxes_are_saved<R: Wait>(rt: &R, opened: &mut Opened) -> bool
    requires { AreTwo opened.old.desk opened.old.first opened.old.second }
    ensures { AreTwo opened.new.desk opened.new.first opened.new.second }
{
    let desk = &opened.desk;
    let pass = &mut opened.first;
    match work(rt, desk, pass) {
        Some(mut task) => {
            let halved = splits(&mut task) && splits(&mut task);
            let before = saved(rt, desk, pass);
            let given = gives_all(rt, desk, pass, task);
            halved && before == Some(1) && given && saved(rt, desk, pass) == Some(3)
        }
        None => false,
    }
}
