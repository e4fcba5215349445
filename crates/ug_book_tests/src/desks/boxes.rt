//! A box that goes from one pass to the other.

ghost use Rattle.std.specs.Prelude.{◌≡◌};
ghost use Rattle.ug_desk.specs.Passes.{lock_of_desk};
ghost use Rattle.ug_book_tests.specs.Both.{AreTwo};

use crate::desks::calls::{hands, is_asked_for, splits, waits, work};
use crate::desks::opened::Opened;
use std::sync::Wait;
use ug_base::Task;
use ug_desk::{Desk, Pass};
use ug_nodes::Ticket;
use ug_rows::Interval;

// Whether a task is of the upper half of the first column, under the second ticket.
fn is_upper_half(task: &Task) -> bool {
    let seven = Interval { low: 0, high: 7 };
    let upper = Interval { low: 4, high: 7 };
    task.whole().as_slice() == [upper, seven].as_slice()
        && task.ticket() == (Ticket { run: 1, number: 2 })
}

// Whether a pass hands a box as soon as one is asked for, which is so once another has waited.
fn hands_when_asked<R: Wait>(
    rt: &R,
    desk: &Desk,
    first: &mut Pass,
    second: &mut Pass,
    task: &mut Task,
) -> bool
    requires first { first.old.lock ≡ lock_of_desk desk.now }
    requires second { second.old.lock ≡ lock_of_desk desk.now }
    ensures first { first.new.lock ≡ first.old.lock }
    ensures second { second.new.lock ≡ second.old.lock }
{
    waits(rt, desk, second)
        && splits(task)
        && is_asked_for(rt, desk, first, 0)
        && waits(rt, desk, second)
        && is_asked_for(rt, desk, first, 3)
        && hands(rt, desk, first, task)
}

// Whether the work that a pass takes is of the upper half.
fn takes_upper_half<R: Wait>(rt: &R, desk: &Desk, pass: &mut Pass) -> bool
    requires { pass.old.lock ≡ lock_of_desk desk.now }
    ensures lock { pass.new.lock ≡ pass.old.lock }
{
    let Some(given) = work(rt, desk, pass) else {
        return false;
    };
    let is_so = is_upper_half(&given);
    drop(given);
    is_so
}

// Whether the first pass takes work and hands a box of it, which the second one takes.
fn box_goes_over<R: Wait>(rt: &R, desk: &Desk, first: &mut Pass, second: &mut Pass) -> bool
    requires first { first.old.lock ≡ lock_of_desk desk.now }
    requires second { second.old.lock ≡ lock_of_desk desk.now }
    ensures first { first.new.lock ≡ first.old.lock }
    ensures second { second.new.lock ≡ second.old.lock }
{
    let Some(mut task) = work(rt, desk, first) else {
        return false;
    };
    let hands = hands_when_asked(rt, desk, first, second, &mut task);
    drop(task);
    hands
}

/// Whether the first of two passes hands a box, which wakes the second where it rests, and is then
/// its work.
pub fn box_is_work<R: Wait>(rt: &R, opened: &mut Opened) -> bool
    requires { AreTwo opened.old.desk opened.old.first opened.old.second }
    ensures { AreTwo opened.new.desk opened.new.first opened.new.second }
{
    if !box_goes_over(rt, &opened.desk, &mut opened.first, &mut opened.second) {
        return false;
    }
    opened.desk.rest(rt, &opened.second);
    takes_upper_half(rt, &opened.desk, &mut opened.second)
}
