//! The cutoff that a pass reads without the lock.

ghost use Rattle.std.specs.Prelude.{◌≡◌};
ghost use Rattle.ug_desk.specs.Passes.{lock_of_desk};
ghost use Rattle.ug_book_tests.specs.Both.{AreTwo};

use crate::desks::calls::{offers_least, waits, work};
use crate::desks::opened::Opened;
use std::alloc::Global;
use std::sync::Wait;
use ug_desk::{Desk, Pass};

/// Whether the cutoff that the second pass reads without the lock is this one once the first has
/// found the point, and whether both have then seen what each had: the two calls before a snapshot,
/// and it.
pub fn cutoff_is_read<R: Wait>(rt: &R, alloc: Global, opened: &mut Opened, cutoff: i128) -> bool
    requires { AreTwo opened.old.desk opened.old.first opened.old.second }
    ensures { AreTwo opened.new.desk opened.new.first opened.new.second }
{
    let desk = &opened.desk;
    let first = &mut opened.first;
    let second = &mut opened.second;
    let Some(task) = work(rt, desk, first) else {
        return false;
    };
    drop(task);
    let waited = waits(rt, desk, second);
    let before = desk.cutoff(second);
    desk.meet(first, second);
    let length = length(rt, desk, second);
    let found = offers_least(rt, alloc, desk, first);
    waited && before.is_none() && length == Some(3) && found && desk.cutoff(second) == Some(cutoff)
}

// How many calls the history has with a snapshot.
fn length<R: Wait>(rt: &R, desk: &Desk, pass: &mut Pass) -> Option<u64>
    requires { pass.old.lock ≡ lock_of_desk desk.now }
    ensures lock { pass.new.lock ≡ pass.old.lock }
{
    let snapshot = desk.snapshot(rt, pass).ok()?;
    let count = snapshot.count();
    drop(snapshot);
    Some(count)
}
