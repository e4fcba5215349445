ghost use Rattle.std.specs.Prelude.{◌≡◌, Some, slice_get};
ghost use Rattle.ug_rules.specs.Books.{AreSettings};
ghost use Rattle.ug_desk.specs.Passes.{lock_of_desk};

use crate::start::problem;
use std::alloc::{AllocError, Global};
use std::sync::Wait;
use ug_book::Opening;
use ug_branch::Base;
use ug_desk::{Desk, Pass};
use ug_rules::Settings;
use ug_worker::Took;

/// The answers of a desk to `state` calls.
#[derive(Clone, Copy)]
pub struct Replies {
    /// The number of answers that let the worker continue.
    pub going: u64,
    /// The number of answers that stop it, and of calls that ran out of memory.
    pub other: u64,
    /// The number of snapshots made.
    pub snapshots: u64,
}

impl Replies {
    /// Returns each number with its word.
    pub fn lines(&self) -> [(&'static str, u64); 3] {
        [
            ("going", self.going),
            ("other", self.other),
            ("snapshots", self.snapshots),
        ]
    }
}

/// Takes the root of a desk and reports its state N times. Makes a snapshot at each thousandth
/// report too.
pub fn call_desk<R: Wait>(rt: &R, alloc: Global, calls: u64) -> Result<Replies, AllocError> {
    let opening = Opening::new(alloc, problem(alloc)?, 1, settings())?;
    let (desk, passes) = Desk::new(alloc, opening)?;
    let replies = tell_all(rt, &desk, passes, calls);
    drop(desk);
    Ok(replies)
}

// Takes the work of the last pass, and reports its state N times.
fn tell_all<R: Wait>(rt: &R, desk: &Desk, mut passes: Vec<Pass>, calls: u64) -> Replies
    requires { (k : _) (p : _) → slice_get passes.items k ≡ Some p → p.lock ≡ lock_of_desk desk.now }
{
    let mut replies = Replies {
        going: 0,
        other: 0,
        snapshots: 0,
    };
    if let Some(mut pass) = passes.pop() {
        if takes_work(rt, desk, &mut pass) {
            tell(rt, desk, &mut pass, calls, &mut replies);
        }
        drop(pass);
    }
    replies
}

// Takes work for the pass. Returns whether there is any.
fn takes_work<R: Wait>(rt: &R, desk: &Desk, pass: &mut Pass) -> bool
    requires { pass.old.lock ≡ lock_of_desk desk.now }
    ensures lock { pass.new.lock ≡ pass.old.lock }
{
    let took = desk.take(rt, pass);
    let works = matches!(took, Ok(Took::Work(_)));
    drop(took);
    works
}

// Makes and drops a snapshot. Returns whether it was made.
fn is_copied<R: Wait>(rt: &R, desk: &Desk, pass: &mut Pass) -> bool
    requires { pass.old.lock ≡ lock_of_desk desk.now }
    ensures lock { pass.new.lock ≡ pass.old.lock }
{
    let snapshot = desk.snapshot(rt, pass);
    let is_made = snapshot.is_ok();
    drop(snapshot);
    is_made
}

// Reports `calls` times that two boxes are left.
fn tell<R: Wait>(rt: &R, desk: &Desk, pass: &mut Pass, calls: u64, replies: &mut Replies)
    requires { pass.old.lock ≡ lock_of_desk desk.now }
    ensures lock { pass.new.lock ≡ pass.old.lock }
{
    for call in 0..calls {
        match desk.state(rt, pass, 2, 0) {
            Ok(reply) if !reply.stop => replies.going = replies.going.saturating_add(1),
            _ => replies.other = replies.other.saturating_add(1),
        }
        if call % 1000 == 0 && is_copied(rt, desk, pass) {
            replies.snapshots = replies.snapshots.saturating_add(1);
        }
    }
}

// Returns the settings of a run with one rank.
fn settings() -> Settings
    ensures { AreSettings result }
{
    Settings {
        solvers: 1,
        racing: false,
        base: Base::Bound,
        low: 1,
        high: 2,
        every: 1,
        limit: u64::MAX,
        winner: 20,
        gap: 0,
    }
}
