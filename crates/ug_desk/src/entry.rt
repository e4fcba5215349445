ghost use Rattle.std.specs.Prelude.{◌≡◌, ℕ};
ghost use Rattle.ug_desk.specs.Histories.{taken, offered, handed, stated, ended, left, copied};
ghost use Rattle.ug_desk.specs.Givens.{taken_by};

use crate::given::Given;
use std::marker::Model;
use std::snapshot::Snapshot;
use ug_base::Task;
use ug_book::Unfinished;
use ug_rows::{IntBox, Point};
use ug_rules::Heard;
use ug_worker::{Reply, Untaken};

/// A call of a pass as the history of its desk has it. What was said and answered it has as
/// snapshots, which have no bytes.
#[derive(Drop)]
pub struct Entry {
    pass: u32,
    said: Said,
}

/// What was called, and what was answered.
#[derive(Drop)]
pub enum Said {
    Taken(Snapshot<Result<Given, Untaken>>),
    Offered(Snapshot<Point>, Snapshot<Heard>),
    Handed(u64, Snapshot<IntBox>, Snapshot<Heard>),
    Stated(u64, Snapshot<i128>, Snapshot<Result<Reply, Unfinished>>),
    Ended(Snapshot<Task>, Snapshot<Heard>),
    Left,
    Copied,
}

impl Model for Entry {
    ghost use Rattle.ug_desk.specs.Histories.{Entry};
    ghost use Rattle.ug_desk.specs.Views.{entry_of};

    ghost Value = { Entry };

    ghost view = { entry_of };
}

impl Entry {
    /// The pass took what there was.
    pub(crate) fn taken(pass: u32, given: &Result<Given, Untaken>) -> Entry
        ensures { result ≡ record { pass = pass; call = taken (taken_by given.now) } }
    {
        Entry {
            pass,
            said: Said::Taken(Snapshot::of(given)),
        }
    }

    /// It offered a point.
    pub(crate) fn offered(pass: u32, point: Snapshot<Point>, heard: &Heard) -> Entry
        ensures { result ≡ record { pass = pass; call = offered point.value heard.now } }
    {
        Entry {
            pass,
            said: Said::Offered(point, Snapshot::of(heard)),
        }
    }

    /// It handed a box.
    pub(crate) fn handed(pass: u32, number: u64, area: &IntBox, heard: &Heard) -> Entry
        ensures { result ≡ record { pass = pass; call = handed number area.now heard.now } }
    {
        Entry {
            pass,
            said: Said::Handed(number, Snapshot::of(area), Snapshot::of(heard)),
        }
    }

    /// It reported what is left.
    pub(crate) fn stated(
        pass: u32,
        left: u64,
        floor: i128,
        reply: &Result<Reply, Unfinished>,
    ) -> Entry
        ensures { result ≡ record { pass = pass; call = stated left floor reply.now } }
    {
        Entry {
            pass,
            said: Said::Stated(left, Snapshot::of(&floor), Snapshot::of(reply)),
        }
    }

    /// It ended a task.
    pub(crate) fn ended(pass: u32, task: &Task, heard: &Heard) -> Entry
        ensures { result ≡ record { pass = pass; call = ended task.now heard.now } }
    {
        Entry {
            pass,
            said: Said::Ended(Snapshot::of(task), Snapshot::of(heard)),
        }
    }

    /// It left.
    pub(crate) fn left(pass: u32) -> Entry
        ensures { result ≡ record { pass = pass; call = left } }
    {
        Entry {
            pass,
            said: Said::Left,
        }
    }

    /// It copied what is held.
    pub(crate) fn copied(pass: u32) -> Entry
        ensures { result ≡ record { pass = pass; call = copied } }
    {
        Entry {
            pass,
            said: Said::Copied,
        }
    }
}
