//! The threads of a solve, one for each pass.

ghost use Rattle.std.specs.Prelude.{◌≡◌, [], length, IfOk, IfSome};
ghost use Rattle.ug_worker.specs.Releases.{usual};
ghost use Rattle.ug_threads.specs.Places.{IsAt, IsAtOf};
ghost use Rattle.ug_threads.specs.Rooms.{AreAllAt};
ghost use Rattle.ug_threads.specs.Crews.{ArePassesAt, HasStarted, IsCrewAt, IsNewCrew, IsPassAt, count_of};

use crate::desk_seat::{BEGUN, DeskSeat};
use crate::pace::Pace;
use crossbeam_channel::Sender;
use std::alloc::{AllocError, Global};
use std::snapshot;
use std::sync::Wait;
use std::sync::atomic::{AtomicU64, Ordering};
use std::thread::{Promise, PromisedHandle, Scope, Threads};
use ug_book::Opening;
use ug_desk::{Desk, Pass};
use ug_restart::{Host, Observer};
use ug_snapshot::Snapshot;
use ug_worker::{ReleasePolicy, work};

/// What the workers share: the desk, the opening of its history, when snapshots are due, and the
/// pass whose thread could not be started, by its rank plus 1.
#[derive(Clone, Copy)]
pub struct Table<'a> {
    pub desk: &'a Desk,
    pub began: &'a Opening,
    pub pace: &'a Pace,
    pub late: &'a AtomicU64,
}

/// That the pass of a rank comes back from its thread, still one of this desk, and its worker has
/// left.
#[derive(Drop)]
pub struct Back {
    pub desk: snapshot::Snapshot<Desk>,
    pub began: snapshot::Snapshot<Opening>,
    pub rank: u32,
}

impl Promise<Pass> for Back {
    ghost kept_by = { λ b p. IsAtOf b.desk.value b.began.value b.rank p };
}

/// The passes of a solve: those that wait for their threads, those whose threads work, and those
/// that came back.
#[derive(Drop)]
pub struct Crew {
    waiting: Vec<Pass>,
    working: Vec<PromisedHandle<Pass, Back>>,
    back: Vec<Pass>,
}

impl Crew {
    /// All passes wait.
    pub fn new(alloc: Global, passes: Vec<Pass>) -> Result<Crew, AllocError>
        ensures { IfOk result (IsNewCrew passes.items) }
    {
        let Ok(working) = Vec::with_capacity(alloc, passes.len()) else {
            drop(passes);
            return Err(AllocError);
        };
        match Vec::with_capacity(alloc, passes.len()) {
            Ok(back) => Ok(Crew {
                waiting: passes,
                working,
                back,
            }),
            Err(error) => {
                drop(passes);
                drop(working);
                Err(error)
            }
        }
    }

    /// Starts a thread for each pass. A pass whose thread was not started leaves; if none was
    /// started, the caller works with one. Only threads keep senders.
    pub fn start<'s, E, R: Threads + Wait + Sync, O: Observer>(
        &mut self,
        scope: &'s Scope<'s, E>,
        host: &'s Host<'s, R, O>,
        table: Table<'s>,
        sender: Sender<Snapshot>,
    )
        requires { IsCrewAt table self.old }
        ensures crew { IsCrewAt table.entry self.new }
        ensures count { count_of self.new ≡ count_of self.old }
        ensures none { self.new.waiting.items ≡ [] }
    {
        self.start_each(scope, host, table, &sender);
        if self.working.is_empty() {
            self.sit_alone(host, table, sender);
        } else {
            drop(sender);
        }
    }

    // Starts a thread for each pass that waits.
    fn start_each<'s, E, R: Threads + Wait + Sync, O: Observer>(
        &mut self,
        scope: &'s Scope<'s, E>,
        host: &'s Host<'s, R, O>,
        table: Table<'s>,
        sender: &Sender<Snapshot>,
    )
        requires { IsCrewAt table self.old }
        ensures crew { IsCrewAt table.entry self.new }
        ensures count { count_of self.new ≡ count_of self.old }
        ensures none { self.new.waiting.items ≡ [] }
    {
        while let Some(pass) = self.waiting.pop() {
            let own = sender_for(sender, table.pace);
            match start_one(scope, host, table, pass, own) {
                Started::Works(handle) => self.working.push_reserved(handle),
                Started::Left(pass) => self.back.push_reserved(pass),
            }
        }
    }

    // The caller works with a pass, where no thread was started.
    fn sit_alone<R: Wait, O: Observer>(
        &mut self,
        host: &Host<'_, R, O>,
        table: Table<'_>,
        sender: Sender<Snapshot>,
    )
        requires { IsCrewAt table self.old }
        ensures crew { IsCrewAt table.entry self.new }
        ensures count { count_of self.new ≡ count_of self.old }
        ensures none { self.new.waiting.items ≡ self.old.waiting.items }
    {
        match self.back.pop() {
            Some(pass) => {
                let pass = sit(host, table, pass, Some(sender));
                self.back.push_reserved(pass);
            }
            None => drop(sender),
        }
    }

    /// All passes, once the threads have ended.
    pub fn join<R: Threads>(self, rt: &R, table: Table<'_>) -> Vec<Pass>
        requires crew { IsCrewAt table self }
        requires none { self.waiting.items ≡ [] }
        ensures { AreAllAt table.entry (count_of self) result.items }
    {
        let _desk = table.desk;
        let Crew {
            waiting,
            working,
            mut back,
        } = self;
        drop(waiting);
        for handle in working {
            back.push_reserved(handle.join(rt));
        }
        back
    }
}

// How the start of a thread went: it works, or the pass has left and came back at once.
#[derive(Drop)]
enum Started {
    Works(PromisedHandle<Pass, Back>),
    Left(Pass),
}

// Starts a thread with a pass. If that fails, the pass leaves, in the caller.
#[tactic(auto, using(ug_desk::proofs::Crossing::pass_send, ug_desk::proofs::Crossing::desk_sync))]
fn start_one<'s, E, R: Threads + Wait + Sync, O: Observer>(
    scope: &'s Scope<'s, E>,
    host: &'s Host<'s, R, O>,
    table: Table<'s>,
    pass: Pass,
    sender: Option<Sender<Snapshot>>,
) -> Started
    requires { IsPassAt table pass }
    ensures { HasStarted table.entry pass.rank result }
{
    let rank = pass.rank();
    let promise = Back {
        desk: snapshot::Snapshot::of(table.desk),
        began: snapshot::Snapshot::of(table.began),
        rank,
    };
    let Table {
        desk,
        began,
        pace,
        late,
    } = table;
    let rt = host.rt;
    let alloc = host.alloc;
    let observer = host.observer;
    let works = move || -> Pass
        requires { IsAt desk.now began.now pass }
        ensures { IsAtOf desk.entry.now began.entry.now pass.rank result }
    {
        let host = Host {
            rt,
            alloc,
            observer,
        };
        let table = Table {
            desk,
            began,
            pace,
            late,
        };
        work_or_leave(&host, table, pass, sender)
    };
    match scope.spawn_with(promise, works) {
        Ok(handle) => Started::Works(handle),
        Err(refused) => {
            late.store(rank as u64 + 1, Ordering::SeqCst);
            Started::Left((refused.value)())
        }
    }
}

// What the thread of a pass does, or the caller in its place, where it could not be started.
fn work_or_leave<R: Wait, O: Observer>(
    host: &Host<'_, R, O>,
    table: Table<'_>,
    mut pass: Pass,
    sender: Option<Sender<Snapshot>>,
) -> Pass
    requires { IsPassAt table pass }
    ensures at { IsPassAt table.entry result }
    ensures own { result.rank ≡ pass.rank }
{
    if table.late.load(Ordering::SeqCst) == pass.rank() as u64 + 1 {
        table.desk.leave(host.rt, &mut pass);
        drop(sender);
        return pass;
    }
    sit(host, table, pass, sender)
}

// Returns a sender, if snapshots are needed and there is memory for it.
fn sender_for(sender: &Sender<Snapshot>, pace: &Pace) -> Option<Sender<Snapshot>> {
    if !pace.is_wanted() {
        return None;
    }
    sender.clone().ok()
}

// A worker with this pass.
fn sit<R: Wait, O: Observer>(
    host: &Host<'_, R, O>,
    table: Table<'_>,
    pass: Pass,
    sender: Option<Sender<Snapshot>>,
) -> Pass
    requires { IsPassAt table pass }
    ensures at { IsPassAt table.entry result }
    ensures own { result.rank ≡ pass.rank }
{
    let mut seat = DeskSeat {
        rt: host.rt,
        alloc: host.alloc,
        desk: table.desk,
        pass,
        observer: host.observer,
        sender,
        pace: table.pace,
        asked: BEGUN,
    };
    work(host.rt, &mut seat, policy_for(table.pace));
    seat.into_pass()
}

// Returns the rule by which tasks are released. Without a checkpoint nothing is gained by it.
fn policy_for(pace: &Pace) -> Option<ReleasePolicy>
    ensures { IfSome result (λ rule. rule ≡ usual) }
{
    if pace.is_wanted() {
        return Some(ReleasePolicy::usual());
    }
    None
}
