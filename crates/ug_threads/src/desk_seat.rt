ghost use Rattle.std.specs.Prelude.{◌≡◌, IfOk, OnErr};
ghost use Rattle.ug_desk.specs.Passes.{lock_of_desk};
ghost use Rattle.ug_threads.specs.Traces.{HasStayed};

use crate::pace::Pace;
use crate::told::{answered, goes_on, told};
use crossbeam_channel::Sender;
use std::alloc::{AllocError, Global};
use std::sync::Wait;
use ug_base::Task;
use ug_book::{Opening, Unfinished};
use ug_desk::{Desk, Pass};
use ug_restart::{Moment, Observer, Progress, progress_of};
use ug_rows::{IntBox, Point};
use ug_rules::Heard;
use ug_snapshot::Snapshot;
use ug_worker::{Asked, Reply, Seat, Took, Untaken, cutoff_of_point};

/// What no call of a seat changes: its desk, what the history began with, and its rank.
#[derive(Drop)]
pub struct Home {
    pub desk: Desk,
    pub began: Option<Opening>,
    pub rank: u32,
}

/// The orders for a task that was just taken: nothing is asked for, and others may have the same
/// box.
pub const BEGUN: Asked = Asked {
    count: 0,
    racing: true,
};

// Returns the orders after a reply, or the previous ones if there is none.
fn asked_by(reply: Result<Reply, Unfinished>, before: Asked) -> Asked
    ensures ok { IfOk reply (λ own.
        result ≡ record { count = own.collect; racing = own.racing }) }
    ensures err { OnErr reply (result ≡ before) }
{
    match reply {
        Ok(reply) => Asked {
            count: reply.collect,
            racing: reply.racing,
        },
        Err(_) => before,
    }
}

/// A seat at a desk that threads share, with what a worker brings along.
#[derive(Drop)]
pub struct DeskSeat<'a, R, O> {
    pub rt: &'a R,
    pub alloc: Global,
    pub desk: &'a Desk,
    pub pass: Pass,
    pub observer: &'a O,
    /// The channel for snapshots, if they are needed.
    pub sender: Option<Sender<Snapshot>>,
    /// When they are due.
    pub pace: &'a Pace,
    /// The orders for the worker's task.
    pub asked: Asked,
}

// Sends a snapshot if one is due, unless others wait to be saved. A snapshot that runs out of
// memory is not sent.
fn send_if_due<R: Wait>(
    rt: &R,
    desk: &Desk,
    pass: &mut Pass,
    sender: &Option<Sender<Snapshot>>,
    pace: &Pace,
)
    requires { pass.old.lock ≡ lock_of_desk desk.now }
    ensures { HasStayed pass.old pass.new }
{
    let Some(sender) = sender else {
        return;
    };
    if sender.is_full() || !pace.is_due(pass.heard()) {
        return;
    }
    if let Ok(snapshot) = desk.snapshot(rt, pass) {
        pace.sent(pass.heard(), snapshot.nodes());
        drop(sender.try_send(rt, snapshot));
    }
}

// Returns the progress of the run, if it is needed and memory suffices. The bound is from before
// the snapshot: the incumbent is then no better than it was for the nodes that have left.
fn progress<R: Wait>(
    rt: &R,
    alloc: Global,
    desk: &Desk,
    pass: &mut Pass,
    is_wanted: bool,
) -> Option<Progress>
    requires { pass.old.lock ≡ lock_of_desk desk.now }
    ensures { HasStayed pass.old pass.new }
{
    if !is_wanted {
        return None;
    }
    let held = desk.bound(rt, pass);
    let image = desk.snapshot(rt, pass).ok()?.into_image();
    let progress = progress_of(alloc, &image, held);
    drop(image);
    progress
}

impl<'a, R, O> DeskSeat<'a, R, O> {
    /// The pass, which the worker leaves.
    pub fn into_pass(self) -> Pass
        ensures { result ≡ self.entry.pass }
    {
        let DeskSeat { pass, sender, .. } = self;
        drop(sender);
        pass
    }
}

impl<'a, R: Wait, O: Observer> Seat for DeskSeat<'a, R, O> {
    ghost use Rattle.std.specs.Prelude.{◌≡◌, Option};
    ghost use Rattle.ug_threads.specs.Traces.{IsLeft, IsSeated};

    // The pass's own calls are those of a worker in this state.
    ghost at = { λ seat round_count some. IsSeated seat.desk.now seat.pass seat.asked round_count some };

    ghost over = { λ seat. IsLeft seat.desk.now seat.pass };

    type Home = Home;

    ghost home = { λ seat. record {
      desk = seat.desk.now;
      began = seat.pass.opening;
      rank = seat.pass.rank;
    } };

    fn take(&mut self) -> Result<Took, Untaken> {
        self.observer.pass(self.pass.rank(), Moment::Asking);
        let took = self.desk.take(self.rt, &mut self.pass);
        self.asked = BEGUN;
        self.observer.pass(self.pass.rank(), Moment::Answered);
        took
    }

    fn look(&mut self) -> Reply {
        Reply {
            collect: self.asked.count,
            racing: self.asked.racing,
            ..Reply::nothing()
        }
    }

    fn cutoff(&mut self) -> Option<i128> {
        cutoff_of_point(self.desk.cutoff(&mut self.pass))
    }

    fn solution(&mut self, point: Point) -> bool {
        self.observer.pass(self.pass.rank(), Moment::Asking);
        let heard = self.desk.solution(self.rt, &mut self.pass, point);
        self.observer.pass(self.pass.rank(), Moment::Answered);
        send_if_due(self.rt, self.desk, &mut self.pass, &self.sender, self.pace);
        let is_wanted = self.observer.wants(self.pass.heard(), heard == Heard::Kept);
        let progress = progress(self.rt, self.alloc, self.desk, &mut self.pass, is_wanted);
        if let Some(progress) = progress {
            self.observer.tell(&progress);
            drop(progress);
        }
        goes_on(heard)
    }

    fn hand(&mut self, number: u64, area: &IntBox) -> Result<(), AllocError> {
        self.observer.pass(self.pass.rank(), Moment::Asking);
        let heard = self.desk.hand(self.rt, &mut self.pass, number, area);
        self.asked.count = self.asked.count.saturating_sub(1);
        self.observer.pass(self.pass.rank(), Moment::Answered);
        send_if_due(self.rt, self.desk, &mut self.pass, &self.sender, self.pace);
        told(heard)
    }

    fn state(&mut self, left: u64, floor: i128) -> Result<Reply, AllocError> {
        self.observer.pass(self.pass.rank(), Moment::Asking);
        let reply = self.desk.state(self.rt, &mut self.pass, left, floor);
        self.asked = asked_by(reply, self.asked);
        self.observer.pass(self.pass.rank(), Moment::Answered);
        send_if_due(self.rt, self.desk, &mut self.pass, &self.sender, self.pace);
        let is_wanted = self.observer.wants(self.pass.heard(), false);
        let progress = progress(self.rt, self.alloc, self.desk, &mut self.pass, is_wanted);
        if let Some(progress) = progress {
            self.observer.tell(&progress);
            drop(progress);
        }
        answered(reply)
    }

    fn done(&mut self, task: Task) {
        self.observer.pass(self.pass.rank(), Moment::Asking);
        self.desk.done(self.rt, &mut self.pass, task);
        self.observer.pass(self.pass.rank(), Moment::Answered);
        send_if_due(self.rt, self.desk, &mut self.pass, &self.sender, self.pace);
    }

    fn give_up(&mut self, task: Task) {
        self.desk.give_up(self.rt, &mut self.pass, task);
    }

    fn leave(&mut self) {
        self.desk.leave(self.rt, &mut self.pass);
    }

    fn rest(&mut self) -> bool {
        self.desk.rest(self.rt, &self.pass);
        true
    }
}
