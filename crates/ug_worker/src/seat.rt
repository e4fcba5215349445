ghost use Rattle.std.specs.Prelude.{◌≡◌, ◌*◌, ◌^◌, ◌≤◌, ◌<◌, [], Some, None, IfOk, OnOk, OnErr, MatchBool, unsigned_abs};
ghost use Rattle.ug_problem.specs.Better.{IsSmallCutoff};
ghost use Rattle.ug_base.specs.Tasks.{TaskState};
ghost use Rattle.ug_rows.specs.declared.area.Interval.{Interval};
ghost use Rattle.ug_worker.specs.declared.round_count.RoundCount.{RoundCount};
ghost use Rattle.ug_worker.specs.Engagements.{Engaged, HasTaken, IsDoneBy, IsFoundBy};
ghost use Rattle.ug_worker.specs.Engagements.{IsHandedBy, IsReplied, IsStatedBy, Stands, under};
ghost use Rattle.ug_worker.specs.Releases.{counted};

use crate::reply::Reply;
use crate::took::{Took, Untaken};
use std::alloc::AllocError;
use ug_base::Task;
use ug_rows::{IntBox, Point};

/// A worker's connection to its coordinator, for taking tasks and reporting. The precondition of a
/// call says what the worker must have done before it, in terms of the task at the previous call
/// and of the rounds made.
pub trait Seat {
    ghost use Rattle.std.specs.Prelude.{Option};
    ghost use Rattle.ug_worker.specs.declared.round_count.RoundCount.{RoundCount};
    ghost use Rattle.ug_worker.specs.Engagements.{Engaged};

    /// The worker has made these rounds, and its task is this one, or it has none.
    ghost at: { Self → RoundCount → Option Engaged → Type 0 };

    /// No more work comes.
    ghost over: { Self → Type 0 };

    /// What a seat belongs to, which no call changes: at a desk, the lock.
    type Home;

    ghost home: { Self → Self.Home };

    /// Asks for work. Returns a task, `Wait` or `Over`; fails if memory runs out.
    fn take(&mut self) -> Result<Took, Untaken>
        requires at { (round_count : RoundCount) × at self.old round_count None }
        ensures took { (round_count : RoundCount) → at self.old round_count None
            → IfOk result (HasTaken (at self.new) round_count (over self.new)) }
        ensures err { OnErr result (Stands (at self.new)) }
        ensures home { home self.new ≡ home self.old };

    /// Returns the orders before the first round of a task.
    fn look(&mut self) -> Reply
        requires at { (round_count : RoundCount) × (e : Engaged) × at self.old round_count (Some e)
            × (e.made ≡ 0) }
        ensures small { IsSmallCutoff result.cutoff }
        ensures replied { (round_count : RoundCount) (e : Engaged)
            → at self.old round_count (Some e) → e.made ≡ 0
            → IsReplied (at self.new round_count) e.task result }
        ensures home { home self.new ≡ home self.old };

    /// Returns a cutoff that is known without a report, between two rounds.
    fn cutoff(&mut self) -> Option<i128>
        requires at { (round_count : RoundCount) × (e : Engaged) × at self.old round_count (Some e)
            × (e.made ≡ 0) }
        ensures small { IsSmallCutoff result }
        ensures known { (round_count : RoundCount) (e : Engaged) → at self.old round_count (Some e)
            → e.made ≡ 0
            → at self.new round_count (Some (under result e)) }
        ensures home { home self.new ≡ home self.old };

    /// Reports a point that was found. Returns false if the task must be dropped.
    fn solution(&mut self, point: Point) -> bool
        requires at { (round_count : RoundCount) × (e f : Engaged)
            × at self.old round_count (Some e)
            × IsFoundBy e point f }
        ensures found { (round_count : RoundCount) (e f : Engaged)
            → at self.old round_count (Some e)
            → IsFoundBy e point f
            → MatchBool result (at self.new round_count (Some f)) (at self.new round_count None) }
        ensures home { home self.new ≡ home self.old };

    /// Hands over a box, either because it is asked for or because the task is released.
    fn hand(&mut self, number: u64, area: &IntBox) -> Result<(), AllocError>
        requires at { (round_count : RoundCount) × (e f : Engaged)
            × at self.old round_count (Some e)
            × IsHandedBy round_count e number area.now f }
        ensures ok { (round_count : RoundCount) (e f : Engaged) → at self.old round_count (Some e)
            → IsHandedBy round_count e number area.now f
            → OnOk result (at self.new round_count (Some f)) }
        ensures err { OnErr result (Stands (at self.new)) }
        ensures home { home self.new ≡ home self.old };

    /// Reports the number of boxes left and the least of their floors, and counts the round.
    /// Returns the orders before the next round.
    fn state(&mut self, left: u64, floor: i128) -> Result<Reply, AllocError>
        requires some { 0 < left }
        requires value { unsigned_abs floor ≤ 2 * 10 ^ 37 }
        requires at { (round_count : RoundCount) × (e f : Engaged)
            × at self.old round_count (Some e)
            × IsStatedBy round_count e left floor f }
        ensures small { IfOk result (λ reply. IsSmallCutoff reply.cutoff) }
        ensures replied { (round_count : RoundCount) (e f : Engaged)
            → at self.old round_count (Some e)
            → IsStatedBy round_count e left floor f
            → IfOk result (IsReplied (at self.new (counted round_count)) f.task) }
        ensures err { OnErr result (Stands (at self.new)) }
        ensures home { home self.new ≡ home self.old };

    /// Reports a task as done: it has no box left.
    fn done(&mut self, task: Task)
        requires none { task.boxes ≡ [] }
        requires at { (round_count : RoundCount) × (e : Engaged) × at self.old round_count (Some e)
            × IsDoneBy e task }
        ensures done { (round_count : RoundCount) (e : Engaged) → at self.old round_count (Some e)
            → IsDoneBy e task
            → at self.new round_count None }
        ensures home { home self.new ≡ home self.old };

    /// Ends the worker in the middle of a task.
    fn give_up(&mut self, task: Task)
        requires { Stands (at self.old) }
        ensures over { over self.new }
        ensures home { home self.new ≡ home self.old };

    /// Ends the worker.
    fn leave(&mut self)
        requires { Stands (at self.old) }
        ensures over { over self.new }
        ensures home { home self.new ≡ home self.old };

    /// Waits until there may be work, after `take` has returned `Wait`. Returns false if no more
    /// work can come.
    fn rest(&mut self) -> bool
        requires { (round_count : RoundCount) × at self.old round_count None }
        ensures rested { (round_count : RoundCount) → at self.old round_count None
            → MatchBool result (at self.new round_count None) (over self.new) }
        ensures home { home self.new ≡ home self.old };
}
