//! The search of a task in rounds of steps.

ghost use Rattle.std.specs.Prelude.{◌≡◌, ◌<◌, ◌≤◌, ◌+◌, ◌*◌, ◌^◌, [], true, false, length, unsigned_abs, IfErr, IfOk, OnErr, OnOk};
ghost use Rattle.ug_problem.specs.Better.{IsSmallCutoff};
ghost use Rattle.ug_base.specs.Tasks.{IsLeastFloor, IsTask};
ghost use Rattle.ug_worker.specs.Engagements.{HasBegun, IsReplied, Stands, due_by, lowered};
ghost use Rattle.ug_worker.specs.Releases.{IsDue};
ghost use Rattle.ug_worker.specs.Workers.{EndsAs, HasHanded, HasStepped, HasGiven, HasMade, IsGiving, IsToTell, StandsAt};

use crate::reply::Reply;
use crate::round_count::RoundCount;
use crate::seat::Seat;
use std::alloc::AllocError;
use ug_base::{Step, Task};

/// The number of steps of a round, after which a worker reads its orders.
const STEPS: u32 = 64;

/// Why the search of a task ended.
#[derive(Clone, Copy)]
pub enum Left {
    /// No box is left.
    Nothing,
    /// The worker must drop the task.
    Dropped,
    /// Out of memory.
    Wanting,
}

/// The orders of a worker between two rounds.
#[derive(Clone, Copy, PartialEq, Eq)]
pub struct Asked {
    /// The number of boxes to hand.
    pub count: u32,
    /// Do others have the same box?
    pub racing: bool,
}

/// A task that is searched.
#[derive(Drop)]
pub struct Search {
    /// The task.
    pub task: Task,
    /// The rounds made.
    pub round_count: RoundCount,
    /// The orders in force.
    pub asked: Asked,
}

impl Search {
    /// Begins a task: obeys what was ordered before its first round. Fails if the task ends here.
    pub fn begin<S: Seat>(&mut self, seat: &mut S) -> Result<(), Left>
        requires { HasBegun (S.at seat.old self.old.round_count) self.old.task }
        ensures ok { OnOk result
            (StandsAt (S.at seat.new self.new.round_count) self.new.task 0 self.new.asked) }
        ensures err { IfErr result
            (λ left. EndsAs (S.at seat.new) self.new.round_count left self.new.task) }
        ensures home { S.home seat.new ≡ S.home seat.old }
    {
        let reply = seat.look();
        self.obey(seat, reply)
    }

    /// Makes a round of steps, then hands the boxes that are asked for and reports what is left, or
    /// releases the task. Fails if the task ends here.
    pub fn round<S: Seat>(&mut self, seat: &mut S) -> Result<(), Left>
        requires { StandsAt (S.at seat.old self.old.round_count) self.old.task 0 self.old.asked }
        ensures ok { OnOk result
            (StandsAt (S.at seat.new self.new.round_count) self.new.task 0 self.new.asked) }
        ensures err { IfErr result
            (λ left. EndsAs (S.at seat.new) self.new.round_count left self.new.task) }
        ensures home { S.home seat.new ≡ S.home seat.old }
    {
        self.know(seat);
        self.steps(seat)?;
        if self.task.left() == 0 {
            is_one(&self.task);
            return Err(Left::Nothing);
        }
        if self.hands(seat).is_err() {
            return Err(Left::Wanting);
        }
        if self.round_count.is_due(self.asked.racing) {
            return Err(self.release(seat));
        }
        self.tell(seat)
    }

    // Uses a cutoff that the seat knows.
    fn know<S: Seat>(&mut self, seat: &mut S)
        requires { StandsAt (S.at seat.old self.old.round_count) self.old.task 0 self.old.asked }
        ensures stands { StandsAt
            (S.at seat.new self.new.round_count) self.new.task 0 self.new.asked }
        ensures home { S.home seat.new ≡ S.home seat.old }
    {
        let cutoff = seat.cutoff();
        lower(&mut self.task, cutoff);
    }

    // Makes the steps of a round, or fewer if no box is left.
    fn steps<S: Seat>(&mut self, seat: &mut S) -> Result<(), Left>
        requires { StandsAt (S.at seat.old self.old.round_count) self.old.task 0 self.old.asked }
        ensures ok { OnOk result
            (HasStepped (S.at seat.new self.new.round_count) self.new.task self.new.asked) }
        ensures err { IfErr result
            (λ left. EndsAs (S.at seat.new) self.new.round_count left self.new.task) }
        ensures home { S.home seat.new ≡ S.home seat.old }
    {
        for made in 0..STEPS {
            if !self.step(seat, made)? {
                return Ok(());
            }
        }
        Ok(())
    }

    // Makes a step and reports the point that it finds. Returns false if no box is left.
    fn step<S: Seat>(&mut self, seat: &mut S, made: u32) -> Result<bool, Left>
        requires stands { StandsAt
            (S.at seat.old self.old.round_count) self.old.task made self.old.asked }
        requires room { made < 64 }
        ensures stands { IfOk result
            (λ more. HasMade (S.at seat.new self.new.round_count) more made self.new.task
            self.new.asked) }
        ensures err { IfErr result
            (λ left. EndsAs (S.at seat.new) self.new.round_count left self.new.task) }
        ensures home { S.home seat.new ≡ S.home seat.old }
    {
        let Ok(step) = self.task.step() else {
            return Err(Left::Wanting);
        };
        match step {
            Step::Found(point) => {
                is_one(&self.task);
                if seat.solution(point) {
                    Ok(true)
                } else {
                    Err(Left::Dropped)
                }
            }
            Step::Empty => Ok(false),
            Step::Pruned => Ok(true),
            Step::Split => Ok(true),
        }
    }

    // Hands as many boxes as are asked for, or fewer if only one is left.
    fn hands<S: Seat>(&mut self, seat: &mut S) -> Result<(), AllocError>
        requires stands { StandsAt
            (S.at seat.old self.old.round_count) self.old.task 64 self.old.asked }
        requires left { 0 < length self.old.task.boxes }
        ensures ok { OnOk result
            (HasHanded (S.at seat.new self.new.round_count) self.new.task self.new.asked) }
        ensures err { OnErr result (Stands (S.at seat.new)) }
        ensures home { S.home seat.new ≡ S.home seat.old }
    {
        for _ in 0..self.asked.count {
            if !self.hand(seat)? {
                return Ok(());
            }
        }
        Ok(())
    }

    // Hands a box. Returns false if fewer than two are left.
    fn hand<S: Seat>(&mut self, seat: &mut S) -> Result<bool, AllocError>
        requires stands { StandsAt
            (S.at seat.old self.old.round_count) self.old.task 64 self.old.asked }
        requires some { 0 < self.old.asked.count }
        requires left { 0 < length self.old.task.boxes }
        ensures given { IfOk result (λ more. HasGiven (S.at seat.new self.new.round_count) more
            self.old.asked.count self.new.task self.new.asked) }
        ensures err { OnErr result (Stands (S.at seat.new)) }
        ensures home { S.home seat.new ≡ S.home seat.old }
    {
        let Some(handed) = self.task.hand()? else {
            return Ok(false);
        };
        is_one(&self.task);
        let told = seat.hand(handed.number, &handed.area);
        drop(handed);
        told?;
        self.asked.count -= 1;
        Ok(true)
    }

    // Releases the task: hands over every box left.
    fn release<S: Seat>(&mut self, seat: &mut S) -> Left
        requires handed { HasHanded
            (S.at seat.old self.old.round_count) self.old.task self.old.asked }
        requires due { IsDue self.old.round_count self.old.asked.racing }
        ensures ends { EndsAs (S.at seat.new) self.new.round_count result self.new.task }
        ensures home { S.home seat.new ≡ S.home seat.old }
    {
        match self.give_all(seat) {
            Ok(()) => {
                is_one(&self.task);
                Left::Nothing
            }
            Err(_) => Left::Wanting,
        }
    }

    // Hands over each box left, in order.
    fn give_all<S: Seat>(&mut self, seat: &mut S) -> Result<(), AllocError>
        requires { IsGiving
            (S.at seat.old self.old.round_count) self.old.round_count self.old.task }
        ensures given { OnOk result
            (IsGiving (S.at seat.new self.new.round_count) self.new.round_count self.new.task) }
        ensures none { OnOk result (self.new.task.boxes ≡ []) }
        ensures err { OnErr result (Stands (S.at seat.new)) }
        ensures home { S.home seat.new ≡ S.home seat.old }
    {
        for _ in 0..self.task.left() {
            self.give(seat)?;
        }
        Ok(())
    }

    // Hands over the first box left.
    fn give<S: Seat>(&mut self, seat: &mut S) -> Result<(), AllocError>
        requires giving { IsGiving
            (S.at seat.old self.old.round_count) self.old.round_count self.old.task }
        requires left { 0 < length self.old.task.boxes }
        ensures given { OnOk result
            (IsGiving (S.at seat.new self.new.round_count) self.new.round_count self.new.task) }
        ensures less { OnOk result (length self.old.task.boxes ≡ length self.new.task.boxes + 1) }
        ensures err { OnErr result (Stands (S.at seat.new)) }
        ensures home { S.home seat.new ≡ S.home seat.old }
    {
        let Some(handed) = self.task.give()? else {
            unreachable!()
        };
        is_one(&self.task);
        let told = seat.hand(handed.number, &handed.area);
        drop(handed);
        told?;
        Ok(())
    }

    // Reports what is left and obeys the answer.
    fn tell<S: Seat>(&mut self, seat: &mut S) -> Result<(), Left>
        requires { IsToTell (S.at seat.old self.old.round_count) self.old.round_count self.old.task
            self.old.asked }
        ensures ok { OnOk result
            (StandsAt (S.at seat.new self.new.round_count) self.new.task 0 self.new.asked) }
        ensures err { IfErr result
            (λ left. EndsAs (S.at seat.new) self.new.round_count left self.new.task) }
        ensures home { S.home seat.new ≡ S.home seat.old }
    {
        let left = self.task.left();
        match self.task.lowest() {
            Some(floor) => self.state(seat, left, floor),
            None => Err(Left::Dropped),
        }
    }

    // Reports the number of boxes left and the least of their floors.
    fn state<S: Seat>(&mut self, seat: &mut S, left: u64, floor: i128) -> Result<(), Left>
        requires told { IsToTell
            (S.at seat.old self.old.round_count) self.old.round_count self.old.task
            self.old.asked }
        requires count { left ≡ length self.old.task.boxes }
        requires least { IsLeastFloor self.old.task.problem self.old.task.boxes floor }
        requires value { unsigned_abs floor ≤ 2 * 10 ^ 37 }
        ensures ok { OnOk result
            (StandsAt (S.at seat.new self.new.round_count) self.new.task 0 self.new.asked) }
        ensures err { IfErr result
            (λ left. EndsAs (S.at seat.new) self.new.round_count left self.new.task) }
        ensures home { S.home seat.new ≡ S.home seat.old }
    {
        match seat.state(left, floor) {
            Ok(reply) => {
                self.round_count.count();
                self.obey(seat, reply)
            }
            Err(_) => Err(Left::Wanting),
        }
    }

    // Obeys the reply.
    fn obey<S: Seat>(&mut self, seat: &S, reply: Reply) -> Result<(), Left>
        requires replied { IsReplied (S.at seat.now self.old.round_count) self.old.task reply }
        requires small { IsSmallCutoff reply.cutoff }
        ensures ok { OnOk result
            (StandsAt (S.at seat.now self.new.round_count) self.new.task 0 self.new.asked) }
        ensures err { IfErr result
            (λ left. EndsAs (S.at seat.now) self.new.round_count left self.new.task) }
    {
        let _seat = seat;
        if reply.stop {
            return Err(Left::Dropped);
        }
        lower(&mut self.task, reply.cutoff);
        self.asked = Asked {
            count: due_by(reply),
            racing: reply.racing,
        };
        Ok(())
    }
}

// Returns the number of boxes to hand: 0 during a race.
fn due_by(reply: Reply) -> u32
    ensures { result ≡ due_by reply }
{
    if reply.racing { 0 } else { reply.collect }
}

// Lowers the cutoff, if there is one.
fn lower(task: &mut Task, cutoff: Option<i128>)
    requires { IsSmallCutoff cutoff }
    ensures { task.new ≡ lowered cutoff task.old }
{
    if let Some(cutoff) = cutoff {
        task.lower(cutoff);
    }
}

// Shows that each feasible point of the task's box below its cutoff is in a box left or in a box
// handed: its type guarantees it.
fn is_one(task: &Task)
    ensures { IsTask task.now }
{
    let _problem = task.problem();
    let _whole = task.whole();
    let _cutoff = task.cutoff();
    let _gap = task.gap();
    let _left = task.left();
    let _handed = task.handed();
}
