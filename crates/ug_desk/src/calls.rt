// The calls of a pass. Each takes one turn of the lock, except `cutoff` and `meet`.
ghost use Rattle.std.specs.Prelude.{◌≡◌, ◌<◌, [], Some, None, IfOk, IfSome, OnErr};
ghost use Rattle.ug_turn.specs.Seats.{IsAtRestAt, view_of};
ghost use Rattle.ug_desk.specs.Histories.{offered, stated};
ghost use Rattle.ug_desk.specs.Passes.{HasCalled, HasCopied, HasEndedIn, HasHandedIn, HasLeft};
ghost use Rattle.ug_desk.specs.Passes.{HasLooked, HasMet, HasTakenIn, IsItsProblem, lock_of_desk};
ghost use Rattle.ug_problem.specs.Better.{IsSmallCutoff};
ghost use Rattle.ug_desk.specs.Backing.{IsKnownBacked, IsUnbackedAnswer};
ghost use Rattle.ug_desk.specs.LockedBooks.{HasTakenOut, IsOutFor};

use crate::desk::Desk;
use crate::entry::Entry;
use crate::given::opened;
use crate::locked_book::LockedBook;
use crate::pass::Pass;
use crate::word::cutoff_at;
use std::alloc::AllocError;
use std::snapshot;
use std::sync::Wait;
use ug_base::Task;
use ug_book::Unfinished;
use ug_rows::{IntBox, Point};
use ug_rules::Heard;
use ug_snapshot::Snapshot;
use ug_turn::SeatOf;
use ug_worker::{Reply, Took, Untaken};

impl Desk {
    /// Joins the pass's rank if it is absent or dead, decides, and returns a task, `Wait` or
    /// `Over`. The task is created outside the lock.
    pub fn take<R: Wait>(&self, rt: &R, pass: &mut Pass) -> Result<Took, Untaken>
        requires { pass.old.lock ≡ lock_of_desk self.now }
        ensures taken { HasTakenIn result pass.old pass.new }
        ensures lock { pass.new.lock ≡ pass.old.lock }
    {
        let mut locked_book = self.out(rt, &mut pass.seat, pass.rank);
        let given = locked_book.locked.take(pass.rank);
        pass.heard = locked_book.locked.book().heard();
        let woken = locked_book.locked.woken();
        let entry = Entry::taken(pass.rank, &given);
        self.turn.put(&mut pass.seat, locked_book, Some(entry));
        self.wake(woken);
        opened(given)
    }

    /// Reports a point that was found. Takes no memory.
    pub fn solution<R: Wait>(&self, rt: &R, pass: &mut Pass, point: Point) -> Heard
        requires { pass.old.lock ≡ lock_of_desk self.now }
        ensures { HasCalled (Some (offered point result)) pass.old pass.new }
    {
        let said = snapshot::Snapshot::of(&point);
        let mut locked_book = self.out(rt, &mut pass.seat, pass.rank);
        let heard = locked_book.locked.solution(pass.rank, point);
        pass.heard = locked_book.locked.book().heard();
        let woken = locked_book.locked.woken();
        let entry = Entry::offered(pass.rank, said, &heard);
        self.turn.put(&mut pass.seat, locked_book, Some(entry));
        self.wake(woken);
        heard
    }

    /// Hands over a box. One of another width is Stale.
    pub fn hand<R: Wait>(&self, rt: &R, pass: &mut Pass, number: u64, area: &IntBox) -> Heard
        requires { pass.old.lock ≡ lock_of_desk self.now }
        ensures { HasHandedIn number area.now result pass.old pass.new }
    {
        let mut locked_book = self.out(rt, &mut pass.seat, pass.rank);
        if !locked_book.locked.is_as_wide(area) {
            self.turn.put(&mut pass.seat, locked_book, None);
            return Heard::Stale;
        }
        let heard = locked_book.locked.hand(pass.rank, number, area);
        pass.heard = locked_book.locked.book().heard();
        let woken = locked_book.locked.woken();
        let entry = Entry::handed(pass.rank, number, area, &heard);
        self.turn.put(&mut pass.seat, locked_book, Some(entry));
        self.wake(woken);
        heard
    }

    /// Reports the number of boxes left and the least of their floors.
    pub fn state<R: Wait>(
        &self,
        rt: &R,
        pass: &mut Pass,
        left: u64,
        floor: i128,
    ) -> Result<Reply, Unfinished>
        requires lock { pass.old.lock ≡ lock_of_desk self.now }
        requires some { 0 < left }
        ensures called { HasCalled (Some (stated left floor result)) pass.old pass.new }
        ensures small { IfOk result (λ reply. IsSmallCutoff reply.cutoff) }
    {
        let mut locked_book = self.out(rt, &mut pass.seat, pass.rank);
        let reply = locked_book.locked.state(pass.rank, left, floor);
        pass.heard = locked_book.locked.book().heard();
        let woken = locked_book.locked.woken();
        let entry = Entry::stated(pass.rank, left, floor, &reply);
        self.turn.put(&mut pass.seat, locked_book, Some(entry));
        self.wake(woken);
        reply
    }

    /// Reports a task of the desk's problem as done: it has no box left. Its cutoff must be known
    /// to be backed: the pass was answered it or has read it, or it is that of a point of its own
    /// which was kept or not better. So the answer is never Unbacked. Takes no memory.
    pub fn done<R: Wait>(&self, rt: &R, pass: &mut Pass, task: Task) -> Heard
        requires lock { pass.old.lock ≡ lock_of_desk self.now }
        requires none { task.boxes ≡ [] }
        requires known { IsKnownBacked pass.old task.cutoff }
        requires problem { IsItsProblem pass.old task.problem }
        ensures ended { HasEndedIn task result pass.old pass.new }
        ensures backed { ¬ IsUnbackedAnswer result }
    {
        let mut locked_book = self.out(rt, &mut pass.seat, pass.rank);
        let heard = locked_book.locked.done(pass.rank, &task);
        pass.heard = locked_book.locked.book().heard();
        let woken = locked_book.locked.woken();
        if heard == Heard::Stale {
            self.turn.put(&mut pass.seat, locked_book, None);
            drop(task);
            self.wake(woken);
            return heard;
        }
        let entry = Entry::ended(pass.rank, &task, &heard);
        self.turn.put(&mut pass.seat, locked_book, Some(entry));
        drop(task);
        self.wake(woken);
        heard
    }

    /// Ends the rank in the middle of a task. Takes no memory.
    pub fn give_up<R: Wait>(&self, rt: &R, pass: &mut Pass, task: Task)
        requires { pass.old.lock ≡ lock_of_desk self.now }
        ensures { HasLeft pass.old pass.new }
    {
        drop(task);
        self.leave(rt, pass);
    }

    /// Ends the rank. Takes no memory.
    pub fn leave<R: Wait>(&self, rt: &R, pass: &mut Pass)
        requires { pass.old.lock ≡ lock_of_desk self.now }
        ensures { HasLeft pass.old pass.new }
    {
        let mut locked_book = self.out(rt, &mut pass.seat, pass.rank);
        let lived = locked_book.locked.leave(pass.rank);
        let woken = locked_book.locked.woken();
        if !lived {
            self.turn.put(&mut pass.seat, locked_book, None);
            self.wake(woken);
            return;
        }
        pass.heard = locked_book.locked.book().heard();
        let entry = Entry::left(pass.rank);
        self.turn.put(&mut pass.seat, locked_book, Some(entry));
        self.wake(woken);
    }

    /// Returns a snapshot of the nodes held, for a checkpoint. It is an entry of the history, which
    /// it counts.
    pub fn snapshot<R: Wait>(&self, rt: &R, pass: &mut Pass) -> Result<Snapshot, AllocError>
        requires { pass.old.lock ≡ lock_of_desk self.now }
        ensures ok { IfOk result (λ copy. HasCopied copy pass.old pass.new) }
        ensures err { OnErr result (HasCalled None pass.old pass.new) }
    {
        let mut locked_book = self.out(rt, &mut pass.seat, pass.rank);
        let copy = locked_book.locked.snapshot(pass.rank);
        let _book = locked_book.locked.book();
        match copy {
            Ok(copy) => {
                let entry = Entry::copied(pass.rank);
                self.turn.put(&mut pass.seat, locked_book, Some(entry));
                Ok(copy)
            }
            Err(error) => {
                self.turn.put(&mut pass.seat, locked_book, None);
                Err(error)
            }
        }
    }

    /// Returns the dual bound of the nodes held, or `None` if no node is held.
    pub fn bound<R: Wait>(&self, rt: &R, pass: &mut Pass) -> Option<i128>
        requires { pass.old.lock ≡ lock_of_desk self.now }
        ensures { HasCalled None pass.old pass.new }
    {
        let locked_book = self.out(rt, &mut pass.seat, pass.rank);
        let bound = locked_book.locked.book().bound();
        self.turn.put(&mut pass.seat, locked_book, None);
        bound
    }

    /// Returns the incumbent's cutoff, read without the lock. It is at least that of the book at
    /// each later turn, and at most the least that the pass knew. Takes no memory.
    pub fn cutoff(&self, pass: &mut Pass) -> Option<i128>
        requires { pass.old.lock ≡ lock_of_desk self.now }
        ensures looked { HasLooked result pass.old pass.new }
        ensures backed { IsKnownBacked pass.new result }
    {
        let word = self.turn.cutoff(&mut pass.seat);
        cutoff_at(pass.floor, word)
    }

    /// Lets two passes meet: both have then seen one prefix of the history, which begins with what
    /// each had seen.
    pub fn meet(&self, first: &mut Pass, second: &mut Pass)
        requires first { first.old.lock ≡ lock_of_desk self.now }
        requires second { second.old.lock ≡ lock_of_desk self.now }
        ensures first { HasMet first.old second.new first.new }
        ensures second { HasMet second.old first.old second.new }
        ensures one { first.new.seen ≡ second.new.seen }
    {
        self.turn.meet(&mut first.seat, &mut second.seat);
    }

    // Takes the value behind the lock, in the turn of a rank's seat.
    fn out<R: Wait>(&self, rt: &R, seat: &mut SeatOf<LockedBook>, rank: u32) -> LockedBook
        requires rest { IsAtRestAt (lock_of_desk self.now) seat.old }
        requires here { IfSome (view_of seat.old).opening (λ o. rank < o.settings.solvers) }
        ensures taken { HasTakenOut (view_of seat.old) result (view_of seat.new) }
        ensures out { IsOutFor (lock_of_desk self.now) rank result seat.new }
    {
        let locked_book = self.turn.take(rt, seat);
        // The book shows that what was taken out is what a desk's lock is round.
        let _book = locked_book.locked.book();
        locked_book
    }
}
