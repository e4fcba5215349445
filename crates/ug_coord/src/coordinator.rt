//! The loop of a coordinator.

ghost use Rattle.std.specs.Prelude.{◌≡◌, ◌<◌, true, false, length, MatchBool};
ghost use Rattle.ug_coord.specs.Actions.{Hearing, CoordinatorState};
ghost use Rattle.ug_coord.specs.Ends.{IsOver, ranks_of};
ghost use Rattle.ug_coord.specs.Coordinators.{AnyPhase, HasKeptUp, HearsOne, IsKeptIn, IsOnIn, IsQuiet};
ghost use Rattle.ug_coord.specs.Coordinators.{IsRested, IsSetUpFrame, IsStartedIn, KeepsUp, StartsAndEnds};
ghost use Rattle.ug_coord.specs.Coordinators.{is_next};
ghost use Rattle.ug_coord.specs.Keeping.{KeptSeen, IsCheckpointerOf, IsKeptBy};
ghost use Rattle.ug_coord.specs.Pacing.{IsSaveDue};
ghost use Rattle.ug_coord.specs.Reading.{AreReadBut};
ghost use Rattle.ug_coord.specs.Checkpointers.{kept_seen};

use crate::checkpointer::Checkpointer;
use crate::ending::is_over;
use crate::pacing::Pacing;
use std::sync::Wait;
use ug_book::Book;
use ug_disk::Disk;
use ug_io::Crew;
use ug_restart::{Host, Observer};
use ug_stream::Assembler;

/// A coordinator during a run, with its crew.
#[derive(Drop)]
pub struct Coordinator<'a, R, O, C> {
    /// The state of the coordinator.
    pub book: Book,
    /// The bytes received from each rank that do not make a report yet.
    pub streams: Vec<Assembler>,
    /// The buffer for bytes received.
    pub input: Vec<u8>,
    /// The buffer for a frame to send.
    pub frame: Vec<u8>,
    /// The rank from which bytes came last, while they may contain more reports.
    pub last: Option<u32>,
    /// Did memory run out?
    pub out_of_memory: bool,
    /// Decides when the next save is due.
    pub pacing: Pacing,
    /// The runtime, the allocator and the observer.
    pub host: &'a Host<'a, R, O>,
    /// The workers of the run.
    pub crew: C,
    ghost room: { 0 < length input.items },
    ghost read: { AreReadBut last streams.items },
}

impl<R, O, C> Coordinator<'_, R, O, C> {
    // Did memory run out, or is an end due?
    fn has_stopped(&self) -> bool
        ensures stopped { result ≡ true → self.now.out_of_memory ≡ false → IsOver self.now.book }
        ensures on { result ≡ false → (self.now.out_of_memory ≡ false) × ¬ IsOver self.now.book }
    {
        if self.out_of_memory {
            return true;
        }
        is_over(&self.book)
    }
}

impl<R, O, C: Crew> Coordinator<'_, R, O, C> {
    ghost use Rattle.ug_coord.specs.CoordinatorViews.{coordinator_seen};

    // Makes a decision.
    fn decide(&mut self)
        requires more { ¬ IsOver self.old.book }
        requires saved { ¬ IsSaveDue self.old.pacing self.old.book }
        ensures on { (from : CoordinatorState)
            → IsOnIn IsRested from (coordinator_seen C.seen self.old)
            → IsOnIn (is_next Hearing) from (coordinator_seen C.seen self.new) }
        ensures quiet { IsQuiet (coordinator_seen C.seen self.old)
            (coordinator_seen C.seen self.new) }
    {
        match self.book.decide() {
            Ok(()) => {}
            Err(_) => self.out_of_memory = true,
        }
    }

    // Saves the book, for which a save is due.
    fn save<D: Disk>(&mut self, checkpointer: &mut Checkpointer, disk: &mut D)
        requires due { IsSaveDue self.old.pacing self.old.book }
        requires checkpointer { IsCheckpointerOf
            (kept_seen checkpointer.old (D.seen disk.old)) self.old.book }
        ensures on { (from : CoordinatorState) (first : KeptSeen)
            → IsKeptIn IsRested from (coordinator_seen C.seen self.old) first
            (kept_seen checkpointer.old (D.seen disk.old))
            → IsKeptIn IsRested from (coordinator_seen C.seen self.new) first
            (kept_seen checkpointer.new (D.seen disk.new)) }
        ensures kept { IsKeptBy (kept_seen checkpointer.new (D.seen disk.new)) }
        ensures book { self.new.book ≡ self.old.book }
        ensures saved { ¬ IsSaveDue self.new.pacing self.new.book }
    {
        checkpointer.keep(disk, &self.book);
        self.pacing = Pacing::saved(&self.book);
    }
}

impl<R: Wait, O: Observer, C: Crew> Coordinator<'_, R, O, C> {
    ghost use Rattle.ug_coord.specs.CoordinatorViews.{coordinator_seen};

    /// Starts the crew, works until an end is due or memory runs out, and sends each rank the end.
    /// Saves the book as often as its settings say.
    pub fn run<D: Disk>(&mut self, checkpointer: &mut Checkpointer, disk: &mut D)
        requires on { (from : CoordinatorState)
            × IsStartedIn IsRested 0 from (coordinator_seen C.seen self.old) }
        requires frame { IsSetUpFrame self.old.book self.old.frame.items }
        requires keeps { KeepsUp (coordinator_seen C.seen self.old)
            (kept_seen checkpointer.old (D.seen disk.old)) }
        ensures ends { (from : CoordinatorState)
            → IsStartedIn IsRested 0 from (coordinator_seen C.seen self.old)
            → from.pacing ≡ self.old.pacing
            → StartsAndEnds (ranks_of self.old.book) from (coordinator_seen C.seen self.new)
            (kept_seen checkpointer.old (D.seen disk.old))
            (kept_seen checkpointer.new (D.seen disk.new)) }
        ensures over { self.new.out_of_memory ≡ false → IsOver self.new.book }
        ensures finished { C.finished self.new.crew ≡ true }
        ensures kept { HasKeptUp (coordinator_seen C.seen self.old)
            (coordinator_seen C.seen self.new)
            (kept_seen checkpointer.new (D.seen disk.new)) }
    {
        self.start_all();
        self.go_on(checkpointer, disk);
        self.close();
    }

    // Decides, sends the orders, and receives the next report, or waits until something comes.
    // Returns false if an end is due after the decision or after sending, or if a turn failed.
    fn step(&mut self) -> bool
        requires on { (from : CoordinatorState)
            × IsOnIn IsRested from (coordinator_seen C.seen self.old) }
        requires more { ¬ IsOver self.old.book }
        requires saved { ¬ IsSaveDue self.old.pacing self.old.book }
        ensures on { MatchBool result
            ((from : CoordinatorState) → IsOnIn IsRested from (coordinator_seen C.seen self.old)
            → IsOnIn IsRested from (coordinator_seen C.seen self.new))
            ((from : CoordinatorState) → IsOnIn IsRested from (coordinator_seen C.seen self.old)
            → IsOnIn AnyPhase from (coordinator_seen C.seen self.new)) }
        ensures hears { MatchBool result
            (HearsOne (coordinator_seen C.seen self.old) (coordinator_seen C.seen self.new))
            (IsQuiet (coordinator_seen C.seen self.old) (coordinator_seen C.seen self.new)) }
        ensures over { result ≡ false → self.new.out_of_memory ≡ false → IsOver self.new.book }
    {
        self.decide();
        if self.has_stopped() {
            return false;
        }
        self.tell_all();
        if self.has_stopped() {
            return false;
        }
        self.listen()
    }

    // Makes a step, and saves if a save is due. Returns false if the step did.
    fn advance<D: Disk>(&mut self, checkpointer: &mut Checkpointer, disk: &mut D) -> bool
        requires on { (from : CoordinatorState)
            × IsOnIn IsRested from (coordinator_seen C.seen self.old) }
        requires more { ¬ IsOver self.old.book }
        requires keeps { KeepsUp (coordinator_seen C.seen self.old)
            (kept_seen checkpointer.old (D.seen disk.old)) }
        ensures on { MatchBool result
            ((from : CoordinatorState) (first : KeptSeen)
            → IsKeptIn IsRested from (coordinator_seen C.seen self.old) first
            (kept_seen checkpointer.old (D.seen disk.old))
            → IsKeptIn IsRested from (coordinator_seen C.seen self.new) first
            (kept_seen checkpointer.new (D.seen disk.new)))
            ((from : CoordinatorState) (first : KeptSeen)
            → IsKeptIn IsRested from (coordinator_seen C.seen self.old) first
            (kept_seen checkpointer.old (D.seen disk.old))
            → IsKeptIn AnyPhase from (coordinator_seen C.seen self.new) first
            (kept_seen checkpointer.new (D.seen disk.new))) }
        ensures kept { HasKeptUp (coordinator_seen C.seen self.old)
            (coordinator_seen C.seen self.new)
            (kept_seen checkpointer.new (D.seen disk.new)) }
        ensures over { result ≡ false → self.new.out_of_memory ≡ false → IsOver self.new.book }
    {
        if !self.step() {
            return false;
        }
        if self.pacing.is_due(&self.book) {
            self.save(checkpointer, disk);
        }
        true
    }

    // Works until an end is due or memory runs out.
    fn go_on<D: Disk>(&mut self, checkpointer: &mut Checkpointer, disk: &mut D)
        requires on { (from : CoordinatorState)
            × IsOnIn IsRested from (coordinator_seen C.seen self.old) }
        requires keeps { KeepsUp (coordinator_seen C.seen self.old)
            (kept_seen checkpointer.old (D.seen disk.old)) }
        ensures on { (from : CoordinatorState) (first : KeptSeen)
            → IsKeptIn IsRested from (coordinator_seen C.seen self.old) first
            (kept_seen checkpointer.old (D.seen disk.old))
            → IsKeptIn AnyPhase from (coordinator_seen C.seen self.new) first
            (kept_seen checkpointer.new (D.seen disk.new)) }
        ensures over { self.new.out_of_memory ≡ false → IsOver self.new.book }
        ensures kept { HasKeptUp (coordinator_seen C.seen self.old)
            (coordinator_seen C.seen self.new)
            (kept_seen checkpointer.new (D.seen disk.new)) }
    {
        for _ in self.host.rt.forever() {
            if self.has_stopped() {
                return;
            }
            if !self.advance(checkpointer, disk) {
                return;
            }
        }
        unreachable!()
    }
}
