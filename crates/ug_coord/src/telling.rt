//! Sending: the start, the orders and the end.

ghost use Rattle.std.specs.Prelude.{◌≡◌, ◌<◌, [], suc, false, true};
ghost use Rattle.ug_io.specs.Crews.{IsAlive, IsAway};
ghost use Rattle.ug_frames.specs.Orders.{IsOrder};
ghost use Rattle.ug_rules.specs.State.{BookState};
ghost use Rattle.ug_book.specs.Reads.{IsOrderTold};
ghost use Rattle.ug_coord.specs.Actions.{CoordinatorState};
ghost use Rattle.ug_coord.specs.Ends.{ranks_of};
ghost use Rattle.ug_coord.specs.Coordinators.{AnyPhase, EndsFrom, IsClosedBelow, IsKeptIn, IsOnAs, IsOnIn};
ghost use Rattle.ug_coord.specs.Coordinators.{IsQuiet, IsSetUpFrame, IsStartedAs, Phase};
ghost use Rattle.ug_coord.specs.Coordinators.{launched_or_failed};
ghost use Rattle.ug_coord.specs.Coordinators.{sent_or_failed, without};
ghost use Rattle.ug_coord.specs.Keeping.{KeptSeen};

use crate::coordinator::Coordinator;
use std::sync::Wait;
use ug_frames::encode_order;
use ug_io::Crew;
use ug_rules::Told;

// The frame of the order to end.
const END: &[u8] = &[0, 0, 0, 1, 8];

impl<R, O, C: Crew> Coordinator<'_, R, O, C> {
    ghost use Rattle.ug_coord.specs.CoordinatorViews.{coordinator_seen};

    /// Loses the rank: nothing more is read from it, and the book declares it lost.
    pub fn lose(&mut self, rank: u32)
        requires { rank < ranks_of self.old.book }
        ensures seen { coordinator_seen C.seen self.new
            ≡ without rank (coordinator_seen C.seen self.old) }
        ensures quiet { IsQuiet (coordinator_seen C.seen self.old)
            (coordinator_seen C.seen self.new) }
        ensures frame { self.new.frame ≡ self.old.frame }
    {
        if self.crew.is_alive(rank) {
            self.crew.shut(rank);
        }
        self.book.gone(rank);
    }

    // Sends the frame to the rank. If that fails, loses the rank and returns false.
    fn send(&mut self, rank: u32) -> bool
        requires there { rank < ranks_of self.old.book }
        requires alive { IsAlive (C.seen self.old.crew) rank }
        ensures sent { sent_or_failed result (coordinator_seen C.seen self.old)
            (coordinator_seen C.seen self.new)
            rank self.old.frame.items }
        ensures quiet { IsQuiet (coordinator_seen C.seen self.old)
            (coordinator_seen C.seen self.new) }
        ensures frame { self.new.frame ≡ self.old.frame }
    {
        match self.crew.send(rank, &self.frame) {
            Ok(()) => true,
            Err(_) => {
                self.lose(rank);
                false
            }
        }
    }

    // Starts the rank, which is not alive. If that fails, loses the rank and returns false.
    fn launch(&mut self, rank: u32) -> bool
        requires away { IsAway (C.seen self.old.crew) rank }
        requires there { rank < ranks_of self.old.book }
        ensures launched { launched_or_failed result (coordinator_seen C.seen self.old)
            (coordinator_seen C.seen self.new) rank }
        ensures quiet { IsQuiet (coordinator_seen C.seen self.old)
            (coordinator_seen C.seen self.new) }
        ensures frame { self.new.frame ≡ self.old.frame }
    {
        match self.crew.launch(rank) {
            Ok(()) => true,
            Err(_) => {
                self.lose(rank);
                false
            }
        }
    }

    // Starts the rank, which is not alive, and sends it the problem, which the frame contains.
    fn start(&mut self, rank: u32)
        requires on { (phase : Phase) × (from : CoordinatorState)
            × IsStartedAs rank phase from (coordinator_seen C.seen self.old) }
        requires there { rank < ranks_of self.old.book }
        requires frame { IsSetUpFrame self.old.book self.old.frame.items }
        ensures on { (phase : Phase) (from : CoordinatorState)
            → IsStartedAs rank phase from (coordinator_seen C.seen self.old)
            → IsStartedAs (suc rank) phase from (coordinator_seen C.seen self.new) }
        ensures frame { IsSetUpFrame self.new.book self.new.frame.items }
        ensures quiet { IsQuiet (coordinator_seen C.seen self.old)
            (coordinator_seen C.seen self.new) }
    {
        if self.launch(rank) {
            self.send(rank);
        }
    }

    /// Starts each rank, none of which is alive, and sends it the problem, which the frame
    /// contains.
    pub fn start_all(&mut self)
        requires on { (phase : Phase) × (from : CoordinatorState)
            × IsStartedAs 0 phase from (coordinator_seen C.seen self.old) }
        requires frame { IsSetUpFrame self.old.book self.old.frame.items }
        ensures on { (phase : Phase) (from : CoordinatorState)
            → IsStartedAs 0 phase from (coordinator_seen C.seen self.old)
            → IsStartedAs (ranks_of self.old.book) phase from (coordinator_seen C.seen self.new) }
        ensures quiet { IsQuiet (coordinator_seen C.seen self.old)
            (coordinator_seen C.seen self.new) }
    {
        for rank in 0..self.book.settings().solvers {
            self.start(rank);
        }
    }

    // Sends an order that just left the book to its rank, if that is alive.
    fn tell(&mut self, told: Told)
        requires order { IsOrder told.order }
        requires on { (from : CoordinatorState) × (before : BookState)
            × IsOnIn AnyPhase from (record (coordinator_seen C.seen self.old) { book = before })
            × IsOrderTold before self.old.book told }
        ensures on { (phase : Phase) (from : CoordinatorState) (before : BookState)
            → IsOnAs phase from (record (coordinator_seen C.seen self.old) { book = before })
            → IsOrderTold before self.old.book told
            → IsOnAs phase from (coordinator_seen C.seen self.new) }
        ensures quiet { IsQuiet (coordinator_seen C.seen self.old)
            (coordinator_seen C.seen self.new) }
    {
        let rank = told.rank;
        if !self.crew.is_alive(rank) {
            drop(told);
            return;
        }
        self.frame.clear();
        match encode_order(&mut self.frame, &told.order) {
            Ok(()) => {
                drop(told);
                self.send(rank);
            }
            Err(_) => {
                drop(told);
                self.out_of_memory = true;
            }
        }
    }

    // Sends the first queued order. Returns false if none is queued.
    fn tell_next(&mut self) -> bool
        requires on { (from : CoordinatorState)
            × IsOnIn AnyPhase from (coordinator_seen C.seen self.old) }
        ensures on { (phase : Phase) (from : CoordinatorState)
            → IsOnAs phase from (coordinator_seen C.seen self.old)
            → IsOnAs phase from (coordinator_seen C.seen self.new) }
        ensures quiet { IsQuiet (coordinator_seen C.seen self.old)
            (coordinator_seen C.seen self.new) }
        ensures none { result ≡ false → self.new.book.orders ≡ [] }
    {
        // Each order of a book has a frame.
        let _problem = self.book.problem();
        match self.book.next_order() {
            Some(told) => {
                self.tell(told);
                true
            }
            None => false,
        }
    }

    // Sends the end to the rank, if it is alive.
    fn end(&mut self, rank: u32)
        ensures closed { (from : CoordinatorState) (old new : KeptSeen)
            → IsClosedBelow rank from (coordinator_seen C.seen self.old) old new
            → IsClosedBelow (suc rank) from (coordinator_seen C.seen self.new) old new }
        ensures same { (self.new.book ≡ self.old.book)
            × (self.new.out_of_memory ≡ self.old.out_of_memory) }
        ensures pacing { self.new.pacing ≡ self.old.pacing }
    {
        if self.crew.is_alive(rank) {
            match self.crew.send(rank, END) {
                Ok(()) => {}
                Err(_) => {}
            }
        }
    }

    /// Sends the end to each live rank, and waits until all have ended.
    pub fn close(&mut self)
        ensures ends { (from : CoordinatorState) (old new : KeptSeen)
            → IsKeptIn AnyPhase from (coordinator_seen C.seen self.old) old new
            → EndsFrom from (coordinator_seen C.seen self.new) old new }
        ensures finished { C.finished self.new.crew ≡ true }
        ensures same { (self.new.book ≡ self.old.book)
            × (self.new.out_of_memory ≡ self.old.out_of_memory) }
        ensures pacing { self.new.pacing ≡ self.old.pacing }
    {
        for rank in 0..self.book.settings().solvers {
            self.end(rank);
        }
        self.crew.finish();
    }
}

impl<R: Wait, O, C: Crew> Coordinator<'_, R, O, C> {
    ghost use Rattle.ug_coord.specs.CoordinatorViews.{coordinator_seen};

    /// Sends all queued orders.
    pub fn tell_all(&mut self)
        requires on { (from : CoordinatorState)
            × IsOnIn AnyPhase from (coordinator_seen C.seen self.old) }
        ensures on { (phase : Phase) (from : CoordinatorState)
            → IsOnAs phase from (coordinator_seen C.seen self.old)
            → IsOnAs phase from (coordinator_seen C.seen self.new) }
        ensures quiet { IsQuiet (coordinator_seen C.seen self.old)
            (coordinator_seen C.seen self.new) }
        ensures all { self.new.out_of_memory ≡ false → self.new.book.orders ≡ [] }
    {
        for _ in self.host.rt.forever() {
            if self.out_of_memory {
                return;
            }
            if !self.tell_next() {
                return;
            }
        }
        unreachable!()
    }
}
