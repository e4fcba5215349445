//! Receiving: a coordinator takes the reports of its crew, one at a time.

ghost use Rattle.std.specs.Prelude.{◌≡◌, ◌<◌, false, MatchBool};
ghost use Rattle.ug_rules.specs.Hearing.{IsHearable};
ghost use Rattle.ug_coord.specs.Actions.{AreReadOut, Deciding, Hearing, CoordinatorState, IsSettled};
ghost use Rattle.ug_coord.specs.Ends.{AllDead, ranks_of};
ghost use Rattle.ug_coord.specs.Coordinators.{AnyPhase, HasHeardReport, HasReadAll, HearsOne};
ghost use Rattle.ug_coord.specs.Coordinators.{IsBrokenOff, IsOnAs, IsOnIn, IsQuiet, IsRested, MayRead};
ghost use Rattle.ug_coord.specs.Coordinators.{Phase, is_next};
ghost use Rattle.ug_coord.specs.Reading.{IsLastFed};

use crate::coordinator::Coordinator;
use crate::streams::{Turn, next_of, take_turn};
use ug_frames::Report;
use ug_io::Crew;
use ug_restart::{Dropped, Observer, progress_of};
use ug_rules::Heard;
use ug_snapshot::image_of;
use ug_stream::Next;

impl<R, O: Observer, C: Crew> Coordinator<'_, R, O, C> {
    ghost use Rattle.ug_coord.specs.CoordinatorViews.{coordinator_seen};

    /// Receives a report that has arrived, or waits until something comes. Returns false if that
    /// failed, and all ranks are lost.
    pub fn listen(&mut self) -> bool
        requires on { (from : CoordinatorState)
            × IsOnIn (is_next Hearing) from (coordinator_seen C.seen self.old) }
        requires settled { IsSettled self.old.book }
        ensures on { MatchBool result
            ((from : CoordinatorState)
            → IsOnIn (is_next Hearing) from (coordinator_seen C.seen self.old)
            → IsOnIn IsRested from (coordinator_seen C.seen self.new))
            ((from : CoordinatorState)
            → IsOnIn (is_next Hearing) from (coordinator_seen C.seen self.old)
            → IsOnIn AnyPhase from (coordinator_seen C.seen self.new)) }
        ensures hears { MatchBool result
            (HearsOne (coordinator_seen C.seen self.old) (coordinator_seen C.seen self.new))
            (IsQuiet (coordinator_seen C.seen self.old) (coordinator_seen C.seen self.new)) }
        ensures all { result ≡ false → AllDead self.new.book }
    {
        let Some(rank) = self.last else {
            return self.turn();
        };
        if !self.hear_next(rank) {
            return self.turn();
        }
        true
    }

    // Waits until something comes, and receives the first report of it. Returns false if that
    // failed, and all ranks are lost.
    fn turn(&mut self) -> bool
        requires on { (from : CoordinatorState)
            × IsOnIn (is_next Hearing) from (coordinator_seen C.seen self.old) }
        requires settled { IsSettled self.old.book }
        requires read { AreReadOut self.old.streams.items }
        ensures on { MatchBool result
            ((from : CoordinatorState)
            → IsOnIn (is_next Hearing) from (coordinator_seen C.seen self.old)
            → IsOnIn IsRested from (coordinator_seen C.seen self.new))
            ((from : CoordinatorState)
            → IsOnIn (is_next Hearing) from (coordinator_seen C.seen self.old)
            → IsOnIn AnyPhase from (coordinator_seen C.seen self.new)) }
        ensures hears { MatchBool result
            (HearsOne (coordinator_seen C.seen self.old) (coordinator_seen C.seen self.new))
            (IsQuiet (coordinator_seen C.seen self.old) (coordinator_seen C.seen self.new)) }
        ensures all { result ≡ false → AllDead self.new.book }
    {
        match take_turn(&mut self.crew, &mut self.streams, &mut self.input) {
            Turn::Fed { rank } => {
                self.last = Some(rank);
                self.hear_next(rank);
                true
            }
            Turn::Gone { rank } => {
                self.book.gone(rank);
                true
            }
            Turn::Failed => {
                self.lose_all();
                false
            }
            Turn::Wanting { .. } => {
                self.out_of_memory = true;
                true
            }
        }
    }

    // Receives the next report of the rank, or finds that its bytes are not one. Returns false if
    // all of them were read.
    fn hear_next(&mut self, rank: u32) -> bool
        requires on { (from : CoordinatorState)
            × IsOnIn AnyPhase from (coordinator_seen C.seen self.old) }
        requires last { IsLastFed self.old.last self.old.book rank }
        requires settled { IsSettled self.old.book }
        ensures on { MatchBool result
            ((from : CoordinatorState) → IsOnIn MayRead from (coordinator_seen C.seen self.old)
            → IsOnIn (is_next Deciding) from (coordinator_seen C.seen self.new))
            ((phase : Phase) (from : CoordinatorState)
            → IsOnAs phase from (coordinator_seen C.seen self.old)
            → IsOnAs phase from (coordinator_seen C.seen self.new)) }
        ensures hears { HearsOne (coordinator_seen C.seen self.old)
            (coordinator_seen C.seen self.new) }
        ensures read { result ≡ false
            → HasReadAll (coordinator_seen C.seen self.old)
            (coordinator_seen C.seen self.new) rank }
    {
        match next_of(self.host.alloc, &mut self.streams, rank) {
            Ok(Next::Message(report)) => {
                self.hear(rank, report);
                true
            }
            Ok(Next::NeedMore) => {
                self.last = None;
                false
            }
            Ok(Next::BadFrame { .. }) => {
                self.last = None;
                self.lose(rank);
                self.host.observer.drops(rank, Dropped::Nonsense);
                true
            }
            Err(_) => {
                self.out_of_memory = true;
                true
            }
        }
    }

    // Receives a report, which the rank's bytes gave.
    fn hear(&mut self, rank: u32, report: Report)
        requires there { rank < ranks_of self.old.book }
        requires hearable { IsHearable report }
        ensures heard { HasHeardReport (coordinator_seen C.seen self.old)
            (coordinator_seen C.seen self.new) rank
            report }
        ensures hears { HearsOne (coordinator_seen C.seen self.old)
            (coordinator_seen C.seen self.new) }
    {
        let is_point = is_point(&report);
        let was_alive = self.book.is_alive(rank);
        let heard = self.book.hear(rank, report);
        self.out_of_memory = self.out_of_memory || heard == Heard::Memory;
        if was_alive && !self.book.is_alive(rank) {
            self.host.observer.drops(rank, Dropped::Untrue);
        }
        self.observe(is_point && heard == Heard::Kept);
    }

    // Calls the observer with the progress, if that is needed now and memory suffices.
    fn observe(&self, is_better: bool) {
        if !self.host.observer.wants(self.book.heard(), is_better) {
            return;
        }
        let Ok(image) = image_of(self.host.alloc, &self.book, 1) else {
            return;
        };
        if let Some(progress) = progress_of(self.host.alloc, &image, self.book.bound()) {
            self.host.observer.tell(&progress);
            drop(progress);
        }
        drop(image);
    }
}

impl<R, O, C: Crew> Coordinator<'_, R, O, C> {
    ghost use Rattle.ug_coord.specs.CoordinatorViews.{coordinator_seen};

    // Loses all ranks, after a turn that failed.
    fn lose_all(&mut self)
        requires on { (from : CoordinatorState)
            × IsOnIn IsBrokenOff from (coordinator_seen C.seen self.old) }
        ensures on { (from : CoordinatorState)
            → IsOnIn IsBrokenOff from (coordinator_seen C.seen self.old)
            → IsOnIn IsBrokenOff from (coordinator_seen C.seen self.new) }
        ensures all { AllDead self.new.book }
        ensures quiet { IsQuiet (coordinator_seen C.seen self.old)
            (coordinator_seen C.seen self.new) }
    {
        for rank in 0..self.book.settings().solvers {
            self.lose(rank);
        }
    }
}

// Is the report a Solution?
fn is_point(report: &Report) -> bool {
    match report {
        Report::Solution { .. } => true,
        _ => false,
    }
}
