// The passes end, and the value is handed back.
ghost use Rattle.std.specs.Prelude.{◌≡◌, ◌<◌, length};
ghost use Rattle.ug_turn.specs.Views.{with_ended};
ghost use Rattle.ug_turn.specs.Locks.{id_of, passes_of};
ghost use Rattle.ug_turn.specs.Seats.{AreAtRest, IsAtRestAt, IsGathering, view_of};
ghost use Rattle.ug_turn.specs.Seats.{EndsWith, HasGathered, IsClosed};

use crate::held::Held;
use crate::lasting::Lasting;
use crate::plays::EndPass;
use crate::seat::{Seat, SeatOf};
use crate::turn::Turn;

impl<V: Lasting + Drop> Turn<V> {
    /// The value, where all passes are handed in. It is what a history leads to that begins with
    /// all that each pass has seen, and in which the entries of each pass are its own calls, each
    /// once. It takes no memory.
    pub fn close(self, mut seats: Vec<SeatOf<V>>) -> V
        requires some { 0 < passes_of self }
        requires all { length seats.items ≡ passes_of self }
        requires rest { AreAtRest (id_of self) seats.items }
        ensures { IsClosed V.opening V.replays V.by
            (passes_of self) seats.items result }
    {
        let Some(mut last) = seats.pop() else {
            unreachable!()
        };
        self.gather(&mut last, seats);
        self.take_home(last)
    }

    // All these passes end with one.
    fn gather(&self, last: &mut SeatOf<V>, mut seats: Vec<SeatOf<V>>)
        requires last { IsGathering (id_of self.now) last.old }
        requires rest { AreAtRest (id_of self.now) seats.items }
        ensures last { IsGathering (id_of self.now) last.new }
        ensures gathered { HasGathered (view_of last.old) seats.items (view_of last.new) }
    {
        while let Some(seat) = seats.pop() {
            self.end_pass(last, seat);
        }
    }

    // A pass ends with another.
    fn end_pass(&self, last: &mut SeatOf<V>, seat: SeatOf<V>)
        requires last { IsGathering (id_of self.now) last.old }
        requires rest { IsAtRestAt (id_of self.now) seat }
        ensures last { IsGathering (id_of self.now) last.new }
        ensures view { view_of last.new ≡ with_ended (view_of last.old) (view_of seat) }
    {
        let Seat { place, .. } = seat;
        self.table
            .shared
            .join_seat::<EndPass>(&mut last.place, place);
    }

    // The value, where one seat has all passes.
    fn take_home(self, last: SeatOf<V>) -> V
        requires last { IsGathering (id_of self) last }
        requires all { (view_of last).parts ≡ passes_of self }
        ensures { EndsWith V.opening V.replays V.by (passes_of self) (view_of last) result }
    {
        let Turn { table, entry_mutex } = self;
        drop(entry_mutex);
        let Seat { place, .. } = last;
        let mut closed = table.close_with(place);
        let held = closed.take(0).unwrap();
        closed.free();
        let Held { value, said } = held;
        drop(said);
        value
    }
}
