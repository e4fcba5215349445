// What one seat has seen is given to another.
ghost use Rattle.std.specs.Prelude.{◌≡◌};
ghost use Rattle.ug_turn.specs.Histories.{longer};
ghost use Rattle.ug_turn.specs.Locks.{id_of};
ghost use Rattle.ug_turn.specs.Seats.{HasMet, IsAtRest, IsNote, IsNoteOf, lock_of, view_of};

use crate::lasting::Lasting;
use crate::plays::{MakeNote, Meet, TellNote};
use crate::seat::{Seat, SeatOf};
use crate::turn::Turn;

impl<V: Lasting + Drop> Turn<V> {
    /// A note of what a seat has seen, which can be joined to another.
    pub fn split(&self, seat: &mut SeatOf<V>) -> SeatOf<V>
        requires lock { lock_of seat.old ≡ id_of self.now }
        requires rest { IsAtRest seat.old }
        ensures lock { lock_of seat.new ≡ lock_of seat.old }
        ensures rest { IsAtRest seat.new }
        ensures same { view_of seat.new ≡ view_of seat.old }
        ensures note { IsNoteOf seat.old result }
    {
        let place = self.table.shared.split_seat::<MakeNote>(&mut seat.place);
        Seat { place, number: 0 }
    }

    /// A note is given to a seat: it has then seen the longer of both lists, which both begin.
    pub fn join(&self, seat: &mut SeatOf<V>, note: SeatOf<V>)
        requires lock { lock_of seat.old ≡ id_of self.now }
        requires rest { IsAtRest seat.old }
        requires note_lock { lock_of note ≡ id_of self.now }
        requires note { IsNote note }
        ensures rest { (lock_of seat.new ≡ lock_of seat.old) × IsAtRest seat.new }
        ensures met { HasMet (view_of seat.old) (view_of note).seen (view_of note).known
            (view_of seat.new) }
    {
        let Seat { place, .. } = note;
        self.table
            .shared
            .join_seat::<TellNote>(&mut seat.place, place);
        self.table.shared.load::<Meet>(&mut seat.place, 1);
    }

    /// Two seats meet: both have then seen one beginning of the history, which begins with what
    /// each had seen.
    pub fn meet(&self, first: &mut SeatOf<V>, second: &mut SeatOf<V>)
        requires first { (lock_of first.old ≡ id_of self.now) × IsAtRest first.old }
        requires second { (lock_of second.old ≡ id_of self.now) × IsAtRest second.old }
        ensures first_rest { (lock_of first.new ≡ lock_of first.old) × IsAtRest first.new }
        ensures second_rest { (lock_of second.new ≡ lock_of second.old) × IsAtRest second.new }
        ensures first { HasMet (view_of first.old) (view_of second.new).seen
            (view_of second.new).known (view_of first.new) }
        ensures second { HasMet (view_of second.old) (view_of first.old).seen
            (view_of first.old).known (view_of second.new) }
        ensures one { (view_of first.new).seen ≡ (view_of second.new).seen }
    {
        let note = self.split(first);
        self.join(second, note);
        let note = self.split(second);
        self.join(first, note);
    }
}
