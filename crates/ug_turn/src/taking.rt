// A turn: the value is taken, and put home.
ghost use Rattle.std.specs.Prelude.{◌≡◌};
ghost use Rattle.ug_turn.specs.Steps.{HasPut, HasTaken, MayPut};
ghost use Rattle.ug_turn.specs.Locks.{id_of};
ghost use Rattle.ug_turn.specs.Seats.{IsAtRest, IsOut, IsWaiting, lock_of, view_of};

use crate::lasting::Lasting;
use crate::seat::SeatOf;
use crate::turn::Turn;
use std::hint::spin_loop;
use std::sync::Wait;

impl<V: Lasting + Drop> Turn<V> {
    /// Waits for the seat's turn and takes the value, which is what a history leads to: it begins
    /// with all that the seat had seen, and the pass's own calls are in it, each once. It has to
    /// be put back by `put` before anything else.
    pub fn take<R: Wait>(&self, rt: &R, seat: &mut SeatOf<V>) -> V
        requires lock { lock_of seat.old ≡ id_of self.now }
        requires rest { IsAtRest seat.old }
        ensures lock { lock_of seat.new ≡ lock_of seat.old }
        ensures out { IsOut seat.new }
        ensures taken { HasTaken V.opening V.replays V.by V.cutoff
            (view_of seat.old) result (view_of seat.new) }
    {
        self.entry_mutex.enter(rt);
        self.draw(seat);
        self.await_turn(rt, seat);
        self.take_out(seat)
    }

    /// Puts the value home with the entry that the turn adds, if any, lowers the cutoff, and passes
    /// the turn on.
    pub fn put(&self, seat: &mut SeatOf<V>, value: V, entry: Option<V::Entry>)
        requires lock { lock_of seat.old ≡ id_of self.now }
        requires out { IsOut seat.old }
        requires may { MayPut V.opening V.replays V.by V.cutoff (view_of seat.old) value entry }
        ensures lock { lock_of seat.new ≡ lock_of seat.old }
        ensures rest { IsAtRest seat.new }
        ensures put { HasPut V.by V.cutoff (view_of seat.old) value entry (view_of seat.new) }
    {
        let word = value.word();
        self.put_home(seat, value, entry);
        self.lower(seat, word);
        self.pass_on(seat);
        self.entry_mutex.leave();
    }

    // Waits for the seat's turn, which comes at once to who is in at the entry mutex.
    fn await_turn<R: Wait>(&self, rt: &R, seat: &mut SeatOf<V>)
        requires lock { lock_of seat.old ≡ id_of self.now }
        requires waiting { IsWaiting 0 seat.old }
        ensures lock { lock_of seat.new ≡ lock_of seat.old }
        ensures turn { IsWaiting 1 seat.new }
        ensures view { view_of seat.new ≡ record (view_of seat.old) { step = 1 } }
    {
        for _ in rt.forever() {
            if self.sees_turn(seat) {
                return;
            }
            spin_loop();
        }
        unreachable!()
    }
}
