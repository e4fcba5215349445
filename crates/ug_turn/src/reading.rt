// The cutoff is read without a turn.
ghost use Rattle.std.specs.Prelude.{◌≡◌, ◌≤◌};
ghost use Rattle.ug_turn.specs.Locks.{id_of};
ghost use Rattle.ug_turn.specs.Seats.{IsAtRest, lock_of, view_of};

use crate::lasting::Lasting;
use crate::plays::Look;
use crate::seat::SeatOf;
use crate::turn::Turn;

impl<V: Lasting + Drop> Turn<V> {
    /// The cutoff word, read without a turn. It is at most the least that the seat knew, and at
    /// least the value's at each later turn. It takes no memory.
    pub fn cutoff(&self, seat: &mut SeatOf<V>) -> u64
        requires lock { lock_of seat.old ≡ id_of self.now }
        requires rest { IsAtRest seat.old }
        ensures lock { lock_of seat.new ≡ lock_of seat.old }
        ensures rest { IsAtRest seat.new }
        ensures falls { result ≤ (view_of seat.old).known }
        ensures known { view_of seat.new ≡ record (view_of seat.old) { known = result } }
    {
        self.table.shared.load::<Look>(&mut seat.place, 2)
    }
}
