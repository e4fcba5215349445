// The atomic steps of one turn.
ghost use Rattle.std.specs.Prelude.{◌≡◌, ◌+◌, ◌++◌, [], ◌∷◌, if◌then◌else◌};
ghost use Rattle.ug_turn.specs.Histories.{calls_by, told};
ghost use Rattle.ug_turn.specs.Steps.{HasTaken, MayPut};
ghost use Rattle.ug_turn.specs.Locks.{id_of};
ghost use Rattle.ug_turn.specs.Seats.{IsAtRest, IsOut, IsWaiting, lock_of, view_of};

use crate::held::Held;
use crate::lasting::Lasting;
use crate::plays::{Draw, Lower, PassOn, PutHome, See, TakeOut};
use crate::seat::SeatOf;
use crate::turn::Turn;
use std::snapshot::Snapshot;

impl<V: Lasting + Drop> Turn<V> {
    /// Draws the next number.
    pub(crate) fn draw(&self, seat: &mut SeatOf<V>)
        requires lock { lock_of seat.old ≡ id_of self.now }
        requires rest { IsAtRest seat.old }
        ensures lock { lock_of seat.new ≡ lock_of seat.old }
        ensures waiting { IsWaiting 0 seat.new }
        ensures view { view_of seat.new ≡ record (view_of seat.old) {
          waits = 1;
          number = (view_of seat.new).number;
        } }
    {
        seat.number = self.table.shared.fetch_add::<Draw>(&mut seat.place, 0, 1);
    }

    /// Whether the seat's number is served.
    pub(crate) fn sees_turn(&self, seat: &mut SeatOf<V>) -> bool
        requires lock { lock_of seat.old ≡ id_of self.now }
        requires waiting { IsWaiting 0 seat.old }
        ensures lock { lock_of seat.new ≡ lock_of seat.old }
        ensures waiting { IsWaiting (if result then 1 else 0) seat.new }
        ensures view { view_of seat.new ≡ record (view_of seat.old) {
          step = if result then 1 else 0;
        } }
    {
        self.table.shared.load::<See>(&mut seat.place, 1) == seat.number
    }

    /// Takes the value out.
    pub(crate) fn take_out(&self, seat: &mut SeatOf<V>) -> V
        requires lock { lock_of seat.old ≡ id_of self.now }
        requires turn { IsWaiting 1 seat.old }
        ensures lock { lock_of seat.new ≡ lock_of seat.old }
        ensures out { IsOut seat.new }
        ensures taken { HasTaken V.opening V.replays V.by V.cutoff
            (view_of seat.old) result (view_of seat.new) }
    {
        self.table.shared.load::<TakeOut>(&mut seat.place, 1);
        let held = self
            .table
            .shared
            .exchange(&mut seat.place, 0, None)
            .unwrap();
        let Held { value, said } = held;
        drop(said);
        value
    }

    /// Puts a value home, with the entry that the turn adds.
    pub(crate) fn put_home(&self, seat: &mut SeatOf<V>, value: V, entry: Option<V::Entry>)
        requires lock { lock_of seat.old ≡ id_of self.now }
        requires out { IsOut seat.old }
        requires may { MayPut V.opening V.replays V.by V.cutoff (view_of seat.old) value entry }
        ensures lock { lock_of seat.new ≡ lock_of seat.old }
        ensures home { IsWaiting 3 seat.new }
        ensures view { view_of seat.new ≡ record (view_of seat.old) {
          step = 3;
          seen = (view_of seat.old).seen ++ told entry;
          mine = (view_of seat.old).mine ++ told entry;
          level = V.cutoff value;
        } }
        ensures own { calls_by V.by (view_of seat.new).pass (view_of seat.new).seen
            ≡ (view_of seat.new).mine }
    {
        let said = Snapshot::of(&entry);
        drop(entry);
        let held = Some(Held { value, said });
        let empty = self.table.shared.exchange(&mut seat.place, 0, held);
        drop(empty);
        self.table.shared.load::<PutHome>(&mut seat.place, 1);
    }

    /// Lowers the cutoff word to that of the value that was put home.
    pub(crate) fn lower(&self, seat: &mut SeatOf<V>, word: u64)
        requires lock { lock_of seat.old ≡ id_of self.now }
        requires home { IsWaiting 3 seat.old }
        requires level { (view_of seat.old).level ≡ word }
        ensures lock { lock_of seat.new ≡ lock_of seat.old }
        ensures home { IsWaiting 3 seat.new }
        ensures view { view_of seat.new ≡ record (view_of seat.old) { known = word } }
    {
        self.table
            .shared
            .fetch_min::<Lower>(&mut seat.place, 2, word);
    }

    /// Passes the turn on.
    pub(crate) fn pass_on(&self, seat: &mut SeatOf<V>)
        requires lock { lock_of seat.old ≡ id_of self.now }
        requires home { IsWaiting 3 seat.old }
        ensures lock { lock_of seat.new ≡ lock_of seat.old }
        ensures rest { IsAtRest seat.new }
        ensures view { view_of seat.new ≡ record (view_of seat.old) { waits = 0; step = 0 } }
    {
        self.table.shared.fetch_add::<PassOn>(&mut seat.place, 1, 1);
    }
}
