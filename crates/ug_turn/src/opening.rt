// A lock is made, and a seat for each pass.
ghost use Rattle.std.specs.Prelude.{◌≡◌, ◌<◌, [], length, IfOk};
ghost use Rattle.ug_turn.specs.Views.{less_one, maker, next_pass};
ghost use Rattle.ug_turn.specs.Locks.{id_of, passes_of};
ghost use Rattle.ug_turn.specs.Seats.{AreNewSeats, IsMaking};

use crate::entry_mutex::EntryMutex;
use crate::held::Held;
use crate::lasting::Lasting;
use crate::plays::MakePass;
use crate::rule::Key;
use crate::seat::{PlaceOf, Seat, SeatOf};
use crate::turn::Turn;
use atomic_table::Table;
use std::alloc::{AllocError, Global};
use std::snapshot::Snapshot;

impl<V: Lasting + Drop> Turn<V> {
    /// A lock round a value whose history is empty, and a seat for each pass, by its number.
    pub fn new(
        alloc: Global,
        value: V,
        passes: u32,
    ) -> Result<(Turn<V>, Vec<SeatOf<V>>), AllocError>
        requires some { 0 < passes }
        requires empty { V.replays value [] }
        ensures passes { IfOk result (λ made. passes_of made.0 ≡ passes) }
        ensures count { IfOk result (λ made. length made.1.items ≡ passes) }
        ensures each { IfOk result (λ made. AreNewSeats (id_of made.0)
            (maker passes (V.opening value) (V.cutoff value)) made.1.items) }
    {
        let (turn, maker) = Turn::alone(alloc, value, passes)?;
        let seats = turn.seats(alloc, maker, passes)?;
        Ok((turn, seats))
    }

    // A lock that has no seat but the one that makes the others.
    fn alone(alloc: Global, value: V, passes: u32) -> Result<(Turn<V>, PlaceOf<V>), AllocError>
        requires some { 0 < passes }
        requires empty { V.replays value [] }
        ensures passes { IfOk result (λ made. passes_of made.0 ≡ passes) }
        ensures lock { IfOk result (λ made. made.1.table_id ≡ id_of made.0) }
        ensures maker { IfOk result (λ made. made.1.me
            ≡ (maker passes (V.opening value) (V.cutoff value), [])) }
    {
        let word = value.word();
        let key = Key {
            passes,
            value: Snapshot::of(&value),
        };
        let nothing: Option<V::Entry> = None;
        let said = Snapshot::of(&nothing);
        drop(nothing);
        let mut slots = Vec::new(alloc);
        slots.push(Some(Held { value, said }))?;
        match Table::new(alloc, &[0, 0, word], slots, &key) {
            Ok((table, maker)) => {
                let entry_mutex = EntryMutex::new();
                Ok((Turn { table, entry_mutex }, maker))
            }
            Err(_) => Err(AllocError),
        }
    }

    // A seat for each pass.
    fn seats(
        &self,
        alloc: Global,
        mut maker: PlaceOf<V>,
        passes: u32,
    ) -> Result<Vec<SeatOf<V>>, AllocError>
        requires lock { maker.table_id ≡ id_of self.now }
        requires passes { passes_of self.now ≡ passes }
        requires making { IsMaking passes maker.me.0 }
        requires first { maker.me.0.pass ≡ 0 }
        requires slots { maker.me.1 ≡ [] }
        ensures count { IfOk result (λ seats. length seats.items ≡ passes) }
        ensures each { IfOk result (λ seats. AreNewSeats (id_of self.now) maker.me.0 seats.items) }
    {
        let mut seats = Vec::with_capacity(alloc, passes as usize)?;
        for _ in 0..passes {
            let seat = self.pass(&mut maker);
            seats.push(seat)?;
        }
        Ok(seats)
    }

    // The next pass.
    fn pass(&self, maker: &mut PlaceOf<V>) -> SeatOf<V>
        requires lock { maker.old.table_id ≡ id_of self.now }
        requires some { 0 < maker.old.me.0.parts }
        requires making { IsMaking maker.old.me.0.parts maker.old.me.0 }
        requires below { maker.old.me.0.pass < passes_of self.now }
        ensures maker { (maker.new.table_id ≡ maker.old.table_id)
            × (maker.new.me ≡ (less_one maker.old.me.0, maker.old.me.1)) }
        ensures seat { (result.place.table_id ≡ maker.old.table_id)
            × (result.place.me ≡ (next_pass maker.old.me.0, [])) }
    {
        let place = self.table.shared.split_seat::<MakePass>(maker);
        Seat { place, number: 0 }
    }
}
