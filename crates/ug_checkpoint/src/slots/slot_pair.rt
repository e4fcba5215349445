ghost use Rattle.std.specs.Prelude.{◌≡◌, ◌<◌, ◌+◌, ◌^◌, Option, Some, length, OnOk, OnErr};
ghost use Rattle.ug_io.specs.Outside.{IsCounted};
ghost use Rattle.ug_disk.specs.Histories.{History};
ghost use Rattle.ug_disk.specs.Crashes.{Leaves};
ghost use Rattle.ug_checkpoint.specs.Runs.{AreSynced, Becomes, OnlyOpens, IsOldOrNew, MaySave, HasSaved};

use crate::slots::gate::Gate;
use crate::slots::pieces::Pieces;
use crate::slots::saving::save_into;
use ug_disk::{Disk, Slot};
use ug_io::Failed;

/// The known state of two slots: which of them has the last acknowledged body, and of each whether
/// its gate is shut.
#[derive(Drop)]
pub struct SlotPair {
    last: Option<Slot>,
    zero: Gate,
    one: Gate,
}

impl SlotPair {
    ghost use Rattle.ug_checkpoint.specs.SlotPairs.{last_of, target_of, gate_of, with_gate, Knows};

    /// A pair of slots that are synced, as `read_both` leaves them.
    pub fn new(last: Option<Slot>) -> SlotPair
        ensures last { last_of result ≡ last }
        ensures knows { (told : Option History) → AreSynced told → Knows result told }
    {
        SlotPair {
            last,
            zero: Gate::Unread,
            one: Gate::Unread,
        }
    }

    /// The slot that has what was acknowledged last, if something was.
    pub fn last(&self) -> Option<Slot>
        ensures { result ≡ last_of self.now }
    {
        self.last
    }

    /// The slot that the next save writes: not the last one, and slot 0 where there is none.
    pub fn target(&self) -> Slot
        ensures { result ≡ target_of self.now }
    {
        match self.last {
            Some(Slot::Zero) => Slot::One,
            Some(Slot::One) | None => Slot::Zero,
        }
    }

    /// Saves a body into the slot that does not have the last one, in blocks of the buffer's
    /// length, and takes no memory. At `Ok` it is the last one. At `Err` the last one stays, and
    /// the next save writes the same slot.
    pub fn save<D: Disk, P: Pieces>(
        &mut self,
        disk: &mut D,
        pieces: &mut P,
        buffer: &mut [u8],
    ) -> Result<(), Failed>
        requires knows { Knows self.old (D.seen disk.old).told }
        requires room { 0 < length buffer.old }
        requires fits { length (P.rest pieces.old) + 1 < 2 ^ 64 }

        // At each moment, also where it fails, a crash leaves of the last one's slot what it could
        // leave before, and of the other, if it is open, that or the whole new body.
        ensures any_moment { Leaves
            (OnlyOpens (D.seen disk.old).told (target_of self.old) (IsOldOrNew (P.rest pieces.old)))
            (D.seen disk.old).told (D.seen disk.new).told }

        ensures saved { OnOk result (Becomes (D.seen disk.old).told (D.seen disk.new).told
            (target_of self.old) (HasSaved (P.rest pieces.old))) }
        ensures now { Becomes (D.seen disk.old).told (D.seen disk.new).told
            (target_of self.old) (MaySave (P.rest pieces.old)) }
        ensures last { OnOk result (last_of self.new ≡ Some (target_of self.old)) }
        ensures kept { OnErr result (last_of self.new ≡ last_of self.old) }
        ensures knows { Knows self.new (D.seen disk.new).told }

        ensures cause { IsCounted result (D.seen disk.old).faults (D.seen disk.new).faults }
    {
        let slot = self.target();
        let mut gate = self.gate(slot);
        let done = save_into(disk, slot, &mut gate, pieces, buffer);
        self.set_gate(slot, gate);
        done?;
        self.last = Some(slot);
        Ok(())
    }

    fn gate(&self, slot: Slot) -> Gate
        ensures { result ≡ gate_of slot self.now }
    {
        match slot {
            Slot::Zero => self.zero,
            Slot::One => self.one,
        }
    }

    fn set_gate(&mut self, slot: Slot, gate: Gate)
        ensures { self.new ≡ with_gate slot gate self.old }
    {
        match slot {
            Slot::Zero => self.zero = gate,
            Slot::One => self.one = gate,
        }
    }
}
