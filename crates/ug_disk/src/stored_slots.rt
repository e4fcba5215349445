ghost use Rattle.std.specs.Prelude.{◌≡◌, ◌≤◌, ◌↔◌, length, Ok, IfOk, IfSome, IsErr, IsNone, OnErr};
ghost use Rattle.ug_disk.specs.Slots.{IsReal, synced, loosened, written};
ghost use Rattle.ug_disk.specs.Histories.{slot_of};
ghost use Rattle.ug_disk.specs.Crashes.{MayLeaveBoth};
ghost use Rattle.ug_disk.specs.Memories.{HasChanged, IsFirstForbidden, slots_of};

use crate::slot::Slot;
use crate::stored::{Stored, StoredSlots};
use crate::undo::{Kept, Undo};
use std::alloc::{AllocError, Global};

// Returns what undoes the change of a slot.
fn changed(slot: Slot, kept: Result<Kept, AllocError>) -> Result<Undo, AllocError>
    ensures ok { IfOk result (λ change. (change.slot ≡ slot) × (kept ≡ Ok change.kept)) }
    ensures err { OnErr result (IsErr kept) }
{
    match kept {
        Ok(kept) => Ok(Undo { slot, kept }),
        Err(error) => Err(error),
    }
}

impl StoredSlots {
    /// Returns slots with these bytes and nothing pending.
    pub fn new(alloc: Global, zero: Vec<u8>, one: Vec<u8>) -> StoredSlots
        ensures { slots_of result ≡ record { zero = synced zero.items; one = synced one.items } }
    {
        StoredSlots {
            zero: Stored::new(alloc, zero),
            one: Stored::new(alloc, one),
        }
    }

    /// Returns what a read of the slot returns.
    pub fn bytes(&self, slot: Slot) -> &[u8]
        ensures bytes { result.now ≡ (slot_of slot (slots_of self.now)).bytes }
    {
        match slot {
            Slot::Zero => self.zero.bytes(),
            Slot::One => self.one.bytes(),
        }
    }

    /// Returns the first slot whose image a crash may not leave.
    pub fn first_forbidden(&self, zero: &[u8], one: &[u8]) -> Option<Slot>
        ensures allowed { IsNone result ↔ MayLeaveBoth (slots_of self.now) zero.now one.now }
        ensures forbidden { IfSome result (IsFirstForbidden (slots_of self.now) zero.now one.now) }
    {
        if !self.zero.may_leave(zero) {
            return Some(Slot::Zero);
        }
        if !self.one.may_leave(one) {
            return Some(Slot::One);
        }
        None
    }

    /// Overwrites the slot's bytes.
    pub fn write(
        &mut self,
        alloc: Global,
        slot: Slot,
        at: u64,
        piece: &[u8],
    ) -> Result<Undo, AllocError>
        requires { at ≤ length (slot_of slot (slots_of self.old)).bytes }
        ensures ok { IfOk result (HasChanged slot (written at piece.now) self.old self.new) }
        ensures err { OnErr result (self.new ≡ self.old) }
    {
        let kept = match slot {
            Slot::Zero => self.zero.write(alloc, at, piece),
            Slot::One => self.one.write(alloc, at, piece),
        };
        changed(slot, kept)
    }

    /// Does what a failed write does.
    pub fn loosen(
        &mut self,
        alloc: Global,
        slot: Slot,
        at: u64,
        piece: &[u8],
    ) -> Result<Undo, AllocError>
        requires { at ≤ length (slot_of slot (slots_of self.old)).bytes }
        ensures ok { IfOk result (HasChanged slot (loosened at (length piece.now))
            self.old self.new) }
        ensures err { OnErr result (self.new ≡ self.old) }
    {
        let kept = match slot {
            Slot::Zero => self.zero.loosen(alloc, at, piece),
            Slot::One => self.one.loosen(alloc, at, piece),
        };
        changed(slot, kept)
    }

    /// Ends what is pending in the slot.
    pub fn sync(&mut self, alloc: Global, slot: Slot) -> Undo
        ensures { HasChanged slot (λ state. synced state.bytes) self.old self.new result }
    {
        let kept = match slot {
            Slot::Zero => self.zero.sync(alloc),
            Slot::One => self.one.sync(alloc),
        };
        Undo { slot, kept }
    }
}
