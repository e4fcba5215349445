//! A disk in memory, for tests and for examining what a crash may leave.

ghost use Rattle.std.specs.Prelude.{◌≡◌, ◌≤◌, ◌<◌, ℕ, [], Some, length, take, drop, IfErr, IsOk, IsErr, OnOk, OnErr};
ghost use Rattle.ug_io.specs.Outside.{IsCounted, Rose};
ghost use Rattle.ug_disk.specs.Slots.{synced, written, loosened};
ghost use Rattle.ug_disk.specs.Histories.{AreReal, Fails, slot_of, stepped};
ghost use Rattle.ug_disk.specs.Crashes.{MayLeaveBoth};

use crate::disk::Disk;
use crate::script::{Calls, Script, Turn};
use crate::slot::{NotAllowed, Slot};
use crate::stored::StoredSlots;
use crate::undo::Undo;
use std::alloc::{AllocError, Global};
use std::mem;
use ug_io::Failed;

/// Two slots of bytes in memory. It records what is pending and what each change replaced, so it
/// shows the whole history. A call fails if its script says so, or if it runs out of memory; all
/// calls fail once the disk has stopped.
#[derive(Drop)]
pub struct MemoryDisk {
    alloc: Global,
    slots: StoredSlots,
    past: Vec<Undo>,
    calls: Calls,
}

impl MemoryDisk {
    ghost use Rattle.ug_disk.specs.Memories.{history_of, faults_of, calls_of, begun, HasStopped, IsFirstForbidden};

    /// Returns a disk whose slots have these bytes, with nothing pending.
    pub fn new(alloc: Global, zero: Vec<u8>, one: Vec<u8>, script: Script) -> MemoryDisk
        ensures told { history_of result ≡ begun zero.items one.items }
        ensures calls { calls_of result ≡ 0 }
        ensures goes { ¬ HasStopped result }
    {
        MemoryDisk {
            alloc,
            slots: StoredSlots::new(alloc, zero, one),
            past: Vec::new(alloc),
            calls: Calls::new(script),
        }
    }

    /// Returns what a read of the slot returns.
    pub fn bytes(&self, slot: Slot) -> &[u8]
        ensures { result.now ≡ (slot_of slot (history_of self.now).now).bytes }
    {
        self.slots.bytes(slot)
    }

    /// Returns the number of calls of `Disk`, failed ones included.
    pub fn calls(&self) -> u64
        ensures { result ≡ calls_of self.now }
    {
        self.calls.count
    }

    /// Crashes: leaves these images if a crash may leave them now. Then nothing is pending, a
    /// stopped disk works again, and the history starts anew. Otherwise names the first slot whose
    /// image a crash may not leave.
    pub fn crash(&mut self, zero: Vec<u8>, one: Vec<u8>) -> Result<(), NotAllowed>
        ensures allowed { OnOk result
            (MayLeaveBoth (history_of self.old).now zero.items one.items) }
        ensures left { OnOk result (history_of self.new ≡ begun zero.items one.items) }
        ensures forbidden { IfErr result (λ e.
            IsFirstForbidden (history_of self.old).now zero.items one.items e.slot) }
        ensures kept { OnErr result (self.new ≡ self.old) }
        ensures goes { OnOk result (¬ HasStopped self.new) }
        ensures faults { faults_of self.new ≡ faults_of self.old }
    {
        if let Some(slot) = self.slots.first_forbidden(&zero, &one) {
            drop(zero);
            drop(one);
            return Err(NotAllowed { slot });
        }
        drop(mem::replace(&mut self.slots, StoredSlots::new(self.alloc, zero, one)));
        self.past.clear();
        self.calls.resume();
        Ok(())
    }

    /// Lets a stopped disk work again. Pending writes stay pending.
    pub fn resume(&mut self)
        ensures told { history_of self.new ≡ history_of self.old }
        ensures goes { ¬ HasStopped self.new }
        ensures faults { faults_of self.new ≡ faults_of self.old }
    {
        self.calls.resume();
    }

    // Counts a call and returns what happens to it.
    fn next(&mut self) -> Turn
        ensures told { history_of self.new ≡ history_of self.old }
        ensures real { AreReal (Some (history_of self.old)) }
        ensures fails { (result ≡ Turn.Goes → ⊥) → Rose (faults_of self.old) (faults_of self.new) }
        ensures goes { result ≡ Turn.Goes → faults_of self.new ≡ faults_of self.old }
    {
        self.slots.zero.is_real();
        self.slots.one.is_real();
        self.calls.next()
    }

    // Counts a call. Fails if the script says so.
    fn goes(&mut self) -> Result<(), Failed>
        ensures told { history_of self.new ≡ history_of self.old }
        ensures real { AreReal (Some (history_of self.old)) }
        ensures cause { IsCounted result (faults_of self.old) (faults_of self.new) }
    {
        match self.next() {
            Turn::Goes => Ok(()),
            Turn::Fails | Turn::Stopped => Err(Failed),
        }
    }

    // Counts out of memory as a fault.
    fn counted(&mut self, done: Result<(), AllocError>) -> Result<(), Failed>
        ensures ok { OnOk result (IsOk done) }
        ensures err { OnErr result (IsErr done) }
        ensures told { history_of self.new ≡ history_of self.old }
        ensures cause { IsCounted result (faults_of self.old) (faults_of self.new) }
    {
        if done.is_err() {
            self.calls.fail();
            return Err(Failed);
        }
        Ok(())
    }

    // Writes, and records what was there.
    fn put(&mut self, slot: Slot, at: u64, bytes: &[u8]) -> Result<(), AllocError>
        requires { at ≤ length (slot_of slot (history_of self.old).now).bytes }
        ensures ok { OnOk result (history_of self.new
            ≡ stepped slot (written at bytes.now) (history_of self.old)) }
        ensures err { OnErr result (history_of self.new ≡ history_of self.old) }
        ensures faults { faults_of self.new ≡ faults_of self.old }
    {
        self.past.reserve(1)?;
        let undo = self.slots.write(self.alloc, slot, at, bytes)?;
        drop(self.past.push(undo));
        Ok(())
    }

    // Fails a write that has begun.
    fn tear(&mut self, slot: Slot, at: u64, bytes: &[u8])
        requires { at ≤ length (slot_of slot (history_of self.old).now).bytes }
        ensures told { Fails (Some (history_of self.old)) (Some (history_of self.new)) slot
            (loosened at (length bytes.now)) }
        ensures faults { faults_of self.new ≡ faults_of self.old }
    {
        self.slots.zero.is_real();
        self.slots.one.is_real();
        let _ = self.loosen(slot, at, bytes);
    }

    // Lets a crash leave any bytes in the place of a write, if there is memory to record it.
    fn loosen(&mut self, slot: Slot, at: u64, bytes: &[u8]) -> Result<(), AllocError>
        requires { at ≤ length (slot_of slot (history_of self.old).now).bytes }
        ensures ok { OnOk result (history_of self.new
            ≡ stepped slot (loosened at (length bytes.now)) (history_of self.old)) }
        ensures err { OnErr result (history_of self.new ≡ history_of self.old) }
        ensures faults { faults_of self.new ≡ faults_of self.old }
    {
        self.past.reserve(1)?;
        let undo = self.slots.loosen(self.alloc, slot, at, bytes)?;
        drop(self.past.push(undo));
        Ok(())
    }

    // Ends what is pending, and records it.
    fn settle(&mut self, slot: Slot) -> Result<(), AllocError>
        ensures ok { OnOk result (history_of self.new
            ≡ stepped slot (λ state. synced state.bytes) (history_of self.old)) }
        ensures err { OnErr result (history_of self.new ≡ history_of self.old) }
        ensures faults { faults_of self.new ≡ faults_of self.old }
    {
        self.past.reserve(1)?;
        let undo = self.slots.sync(self.alloc, slot);
        drop(self.past.push(undo));
        Ok(())
    }
}

impl Disk for MemoryDisk {
    ghost use Rattle.ug_disk.specs.Memories.{history_of, faults_of};

    ghost seen = { λ disk. record { told = Some (history_of disk); faults = faults_of disk } };

    fn len(&mut self, slot: Slot) -> Result<u64, Failed> {
        self.goes()?;
        Ok(self.slots.bytes(slot).len() as u64)
    }

    fn read_at(&mut self, slot: Slot, at: u64, buffer: &mut [u8]) -> Result<usize, Failed> {
        self.goes()?;
        Ok(copy_from(self.slots.bytes(slot), at, buffer))
    }

    fn write_at(&mut self, slot: Slot, at: u64, bytes: &[u8]) -> Result<(), Failed> {
        match self.next() {
            Turn::Goes => {
                let put = self.put(slot, at, bytes);
                self.counted(put)
            }
            Turn::Fails => {
                self.tear(slot, at, bytes);
                Err(Failed)
            }
            Turn::Stopped => Err(Failed),
        }
    }

    fn sync(&mut self, slot: Slot) -> Result<(), Failed> {
        if self.next() != Turn::Goes {
            return Err(Failed);
        }
        let settled = self.settle(slot);
        self.counted(settled)
    }
}

// Copies bytes from a place on into the buffer and returns their number.
fn copy_from(bytes: &[u8], at: u64, buffer: &mut [u8]) -> usize
    ensures within { result ≤ length buffer.new }
    ensures bytes { take result buffer.new ≡ take result (drop at bytes.now) }
    ensures end { result ≡ 0 → 0 < length buffer.old → length bytes.now ≤ at }
{
    let rest = bytes.get(at as usize..).unwrap_or(&[]);
    let n = rest.len().min(buffer.len());
    buffer[..n].copy_from_slice(&rest[..n]);
    n
}
