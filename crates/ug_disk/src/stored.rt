ghost use Rattle.std.specs.Prelude.{◌≡◌, ◌<◌, ◌≤◌, ◌+◌, ◌⊎◌, ◌↔◌, ℕ, length, take, drop, slice_index, IsTrue, IfOk, OnOk, OnErr};
ghost use Rattle.ug_disk.specs.Slots.{IsReal, IsLoose, MayLeave, put_at, synced, loosened, written};
ghost use Rattle.ug_disk.specs.Memories.{restored};

use crate::slot::Span;
use crate::undo::Kept;
use std::alloc::{AllocError, Global};
use std::marker::Model;
use std::mem;

/// A slot in memory.
#[derive(Drop)]
pub struct Stored {
    bytes: Vec<u8>,
    shortest: u64,
    longest: u64,
    loose: Vec<Span>,
}

impl Model for Stored {
    ghost use Rattle.ug_disk.specs.Slots.{SlotState, IsReal};

    ghost Value = { SlotState };

    ghost view = { λ slot. record {
      bytes = slot.bytes.items;
      shortest = slot.shortest;
      longest = slot.longest;
      loose = slot.loose.items;
    } };

    ghost invariant = { λ slot. IsReal (record {
      bytes = slot.bytes.items;
      shortest = slot.shortest;
      longest = slot.longest;
      loose = slot.loose.items;
    }) };
}

/// The two slots in memory.
#[derive(Drop)]
pub struct StoredSlots {
    /// Slot 0.
    pub zero: Stored,
    /// Slot 1.
    pub one: Stored,
}

impl Stored {
    /// Returns a slot with these bytes and nothing pending.
    pub fn new(alloc: Global, bytes: Vec<u8>) -> Stored
        ensures { result ≡ synced bytes.items }
    {
        let len = bytes.len() as u64;
        Stored {
            bytes,
            shortest: len,
            longest: len,
            loose: Vec::new(alloc),
        }
    }

    /// Returns what a read returns.
    pub fn bytes(&self) -> &[u8]
        ensures { result.now ≡ self.now.bytes }
    {
        self.bytes.as_slice()
    }

    /// Shows that a read returns one of the images that a crash may leave.
    pub fn is_real(&self)
        ensures { IsReal self.now }
    {
        let _bytes = &self.bytes;
    }

    /// May a crash leave the image?
    pub fn may_leave(&self, image: &[u8]) -> bool
        ensures { IsTrue result ↔ MayLeave self.now image.now }
    {
        let len = image.len() as u64;
        if len < self.shortest || self.longest < len {
            return false;
        }
        keep(&self.loose, &self.bytes, image, self.shortest)
    }

    /// Overwrites the bytes from a place on, and extends them. Returns what was there.
    pub fn write(&mut self, alloc: Global, at: u64, piece: &[u8]) -> Result<Kept, AllocError>
        requires { at ≤ length self.old.bytes }
        ensures ok { OnOk result (self.new ≡ written at piece.now self.old) }
        ensures kept { IfOk result (λ kept. restored kept self.new ≡ self.old) }
        ensures err { OnErr result (self.new ≡ self.old) }
    {
        self.loose.reserve(1)?;
        let Ok(over) = copy(alloc, &self.bytes, at, piece.len()) else {
            return Err(AllocError);
        };
        if let Err(error) = overwrite(&mut self.bytes, at as usize, piece) {
            drop(over);
            return Err(error);
        }
        let longest = self.longest;
        let len = piece.len() as u64;
        let end = at + len;
        let _ = self.loose.push(Span { from: at, end });
        self.longest = longest.max(end);
        Ok(Kept::Bytes {
            at,
            len,
            over,
            longest,
        })
    }

    /// Does what a failed write does: a crash may leave any bytes in its place. Returns what was
    /// there.
    pub fn loosen(&mut self, alloc: Global, at: u64, piece: &[u8]) -> Result<Kept, AllocError>
        requires { at ≤ length self.old.bytes }
        ensures ok { OnOk result (self.new ≡ loosened at (length piece.now) self.old) }
        ensures kept { IfOk result (λ kept. restored kept self.new ≡ self.old) }
        ensures err { OnErr result (self.new ≡ self.old) }
    {
        self.loose.reserve(1)?;
        let Ok(over) = copy(alloc, &self.bytes, at, piece.len()) else {
            return Err(AllocError);
        };
        let longest = self.longest;
        let len = piece.len() as u64;
        let end = at + len;
        let _ = self.loose.push(Span { from: at, end });
        self.longest = longest.max(end);
        Ok(Kept::Bytes {
            at,
            len,
            over,
            longest,
        })
    }

    /// Ends what is pending, and returns it.
    pub fn sync(&mut self, alloc: Global) -> Kept
        ensures now { self.new ≡ synced self.old.bytes }
        ensures kept { restored result self.new ≡ self.old }
    {
        let len = self.bytes.len() as u64;
        let kept = Kept::Pending {
            shortest: self.shortest,
            longest: self.longest,
            loose: mem::replace(&mut self.loose, Vec::new(alloc)),
        };
        self.shortest = len;
        self.longest = len;
        kept
    }
}

// Returns a copy of the bytes at a place, as far as they go.
fn copy(alloc: Global, bytes: &[u8], at: u64, len: usize) -> Result<Vec<u8>, AllocError>
    requires { at ≤ length bytes.now }
    ensures { IfOk result (λ copy. copy.items ≡ take len (drop at bytes.now)) }
{
    let rest = &bytes[at as usize..];
    let len = len.min(rest.len());
    rest[..len].to_vec(alloc)
}

// Overwrites the bytes from a place on with the piece, and extends them.
fn overwrite(bytes: &mut Vec<u8>, at: usize, piece: &[u8]) -> Result<(), AllocError>
    requires { at ≤ length bytes.old.items }
    ensures ok { OnOk result (bytes.new.items ≡ put_at at piece.now bytes.old.items) }
    ensures err { OnErr result (bytes.new.items ≡ bytes.old.items) }
{
    let over = piece.len().min(bytes.len() - at);
    let (front, rest) = piece.split_at(over);
    bytes.extend_from_slice(rest)?;
    bytes[at..at + over].copy_from_slice(front);
    Ok(())
}

// Does the image agree with the bytes up to `end`, except at loose places?
fn keep(loose: &[Span], bytes: &[u8], image: &[u8], end: u64) -> bool
    requires bytes { end ≤ length bytes.now }
    requires image { end ≤ length image.now }
    ensures { IsTrue result ↔ ((place : ℕ) → place < end
        → IsLoose loose.now place ⊎ (slice_index image.now place ≡ slice_index bytes.now place)) }
{
    for place in 0..end {
        let at = place as usize;
        if image[at] != bytes[at] && !is_loose(loose, place) {
            return false;
        }
    }
    true
}

// Does the place lie in one of the spans?
fn is_loose(loose: &[Span], place: u64) -> bool
    ensures { IsTrue result ↔ IsLoose loose.now place }
{
    loose
        .iter()
        .any(|span| span.from <= place && place < span.end)
}
