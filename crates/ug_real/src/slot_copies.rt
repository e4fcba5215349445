ghost use Rattle.std.specs.Prelude.{◌≡◌, ◌≤◌, ◌-◌, min, length, take, drop, IfOk};

use crate::kept::keep;
use crate::slot_files::open_slot;
use std::alloc::Global;
use std::fs::{File, OpenOptions};
use std::io::{ErrorKind, Read};
use std::rt::Files;
use std::{io, mem};
use ug_disk::Slot;

/// The number of repeated readings of the slots while another program writes them. If they are in
/// memory, large images may follow each other so fast that a hundred readings are too few.
const MOST_READINGS: u32 = 1000;

/// Copies of both slots as they were at one moment, made at the first call. Nothing in the folder
/// is made or locked.
#[derive(Drop)]
pub struct SlotCopies<'a, R: Files<File = File>> {
    alloc: Global,
    kept: Option<Copies>,
    path: &'a str,
    rt: &'a R,
}

// All bytes of each slot.
#[derive(Drop, PartialEq)]
struct Copies {
    zero: Vec<u8>,
    one: Vec<u8>,
}

impl Copies {
    fn of(&self, slot: Slot) -> &Vec<u8> {
        match slot {
            Slot::Zero => &self.zero,
            Slot::One => &self.one,
        }
    }
}

// Copies some of the bytes from a place on into the buffer and returns their number.
fn copy(bytes: &[u8], at: u64, buffer: &mut [u8]) -> usize
    ensures count { result ≡ min (length bytes.now - at) (length buffer.new) }
    ensures bytes { take result buffer.new ≡ take result (drop at bytes.now) }
{
    let at = (at as usize).min(bytes.len());
    let n = (bytes.len() - at).min(buffer.len());
    buffer[..n].copy_from_slice(&bytes[at..at + n]);
    n
}

// Returns all bytes of the file.
fn contents(alloc: Global, mut file: File) -> io::Result<Vec<u8>> {
    let mut bytes = Vec::new(alloc);
    let read = file.read_to_end(&mut bytes);
    drop(file);
    match read {
        Ok(_) => Ok(bytes),
        Err(error) => {
            drop(bytes);
            Err(error)
        }
    }
}

// Did the second reading fail, or return the same bytes as the first?
fn is_last(first: &io::Result<Copies>, second: &io::Result<Copies>) -> bool {
    match (first, second) {
        (Ok(before), Ok(after)) => before == after,
        _ => true,
    }
}

// Returns no bytes if the error is that the file is missing, otherwise the error.
fn unless_missing(alloc: Global, error: io::Error) -> io::Result<Vec<u8>> {
    if error.kind() == ErrorKind::NotFound {
        drop(error);
        return Ok(Vec::new(alloc));
    }
    Err(error)
}

impl<'a, R: Files<File = File>> SlotCopies<'a, R> {
    /// Returns the copies of the slots in the folder of this path, none made yet.
    pub fn new(rt: &'a R, alloc: Global, path: &'a str) -> SlotCopies<'a, R> {
        SlotCopies {
            rt,
            alloc,
            path,
            kept: None,
        }
    }

    // Returns all bytes of the slot's file at one reading: none if it is missing.
    fn whole(&self, slot: Slot) -> io::Result<Vec<u8>> {
        match open_slot(
            self.rt,
            self.alloc,
            self.path,
            slot,
            OpenOptions::new().read(true),
        ) {
            Ok(file) => contents(self.alloc, file),
            Err(error) => unless_missing(self.alloc, error),
        }
    }

    // Returns all bytes of both slots at one reading, slot 0 first.
    fn both(&self) -> io::Result<Copies> {
        let zero = self.whole(Slot::Zero)?;
        match self.whole(Slot::One) {
            Ok(one) => Ok(Copies { zero, one }),
            Err(error) => {
                drop(zero);
                Err(error)
            }
        }
    }

    // Reads both slots until two readings in a row agree: both had these bytes at one moment
    // between them. Another program may finish one slot and start the other while they are read, so
    // copies made one after the other might both have a closed gate. Fails if no two readings
    // agree.
    fn settled(&self) -> io::Result<Copies> {
        let mut last = self.both();
        if last.is_err() {
            return last;
        }
        for _ in 0..MOST_READINGS {
            let next = self.both();
            if is_last(&last, &next) {
                drop(last);
                return next;
            }
            drop(mem::replace(&mut last, next));
        }
        drop(last);
        Err(io::Error::new(ErrorKind::ResourceBusy, "the slots change at each reading"))
    }

    // Returns both slots, copied at the first call.
    fn copies(&mut self) -> io::Result<&Copies> {
        if self.kept.is_none() {
            let got = self.settled();
            return keep(&mut self.kept, got);
        }
        self.kept
            .as_ref()
            .ok_or(io::Error::from(ErrorKind::NotFound))
    }

    /// Returns the length of the slot in bytes.
    pub fn len(&mut self, slot: Slot) -> io::Result<u64> {
        match self.copies() {
            Ok(copies) => Ok(copies.of(slot).len() as u64),
            Err(error) => Err(error),
        }
    }

    /// Reads some of the slot's bytes from a place on and returns their number.
    pub fn read(&mut self, slot: Slot, at: u64, buffer: &mut [u8]) -> io::Result<usize>
        ensures { IfOk result (λ n. n ≤ length buffer.new) }
    {
        match self.copies() {
            Ok(copies) => Ok(copy(copies.of(slot), at, buffer)),
            Err(error) => Err(error),
        }
    }
}
