ghost use Rattle.std.specs.Prelude.{None};

use crate::folder::Folder;
use crate::slot_copies::SlotCopies;
use crate::slot_files::{SlotFiles, Stage};
use std::alloc::Global;
use std::fs::File;
use std::io;
use std::io::{Eprint, ErrorKind};
use std::rt::Files;
use ug_disk::Slot;

/// The files `slot0` and `slot1` of a folder. It shows nothing of their history.
#[derive(Drop)]
pub struct RealFolder<'a, R: Files<File = File>> {
    access: Access<'a, R>,
}

// What may be done with the folder.
#[derive(Drop)]
enum Access<'a, R: Files<File = File>> {
    Writing(SlotFiles<'a, R>),
    Reading(SlotCopies<'a, R>),
}

// Returns the error of a write to a folder that is open for reading only.
fn reads_alone() -> io::Error {
    io::Error::new(
        ErrorKind::Unsupported,
        "the folder is open for reading alone",
    )
}

impl<'a, R: Files<File = File>> RealFolder<'a, R> {
    /// Returns a folder in which a new run begins. The first call makes the folder and the files if
    /// they are missing, and locks the folder: until this object is dropped, calls on any other one
    /// that may write there fail. Before the first write, if a slot has any bytes, both are copied
    /// to the files `before0` and `before1`, which are overwritten, and standard error says so. If
    /// the copy fails, so does the write, and the slots are unchanged.
    pub fn beginning(rt: &'a R, alloc: Global, path: &'a str) -> RealFolder<'a, R> {
        RealFolder {
            access: Access::Writing(SlotFiles::new(rt, alloc, path, Stage::Begins)),
        }
    }

    /// Returns a folder from which a run resumes. Nothing is made before the first write: a missing
    /// file is an empty slot. It is locked as above.
    pub fn going_on(rt: &'a R, alloc: Global, path: &'a str) -> RealFolder<'a, R> {
        RealFolder {
            access: Access::Writing(SlotFiles::new(rt, alloc, path, Stage::Looks)),
        }
    }

    /// Returns a folder for reading only, also while another program writes it. Nothing is made,
    /// and a missing file is an empty slot. The first call copies both slots, once two readings of
    /// both in a row agree. A write fails, and a sync does nothing: what a crash would leave
    /// concerns the program that writes.
    pub fn reading(rt: &'a R, alloc: Global, path: &'a str) -> RealFolder<'a, R> {
        RealFolder {
            access: Access::Reading(SlotCopies::new(rt, alloc, path)),
        }
    }

    /// Returns the number of images saved by this object.
    pub fn saves(&self) -> u64 {
        match &self.access {
            Access::Writing(files) => files.saves(),
            Access::Reading(_) => 0,
        }
    }
}

impl<R: Files<File = File> + Eprint> Folder for RealFolder<'_, R> {
    ghost seen = { λ f. record { told = None; settled = None } };

    fn len(&mut self, slot: Slot) -> io::Result<u64> {
        match &mut self.access {
            Access::Writing(files) => files.len(slot),
            Access::Reading(copies) => copies.len(slot),
        }
    }

    fn read_at(&mut self, slot: Slot, at: u64, buffer: &mut [u8]) -> io::Result<usize> {
        match &mut self.access {
            Access::Writing(files) => files.read(slot, at, buffer),
            Access::Reading(copies) => copies.read(slot, at, buffer),
        }
    }

    fn write_at(&mut self, slot: Slot, at: u64, bytes: &[u8]) -> io::Result<()> {
        match &mut self.access {
            Access::Writing(files) => files.write(slot, at, bytes),
            Access::Reading(_) => Err(reads_alone()),
        }
    }

    fn sync_file(&mut self, slot: Slot) -> io::Result<()> {
        match &mut self.access {
            Access::Writing(files) => files.sync(slot),
            // Nothing was written here that would have to be synced.
            Access::Reading(_) => Ok(()),
        }
    }

    fn sync_folder(&mut self) -> io::Result<()> {
        match &mut self.access {
            Access::Writing(files) => files.sync_names(),
            Access::Reading(_) => Ok(()),
        }
    }
}
