ghost use Rattle.std.specs.Prelude.{◌≡◌, ◌≤◌, ◌⊎◌, length, Ok, IfOk};

use crate::again;
use crate::cause::failed_by;
use crate::kept::{Kept, keep};
use crate::saves::Saves;
use std::alloc::Global;
use std::fs::{File, OpenOptions, TryLockError};
use std::io::{Eprint, ErrorKind};
use std::os::unix::fs::FileExt;
use std::path::Path;
use std::rt::Files;
use std::{fs, io};
use ug_disk::Slot;

// Returns the name of the slot's file.
fn name_of(slot: Slot) -> &'static str {
    match slot {
        Slot::Zero => "slot0",
        Slot::One => "slot1",
    }
}

// Returns the name of the file that receives a copy of the slot before a new run overwrites it.
fn before_name_of(slot: Slot) -> &'static str {
    match slot {
        Slot::Zero => "before0",
        Slot::One => "before1",
    }
}

/// The use of the slots of a folder.
#[derive(Clone, Copy)]
pub enum Stage {
    /// They are read and nothing is made: a missing file is an empty slot.
    Looks,
    /// They are read, and made if they are missing. Before the first write they are copied.
    Begins,
    /// They are written.
    Writes,
}

/// The files of both slots, open for writing in a folder that is locked while this lives.
#[derive(Drop)]
pub struct SlotFiles<'a, R: Files<File = File>> {
    rt: &'a R,
    alloc: Global,
    path: &'a str,
    stage: Stage,
    saves: Saves,
    folder: Option<File>,
    kept: Kept<File>,
}

// Copies the rest of a file and waits until the copy is on the disk.
fn copied(mut from: File, mut to: File) -> io::Result<()> {
    let synced = match io::copy(&mut from, &mut to) {
        Ok(_) => to.sync_all(),
        Err(error) => Err(error),
    };
    drop(from);
    drop(to);
    synced
}

/// Opens the slot's file in the folder with these options.
pub fn open_slot<R: Files<File = File>>(
    rt: &R,
    alloc: Global,
    folder: &str,
    slot: Slot,
    ways: &OpenOptions,
) -> io::Result<File> {
    open_file(rt, alloc, folder, name_of(slot), ways)
}

// Opens the file for the copy of the slot, and truncates it.
fn open_before<R: Files<File = File>>(
    rt: &R,
    alloc: Global,
    folder: &str,
    slot: Slot,
) -> io::Result<File> {
    let mut ways = OpenOptions::new();
    ways.write(true).create(true).truncate(true);
    open_file(rt, alloc, folder, before_name_of(slot), &ways)
}

// Opens the file of this name in the folder.
fn open_file<R: Files<File = File>>(
    rt: &R,
    alloc: Global,
    folder: &str,
    name: &str,
    ways: &OpenOptions,
) -> io::Result<File> {
    match Path::new(folder).join(alloc, name) {
        Ok(path) => {
            let file = ways.open(rt, path.as_path());
            drop(path);
            file
        }
        Err(error) => Err(error.into()),
    }
}

// Returns the file, which was opened before.
fn opened(file: Option<&File>) -> io::Result<&File> {
    file.ok_or(io::Error::from(ErrorKind::NotFound))
}

fn len_of(file: &File) -> io::Result<u64> {
    match file.metadata() {
        Ok(metadata) => Ok(metadata.len()),
        Err(error) => Err(error),
    }
}

// Returns the error if another run has locked the folder.
fn busy() -> io::Error {
    io::Error::new(ErrorKind::ResourceBusy, "another run writes in this folder")
}

// Locks the folder and returns it.
fn locked(folder: File) -> io::Result<File> {
    match folder.try_lock() {
        Ok(()) => Ok(folder),
        Err(TryLockError::WouldBlock) => {
            drop(folder);
            Err(busy())
        }
        Err(TryLockError::Error(error)) => {
            drop(folder);
            Err(error)
        }
    }
}

// Opens and locks the folder of this path. Makes it first if it is missing and `makes` is set.
fn locked_folder<R: Files<File = File>>(rt: &R, path: &str, makes: bool) -> io::Result<File> {
    if makes {
        fs::create_dir_all(rt, path)?;
    }
    File::open(rt, path).and_then(locked)
}

// Returns the result of the copy of the slots. If it succeeded, prints so on standard error.
fn kept<R: Eprint>(rt: &R, path: &str, copied: io::Result<()>) -> io::Result<()> {
    if copied.is_ok() {
        let _ = eprintln!(rt;
            "ug: warning: {path}: the run begins anew; the old checkpoint is kept as before0, before1"
        );
    }
    copied
}

// Returns the result of a call, or `none` if the error is that the file is missing and `makes` is
// not set.
fn unless_missing<T: Copy>(got: io::Result<T>, makes: bool, none: T) -> io::Result<T>
    ensures { IfOk result (λ given. (got ≡ Ok given) ⊎ (given ≡ none)) }
{
    if makes || !failed_by(&got, ErrorKind::NotFound) {
        return got;
    }
    drop(got);
    Ok(none)
}

impl<'a, R: Files<File = File>> SlotFiles<'a, R> {
    /// Returns the files of the folder of this path, with nothing open yet.
    pub fn new(rt: &'a R, alloc: Global, path: &'a str, stage: Stage) -> SlotFiles<'a, R> {
        SlotFiles {
            rt,
            alloc,
            path,
            stage,
            saves: Saves::new(),
            folder: None,
            kept: Kept::new(),
        }
    }

    /// Returns the number of images saved.
    pub fn saves(&self) -> u64 {
        self.saves.count()
    }

    // Is a missing file or folder made?
    fn makes(&self) -> bool {
        !matches!(&self.stage, Stage::Looks)
    }

    // Returns the folder, locked at the first call.
    fn lock(&mut self) -> io::Result<&File> {
        if self.folder.is_none() {
            let makes = self.makes();
            return keep(&mut self.folder, locked_folder(self.rt, self.path, makes));
        }
        opened(self.folder.as_ref())
    }

    // Opens the slot's file in the locked folder.
    fn open(&mut self, slot: Slot) -> io::Result<File> {
        match self.lock() {
            Ok(_) => {
                let makes = self.makes();
                let mut ways = OpenOptions::new();
                ways.read(true).write(true).create(makes);
                open_slot(self.rt, self.alloc, self.path, slot, &ways)
            }
            Err(error) => Err(error),
        }
    }

    // Returns the slot's file, opened at the first call.
    fn file(&mut self, slot: Slot) -> io::Result<&File> {
        if self.kept.of(slot).is_none() {
            let got = self.open(slot);
            return self.kept.keep(slot, got);
        }
        opened(self.kept.of(slot))
    }

    /// Returns the length of the slot in bytes.
    pub fn len(&mut self, slot: Slot) -> io::Result<u64> {
        let got = self.file(slot).and_then(len_of);
        unless_missing(got, self.makes(), 0)
    }

    /// Reads some of the slot's bytes from a place on and returns their number.
    pub fn read(&mut self, slot: Slot, at: u64, buffer: &mut [u8]) -> io::Result<usize>
        ensures { IfOk result (λ n. n ≤ length buffer.new) }
    {
        let makes = self.makes();
        let got = match self.file(slot) {
            Ok(file) => again::read_at(file, buffer, at),
            Err(error) => Err(error),
        };
        unless_missing(got, makes, 0)
    }

    // Waits until the names in the folder are on the disk.
    fn sync_folder(&mut self) -> io::Result<()> {
        self.lock().and_then(File::sync_all)
    }

    // Writes all of the bytes from a place on.
    fn put(&mut self, slot: Slot, at: u64, bytes: &[u8]) -> io::Result<()> {
        match self.file(slot) {
            Ok(file) => file.write_all_at(bytes, at),
            Err(error) => Err(error),
        }
    }

    // Copies the slot to its `before` file, which is overwritten.
    fn copy(&mut self, slot: Slot) -> io::Result<()> {
        let to = match open_before(self.rt, self.alloc, self.path, slot) {
            Ok(to) => to,
            Err(error) => return Err(error),
        };
        // Opened anew, so that it is read from its beginning.
        match open_slot(
            self.rt,
            self.alloc,
            self.path,
            slot,
            OpenOptions::new().read(true),
        ) {
            Ok(from) => copied(from, to),
            Err(error) => {
                drop(to);
                Err(error)
            }
        }
    }

    // Copies both slots and syncs the names of the copies.
    fn copy_both(&mut self) -> io::Result<()> {
        let zero = self.copy(Slot::Zero);
        if zero.is_err() {
            return zero;
        }
        let one = self.copy(Slot::One);
        if one.is_err() {
            return one;
        }
        self.sync_folder()
    }

    // Does a slot have any bytes?
    fn has_any(&mut self) -> io::Result<bool> {
        match self.len(Slot::Zero) {
            Ok(zero) => match self.len(Slot::One) {
                Ok(one) => Ok(zero != 0 || one != 0),
                Err(error) => Err(error),
            },
            Err(error) => Err(error),
        }
    }
}

impl<R: Files<File = File> + Eprint> SlotFiles<'_, R> {
    // Copies the slots if one has any bytes, and prints so on standard error.
    fn keep_before(&mut self) -> io::Result<()> {
        match self.has_any() {
            Ok(true) => {
                let copied = self.copy_both();
                kept(self.rt, self.path, copied)
            }
            Ok(false) => Ok(()),
            Err(error) => Err(error),
        }
    }

    // Returns the result of a call of a save, and records a failure.
    fn noted(&mut self, got: io::Result<()>) -> io::Result<()> {
        if let Err(error) = &got {
            self.saves.failed(self.rt, self.path, error);
        }
        got
    }

    /// Writes all of the bytes from a place on. In a new run the slots are copied before the first
    /// write.
    pub fn write(&mut self, slot: Slot, at: u64, bytes: &[u8]) -> io::Result<()> {
        if matches!(&self.stage, Stage::Begins) {
            let kept = self.keep_before();
            if kept.is_err() {
                return kept;
            }
        }
        self.stage = Stage::Writes;
        let got = self.put(slot, at, bytes);
        self.saves.wrote(at, bytes);
        self.noted(got)
    }

    /// Waits until the bytes of the slot's file are on the disk.
    pub fn sync(&mut self, slot: Slot) -> io::Result<()> {
        let got = self.file(slot).and_then(File::sync_all);
        // If the file is missing and was not to be made, nothing has to reach the disk.
        let got = unless_missing(got, self.makes(), ());
        self.noted(got)
    }

    /// Waits until the names in the folder are on the disk.
    pub fn sync_names(&mut self) -> io::Result<()> {
        let got = self.sync_folder();
        match unless_missing(got, self.makes(), ()) {
            Ok(()) => {
                self.saves.settled(self.rt, self.path);
                Ok(())
            }
            Err(error) => self.noted(Err(error)),
        }
    }
}
