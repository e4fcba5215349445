ghost use Rattle.std.specs.Prelude.{◌≡◌, OnOk, OnErr};
ghost use Rattle.ug_disk.specs.Slots.{synced};
ghost use Rattle.ug_disk.specs.Histories.{AreReal, Fails, Steps};

use crate::faults::Faults;
use crate::folder::Folder;
use std::io;
use ug_disk::{Disk, Slot};
use ug_io::Failed;

/// The files of a folder as a disk. It shows the history that the folder shows. Out of memory
/// counts as a fault, as any other failure.
#[derive(Drop)]
pub struct FileDisk<F: Folder + Drop> {
    faults: Faults,
    folder: F,
}

impl<F: Folder + Drop> FileDisk<F> {
    /// Returns the disk of this folder, with no call failed yet.
    pub fn new(folder: F) -> FileDisk<F>
        ensures folder { result.folder ≡ folder }
        ensures faults { result.faults.count ≡ 0 }
    {
        FileDisk {
            folder,
            faults: Faults::new(),
        }
    }

    /// Returns the folder.
    pub fn folder(&self) -> &F
        ensures { result.now ≡ self.now.folder }
    {
        &self.folder
    }

    /// Returns the system's error of the last failed call, if a call has failed.
    pub fn error(&self) -> Option<&io::Error> {
        self.faults.last.as_ref()
    }
}

// Waits until the slot's bytes, and then its name in the folder, are on the disk.
fn sync_both<F: Folder>(folder: &mut F, slot: Slot) -> io::Result<()>
    ensures ok { OnOk result (Steps (F.seen folder.old).told (F.seen folder.new).told slot
        (λ state. synced state.bytes)) }
    ensures err { OnErr result (Fails (F.seen folder.old).told (F.seen folder.new).told slot
        (λ state. state)) }
    ensures real { AreReal (F.seen folder.old).told }
{
    match folder.sync_file(slot) {
        Ok(()) => folder.sync_folder(),
        Err(error) => Err(error),
    }
}

impl<F: Folder + Drop> Disk for FileDisk<F> {
    ghost seen = { λ d. record { told = (F.seen d.folder).told; faults = d.faults.count } };

    fn len(&mut self, slot: Slot) -> Result<u64, Failed> {
        let got = self.folder.len(slot);
        self.faults.counted(got)
    }

    fn read_at(&mut self, slot: Slot, at: u64, buffer: &mut [u8]) -> Result<usize, Failed> {
        let got = self.folder.read_at(slot, at, buffer);
        self.faults.counted(got)
    }

    fn write_at(&mut self, slot: Slot, at: u64, bytes: &[u8]) -> Result<(), Failed> {
        let got = self.folder.write_at(slot, at, bytes);
        self.faults.counted(got)
    }

    fn sync(&mut self, slot: Slot) -> Result<(), Failed> {
        let got = sync_both(&mut self.folder, slot);
        self.faults.counted(got)
    }
}
