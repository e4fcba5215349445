ghost use Rattle.std.specs.Prelude.{◌≡◌, Some, Ok, IfOk, IsErr, OnErr};
ghost use Rattle.ug_disk.specs.Memories.{history_of};
ghost use Rattle.ug_checkpoint.specs.Savers.{IsKept};

use crate::crashes::savers::{opened, save_bytes};
use crate::crashes::slots::{disk_of, script_of, slot_of};
use crate::expect::{holds_at, same_at};
use std::alloc::{AllocError, Global};
use std::io;
use std::io::ErrorKind;
use std::process::Abort;
use ug_checkpoint::Saver;
use ug_disk::{Disk, MemoryDisk, Slot, write_synced};
use ug_io::Failed;
use ug_real::{FileDisk, Folder};

// A call on a folder that changes what it has or waits for the disk. Of what is written the place
// and the first byte are kept.
#[derive(Clone, Copy, Debug, PartialEq, Eq)]
enum Call {
    Write(Slot, u64, u8),
    SyncFile(Slot),
    SyncFolder,
}

// A folder over a disk in memory, which keeps those calls. Its files have their names on the disk,
// and what is said of a slot, once the folder is synced behind its file.
#[derive(Drop)]
struct MemoryFolder {
    disk: MemoryDisk,
    settled: Option<Slot>,
    calls: Vec<Call>,
}

// What a call on the disk gave, as a system would answer it.
fn answer<T: Drop>(got: Result<T, Failed>) -> io::Result<T>
    ensures given { IfOk result (λ x. got ≡ Ok x) }
    ensures failed { OnErr result (IsErr got) }
{
    match got {
        Ok(given) => Ok(given),
        Err(Failed) => Err(io::Error::from(ErrorKind::Other)),
    }
}

impl Folder for MemoryFolder {
    ghost seen = { λ f. record { told = Some (history_of f.disk); settled = f.settled } };

    fn len(&mut self, slot: Slot) -> io::Result<u64> {
        answer(self.disk.len(slot))
    }

    fn read_at(&mut self, slot: Slot, at: u64, buffer: &mut [u8]) -> io::Result<usize> {
        answer(self.disk.read_at(slot, at, buffer))
    }

    fn write_at(&mut self, slot: Slot, at: u64, bytes: &[u8]) -> io::Result<()> {
        let first = bytes.first().copied().unwrap_or(0);
        drop(self.calls.push(Call::Write(slot, at, first)));
        self.settled = None;
        answer(self.disk.write_at(slot, at, bytes))
    }

    fn sync_file(&mut self, slot: Slot) -> io::Result<()> {
        drop(self.calls.push(Call::SyncFile(slot)));
        match self.disk.len(slot) {
            Ok(_) => {
                self.settled = Some(slot);
                Ok(())
            }
            Err(Failed) => Err(io::Error::from(ErrorKind::Other)),
        }
    }

    fn sync_folder(&mut self) -> io::Result<()> {
        drop(self.calls.push(Call::SyncFolder));
        match self.settled {
            Some(slot) => answer(self.disk.sync(slot)),
            None => Ok(()),
        }
    }
}

// A disk over a folder of empty files, of which these calls fail: each that is kept is one, and so
// is each that reads.
fn disk_for(alloc: Global, failing: &[u64]) -> Result<FileDisk<MemoryFolder>, AllocError> {
    let disk = disk_of(alloc, &[], &[], script_of(alloc, failing, &[])?)?;
    Ok(FileDisk::new(MemoryFolder {
        disk,
        settled: None,
        calls: Vec::new(alloc),
    }))
}

// What a save makes of calls: the gate is shut, the body written, and the gate opened, each in the
// file and then by the names of the folder on the disk before the next.
fn calls_of(slot: Slot) -> [Call; 9] {
    [
        Call::Write(slot, 0, 0),
        Call::SyncFile(slot),
        Call::SyncFolder,
        Call::Write(slot, 1, 0),
        Call::SyncFile(slot),
        Call::SyncFolder,
        Call::Write(slot, 0, 1),
        Call::SyncFile(slot),
        Call::SyncFolder,
    ]
}

// Sequences that are saved one after another, and the slot of each.
const SAVES: &[(u8, Slot)] = &[(1, Slot::Zero), (2, Slot::One), (3, Slot::Zero)];

// Expects saves to make these calls.
fn makes_calls(rt: &impl Abort, disk: &mut FileDisk<MemoryFolder>, saver: &mut Saver, alloc: Global)
    requires { IsKept saver.old (Some (history_of disk.old.folder.disk)) }
{
    for (sequence, slot) in SAVES {
        let before = disk.folder().calls.len();
        let saved = save_bytes(alloc, disk, saver, &slot_of(1, *sequence, 0)[9..]);
        holds_at(rt, saved == Ok(()), sequence);
        let calls = disk.folder().calls.get(before..).unwrap_or(&[]);
        same_at(rt, &calls, &calls_of(*slot).as_slice(), sequence);
    }
}

#[test]
fn a_save_waits_for_its_file_and_then_for_the_folder(rt: HostRuntime) {
    let alloc = rt.alloc();
    let mut disk = disk_for(alloc, &[]).expect(&rt, "memory");
    let mut saver = opened(alloc, &mut disk).expect(&rt, "a saver");
    makes_calls(&rt, &mut disk, &mut saver, alloc);
    drop(saver);
    drop(disk);
}

// Which call of a write and its sync fails, whether the sync is acknowledged, and the calls.
const CASES: &[(u64, bool, &[Call])] = &[
    (
        0,
        true,
        &[
            Call::Write(Slot::One, 0, 8),
            Call::SyncFile(Slot::One),
            Call::SyncFolder,
        ],
    ),
    (1, false, &[Call::Write(Slot::One, 0, 8)]),
    (
        2,
        false,
        &[Call::Write(Slot::One, 0, 8), Call::SyncFile(Slot::One)],
    ),
    (
        3,
        false,
        &[
            Call::Write(Slot::One, 0, 8),
            Call::SyncFile(Slot::One),
            Call::SyncFolder,
        ],
    ),
];

#[test]
fn a_sync_is_acknowledged_where_both_syncs_are(rt: HostRuntime) {
    for (failing, made, calls) in CASES {
        let mut disk = disk_for(rt.alloc(), &[*failing]).expect(&rt, "memory");
        let is_made = write_synced(&mut disk, Slot::One, 0, &[8]).is_ok();
        same_at(&rt, &is_made, made, failing);
        same_at(&rt, &disk.folder().calls.as_slice(), calls, failing);
        drop(disk);
    }
}
