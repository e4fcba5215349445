ghost use Rattle.std.specs.Prelude.{◌≤◌, length};
ghost use Rattle.ug_disk.specs.Histories.{Reads};

use crate::crashes::slots::{disk_of, script_of};
use crate::expect::{holds, holds_at, same};
use std::alloc::{AllocError, Global};
use std::process::Abort;
use ug_disk::{Disk, MemoryDisk, NotAllowed, Slot, read_all, write_synced};

// Whether the bytes were written to slot 0, at a place that it has.
fn put(disk: &mut MemoryDisk, at: u64, bytes: &[u8]) -> bool {
    disk.bytes(Slot::Zero).len() as u64 >= at && disk.write_at(Slot::Zero, at, bytes).is_ok()
}

// What a disk answers to a crash that leaves these images.
fn left(
    alloc: Global,
    disk: &mut MemoryDisk,
    zero: &[u8],
    one: &[u8],
) -> Result<Result<(), NotAllowed>, AllocError> {
    let zero = zero.to_vec(alloc)?;
    match one.to_vec(alloc) {
        Ok(one) => Ok(disk.crash(zero, one)),
        Err(error) => {
            drop(zero);
            Err(error)
        }
    }
}

// Bytes 2 and 3 and two behind the five are pending: images, and whether a crash may leave them.
const IMAGES: &[(&[u8], bool)] = &[
    (&[1, 2, 30, 40, 5, 60, 70], true),
    (&[1, 2, 3, 4, 5], true),
    (&[1, 2, 0, 255, 5], true),
    (&[1, 2, 3, 4, 5, 9], true),
    (&[1, 2, 3, 40, 5, 0, 0], true),
    (&[1, 2, 30, 40], false),
    (&[1, 2, 30, 40, 5, 60, 70, 80], false),
    (&[1, 9, 30, 40, 5, 60, 70], false),
    (&[9, 2, 3, 4, 5], false),
    (&[1, 2, 30, 40, 9, 60, 70], false),
    (&[], false),
];

fn disk_with_both(alloc: Global) -> Result<MemoryDisk, AllocError> {
    disk_of(alloc, &[1, 2, 3, 4, 5], &[7], script_of(alloc, &[], &[])?)
}

fn put_both(disk: &mut MemoryDisk) -> bool {
    put(disk, 2, &[30, 40]) && put(disk, 5, &[60, 70])
}

// Whether slot 0 has this image after a crash was allowed to leave it, and what was put where it
// was not.
fn is_left(alloc: Global, disk: &mut MemoryDisk, image: &[u8], allowed: bool) -> bool {
    let answer = left(alloc, disk, image, &[7]);
    if allowed {
        answer == Ok(Ok(())) && disk.bytes(Slot::Zero) == image
    } else {
        let refused = NotAllowed { slot: Slot::Zero };
        answer == Ok(Err(refused)) && disk.bytes(Slot::Zero) == [1, 2, 30, 40, 5, 60, 70].as_slice()
    }
}

// Whether a crash that leaves these images is refused for this slot.
fn is_refused(alloc: Global, disk: &mut MemoryDisk, zero: &[u8], one: &[u8], slot: Slot) -> bool {
    left(alloc, disk, zero, one) == Ok(Err(NotAllowed { slot }))
}

// Whether one that leaves other bytes of slot 1 is refused, and so is one that leaves other bytes
// of both.
fn refuses_others(alloc: Global, disk: &mut MemoryDisk) -> bool {
    let Ok(now) = disk.bytes(Slot::Zero).to_vec(alloc) else {
        return false;
    };
    let is_one = is_refused(alloc, disk, &now, &[8], Slot::One);
    drop(now);
    is_one && is_refused(alloc, disk, &[9], &[8], Slot::Zero)
}

#[test]
fn a_crash_leaves_what_the_model_allows(rt: HostRuntime) {
    let alloc = rt.alloc();
    for (image, allowed) in IMAGES {
        let mut disk = disk_with_both(alloc).expect(&rt, "memory");
        holds(&rt, put_both(&mut disk));
        holds_at(&rt, is_left(alloc, &mut disk, image, *allowed), image);
        holds_at(&rt, refuses_others(alloc, &mut disk), image);
        drop(disk);
    }
}

// Which call fails, after which the disk stops, whether the write and its sync were made, whether
// all was read then, the bytes, and whether a crash may leave any byte at their front.
type Case = (u64, u64, bool, bool, [u8; 2], bool);

const CASES: &[Case] = &[
    (0, 0, true, true, [8, 6], false),
    (1, 0, false, true, [5, 6], true),
    (2, 0, false, true, [8, 6], true),
    (3, 0, true, false, [8, 6], false),
    (4, 0, true, false, [8, 6], false),
    (0, 1, false, false, [8, 6], true),
    (0, 2, true, false, [8, 6], false),
];

fn reads_all<D: Disk>(alloc: Global, disk: &mut D, slot: Slot) -> bool {
    let read = read_all(alloc, disk, slot);
    let is_read = read.is_ok();
    drop(read);
    is_read
}

// Whether a write and its sync are made, and whether all is read then, whatever the disk.
fn write_and_read<D: Disk>(alloc: Global, disk: &mut D, slot: Slot, byte: u8) -> (bool, bool)
    requires { Reads (D.seen disk.old).told slot (λ there. 0 ≤ length there) }
{
    let wrote = write_synced(disk, slot, 0, &[byte]).is_ok();
    (wrote, reads_all(alloc, disk, slot))
}

// How long slot 1 is, and how many calls that takes.
fn len_in_calls(disk: &mut MemoryDisk) -> (Option<u64>, u64) {
    let calls = disk.calls();
    let len = disk.len(Slot::One).ok();
    (len, disk.calls().saturating_sub(calls))
}

fn disk_for(alloc: Global, case: &Case) -> Result<MemoryDisk, AllocError> {
    let (failing, stopping, ..) = *case;
    let script = script_of(alloc, &[failing], &[stopping])?;
    disk_of(alloc, &[7], &[5, 6], script)
}

// Expects the calls of a disk to continue, so that slot 1 has these two bytes.
fn goes_on(rt: &impl Abort, disk: &mut MemoryDisk, bytes: [u8; 2]) {
    disk.resume();
    same(rt, &len_in_calls(disk), &(Some(2), 1));
    same(rt, &disk.bytes(Slot::One), &bytes.as_slice());
}

// Expects of a disk what the case says.
fn goes_as_listed(rt: &impl Abort, alloc: Global, disk: &mut MemoryDisk, case: &Case) {
    let (_, _, made, all, bytes, torn) = *case;
    let found = write_and_read(alloc, disk, Slot::One, 8);
    same(rt, &found, &(made, all));
    goes_on(rt, disk, bytes);
    let is_torn = left(alloc, disk, &[7], &[77, 6]) == Ok(Ok(()));
    same(rt, &is_torn, &torn);
}

#[test]
fn calls_fail_and_stop_as_listed(rt: HostRuntime) {
    for case in CASES {
        let mut disk = disk_for(rt.alloc(), case).expect(&rt, "memory");
        goes_as_listed(&rt, rt.alloc(), &mut disk, case);
        drop(disk);
    }
}
