//! Commands over a disk of whose calls some fail: a fault while a run begins, a missed save later.

use crate::commands::{EMPTY, KNAPSACK, first_slot};
use crate::expect::{holds, holds_at, same, same_at};
use crate::running::{disk_with, told};
use std::alloc::{AllocError, Global};
use std::process::Abort;
use std::sync::Wait;
use std::thread::Threads;
use ug_disk::MemoryDisk;

// A disk whose slot 0 has these bytes, of whose calls these fail.
fn failing_disk(alloc: Global, zero: &[u8], calls: &[u64]) -> Result<MemoryDisk, AllocError> {
    let failing = calls.to_vec(alloc)?;
    match zero.to_vec(alloc) {
        Ok(zero) => Ok(disk_with(alloc, zero, Vec::new(alloc), failing)),
        Err(error) => {
            drop(failing);
            Err(error)
        }
    }
}

/// What a solve reports of a disk of which a call fails.
#[derive(Clone, Copy, Debug, PartialEq, Eq)]
enum Told {
    Fault,
    Missed,
    Optimum,
    Other,
}

fn told_by(told: &[u8]) -> Told {
    if told == b"\x06disk fault\n".as_slice() {
        Told::Fault
    } else if told == b"\0optimal 0\nmissed 1\n".as_slice() {
        Told::Missed
    } else if told == b"\0optimal 0\n".as_slice() {
        Told::Optimum
    } else {
        Told::Other
    }
}

// Returns the report of a command over slot 0, if this call of its disk fails, and whether a
// checkpoint is found then.
fn told_where_it_fails<R: Threads + Wait + Sync + Abort>(
    rt: &R,
    alloc: Global,
    line: &str,
    zero: &[u8],
    call: u64,
) -> (Told, bool) {
    let mut disk = failing_disk(alloc, zero, &[call]).expect(rt, "memory");
    let lines = told(rt, alloc, line, EMPTY.as_bytes(), &mut disk).expect(rt, "memory");
    let by = told_by(&lines);
    drop(lines);
    let shown = told(rt, alloc, "show --checkpoint d", b"", &mut disk).expect(rt, "memory");
    drop(disk);
    let is_found = shown.starts_with(b"\0run ");
    drop(shown);
    (by, is_found)
}

// Expects a command over slot 0 to report a fault where one of the first calls of its disk fails, a
// missed save where a later one does, and what it reports anyway behind its last. If slot 0 has a
// checkpoint, one is found after each that failed.
fn tells_each_fault<R: Threads + Wait + Sync + Abort>(
    rt: &R,
    alloc: Global,
    line: &str,
    zero: &[u8],
) {
    let mut faults = 0u32;
    let mut missed = 0u32;
    let mut found = 0u32;
    for call in 1..40 {
        let (told, is_found) = told_where_it_fails(rt, alloc, line, zero, call);
        holds_at(
            rt,
            is_found || zero.is_empty() || told == Told::Optimum,
            &call,
        );
        match told {
            Told::Fault if missed == 0 => faults = faults.saturating_add(1),
            Told::Missed if found == 0 => missed = missed.saturating_add(1),
            told => {
                same_at(rt, &told, &Told::Optimum, &call);
                found = found.saturating_add(1);
            }
        }
    }
    // Six calls of a save at least are behind six of the first one, and some load before.
    holds(rt, faults > 6 && missed >= 6 && found > 0);
}

#[test]
fn disk_that_fails_is_a_fault_first_and_a_missed_save_later(rt: HostRuntime) {
    tells_each_fault(&rt, rt.alloc(), "solve f --checkpoint d", b"");
}

#[test]
fn restart_on_a_disk_that_fails_keeps_the_checkpoint(rt: HostRuntime) {
    tells_each_fault(&rt, rt.alloc(), "restart f --checkpoint d", &first_slot());
}

// Whether recovery finds the book with which the first run ended.
fn shows_its_end<R: Threads + Wait + Sync + Abort>(
    rt: &R,
    alloc: Global,
    disk: &mut MemoryDisk,
) -> bool {
    let shown = told(rt, alloc, "show --checkpoint d", b"", disk).expect(rt, "memory");
    let is_ended = shown.starts_with(b"\0run 1\n") && shown.ends_with(b"\nnodes 0\n");
    drop(shown);
    is_ended
}

// A solve that saves after each report.
const EVERY_ONE: &str = "solve f --checkpoint d --every 1";

// Whether a solve that saves after each report misses a save, and nothing else, where this call of
// its disk fails; and whether recovery then finds the book with which it ended.
fn missed_where_it_fails<R: Threads + Wait + Sync + Abort>(
    rt: &R,
    alloc: Global,
    call: u64,
) -> (bool, bool) {
    let mut disk = failing_disk(alloc, b"", &[call]).expect(rt, "memory");
    let told = told(rt, alloc, EVERY_ONE, KNAPSACK.as_bytes(), &mut disk).expect(rt, "memory");
    let is_missed = told.as_slice() == b"\0optimal 13\nA 2\nC 1\nmissed 1\n".as_slice();
    drop(told);
    let is_ended = shows_its_end(rt, alloc, &mut disk);
    drop(disk);
    (is_missed, is_ended)
}

// The first save behind that of the root's image is of a snapshot, however the solver progresses.
#[test]
fn missed_save_of_a_snapshot_is_followed_by_the_last_save(rt: HostRuntime) {
    let mut met = 0u32;
    for call in 1..40 {
        let (is_missed, is_ended) = missed_where_it_fails(&rt, rt.alloc(), call);
        if is_missed && met < 6 {
            holds_at(&rt, is_ended, &call);
            met = met.saturating_add(1);
        }
    }
    same(&rt, &met, &6);
}

// Whether a solve that saves after each report misses two saves, where this call of its disk and
// the next one fail: a save ends with the call that fails, and another begins with the next.
fn misses_two<R: Threads + Wait + Sync + Abort>(rt: &R, alloc: Global, call: u64) -> bool {
    let calls = [call, call.saturating_add(1)];
    let mut disk = failing_disk(alloc, b"", &calls).expect(rt, "memory");
    let told = told(rt, alloc, EVERY_ONE, KNAPSACK.as_bytes(), &mut disk).expect(rt, "memory");
    drop(disk);
    let are_missed = told.as_slice() == b"\0optimal 13\nA 2\nC 1\nmissed 2\n".as_slice();
    drop(told);
    are_missed
}

#[test]
fn each_save_that_is_missed_is_counted(rt: HostRuntime) {
    let mut met = 0u32;
    for call in 1..40 {
        let (is_missed, _) = missed_where_it_fails(&rt, rt.alloc(), call);
        if is_missed && met < 6 {
            holds_at(&rt, misses_two(&rt, rt.alloc(), call), &call);
            met = met.saturating_add(1);
        }
    }
    same(&rt, &met, &6);
}
