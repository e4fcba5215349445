ghost use Rattle.std.specs.Prelude.{Some, IfSome};
ghost use Rattle.ug_disk.specs.Memories.{history_of};
ghost use Rattle.ug_checkpoint.specs.Savers.{IsKept};

use crate::crashes::savers::save;
use crate::crashes::slots::{disk_with, nothing, settings, slot_of};
use crate::expect::{holds, holds_at};
use std::alloc::{AllocError, Global};
use ug_book::Book;
use ug_checkpoint::{SaveError, Saver};
use ug_disk::{MemoryDisk, Slot};
use ug_problem::{Problem, Shared};
use ug_restart::{Start, StartFault, begin, restart};
use ug_snapshot::image_of;

// Saves the next image of the book, if its sequence is above the last one.
fn saved(
    alloc: Global,
    disk: &mut MemoryDisk,
    book: &Book,
    saver: &mut Saver,
) -> Result<Result<(), SaveError>, AllocError>
    requires { IsKept saver.old (Some (history_of disk.old)) }
{
    let image = image_of(alloc, book, saver.sequence().saturating_add(1))?;
    let saved = save(alloc, disk, saver, &image);
    drop(image);
    Ok(saved)
}

// A new solve begins.
fn begun(alloc: Global, disk: &mut MemoryDisk, gap: u8) -> Option<(Book, Saver)>
    ensures { IfSome result (λ x. IsKept x.1 (Some (history_of disk.new))) }
{
    let problem = Shared::own(nothing(alloc, false).ok()?);
    let Ok(start) = begin(alloc, disk, problem, settings(gap)) else {
        return None;
    };
    let Start { opening, saver } = start;
    let book = Book::new(alloc, &opening);
    drop(opening);
    match book {
        Ok(book) => Some((book, saver)),
        Err(_) => None,
    }
}

// Whether one begins.
fn begins(alloc: Global, disk: &mut MemoryDisk, gap: u8) -> bool {
    let begun = begun(alloc, disk, gap);
    let begins = begun.is_some();
    drop(begun);
    begins
}

// Whether one begins and saves once more.
fn begins_and_saves(alloc: Global, disk: &mut MemoryDisk) -> bool {
    let Some((book, mut saver)) = begun(alloc, disk, 0) else {
        return false;
    };
    let saved = saved(alloc, disk, &book, &mut saver);
    drop(book);
    saved == Ok(Ok(()))
}

// Whether the disk has these slots.
fn has(disk: &MemoryDisk, zero: &[u8], one: &[u8]) -> bool {
    disk.bytes(Slot::Zero) == zero && disk.bytes(Slot::One) == one
}

// Whether the two images of a solve go to one slot and the other, and the first of another solve to
// the one that came first.
fn go_in_turn(alloc: Global, disk: &mut MemoryDisk) -> bool {
    begins_and_saves(alloc, disk)
        && has(disk, &slot_of(1, 1, 0), &slot_of(1, 2, 0))
        && begins(alloc, disk, 5)
        && has(disk, &slot_of(2, 3, 5), &slot_of(1, 2, 0))
}

#[test]
fn first_images_go_to_the_slots_in_turn(rt: HostRuntime) -> Result<(), AllocError> {
    let mut disk = disk_with(rt.alloc(), &[], &[])?;
    holds(&rt, go_in_turn(rt.alloc(), &mut disk));
    drop(disk);
    Ok(())
}

// The run and the sequence of a restart.
type Answer = Result<(u64, u64), StartFault>;

// How many bytes of a slot with gap 3 there are, a place and the byte there; whether the problem is
// another; the gap that is asked for; and the answer.
type Case = (usize, (usize, u8), bool, u8, Answer);

const CASES: &[Case] = &[
    (0, (0, 1), false, 3, Err(StartFault::NoCheckpoint)),
    (1, (0, 1), false, 3, Err(StartFault::NoCheckpoint)),
    (113, (0, 0), false, 3, Err(StartFault::NoCheckpoint)),
    (
        2,
        (0, 1),
        false,
        3,
        Err(StartFault::BadImage {
            slot: Slot::Zero,
            at: 1,
        }),
    ),
    (
        113,
        (9, 0),
        true,
        0,
        Err(StartFault::BadImage {
            slot: Slot::Zero,
            at: 9,
        }),
    ),
    (
        113,
        (69, 128),
        false,
        3,
        Err(StartFault::BadImage {
            slot: Slot::Zero,
            at: 69,
        }),
    ),
    (
        113,
        (0, 1),
        true,
        3,
        Err(StartFault::OtherProblem {
            at: 10,
            kept: Some(0),
            read: Some(255),
        }),
    ),
    (
        113,
        (0, 1),
        true,
        2,
        Err(StartFault::OtherProblem {
            at: 10,
            kept: Some(0),
            read: Some(255),
        }),
    ),
    (
        113,
        (0, 1),
        false,
        2,
        Err(StartFault::SmallerGap { kept: 3, asked: 2 }),
    ),
    (
        113,
        (0, 1),
        false,
        0,
        Err(StartFault::SmallerGap { kept: 3, asked: 0 }),
    ),
    (
        113,
        (10, 64),
        false,
        2,
        Err(StartFault::SmallerGap { kept: 3, asked: 2 }),
    ),
    (113, (10, 64), false, 3, Err(StartFault::Spent)),
    (113, (18, 64), false, 3, Err(StartFault::Spent)),
    (113, (0, 1), false, 3, Ok((2, 2))),
    (113, (0, 1), false, 4, Ok((2, 2))),
    (113, (84, 0), false, 0, Ok((2, 2))),
    (113, (17, 9), false, 3, Ok((10, 2))),
    (113, (25, 9), false, 3, Ok((2, 10))),
];

// The answer of a restart.
fn restarted(alloc: Global, disk: &mut MemoryDisk, problem: Problem, gap: u8) -> Answer {
    let start = restart(alloc, disk, Shared::own(problem), settings(gap))?;
    let answer = (start.opening.run, start.saver.sequence());
    drop(start);
    Ok(answer)
}

fn small(number: u64) -> u8 {
    u8::try_from(number).unwrap_or(0)
}

// Whether a run that continues has its image in slot 1, and one that does not has none there.
fn is_written(answer: &Answer, one: &[u8], gap: u8) -> bool {
    match answer {
        Ok((run, sequence)) => one == slot_of(small(*run), small(*sequence), gap).as_slice(),
        Err(_) => one.is_empty(),
    }
}

// Whether the answer is the one that is needed, and slot 1 as it is to be.
fn is_answered(alloc: Global, disk: &mut MemoryDisk, case: &Case) -> bool {
    let (_, _, is_other, asked, wanted) = *case;
    let Ok(problem) = nothing(alloc, is_other) else {
        return false;
    };
    let answer = restarted(alloc, disk, problem, asked);
    answer == wanted && is_written(&answer, disk.bytes(Slot::One), asked)
}

fn is_as_wanted(alloc: Global, case: &Case) -> bool {
    let (len, (place, byte), ..) = *case;
    let mut slot = slot_of(1, 1, 3);
    if place < 113 {
        slot[place] = byte;
    }
    let Ok(mut disk) = disk_with(alloc, &slot[..len.min(113)], &[]) else {
        return false;
    };
    let is_so = is_answered(alloc, &mut disk, case);
    drop(disk);
    is_so
}

#[test]
fn restart_goes_on_or_says_why_not(rt: HostRuntime) {
    for (at, case) in CASES.iter().enumerate() {
        holds_at(&rt, is_as_wanted(rt.alloc(), case), &at);
    }
}
