use crate::crashes::slots::{disk_of, script_of, slot_of};
use crate::expect::same;
use std::alloc::{AllocError, Global};
use ug_checkpoint::{LoadError, load};
use ug_disk::{MemoryDisk, Slot};

// Which slot and which sequence a load finds.
type Answer = Result<Option<(Slot, u64)>, LoadError>;

fn answer_of(alloc: Global, disk: &mut MemoryDisk) -> Answer {
    let Some(found) = load(alloc, disk)? else {
        return Ok(None);
    };
    let answer = (found.slot, found.image.sequence);
    drop(found);
    Ok(Some(answer))
}

// The slot of run 1 and a sequence with another byte at a place.
fn changed(sequence: u8, at: usize, byte: u8) -> [u8; 113] {
    let mut slot = slot_of(1, sequence, 0);
    if at < 113 {
        slot[at] = byte;
    }
    slot
}

// Of each slot the sequence, a place and the byte there; how many bytes slot 0 has; what is found.
type Case = ((u8, usize, u8), (u8, usize, u8), usize, Answer);

const CASES: &[Case] = &[
    ((2, 0, 1), (1, 0, 1), 113, Ok(Some((Slot::Zero, 2)))),
    ((1, 0, 1), (2, 0, 1), 113, Ok(Some((Slot::One, 2)))),
    ((3, 0, 1), (3, 0, 1), 113, Ok(Some((Slot::Zero, 3)))),
    ((2, 0, 0), (1, 0, 1), 113, Ok(Some((Slot::One, 1)))),
    ((2, 0, 1), (3, 0, 2), 113, Ok(Some((Slot::Zero, 2)))),
    ((2, 0, 1), (1, 0, 0), 1, Ok(None)),
    (
        (2, 0, 1),
        (1, 0, 0),
        2,
        Err(LoadError::BadImage {
            slot: Slot::Zero,
            at: 1,
        }),
    ),
    (
        (2, 0, 1),
        (1, 0, 1),
        112,
        Err(LoadError::BadImage {
            slot: Slot::Zero,
            at: 1,
        }),
    ),
    (
        (2, 0, 1),
        (1, 9, 0),
        113,
        Err(LoadError::BadImage {
            slot: Slot::One,
            at: 9,
        }),
    ),
    (
        (2, 69, 128),
        (1, 9, 0),
        113,
        Err(LoadError::BadImage {
            slot: Slot::Zero,
            at: 69,
        }),
    ),
];

// A disk with the slots of a case.
fn disk_for(alloc: Global, case: &Case) -> Result<MemoryDisk, AllocError> {
    let (zero, one, len, _) = *case;
    let zero = changed(zero.0, zero.1, zero.2);
    let one = changed(one.0, one.1, one.2);
    let script = script_of(alloc, &[], &[])?;
    disk_of(alloc, &zero[..len.min(113)], &one, script)
}

#[test]
fn load_finds_the_greater_sequence(rt: HostRuntime) {
    for case in CASES {
        let mut disk = disk_for(rt.alloc(), case).expect(&rt, "memory");
        let answer = answer_of(rt.alloc(), &mut disk);
        drop(disk);
        same(&rt, &answer, &case.3);
    }
}
