use crate::crashes::slots::disk_with;
use crate::expect::holds_at;
use std::alloc::Global;
use ug_checkpoint::{LoadError, load};
use ug_disk::Slot;

// The image of version 3 of run 1 and sequence 5, of a problem with one column from 0 to 7 and no
// rows. The best point is 5, and of its two nodes the first has the column from 0 to 3.
fn image() -> [u8; 154] {
    let mut image = [0u8; 154];
    for (at, byte) in PARTS {
        if *at < 154 {
            image[*at] = *byte;
        }
    }
    image
}

// Its bytes that are not 0. The second node is named by hand 1.
const PARTS: &[(usize, u8)] = &[
    (0, 3),
    (8, 1),
    (16, 5),
    (20, 40),
    (24, 1),
    (25, 1),
    (26, b'x'),
    (34, 7),
    (61, 1),
    (65, 1),
    (69, 5),
    (101, 2),
    (121, 1),
    (133, 3),
    (149, 1),
];

// Whether a place of version 3 is in a version too: the reports, the gap and the names of the
// nodes are not in the first, and the gap is not in the second.
fn is_in(version: u8, at: usize) -> bool {
    match version {
        1 => !matches!(at, 70..=93 | 102..=117 | 134..=149),
        2 => !matches!(at, 78..=93),
        _ => true,
    }
}

// How many places of a version stand before this place of version 3.
fn place_in(version: u8, at: usize) -> usize {
    let mut places = 0usize;
    for before in 0..at {
        if is_in(version, before) {
            places = places.saturating_add(1);
        }
    }
    places
}

// The image with another byte at a place, under a version.
fn changed(version: u8, (at, byte): (usize, u8)) -> [u8; 154] {
    let mut image = image();
    image[0] = version;
    if at < 154 {
        image[at] = byte;
    }
    image
}

// Puts what is in a version of an image, cut to this many bytes or with one more. Whether there was
// memory for it, as of each call here.
fn put_cut(bytes: &mut Vec<u8>, version: u8, image: &[u8], len: usize) -> bool {
    let mut so = true;
    for (at, byte) in image.iter().enumerate() {
        if is_in(version, at) {
            so &= bytes.extend_from_slice(&[*byte]).is_ok();
        }
    }
    so &= bytes.extend_from_slice(&[0]).is_ok();
    bytes.truncate(len);
    so
}

// Puts a slot with these bytes: the gate is open and the length that of what is there.
fn put_opened(slot: &mut Vec<u8>, bytes: &[u8]) -> bool {
    let len = u8::try_from(bytes.len()).unwrap_or(0);
    let gate = slot.extend_from_slice(&[1, 0, 0, 0, 0, 0, 0, 0, len]);
    gate.is_ok() && slot.extend_from_slice(bytes).is_ok()
}

// Puts a slot with an image in a version, of which a byte is another, cut to this many bytes or
// with one more.
fn put_slot(
    alloc: Global,
    slot: &mut Vec<u8>,
    version: u8,
    change: (usize, u8),
    len: usize,
) -> bool {
    let mut bytes = Vec::new(alloc);
    let so = put_cut(&mut bytes, version, &changed(version, change), len);
    let so = so && put_opened(slot, &bytes);
    drop(bytes);
    so
}

// Which place of the image is named, if there is memory to say so.
fn bad_place(alloc: Global, slot: &[u8]) -> Option<Option<usize>> {
    let Ok(mut disk) = disk_with(alloc, slot, &[]) else {
        return None;
    };
    let error = load(alloc, &mut disk).err();
    drop(disk);
    match error {
        Some(
            LoadError::BadImage {
                slot: Slot::Zero,
                at,
            },
        ) => Some(at.checked_sub(9)),
        _ => Some(None),
    }
}

// The same of that slot.
fn bad_place_of(
    alloc: Global,
    version: u8,
    change: (usize, u8),
    len: usize,
) -> Option<Option<usize>> {
    let mut slot = Vec::new(alloc);
    let place = if put_slot(alloc, &mut slot, version, change, len) {
        bad_place(alloc, &slot)
    } else {
        None
    };
    drop(slot);
    place
}

// If the fields of version 3 begin, but for those of the problem: one whose bytes are cut short
// is named at its length.
const FIELDS: &[usize] = &[
    0, 1, 9, 17, 61, 62, 66, 70, 78, 94, 102, 110, 118, 122, 126, 130, 134, 142, 150,
];

// The field of a version that is cut short where this many bytes are left.
fn cut_field(version: u8, len: usize) -> usize {
    let mut found = 0;
    for field in FIELDS {
        let place = place_in(version, *field);
        if is_in(version, *field) && place <= len {
            found = place;
        }
    }
    found
}

// Whether a whole image of a version is read, and its end named where a byte follows it.
fn whole_is_read(alloc: Global, version: u8) -> bool {
    let whole = place_in(version, 154);
    let read = bad_place_of(alloc, version, (0, version), whole);
    let more = bad_place_of(alloc, version, (0, version), whole.saturating_add(1));
    read == Some(None) && more == Some(Some(whole))
}

// Whether the right field is named wherever an image of a version is cut.
fn cuts_are_named(alloc: Global, version: u8) -> bool {
    for len in 0..place_in(version, 154) {
        let place = bad_place_of(alloc, version, (0, version), len);
        if place != Some(Some(cut_field(version, len))) {
            return false;
        }
    }
    true
}

#[test]
fn field_that_is_cut_short_is_named(rt: HostRuntime) {
    for version in 1..4 {
        holds_at(&rt, cuts_are_named(rt.alloc(), version), &version);
        holds_at(&rt, whole_is_read(rt.alloc(), version), &version);
    }
}

// A place of version 3, the byte there, and the place that is then named.
const EVERYWHERE: &[(usize, u8, usize)] = &[
    // The run and the sequence are at least 1.
    (8, 0, 1),
    (16, 0, 9),
    // The record is longer than what is there, a byte short, or has one too many.
    (17, 1, 17),
    (20, 39, 57),
    (20, 41, 61),
    // Its fields: a name of no bytes and one with a blank, a high bound above 10^9, a sense, a
    // scale, a constant above its limit, and a term that is not there.
    (25, 0, 25),
    (26, b' ', 26),
    (31, 127, 31),
    (39, 2, 39),
    (40, 61, 40),
    (41, 127, 41),
    (60, 1, 61),
    // The best point: its flag, its length out of range and of another than the columns, a value
    // above 10^9 and one outside the column.
    (61, 2, 61),
    (62, 1, 62),
    (65, 2, 62),
    (66, 127, 66),
    (69, 8, 62),
    (69, 255, 62),
    // More nodes than there are, and fewer.
    (101, 3, 154),
    (94, 1, 154),
    // Changes: too many, a column that is not there, a low above the high, a high above the root's,
    // a low below it, and the root's own bounds.
    (118, 1, 118),
    (125, 1, 122),
    (129, 4, 122),
    (133, 8, 122),
    (126, 255, 122),
    (133, 7, 122),
    (130, 127, 122),
    (126, 127, 122),
];

// The same of what versions 1 and 2 have not.
const LATER: &[(u8, (usize, u8, usize))] = &[
    (3, (78, 128, 78)),
    (3, (78, 127, 78)),
    (3, (101, 1, 134)),
    (2, (101, 1, 134)),
    (1, (101, 1, 150)),
    (3, (149, 0, 134)),
    (2, (149, 0, 134)),
    (3, (121, 2, 134)),
    (2, (121, 2, 134)),
];

// Whether this place is named where a byte of a version is another.
fn is_named(alloc: Global, version: u8, (at, byte, named): (usize, u8, usize)) -> bool {
    let place = bad_place_of(alloc, version, (at, byte), place_in(version, 154));
    place == Some(Some(place_in(version, named)))
}

#[test]
fn version_that_is_none_is_named(rt: HostRuntime) {
    for version in [0u8, 4, 255] {
        holds_at(
            &rt,
            is_named(rt.alloc(), version, (0, version, 0)),
            &version,
        );
    }
}

#[test]
fn field_that_breaks_a_rule_is_named(rt: HostRuntime) {
    for version in 1..4 {
        for case in EVERYWHERE {
            holds_at(&rt, is_named(rt.alloc(), version, *case), &version);
        }
    }
    for (version, case) in LATER {
        holds_at(&rt, is_named(rt.alloc(), *version, *case), version);
    }
}
