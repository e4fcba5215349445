ghost use Rattle.std.specs.Prelude.{Some, IfSome};
ghost use Rattle.ug_disk.specs.Memories.{history_of};
ghost use Rattle.ug_checkpoint.specs.Savers.{IsKept};

use crate::crashes::savers::{opened, save_bytes};
use crate::crashes::slots::{disk_with, nothing, settings, slot_of};
use crate::expect::{holds, holds_at, same};
use std::alloc::Global;
use ug_checkpoint::{Saver, load};
use ug_disk::{MemoryDisk, Slot};
use ug_problem::Shared;
use ug_restart::restart;

// Places from one to another, without the last.
#[derive(Clone, Copy)]
struct Range {
    from: usize,
    end: usize,
}

// Puts the image of run 1 under a sequence, of a problem with one column of 16 letters and no rows,
// with this many nodes: 109 bytes and 20 a node. Whether there was memory for it.
fn put_image(bytes: &mut Vec<u8>, sequence: u8, nodes: u16) -> bool {
    put(bytes, b"\x03\0\0\0\0\0\0\0\x01\0\0\0\0\0\0\0")
        & put(bytes, &[sequence])
        & put(bytes, b"\0\0\0\x37\0\0\0\x01\x10sixteen_letters_")
        & put(bytes, &[0; 65])
        & put_nodes(bytes, nodes)
}

fn put(bytes: &mut Vec<u8>, more: &[u8]) -> bool {
    bytes.extend_from_slice(more).is_ok()
}

// Their count, and the nodes.
fn put_nodes(bytes: &mut Vec<u8>, nodes: u16) -> bool {
    let mut so = put(bytes, &u16::to_be_bytes(nodes));
    for node in 0..nodes {
        so &= put(bytes, &[0; 14]) & put(bytes, &u16::to_be_bytes(node)) & put(bytes, &[0; 4]);
    }
    so
}

// The bytes with this one in the places from one to another.
fn filled(mut bytes: Vec<u8>, places: Range, fill: Option<u8>) -> Vec<u8> {
    for place in places.from..places.end {
        if let (Some(byte), Some(fill)) = (bytes.get_mut(place), fill) {
            *byte = fill;
        }
    }
    bytes
}

// A crash leaves what was written but for these places of slot 0, where it leaves this byte.
fn crash(alloc: Global, disk: &mut MemoryDisk, places: Range, fill: Option<u8>) -> Option<()> {
    let zero = disk.bytes(Slot::Zero).to_vec(alloc).ok()?;
    let Ok(one) = disk.bytes(Slot::One).to_vec(alloc) else {
        drop(zero);
        return None;
    };
    disk.crash(filled(zero, places, fill), one).ok()
}

// The run and the sequence that recovery finds.
fn recovered(alloc: Global, disk: &mut MemoryDisk) -> Option<(u64, u64)> {
    let found = load(alloc, disk).ok()??;
    let told = (found.image.run, found.image.sequence);
    drop(found);
    Some(told)
}

// The same after that crash; none where a crash may not be so.
fn found(
    alloc: Global,
    disk: &mut MemoryDisk,
    places: Range,
    fill: Option<u8>,
) -> Option<(u64, u64)> {
    crash(alloc, disk, places, fill)?;
    recovered(alloc, disk)
}

// Saves the image under a sequence, with this many nodes.
fn save_image(
    alloc: Global,
    disk: &mut MemoryDisk,
    saver: &mut Saver,
    sequence: u8,
    nodes: u16,
) -> Option<()>
    requires { IsKept saver.old (Some (history_of disk.old)) }
    ensures { IsKept saver.new (Some (history_of disk.new)) }
{
    let mut bytes = Vec::new(alloc);
    let put = put_image(&mut bytes, sequence, nodes);
    let _ = save_bytes(alloc, disk, saver, &bytes);
    drop(bytes);
    if put { Some(()) } else { None }
}

// Two images are saved, and then a third over the first, with this many nodes.
fn two_saves(alloc: Global, disk: &mut MemoryDisk) -> Option<Saver>
    ensures { IfSome result (λ saver. IsKept saver (Some (history_of disk.new))) }
{
    let mut saver = opened(alloc, disk).ok()?;
    save_image(alloc, disk, &mut saver, 1, 1)?;
    save_image(alloc, disk, &mut saver, 2, 1)?;
    Some(saver)
}

fn three_saves(alloc: Global, disk: &mut MemoryDisk, nodes: u16) -> Option<()> {
    let mut saver = two_saves(alloc, disk)?;
    save_image(alloc, disk, &mut saver, 3, nodes)
}

// How many calls the first two saves make.
fn calls_of_two(alloc: Global) -> Option<u64> {
    let mut disk = disk_with(alloc, &[], &[]).ok()?;
    let is_saved = two_saves(alloc, &mut disk).is_some();
    let calls = disk.calls();
    drop(disk);
    if is_saved { Some(calls) } else { None }
}

// How many calls all three make.
fn calls_of_three(alloc: Global, nodes: u16) -> Option<u64> {
    let mut disk = disk_with(alloc, &[], &[]).ok()?;
    let is_saved = three_saves(alloc, &mut disk, nodes).is_some();
    let calls = disk.calls();
    drop(disk);
    if is_saved { Some(calls) } else { None }
}

// What a crash may leave of pending places: what was written, or these bytes.
const FILLS: &[Option<u8>] = &[None, Some(0), Some(255), Some(1)];

// What recovery finds where the third save stopped there and a crash leaves its gate so.
fn found_after(
    alloc: Global,
    nodes: u16,
    stop: u64,
    end: usize,
    fill: Option<u8>,
) -> Option<(u64, u64)> {
    let mut disk = disk_with(alloc, &[], &[stop]).ok()?;
    let found = match three_saves(alloc, &mut disk, nodes) {
        Some(()) => found(alloc, &mut disk, Range { from: 0, end }, fill),
        None => None,
    };
    drop(disk);
    found
}

// Whether recovery finds the second image where the third save stopped this many calls before its
// end, or the third: its gate is open where the last call, which syncs it, was made, or where the
// one before it was and the crash leaves its byte.
fn finds_one_of_two(alloc: Global, nodes: u16, all: u64, left: u64) -> bool {
    let end = if left == 1 { 1 } else { 0 };
    for fill in FILLS {
        let is_open = matches!(fill, None | Some(1));
        let sequence = if left == 0 || left == 1 && is_open {
            3
        } else {
            2
        };
        let found = found_after(alloc, nodes, all.saturating_sub(left), end, *fill);
        if found != Some((1, sequence)) {
            return false;
        }
    }
    true
}

// This many nodes, and the calls of a third save of this many: a body of 137 bytes is one block,
// and one of 65,537 is two.
const BODIES: &[(u16, u64)] = &[(1, 6), (3271, 7)];

#[test]
fn save_over_an_older_image_leaves_one_of_two(rt: HostRuntime) {
    let alloc = rt.alloc();
    let two = calls_of_two(alloc).unwrap_or(u64::MAX);
    for (nodes, count) in BODIES {
        let all = calls_of_three(alloc, *nodes).unwrap_or(0);
        same(&rt, &all.saturating_sub(two), count);
        for left in 0..*count {
            holds_at(
                &rt,
                finds_one_of_two(alloc, *nodes, all, left),
                &(*nodes, left),
            );
        }
    }
}

// Loads the slots, and saves an image after what they have.
fn load_and_save(alloc: Global, disk: &mut MemoryDisk, bytes: &[u8]) -> Option<()> {
    let mut saver = opened(alloc, disk).ok()?;
    let _ = save_bytes(alloc, disk, &mut saver, bytes);
    Some(())
}

// A disk whose slot 0 has a first image, which stops after these of its calls.
fn first_disk(alloc: Global, stops: &[u64]) -> Option<MemoryDisk> {
    disk_with(alloc, &slot_of(1, 1, 0), stops).ok()
}

// A second image is saved.
fn save_second(alloc: Global, disk: &mut MemoryDisk) -> Option<()> {
    load_and_save(alloc, disk, &slot_of(1, 2, 0)[9..])
}

// A second image is saved until the disk stops, its calls continue, and so does a run from the
// image until the disk stops again.
fn go_on_again(alloc: Global, disk: &mut MemoryDisk) -> Option<()> {
    save_second(alloc, disk)?;
    disk.resume();
    let problem = Shared::own(nothing(alloc, false).ok()?);
    drop(restart(alloc, disk, problem, settings(0)));
    Some(())
}

fn calls_of_again(alloc: Global) -> Option<u64> {
    let mut disk = first_disk(alloc, &[])?;
    let is_so = go_on_again(alloc, &mut disk).is_some();
    let calls = disk.calls();
    drop(disk);
    if is_so { Some(calls) } else { None }
}

// What recovery finds where the restart stopped there and a crash leaves these places so.
fn found_again(
    alloc: Global,
    stops: &[u64],
    places: Range,
    fill: Option<u8>,
) -> Option<Option<(u64, u64)>> {
    let mut disk = first_disk(alloc, stops)?;
    let found = match go_on_again(alloc, &mut disk) {
        Some(()) => Some(found(alloc, &mut disk, places, fill)),
        None => None,
    };
    drop(disk);
    found
}

// How many calls there were after the second image is saved, and after a load of it.
fn calls_to_load(alloc: Global, disk: &mut MemoryDisk) -> Option<(u64, u64)> {
    save_second(alloc, disk)?;
    let saved = disk.calls();
    drop(load(alloc, disk));
    Some((saved, disk.calls()))
}

// After which call the gate of the second image is written, and not synced; and after which the
// restart has loaded what it resumes from.
fn stops_of(alloc: Global) -> Option<(u64, u64)> {
    let mut disk = first_disk(alloc, &[])?;
    let calls = calls_to_load(alloc, &mut disk);
    drop(disk);
    let (saved, loaded) = calls?;
    Some((saved.saturating_sub(1), loaded.saturating_sub(1)))
}

// How many images a crash may leave of these places of slot 0 where the restart stopped there; none
// where recovery finds in one of them what it should not.
fn images_in(alloc: Global, stops: &[u64], places: Range, is_all: bool) -> Option<u64> {
    let mut images = 0u64;
    for fill in FILLS {
        match found_again(alloc, stops, places, *fill)? {
            Some((2, 3)) => {}
            Some((1, 2)) if !is_all => {}
            None => continue,
            _ => return None,
        }
        images = images.saturating_add(1);
    }
    Some(images)
}

// The gate, what follows it, and both.
const PLACES: &[(usize, usize)] = &[(0, 1), (1, 113), (0, 113)];

// The same of all these places.
fn images_left(alloc: Global, open: u64, stop: u64, is_all: bool) -> Option<u64> {
    let mut images = 0u64;
    for (from, end) in PLACES {
        let places = Range {
            from: *from,
            end: *end,
        };
        images = images.saturating_add(images_in(alloc, &[open, stop], places, is_all)?);
    }
    Some(images)
}

#[test]
fn restart_that_stops_leaves_the_image_before_or_its_own(rt: HostRuntime) {
    let alloc = rt.alloc();
    let (open, loaded) = stops_of(alloc).unwrap_or((u64::MAX, u64::MAX));
    let all = calls_of_again(alloc).unwrap_or(0);
    holds(&rt, loaded < all);
    for stop in loaded..all.saturating_add(1) {
        let images = images_left(alloc, open, stop, stop == all);
        holds_at(&rt, images.unwrap_or(0) >= 3, &stop);
    }
}
