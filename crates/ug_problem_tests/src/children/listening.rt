ghost use Rattle.std.specs.Prelude.{◌≡◌, ◌<◌, length};

use std::alloc::AllocGlobal;
use std::fs;
use std::fs::{File, Files};
use std::io::Read;
use ug_io::{Came, Crew};

/// How many bytes were received from each of three ranks, as long as they were `a` to `g` over and
/// over, and how many ranks are lost.
#[derive(Clone, Copy, PartialEq)]
pub struct ReceivedCounts {
    pub bytes: [usize; 3],
    pub gone: usize,
}

/// Adds this many times the bytes `a` to `g`. Whether there was memory for them.
pub fn put_over_and_over(bytes: &mut Vec<u8>, count: usize) -> bool {
    for _ in 0..count {
        if bytes.extend_from_slice(b"abcdefg").is_err() {
            return false;
        }
    }
    true
}

// The byte that comes behind this many.
fn next_of(count: usize) -> u8 {
    b'a' + (count % 7) as u8
}

impl ReceivedCounts {
    // Whether it has what is needed, or more.
    fn has(&self, wanted: &ReceivedCounts) -> bool {
        let [zero, one, two] = self.bytes;
        let [least_zero, least_one, least_two] = wanted.bytes;
        least_zero <= zero && least_one <= one && least_two <= two && wanted.gone <= self.gone
    }

    fn add(&mut self, rank: u32, bytes: &[u8]) {
        if let Some(count) = self.bytes.get_mut(rank as usize) {
            for byte in bytes {
                if *byte == next_of(*count) {
                    *count = count.saturating_add(1);
                }
            }
        }
    }

    // Takes note of what comes next, and says whether something did.
    fn hear<C: Crew>(&mut self, crew: &mut C, buffer: &mut [u8]) -> bool
        requires { 0 < length buffer.old }
        ensures { length (C.seen crew.new).lives ≡ length (C.seen crew.old).lives }
    {
        match crew.turn(buffer) {
            Ok(Came::Bytes { rank, count }) => {
                self.add(rank, buffer.get(..count).unwrap_or(&[]));
                true
            }
            Ok(Came::Gone { .. }) => {
                self.gone = self.gone.saturating_add(1);
                true
            }
            Err(_) => false,
        }
    }
}

/// Listens by way of the buffer until this many bytes came from each rank, and this many ranks are
/// gone, at least.
pub fn listen<C: Crew>(crew: &mut C, wanted: ReceivedCounts, buffer: &mut [u8]) -> ReceivedCounts
    requires { 0 < length buffer.old }
    ensures { length (C.seen crew.new).lives ≡ length (C.seen crew.old).lives }
{
    let mut counts = ReceivedCounts {
        bytes: [0; 3],
        gone: 0,
    };
    for _ in 0..u64::MAX {
        if counts.has(&wanted) || !counts.hear(crew, buffer) {
            break;
        }
    }
    counts
}

/// Whether just this many bytes come from each rank, and this many ranks are lost, once there are
/// as many.
pub fn hears<C: Crew>(crew: &mut C, bytes: [usize; 3], gone: usize) -> bool
    ensures { length (C.seen crew.new).lives ≡ length (C.seen crew.old).lives }
{
    let wanted = ReceivedCounts { bytes, gone };
    listen(crew, wanted, &mut [0u8; 1000]) == wanted
}

/// Starts the rank, if it does not live.
pub fn start<C: Crew>(crew: &mut C, rank: u32) -> bool
    requires { rank < length (C.seen crew.old).lives }
    ensures { length (C.seen crew.new).lives ≡ length (C.seen crew.old).lives }
{
    !crew.is_alive(rank) && crew.launch(rank).is_ok()
}

/// Starts three ranks, of which none lives.
pub fn start_three<C: Crew>(crew: &mut C) -> bool
    requires { 2 < length (C.seen crew.old).lives }
{
    start(crew, 0) && start(crew, 1) && start(crew, 2)
}

/// Shuts the rank, if it lives, and starts it again.
pub fn start_again<C: Crew>(crew: &mut C, rank: u32) -> bool {
    if !crew.is_alive(rank) {
        return false;
    }
    crew.shut(rank);
    crew.launch(rank).is_ok()
}

/// Sends the bytes to the rank, if it lives.
pub fn tell<C: Crew>(crew: &mut C, rank: u32, bytes: &[u8]) -> bool
    ensures { length (C.seen crew.new).lives ≡ length (C.seen crew.old).lives }
{
    crew.is_alive(rank) && crew.send(rank, bytes).is_ok()
}

/// Sends the bytes to three ranks that live.
pub fn tell_three<C: Crew>(crew: &mut C, bytes: &[u8]) -> bool {
    tell(crew, 0, bytes) && tell(crew, 1, bytes) && tell(crew, 2, bytes)
}

/// Whether no child is left, and no folder of sockets in this one.
pub fn is_clean<R: Files<File = File> + AllocGlobal>(rt: &R, folder: &str) -> bool {
    let Ok(path) = format!(in rt.alloc(); "{folder}/ug-sockets") else {
        return false;
    };
    let is_there = fs::exists(rt, path.as_str()).unwrap_or(false);
    drop(path);
    !is_there && is_childless(rt)
}

// Whether this program has no child, where the system reports it.
fn is_childless<R: Files<File = File>>(rt: &R) -> bool {
    match File::open(rt, "/proc/thread-self/children") {
        Ok(mut file) => {
            let is_empty = file.read(&mut [0u8; 8]).unwrap_or(1) == 0;
            drop(file);
            is_empty
        }
        Err(error) => {
            drop(error);
            true
        }
    }
}
