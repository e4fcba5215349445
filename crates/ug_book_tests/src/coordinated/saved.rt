//! What a coordinator over a crew in memory saves, and misses.

use crate::coordinated::{BY_ITSELF, Way, settings, way_of};
use crate::expect::holds;
use crate::problems::line;
use std::alloc::Global;
use std::sync::Wait;
use ug_checkpoint::load;
use ug_coord::{Coordinated, coordinate};
use ug_disk::{MemoryDisk, Script as DiskScript};
use ug_io::{MemoryCrew, Script};
use ug_problem::Shared;
use ug_restart::{Attempt, Host, Start, Unobserved, begin};

/// How a run ended, how many saves it missed, what became of the last, and the sequence of the
/// image that is found then, if the disk can be read.
#[derive(Clone, Copy)]
struct Ended {
    way: Way,
    missed: u64,
    last: Option<Attempt>,
    sequence: Option<u64>,
}

/// What came of a run.
#[derive(Clone, Copy)]
enum Run {
    NoMemory,
    NotBegun,
    Ended(Ended),
}

// The sequence of the image that is found, if the disk can be read; the greatest where none is.
fn sequence_on(alloc: Global, disk: &mut MemoryDisk) -> Option<u64> {
    match load(alloc, disk) {
        Ok(Some(found)) => {
            let sequence = found.image.sequence;
            drop(found);
            Some(sequence)
        }
        Ok(None) => Some(u64::MAX),
        Err(_) => None,
    }
}

// How a run of the rank that does it all ended with this disk, from its first image on.
fn saved<R: Wait>(rt: &R, alloc: Global, every: u64, disk: &mut MemoryDisk) -> Run {
    let script = Script::new(Vec::new(alloc), 1000);
    let Ok(crew) = MemoryCrew::new(alloc, 1, BY_ITSELF, script) else {
        return Run::NoMemory;
    };
    let Some(problem) = line(alloc).ok() else {
        drop(crew);
        return Run::NoMemory;
    };
    let problem = Shared::own(problem);
    let Ok(Start { opening, saver }) = begin(alloc, disk, problem, settings(1, every, 100)) else {
        drop(crew);
        return Run::NotBegun;
    };
    let observer = &Unobserved;
    let host = Host {
        rt,
        alloc,
        observer,
    };
    let Coordinated { crew, outcome } = coordinate(&host, &opening, Some(saver), disk, crew);
    drop(crew);
    drop(opening);
    let way = way_of(&outcome.end);
    let missed = outcome.missed;
    let last = outcome.last;
    drop(outcome);
    let sequence = sequence_on(alloc, disk);
    Run::Ended(Ended {
        way,
        missed,
        last,
        sequence,
    })
}

// Returns the result with an empty disk, of which this call fails; 0 is not a call.
fn saved_with<R: Wait>(rt: &R, alloc: Global, every: u64, failing: u64) -> Run {
    let Ok(failing) = [failing].as_slice().to_vec(alloc) else {
        return Run::NoMemory;
    };
    let script = DiskScript {
        failing,
        stopping: Vec::new(alloc),
    };
    let mut disk = MemoryDisk::new(alloc, Vec::new(alloc), Vec::new(alloc), script);
    let run = saved(rt, alloc, every, &mut disk);
    drop(disk);
    run
}

// Three reports come. The first image has sequence 1, and the ending book is saved after all.
// Behind the first report the root is open, so that no other save comes before the ninth; behind
// the second none is.
const EVERY: &[(u64, u64)] = &[(1, 3), (2, 3), (3, 3), (4, 2), (0, 2)];

// Whether the run saves so often that this is the last sequence.
fn is_saved_so<R: Wait>(rt: &R, alloc: Global, every: u64, last: u64) -> bool {
    match saved_with(rt, alloc, every, 0) {
        Run::Ended(ended) => {
            ended.last == Some(Attempt::Saved) && ended.missed == 0 && ended.sequence == Some(last)
        }
        _ => false,
    }
}

#[test]
fn books_are_saved_as_often_as_is_asked(rt: HostRuntime) {
    for (every, last) in EVERY {
        holds(&rt, is_saved_so(&rt, rt.alloc(), *every, *last));
    }
}

// Whether the answer is there, and each save was made but for one that is counted as missed. The
// last save may be found though it was missed.
fn has_missed_one(ended: Ended) -> bool {
    let missed = ended.missed;
    let last = ended.last;
    let most = if last == Some(Attempt::Missed) { 4 } else { 3 };
    let all = match ended.sequence {
        Some(found) => {
            let images = found.saturating_add(missed);
            3 <= images && images <= most
        }
        None => true,
    };
    let once = missed <= 1 && (missed == 1 || last == Some(Attempt::Saved));
    ended.way == Way::Answered && all && once
}

// Whether it is so where this call of the disk fails; or the run did not begin.
fn misses_one<R: Wait>(rt: &R, alloc: Global, call: u64) -> bool {
    match saved_with(rt, alloc, 1, call) {
        Run::Ended(ended) => has_missed_one(ended),
        Run::NotBegun => call < 20,
        Run::NoMemory => false,
    }
}

#[test]
fn each_call_of_the_disk_fails_in_turn(rt: HostRuntime) {
    for call in 1..60 {
        holds(&rt, misses_one(&rt, rt.alloc(), call));
    }
}
