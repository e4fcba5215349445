//! What a worker reports over a link in memory.

use std::alloc::Global;
use std::sync::Wait;
use ug_io::{MemoryLink, Said, Script};
use ug_serve::{Served, serve};

/// What was reported over a link, beside the bytes that were wanted, and how its service ended.
#[derive(Clone, Copy)]
pub struct Told {
    /// How many of the bytes wanted were reported, if no others were.
    pub front: Option<usize>,
    pub end: Served,
}

/// The calls of a link that fail, counted from 1, and how many bytes a call moves at most.
#[derive(Clone, Copy)]
pub struct Calls<'a> {
    pub failing: &'a [u64],
    pub most: usize,
}

/// Calls of which none fails, and one is enough for a piece.
pub const SOUND: Calls<'static> = Calls {
    failing: &[],
    most: 1000,
};

// How many of the bytes wanted were reported, if no others were.
fn front_told(said: &[Said], wanted: &[u8]) -> Option<usize> {
    let mut told = 0usize;
    for one in said {
        if let Said::Told(byte) = *one {
            if wanted.get(told) != Some(&byte) {
                return None;
            }
            told = told.saturating_add(1);
        }
    }
    Some(told)
}

// Returns the reports if these pieces come, and then the end of the link.
fn told_over<R: Wait>(
    rt: &R,
    alloc: Global,
    pieces: &[&[u8]],
    calls: Calls<'_>,
    wanted: &[u8],
) -> Option<Told> {
    let Ok(failing) = calls.failing.to_vec(alloc) else {
        return None;
    };
    let script = Script::new(failing, calls.most);
    let service = serve(rt, alloc, MemoryLink::new(alloc, pieces, script));
    let front = front_told(service.link.said(), wanted);
    let end = service.end;
    drop(service);
    Some(Told { front, end })
}

/// Returns the reports if these pieces come, and then the end of the link. An empty piece is a gap:
/// a read that does not wait finds nothing there, once. Returns `None` if memory runs out.
pub fn told_of<R: Wait>(
    rt: &R,
    alloc: Global,
    pieces: &[Vec<u8>],
    calls: Calls<'_>,
    wanted: &[u8],
) -> Option<Told> {
    let mut slices: Vec<&[u8]> = Vec::new(alloc);
    let mut so = true;
    for piece in pieces {
        so = so && slices.extend_from_slice(&[piece.as_slice()]).is_ok();
    }
    let told = if so {
        told_over(rt, alloc, &slices, calls, wanted)
    } else {
        None
    };
    drop(slices);
    told
}

/// Whether these bytes are reported over the pieces, and no others, and the service ends so.
pub fn is_told<R: Wait>(
    rt: &R,
    alloc: Global,
    pieces: &[Vec<u8>],
    calls: Calls<'_>,
    wanted: &[u8],
    end: Served,
) -> bool {
    match told_of(rt, alloc, pieces, calls, wanted) {
        Some(told) => told.front == Some(wanted.len()) && told.end == end,
        None => false,
    }
}
