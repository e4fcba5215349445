//! Workers as a crew in memory: what they report is what a worker at a link has to send, however
//! their bytes go.

ghost use Rattle.std.specs.Prelude.{◌≡◌, ◌<◌, length};

use crate::expect::holds_at;
use crate::served::cases::{Case, add_pieces};
use crate::served::words::add_reports;
use std::alloc::Global;
use std::process::Abort;
use ug_io::{Came, Crew, zeros};
use ug_model::{Visit, WorkerCrew};

/// How the bytes of a worker go: this many visits, each with this many bytes of orders and of
/// reports at most, and then with all that there is; and how many bytes are received at once, one
/// at least.
#[derive(Clone, Copy)]
struct Way {
    what: &'static str,
    visits: usize,
    orders: usize,
    reports: usize,
    room: usize,
}

// All at once; byte by byte; reports in one piece behind late orders; and reports that wait long.
const WAYS: &[Way] = &[
    Way {
        what: "all at once",
        visits: 0,
        orders: 0,
        reports: 0,
        room: 1000,
    },
    Way {
        what: "byte by byte",
        visits: 2000,
        orders: 1,
        reports: 1,
        room: 1,
    },
    Way {
        what: "few orders",
        visits: 100,
        orders: 3,
        reports: 1000,
        room: 1000,
    },
    Way {
        what: "late reports",
        visits: 100,
        orders: 1000,
        reports: 0,
        room: 7,
    },
];

// The rank at which the worker is. The one below it has one that is sent nothing.
const RANK: u32 = 1;

// Starts the rank, if it does not live.
fn start<C: Crew>(crew: &mut C, rank: u32) -> bool
    requires { rank < length (C.seen crew.old).lives }
    ensures { length (C.seen crew.new).lives ≡ length (C.seen crew.old).lives }
{
    !crew.is_alive(rank) && crew.launch(rank).is_ok()
}

// Adds what comes from the worker until nothing does any more. Whether there was memory for it.
fn hear<C: Crew>(crew: &mut C, buffer: &mut [u8], bytes: &mut Vec<u8>) -> bool
    requires { 0 < length buffer.old }
{
    let mut so = true;
    for _ in 0..10_000 {
        match crew.turn(buffer) {
            Ok(Came::Bytes { rank: RANK, count }) => {
                so = so && bytes.extend_from_slice(&buffer[..count]).is_ok();
            }
            _ => return so,
        }
    }
    so
}

// Adds what the worker reports where these pieces are sent to it, each once it has reported all
// that it has to send. Whether all could be sent.
fn hear_all<C: Crew>(
    crew: &mut C,
    buffer: &mut [u8],
    pieces: &[Vec<u8>],
    bytes: &mut Vec<u8>,
) -> bool
    requires { 0 < length buffer.old }
{
    let mut so = true;
    for piece in pieces {
        so = so && (!crew.is_alive(RANK) || crew.send(RANK, piece).is_ok());
        so = so && hear(crew, buffer, bytes);
    }
    so
}

// Whether the worker says that, of a crew of which two ranks are started, by way of so much room.
fn tells<C: Crew>(
    alloc: Global,
    crew: &mut C,
    room: usize,
    pieces: &[Vec<u8>],
    wanted: &[u8],
) -> bool
    requires room { 0 < room }
    requires ranks { 1 < length (C.seen crew.old).lives }
{
    if !start(crew, 0) || !start(crew, RANK) {
        return false;
    }
    let Ok(mut buffer) = zeros(alloc, room) else {
        return false;
    };
    let mut bytes = Vec::new(alloc);
    let so = hear_all(crew, &mut buffer, pieces, &mut bytes) && bytes.as_slice() == wanted;
    drop(buffer);
    drop(bytes);
    so
}

// Whether it does so of a crew that is visited in this way.
fn tells_in(alloc: Global, way: Way, pieces: &[Vec<u8>], wanted: &[u8]) -> bool {
    let visit = Visit {
        rank: RANK,
        orders: way.orders,
        reports: way.reports,
    };
    let Ok(schedule) = vec![in alloc; visit; way.visits] else {
        return false;
    };
    let so = match WorkerCrew::new(alloc, 2, &schedule) {
        Ok(mut crew) => {
            let so = tells(alloc, &mut crew, way.room.max(1), pieces, wanted);
            drop(crew);
            so
        }
        Err(_) => false,
    };
    drop(schedule);
    so
}

/// Expects that a worker of a crew says what the case has, in each way.
pub fn crew_tells_the_same(rt: &impl Abort, alloc: Global, text: &[u8], case: &Case) {
    let mut pieces = Vec::new(alloc);
    let mut wanted = Vec::new(alloc);
    let is_made = add_pieces(alloc, &mut pieces, text, case)
        && add_reports(alloc, &mut wanted, case.told);
    holds_at(rt, is_made, &case.what);
    for way in WAYS {
        holds_at(rt, tells_in(alloc, *way, &pieces, &wanted), &way.what);
    }
    drop(pieces);
    drop(wanted);
}
