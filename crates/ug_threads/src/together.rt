//! A solve by threads that share a desk.

ghost use Rattle.std.specs.Prelude.{◌≡◌, IfOk, IfSome};
ghost use Rattle.ug_book.specs.Openings.{IsOpening};
ghost use Rattle.ug_threads.specs.Crews.{IsCrewAt, count_of};
ghost use Rattle.ug_threads.specs.Ends.{IsEnding};
ghost use Rattle.ug_threads.specs.Rooms.{AreAllAt, AreAllOf, IsRoom};

use crate::crew::{Crew, Table};
use crate::ending::of_opening;
use crate::pace::Pace;
use crate::snapshot_sink::{SnapshotSink, listen};
use crossbeam_channel::{Receiver, Sender, bounded};
use std::alloc::{AllocError, Global};
use std::sync::Wait;
use std::sync::atomic::AtomicU64;
use std::thread;
use std::thread::Threads;
use ug_book::{Book, Opening};
use ug_desk::{Desk, Pass};
use ug_restart::{Host, Observer};
use ug_snapshot::Snapshot;

/// Number of snapshots that may wait to be saved. While they do, no other is made.
const WAITING: usize = 2;

/// Result of a solve: its final book, if memory sufficed, and the sink that took the snapshots.
#[derive(Drop)]
pub struct Solved<T> {
    pub book: Option<Book>,
    pub sink: T,
}

/// Solves by threads. There is no book if memory runs out for the desk, for its threads or to close
/// it.
pub fn solve<R: Threads + Wait + Sync, O: Observer, T: SnapshotSink + Drop>(
    host: &Host<'_, R, O>,
    opening: &Opening,
    every: Option<u64>,
    sink: T,
) -> Solved<T>
    requires opening { IsOpening opening.now }
    requires ready { T.ready sink }
    ensures ended { IfSome result.book (IsEnding opening.now) }
    ensures ready { T.ready result.sink }
    ensures moves { T.moves sink result.sink }
{
    let Ok(room) = make_room(host.alloc, opening) else {
        return Solved { book: None, sink };
    };
    let Room {
        desk,
        crew,
        sender,
        receiver,
    } = room;
    let pace = Pace::new(every);
    let late = AtomicU64::new(0);
    let table = Table {
        desk: &desk,
        began: opening,
        pace: &pace,
        late: &late,
    };
    let shift = Shift { crew, sender, sink };
    let ran = run(host, table, &receiver, shift);
    let Ran { passes, sink } = ran;
    Solved {
        book: closed(host.alloc, desk, passes, opening),
        sink,
    }
}

// What threads share, and where snapshots go.
#[derive(Drop)]
struct Room {
    desk: Desk,
    crew: Crew,
    sender: Sender<Snapshot>,
    receiver: Receiver<Snapshot>,
}

// A desk with a crew of all its passes.
fn make_room(alloc: Global, opening: &Opening) -> Result<Room, AllocError>
    requires { IsOpening opening.now }
    ensures { IfOk result (λ room. IsRoom room.desk opening.now room.crew) }
{
    let (desk, passes) = Desk::new(alloc, opening.copy()?)?;
    let crew = match Crew::new(alloc, passes) {
        Ok(crew) => crew,
        Err(error) => {
            drop(desk);
            return Err(error);
        }
    };
    match bounded(alloc, WAITING) {
        Ok((sender, receiver)) => Ok(Room {
            desk,
            crew,
            sender,
            receiver,
        }),
        Err(_) => {
            drop(desk);
            drop(crew);
            Err(AllocError)
        }
    }
}

// The crew that is to work, and the sink of its snapshots.
#[derive(Drop)]
struct Shift<T> {
    crew: Crew,
    sender: Sender<Snapshot>,
    sink: T,
}

// The passes that came back, and the sink.
#[derive(Drop)]
struct Ran<T> {
    passes: Vec<Pass>,
    sink: T,
}

// Runs the workers to their end, while the caller receives snapshots.
fn run<R: Threads + Wait + Sync, O: Observer, T: SnapshotSink + Drop>(
    host: &Host<'_, R, O>,
    table: Table<'_>,
    receiver: &Receiver<Snapshot>,
    shift: Shift<T>,
) -> Ran<T>
    requires crew { IsCrewAt table shift.crew }
    requires ready { T.ready shift.sink }
    ensures passes { AreAllAt table.entry (count_of shift.crew) result.passes.items }
    ensures ready { T.ready result.sink }
    ensures moves { T.moves shift.sink result.sink }
{
    thread::scope(
        thread::scope_env(),
        host.rt,
        move |scope| -> Ran<T>
            requires { IsCrewAt table shift.crew × T.ready shift.sink }
            ensures passes { AreAllAt table.entry (count_of shift.crew) result.passes.items }
            ensures ready { T.ready result.sink }
            ensures moves { T.moves shift.sink result.sink }
        {
            let Shift {
                mut crew,
                sender,
                sink,
            } = shift;
            crew.start(scope, host, table, sender);
            let sink = listen(host.rt, sink, receiver);
            Ran {
                passes: crew.join(host.rt, table),
                sink,
            }
        },
    )
}

// The book of a desk that is closed with all its passes, if memory suffices.
fn closed(alloc: Global, desk: Desk, passes: Vec<Pass>, opening: &Opening) -> Option<Book>
    requires { AreAllOf desk opening.now passes.items }
    ensures { IfSome result (IsEnding opening.now) }
{
    let _opening = opening;
    match desk.close(alloc, passes) {
        Ok(locked) => Some(of_opening(locked)),
        Err(back) => {
            drop(back);
            None
        }
    }
}
