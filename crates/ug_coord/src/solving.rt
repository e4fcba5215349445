//! The coordinator's loop, from the start of the crew to its end.

ghost use Rattle.std.specs.Prelude.{◌≡◌, ◌<◌, ◌⊎◌, false, true, length, replicate, IfOk, IfSome};
ghost use Rattle.ug_rules.specs.Books.{IsBook, IsSoundBook};
ghost use Rattle.ug_restart.specs.Outcomes.{HasFeasible, IfAnswered, IfBook, IsRight};
ghost use Rattle.ug_stream.specs.Streams.{first};
ghost use Rattle.ug_checkpoint.specs.Savers.{IsKept};
ghost use Rattle.ug_book.specs.Openings.{IsOpening, opening_book};
ghost use Rattle.ug_coord.specs.Ends.{IsOver, is_ended, ranks_of};
ghost use Rattle.ug_coord.specs.Coordinators.{HasCoordinated, IsFresh, IsSetUpFrame};
ghost use Rattle.ug_coord.specs.Keeping.{AreEachSaved, Begins, HasConcluded, HasKept, IsBegun};
ghost use Rattle.ug_coord.specs.Keeping.{IsKeptBy, IsKeptSafe, IsNothing, savers};
ghost use Rattle.ug_coord.specs.Checkpointers.{kept_seen};

use crate::checkpointer::Checkpointer;
use crate::coordinator::Coordinator;
use crate::ending::is_answered;
use crate::pacing::Pacing;
use std::alloc::{AllocError, Global};
use std::sync::Wait;
use ug_book::{Book, Opening};
use ug_checkpoint::Saver;
use ug_disk::Disk;
use ug_frames::{Order, encode_order};
use ug_io::{Crew, zeros};
use ug_records::to_record;
use ug_restart::{End, Host, Observer, Outcome, Saves, tell_begin};
use ug_stream::Assembler;

/// Number of bytes that are read at once.
const READ: usize = 65_536;

/// The crew after a solve, and how this ended.
#[derive(Drop)]
pub struct Coordinated<C> {
    pub outcome: Outcome,
    pub crew: C,
}

/// Solves what the opening has left, with a crew of which no rank is alive and nothing was received
/// yet: starts each rank, and works until an end is due. At the end each live rank is sent End.
/// With a saver the book is saved as often as its settings say, and the final book at last.
#[tactic(auto)]
pub fn coordinate<R: Wait, D: Disk, O: Observer, C: Crew + Drop>(
    host: &Host<'_, R, O>,
    opening: &Opening,
    saver: Option<Saver>,
    disk: &mut D,
    crew: C,
) -> Coordinated<C>
    requires opening { IsOpening opening.now }
    requires kept { IfSome saver (λ s. IsKept s (D.seen disk.old).told) }
    requires fresh { IsFresh (C.seen crew) (ranks_of (opening_book opening.now)) }

    // The book at the end comes from the opening's by the rules. A save was tried in each action
    // that is one, right behind the report that asks for it, and one at the end.
    ensures coordinated { HasCoordinated (opening_book opening.now) (C.seen crew).faults
        (C.seen result.crew) result.outcome.end
        (AreEachSaved saver result.outcome (D.seen disk.new))
        (IsKeptSafe saver (D.seen disk.old) (D.seen disk.new)) }

    // The state of the disk.
    ensures kept { HasKept (opening_book opening.now) saver result.outcome
        (D.seen disk.old) (D.seen disk.new) }

    // The crew was waited for, unless nothing was begun.
    ensures finished { IsNothing result.outcome ⊎ (C.finished result.crew ≡ true) }
{
    tell_begin(host.observer, host.alloc, opening);
    match checkpointer_of(host.alloc, opening, saver) {
        Ok(checkpointer) => solve(host, opening, checkpointer, disk, crew),
        Err(_) => Coordinated {
            crew,
            outcome: nothing(),
        },
    }
}

// Returns the outcome if memory runs out before the first action.
fn nothing() -> Outcome
    ensures { IsNothing result }
{
    Outcome {
        end: End::Memory,
        missed: 0,
        unsaved: 0,
        last: None,
    }
}

// What saves the book of a run that began with the opening.
fn checkpointer_of(
    alloc: Global,
    opening: &Opening,
    saver: Option<Saver>,
) -> Result<Checkpointer, AllocError>
    ensures { IfOk result (λ checkpointer. Begins opening.now saver checkpointer.saves) }
{
    match saver {
        None => Ok(Checkpointer { alloc, saves: None }),
        Some(saver) => match opening.copy() {
            Ok(own) => Ok(Checkpointer {
                alloc,
                saves: Some(Saves::new(saver, own)),
            }),
            Err(error) => {
                drop(saver);
                Err(error)
            }
        },
    }
}

// With what saves the book.
fn solve<R: Wait, D: Disk, O: Observer, C: Crew + Drop>(
    host: &Host<'_, R, O>,
    opening: &Opening,
    mut checkpointer: Checkpointer,
    disk: &mut D,
    crew: C,
) -> Coordinated<C>
    requires opening { IsOpening opening.now }
    requires kept { IsKeptBy (kept_seen checkpointer (D.seen disk.old)) }
    requires begun { IfSome checkpointer.saves (IsBegun opening.now) }
    requires fresh { IsFresh (C.seen crew) (ranks_of (opening_book opening.now)) }
    ensures coordinated { HasCoordinated (opening_book opening.now) (C.seen crew).faults
        (C.seen result.crew) result.outcome.end
        (AreEachSaved (savers checkpointer.saves) result.outcome (D.seen disk.new))
        (IsKeptSafe (savers checkpointer.saves) (D.seen disk.old) (D.seen disk.new)) }
    ensures kept { HasKept (opening_book opening.now) (savers checkpointer.saves) result.outcome
        (D.seen disk.old) (D.seen disk.new) }
    ensures finished { IsNothing result.outcome ⊎ (C.finished result.crew ≡ true) }
{
    let parts = match parts_of(host.alloc, opening) {
        Ok(parts) => parts,
        Err(_) => {
            drop(checkpointer);
            return Coordinated {
                crew,
                outcome: nothing(),
            };
        }
    };
    let Parts {
        book,
        streams,
        input,
        setup,
    } = parts;
    let pacing = Pacing::new(book.heard());
    let mut coordinator = Coordinator {
        host,
        book,
        crew,
        streams,
        input,
        frame: setup,
        last: None,
        out_of_memory: false,
        pacing,
    };
    coordinator.run(&mut checkpointer, disk);
    let Coordinator {
        book,
        streams,
        input,
        frame,
        out_of_memory,
        crew,
        ..
    } = coordinator;
    drop(streams);
    drop(input);
    drop(frame);
    let end = end_of(book, out_of_memory);
    let outcome = conclude(checkpointer, disk, end);
    Coordinated { crew, outcome }
}

// Saves the ending book.
fn conclude<D: Disk>(mut checkpointer: Checkpointer, disk: &mut D, end: End) -> Outcome
    requires { IsKeptBy (kept_seen checkpointer (D.seen disk.old)) }
    ensures end { result.end ≡ end }
    ensures concluded { HasConcluded result (kept_seen checkpointer (D.seen disk.old))
        (D.seen disk.new) }
{
    let last = checkpointer.keep_end(disk, &end);
    let missed = checkpointer.missed();
    let unsaved = checkpointer.unsaved();
    drop(checkpointer);
    Outcome {
        end,
        missed,
        unsaved,
        last,
    }
}

// What a coordinator keeps beside its crew: the book with which the run starts, a stream for each
// rank, a buffer, and the frame of the order that comes first.
#[derive(Drop)]
struct Parts {
    book: Book,
    streams: Vec<Assembler>,
    input: Vec<u8>,
    setup: Vec<u8>,
}

fn parts_of(alloc: Global, opening: &Opening) -> Result<Parts, AllocError>
    requires { IsOpening opening.now }
    ensures book { IfOk result (λ parts. parts.book ≡ opening_book opening.now) }
    ensures streams { IfOk result (λ parts. parts.streams.items
        ≡ replicate (ranks_of parts.book) first) }
    ensures room { IfOk result (λ parts. 0 < length parts.input.items) }
    ensures setup { IfOk result (λ parts. IsSetUpFrame parts.book parts.setup.items) }
    ensures made { IfOk result (λ parts. IsBook parts.book) }
{
    let book = Book::new(alloc, opening)?;
    let _problem = book.problem();
    let Ok(streams) = streams_of(alloc, book.settings().solvers) else {
        drop(book);
        return Err(AllocError);
    };
    let Ok(input) = zeros(alloc, READ) else {
        drop(book);
        drop(streams);
        return Err(AllocError);
    };
    let Ok(setup) = setup_of(alloc, &book) else {
        drop(book);
        drop(streams);
        drop(input);
        return Err(AllocError);
    };
    Ok(Parts {
        book,
        streams,
        input,
        setup,
    })
}

// Returns `count` streams, each at its start.
fn streams_of(alloc: Global, count: u32) -> Result<Vec<Assembler>, AllocError>
    ensures { IfOk result (λ streams. streams.items ≡ replicate count first) }
{
    let mut streams = Vec::new(alloc);
    for _ in 0..count {
        match streams.push(Assembler::new(alloc)) {
            Ok(()) => {}
            Err(_) => {
                drop(streams);
                return Err(AllocError);
            }
        }
    }
    Ok(streams)
}

// The frame of the order that comes first: the book's problem, with its gap.
fn setup_of(alloc: Global, book: &Book) -> Result<Vec<u8>, AllocError>
    ensures { IfOk result (λ frame. IsSetUpFrame book.now frame.items) }
{
    let record = to_record(alloc, book.problem().problem())?;
    let order = Order::Setup {
        gap: book.settings().gap,
        record,
    };
    let mut frame = Vec::new(alloc);
    let encoded = encode_order(&mut frame, &order);
    drop(order);
    match encoded {
        Ok(()) => Ok(frame),
        Err(error) => {
            drop(frame);
            Err(error)
        }
    }
}

// Returns how a run ends whose end is due, unless memory ran out.
fn end_of(book: Book, out_of_memory: bool) -> End
    requires { out_of_memory ≡ false → IsOver book }
    ensures ended { is_ended result book }
    ensures lacks { IfBook result (λ b. out_of_memory ≡ false) }
    ensures feasible { IfBook result HasFeasible }
    ensures right { IfAnswered result (λ b. IsSoundBook b → IsRight b) }
{
    // Whatever it began with, the incumbent of a book is feasible for its problem.
    let _problem = book.problem();
    if out_of_memory {
        drop(book);
        return End::Memory;
    }
    if is_answered(&book) {
        return End::Answered(book);
    }
    if book.settings().limit <= book.heard() {
        return End::Limited(book);
    }
    End::Stranded(book)
}
