ghost use Rattle.std.specs.Prelude.{Some, All, IfSome};
ghost use Rattle.ug_disk.specs.Memories.{history_of};
ghost use Rattle.ug_checkpoint.specs.Savers.{IsKept};
ghost use Rattle.ug_laws.specs.DiskEvents.{IsDiskEvent};

use crate::crashes::slots::{disk_with, nothing, settings, slot_of};
use crate::expect::{holds, holds_at, same_at};
use crate::worlds::are_made;
use std::alloc::Global;
use ug_book::{Answered, Book};
use ug_checkpoint::Saver;
use ug_disk::{MemoryDisk, Slot};
use ug_frames::{Ending, Report};
use ug_laws::{DiskEvent, Event};
use ug_model::{Halted, PlayDiskFault, PlayedDisk, play_disk};
use ug_nodes::Ticket;
use ug_problem::Shared;
use ug_restart::{Attempt, Start, StartFault, begin};
use ug_rows::Point;
use ug_rules::Heard;

// A run that has begun on a disk of two empty slots, which stops after one of its calls.
#[derive(Drop)]
struct Begun {
    book: Book,
    saver: Saver,
    disk: MemoryDisk,
}

fn run_on_a_disk(alloc: Global, gap: u8, stop: u64) -> Option<Begun>
    ensures { IfSome result (λ b. IsKept b.saver (Some (history_of b.disk))) }
{
    let problem = Shared::own(nothing(alloc, false).ok()?);
    let Ok(mut disk) = disk_with(alloc, &[], &[stop]) else {
        drop(problem);
        return None;
    };
    let Ok(start) = begin(alloc, &mut disk, problem, settings(gap)) else {
        drop(disk);
        return None;
    };
    let Start { opening, saver } = start;
    let book = Book::new(alloc, &opening);
    drop(opening);
    match book {
        Ok(book) => Some(Begun { book, saver, disk }),
        Err(_) => {
            drop(disk);
            None
        }
    }
}

// A report under the first ticket of a run: the point without values, or that nothing is left below
// its value.
fn report(alloc: Global, run: u64, is_done: bool) -> DiskEvent
    ensures { IsDiskEvent result }
{
    let ticket = Ticket { run, number: 1 };
    let report = if is_done {
        Report::Done {
            ticket,
            cutoff: Some(0),
            count: 0,
            end: Ending::Plain,
        }
    } else {
        Report::Solution {
            ticket,
            point: Point::from_vec(Vec::new(alloc)),
        }
    };
    DiskEvent::World(Event::Send { report })
}

// Power fails and leaves of slot 0 the first image of run 1 without a gap, or another byte, and of
// slot 1 nothing.
fn crash(alloc: Global, is_first: bool) -> Option<DiskEvent>
    ensures { IfSome result IsDiskEvent }
{
    let slot = slot_of(1, 1, 0);
    let zero = if is_first {
        slot.as_slice()
    } else {
        [9u8].as_slice()
    };
    Some(DiskEvent::Crash {
        zero: zero.to_vec(alloc).ok()?,
        one: Vec::new(alloc),
        settings: settings(0),
    })
}

// What a letter of a schedule stands for; a digit receives the report that was sent as that one.
fn event_of(alloc: Global, letter: u8, run: u64) -> Option<DiskEvent>
    ensures { IfSome result IsDiskEvent }
{
    Some(match letter {
        b'j' => DiskEvent::World(Event::Join { rank: 0 }),
        b'J' => DiskEvent::World(Event::Join { rank: 5 }),
        b'd' => DiskEvent::World(Event::Decide),
        b't' => DiskEvent::World(Event::Tell),
        b'n' => DiskEvent::Note,
        b's' => DiskEvent::Save,
        b'f' => report(alloc, run, false),
        b'e' => report(alloc, run, true),
        b'x' => DiskEvent::Stop {
            settings: settings(0),
        },
        b'X' => DiskEvent::Stop {
            settings: settings(3),
        },
        b'c' => return crash(alloc, true),
        b'C' => return crash(alloc, false),
        _ => DiskEvent::World(Event::Hear {
            place: usize::from(letter.saturating_sub(b'0')),
            rank: 0,
        }),
    })
}

fn push_event(alloc: Global, events: &mut Vec<DiskEvent>, letter: u8, run: u64) -> Option<()>
    requires { All IsDiskEvent events.old.items }
    ensures { IfSome result (λ pushed. All IsDiskEvent events.new.items) }
{
    let event = event_of(alloc, letter, run)?;
    events.push(event).ok()?;
    Some(())
}

// A schedule; after an `r` reports are sent under the first ticket of the next run.
fn events_of(alloc: Global, text: &str) -> Option<Vec<DiskEvent>>
    ensures { IfSome result (λ events. All IsDiskEvent events.items) }
{
    let mut events = Vec::new(alloc);
    let mut run = 1u64;
    for letter in text.as_bytes() {
        if *letter == b'r' {
            run = run.saturating_add(1);
        } else {
            push_event(alloc, &mut events, *letter, run)?;
        }
    }
    Some(events)
}

// The events from a run that has begun.
fn play_on(alloc: Global, begun: Begun, events: &[DiskEvent]) -> Result<PlayedDisk, PlayDiskFault>
    requires kept { IsKept begun.saver (Some (history_of begun.disk)) }
    requires events { All IsDiskEvent events.now }
{
    let Begun { book, saver, disk } = begun;
    play_disk(alloc, book, saver, disk, events)
}

fn play_events(
    alloc: Global,
    events: &[DiskEvent],
    gap: u8,
    stop: u64,
) -> Option<Result<PlayedDisk, PlayDiskFault>>
    requires { All IsDiskEvent events.now }
{
    let begun = run_on_a_disk(alloc, gap, stop)?;
    Some(play_on(alloc, begun, events))
}

fn play(
    alloc: Global,
    text: &str,
    gap: u8,
    stop: u64,
) -> Option<Result<PlayedDisk, PlayDiskFault>> {
    let events = events_of(alloc, text)?;
    let played = play_events(alloc, &events, gap, stop);
    drop(events);
    played
}

// The run at the end and how many reports were received, or why and where the schedule stopped.
type Answer = Result<(u64, usize), (Halted, usize)>;

fn answer_of(played: &Result<PlayedDisk, PlayDiskFault>) -> Answer {
    match played {
        Ok(played) => Ok((played.book.run(), played.replies.len())),
        Err(fault) => Err((fault.why, fault.done)),
    }
}

const NO_GREATER_GAP: Halted = Halted::Refused(StartFault::SmallerGap { kept: 3, asked: 0 });

const SCHEDULES: &[(&str, u8, Answer)] = &[
    (ANSWERED, 0, Ok((3, 4))),
    ("tjdtnstfe0tx1rtjdtfe2t3nsxt", 0, Ok((3, 4))),
    ("jd0", 0, Err((Halted::NoSuch { place: 0 }, 2))),
    ("J", 0, Err((Halted::NoRank { rank: 5 }, 0))),
    ("c", 0, Ok((2, 0))),
    ("C", 0, Err((Halted::NotAllowed { slot: Slot::Zero }, 0))),
    ("nsc", 0, Err((Halted::NotAllowed { slot: Slot::One }, 2))),
    ("x", 3, Err((NO_GREATER_GAP, 1))),
    ("xjd", 3, Err((NO_GREATER_GAP, 1))),
    ("xX", 3, Ok((2, 0))),
    ("sXXX", 0, Ok((4, 0))),
];

// How a schedule ends, if there is memory for it.
fn ends(alloc: Global, text: &str, gap: u8) -> Option<Answer> {
    let played = play(alloc, text, gap, u64::MAX)?;
    let answer = answer_of(&played);
    drop(played);
    Some(answer)
}

#[test]
fn schedules_end_or_say_why_not(rt: HostRuntime) {
    for (text, gap, wanted) in SCHEDULES {
        same_at(&rt, &ends(rt.alloc(), text, *gap), &Some(*wanted), text);
    }
}

// A schedule with two runs, in which the answer is found.
const ANSWERED: &str = "jdnsfe0x1rjdfe23nsx";

// Whether the point without values is the answer, after these replies and all decisions.
fn is_answered(played: &PlayedDisk) -> bool {
    let replies = [Heard::Kept, Heard::Stale, Heard::Kept, Heard::Kept];
    played.replies.as_slice() == replies.as_slice()
        && are_made(played.decisions.as_slice(), ANSWERED)
        && matches!(played.book.answer(), Some(Answered::Optimal(_)))
}

#[test]
fn report_of_an_earlier_run_is_stale(rt: HostRuntime) {
    let played = play(rt.alloc(), ANSWERED, 0, u64::MAX);
    holds(
        &rt,
        matches!(&played, Some(Ok(played)) if is_answered(played)),
    );
    drop(played);
}

// How many calls of the disk there were when the run had begun.
fn calls_at_first(alloc: Global) -> Option<u64> {
    let begun = run_on_a_disk(alloc, 0, u64::MAX)?;
    let calls = begun.disk.calls();
    drop(begun);
    Some(calls)
}

// How many calls of the disk there were at the end of a schedule.
fn calls_of(alloc: Global, text: &str) -> Option<u64> {
    let played = play(alloc, text, 0, u64::MAX)?.ok()?;
    let calls = played.disk.calls();
    drop(played);
    Some(calls)
}

// Whether a run whose disk stops after a call continues as the second run or the third, unanswered.
fn goes_on(alloc: Global, stop: u64) -> bool {
    let played = play(alloc, "nsxx", 0, stop);
    let is_so = is_on(&played);
    drop(played);
    is_so
}

fn is_on(played: &Option<Result<PlayedDisk, PlayDiskFault>>) -> bool {
    match played {
        Some(Ok(played)) => {
            (played.book.run() == 2 || played.book.run() == 3) && played.book.answer().is_none()
        }
        _ => false,
    }
}

#[test]
fn run_goes_on_wherever_the_disk_stops(rt: HostRuntime) {
    let alloc = rt.alloc();
    let first = calls_at_first(alloc).unwrap_or(u64::MAX);
    let all = calls_of(alloc, "nsx").unwrap_or(0);
    holds_at(&rt, first < all, &(first, all));
    for stop in first.saturating_add(1)..all.saturating_add(1) {
        holds_at(&rt, goes_on(alloc, stop), &stop);
    }
}

// What becomes of the saves of a schedule, where the disk stops in the first of them or does not.
const SAVES: &[(&str, bool, &[Attempt])] = &[
    ("s", false, &[]),
    ("ns", false, &[Attempt::Saved]),
    ("nsjdns", false, &[Attempt::Saved, Attempt::Saved]),
    ("nss", true, &[Attempt::Missed, Attempt::Missed]),
    ("nsxsns", true, &[Attempt::Missed, Attempt::Saved]),
];

// Whether this becomes of the saves of a schedule whose disk stops after a call.
fn are_told(alloc: Global, text: &str, stop: u64, wanted: &[Attempt]) -> bool {
    let played = play(alloc, text, 0, stop);
    let is_so = matches!(&played, Some(Ok(played)) if played.attempts.as_slice() == wanted);
    drop(played);
    is_so
}

#[test]
fn what_becomes_of_saves_is_told(rt: HostRuntime) {
    let alloc = rt.alloc();
    let first = calls_at_first(alloc).unwrap_or(0);
    for (text, stops, wanted) in SAVES {
        let stop = if *stops {
            first.saturating_add(1)
        } else {
            u64::MAX
        };
        holds_at(&rt, are_told(alloc, text, stop, wanted), text);
    }
}
