//! Schedules that were worked by hand, played with one rank. Those that were made at random are
//! replayed by ug_measure, whose stored output has the replies of a model.

ghost use Rattle.std.specs.Prelude.{◌≡◌, length, All, IfSome};
ghost use Rattle.ug_rules.specs.Hearing.{IsHearable};
ghost use Rattle.ug_laws.specs.Events.{IsEvent};

use crate::expect::holds_at;
use crate::problems::square;
use std::alloc::Global;
use ug_book::{Book, Opening};
use ug_branch::Base;
use ug_frames::{Ending, Report};
use ug_laws::{Decision, Event};
use ug_model::{PlayFault, Played, play};
use ug_nodes::Ticket;
use ug_problem::Shared;
use ug_rows::Point;
use ug_rules::{Heard, Settings};

// A book of the square with one rank.
fn begin(alloc: Global) -> Option<Book> {
    let settings = Settings {
        solvers: 1,
        racing: false,
        base: Base::Bound,
        low: 1,
        high: 2,
        every: 1,
        limit: 1000,
        winner: 20,
        gap: 0,
    };
    let problem = square(alloc).ok()?;
    let opening = Opening::new(alloc, Shared::own(problem), 1, settings).ok()?;
    let book = Book::new(alloc, &opening);
    drop(opening);
    book.ok()
}

// The point (0, 5), found under the first ticket.
fn solution(alloc: Global) -> Option<Report>
    ensures { IfSome result IsHearable }
{
    let ticket = Ticket { run: 1, number: 1 };
    let point = Point::from_vec(Vec::from_slice(alloc, &[0, 5]).ok()?);
    Some(Report::Solution { ticket, point })
}

// The end of the first ticket below 5.
fn done() -> Report
    ensures { IsHearable result }
{
    Report::Done {
        ticket: Ticket { run: 1, number: 1 },
        cutoff: Some(5),
        count: 0,
        end: Ending::Plain,
    }
}

// The report that a letter stands for.
fn report_of(alloc: Global, letter: u8) -> Option<Report>
    ensures { IfSome result IsHearable }
{
    match letter {
        b'r' => Some(Report::Ready),
        b'e' => Some(Report::Ended),
        b's' => solution(alloc),
        _ => Some(done()),
    }
}

// What a letter of a schedule stands for; a digit receives the report that was sent as that one.
fn event_of(alloc: Global, letter: u8, ranks: u32) -> Option<Event>
    ensures { IfSome result (IsEvent ranks) }
{
    match letter {
        b'd' => Some(Event::Decide),
        b't' => Some(Event::Tell),
        b'r' | b'e' | b's' | b'f' => Some(Event::Send {
            report: report_of(alloc, letter)?,
        }),
        b'j' if 0 < ranks => Some(Event::Join { rank: 0 }),
        b'0'..=b'9' if 0 < ranks => Some(Event::Hear {
            place: usize::from(letter - b'0'),
            rank: 0,
        }),
        _ => None,
    }
}

fn push_event(alloc: Global, events: &mut Vec<Event>, letter: u8, ranks: u32) -> bool
    requires { All (IsEvent ranks) events.old.items }
    ensures { All (IsEvent ranks) events.new.items }
{
    match event_of(alloc, letter, ranks) {
        Some(event) => events.push(event).is_ok(),
        None => false,
    }
}

// The events of a schedule, in front of the first that there is not.
fn events_of(alloc: Global, text: &str, ranks: u32) -> Vec<Event>
    ensures { All (IsEvent ranks) result.items }
{
    let mut events = Vec::new(alloc);
    for letter in text.as_bytes() {
        if !push_event(alloc, &mut events, *letter, ranks) {
            break;
        }
    }
    events
}

// Whether a book holds one node, and no point.
fn holds_one(book: &Book) -> bool {
    match book.held() {
        Ok(held) => {
            let count = held.len();
            drop(held);
            count == 1 && book.best().is_none()
        }
        Err(_) => false,
    }
}

/// The replies of a schedule, or the place of a report that it receives and that was not sent.
type Told = Result<&'static [Heard], usize>;

/// Whether each decision that a schedule says was made, and no other.
pub fn are_made(decisions: &[Decision], text: &str) -> bool {
    let mut said = 0_usize;
    for letter in text.as_bytes() {
        if *letter == b'd' {
            said = said.saturating_add(1);
        }
    }
    decisions.len() == said && decisions.iter().all(|made| *made == Decision::Whole)
}

// Whether that is reported, and the book left that holds one node and no point.
fn is_told(end: &Result<Played, PlayFault>, text: &str, wanted: Told) -> bool {
    match (end, wanted) {
        (Ok(played), Ok(replies)) => {
            played.replies.as_slice() == replies
                && holds_one(&played.book)
                && are_made(played.decisions.as_slice(), text)
        }
        (Err(PlayFault::NoSuch { place, book }), Err(wanted)) => {
            *place == wanted && holds_one(book)
        }
        _ => false,
    }
}

fn ranks(book: &Book) -> u32
    ensures { result ≡ length book.now.ranks }
{
    book.settings().solvers
}

// Whether a schedule says that.
fn tells(alloc: Global, text: &str, wanted: Told) -> bool {
    let Some(book) = begin(alloc) else {
        return false;
    };
    let events = events_of(alloc, text, ranks(&book));
    let end = play(alloc, book, &events);
    let is_so = events.len() == text.len() && is_told(&end, text, wanted);
    drop(end);
    drop(events);
    is_so
}

// The replies where the rank is said to be done before its point is received.
const UNBACKED: &[Heard] = &[
    Heard::Unbacked {
        cutoff: 5,
        incumbent: None,
    },
    Heard::Stale,
    Heard::Stale,
    Heard::Stale,
];

// The second is the first with orders sent.
const SCHEDULES: &[(&str, Told)] = &[
    ("jdsf110jd1", Ok(UNBACKED)),
    ("tjdtsf1t1t0jd1tt", Ok(UNBACKED)),
    ("jr0e91", Err(9)),
    ("r1", Err(1)),
];

#[test]
fn schedules_tell_what_was_worked_by_hand(rt: HostRuntime) {
    for (text, wanted) in SCHEDULES {
        holds_at(&rt, tells(rt.alloc(), text, *wanted), text);
    }
}
