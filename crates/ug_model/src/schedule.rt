ghost use Rattle.std.specs.Prelude.{◌≡◌, length, All, IfErr, IfOk, OnOk};
ghost use Rattle.ug_rules.specs.Books.{IsSoundBook};
ghost use Rattle.ug_laws.specs.Events.{IsEvent};
ghost use Rattle.ug_model.specs.Halts.{fault_of};
ghost use Rattle.ug_model.specs.Plays.{AreAllThere, HonestLeave, IsPlayed, IsStopped, book_left};

use crate::playing::{Halt, Left, Playing};
use std::alloc::Global;
use ug_book::Book;
use ug_laws::{Decision, Event};
use ug_lists::Items;
use ug_rules::Heard;

/// The answers to the reports received, the earliest first.
pub type Replies = Items<Heard>;

/// How far each decision went, the earliest first.
pub type Decisions = Items<Decision>;

/// A schedule that was played to its end.
#[derive(Drop)]
pub struct Played {
    pub book: Book,
    pub replies: Replies,
    pub decisions: Decisions,
}

/// Why a schedule was not played to its end.
#[derive(Drop)]
pub enum PlayFault {
    /// An event receives the report at this place, which was not sent. The book is as it was then.
    NoSuch { place: usize, book: Book },
    /// Memory ran out in the event after `done` events. The book is as it was then.
    Memory { book: Book, done: usize },
}

/// Plays a schedule: makes the calls of the book that the events are, one after another. A report
/// may be received often, from any rank, or never. The orders stay in the book. A decision that
/// runs out of memory does not stop the schedule: the result says how far each one went.
///
/// Solvers need not be honest. As long as they are, a sound book that has given no ticket stays
/// sound, and each better point lies in one of its primitive nodes.
pub fn play(alloc: Global, book: Book, events: &[Event]) -> Result<Played, PlayFault>
    requires { All (IsEvent (length book.ranks)) events.now }
    // The book, the replies and the decisions are those of the rules, event by event.
    ensures played { IfOk result (IsPlayed book events.now) }
    ensures stopped { IfErr result (IsStopped book events.now) }
    ensures there { OnOk result (AreAllThere events.now) }
    ensures honest { IsSoundBook book → book.last ≡ 0
        → HonestLeave book events.now (book_left result) }
{
    let mut playing = Playing::new(alloc, book);
    for (done, event) in events.iter().enumerate() {
        match playing.happen(event) {
            Ok(()) => {}
            Err(halt) => return Err(stop(playing, halt, done)),
        }
    }
    let left = playing.end();
    let Left {
        book,
        replies,
        decisions,
    } = left;
    Ok(Played {
        book,
        replies: Items::from_vec(replies),
        decisions: Items::from_vec(decisions),
    })
}

// Returns the state of a schedule that was stopped after this many events.
fn stop(playing: Playing, halt: Halt, done: usize) -> PlayFault
    ensures { result ≡ fault_of halt done playing.book }
{
    let Left {
        book,
        replies,
        decisions,
    } = playing.end();
    drop(replies);
    drop(decisions);
    match halt {
        Halt::NoSuch { place } => PlayFault::NoSuch { place, book },
        Halt::Memory => PlayFault::Memory { book, done },
    }
}
