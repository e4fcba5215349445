ghost use Rattle.std.specs.Prelude.{◌≡◌, ◌<◌, [], length, slice_get, All, IfErr, IfOk, OnErr, OnOk, Some};
ghost use Rattle.ug_frames.specs.declared.report.Report.{Report};
ghost use Rattle.ug_rules.specs.Books.{IsBook};
ghost use Rattle.ug_book.specs.Views.{IsSameRun};
ghost use Rattle.ug_rules.specs.Hearing.{IsHearable};
ghost use Rattle.ug_rules.specs.HearingLaws.{HasRisingChanges};
ghost use Rattle.ug_model.specs.declared.playing.Halt.TheVariants.{NoSuch, Memory};
ghost use Rattle.ug_laws.specs.Events.{IsEvent};
ghost use Rattle.ug_laws.specs.Worlds.{Happens, HasDecided, IsHeard, opening};
ghost use Rattle.ug_model.specs.Halts.{IsHalted, IsNotThere};

use std::alloc::{AllocError, AllocFailed, Global};
use std::marker::Model;
use std::mem;
use ug_book::Book;
use ug_frames::Report;
use ug_laws::{Decision, Event};
use ug_rules::{Heard, Told};

/// Why an event did not happen.
#[derive(Clone, Copy)]
pub enum Halt {
    /// It receives the report at this place, which was not sent.
    NoSuch { place: usize },
    Memory,
}

impl From<AllocError> for Halt {
    ghost from_gives = { λ _ halt. halt ≡ Memory };

    fn from(_error: AllocError) -> Halt {
        Halt::Memory
    }
}

impl<T: Drop> From<AllocFailed<T>> for Halt {
    ghost from_gives = { λ _ halt. halt ≡ Memory };

    fn from(_failed: AllocFailed<T>) -> Halt {
        Halt::Memory
    }
}

/// A schedule that is played: the book, which of its orders were sent, what was sent, the answers
/// to the reports received, and how far each decision went.
#[derive(Drop)]
pub struct Playing {
    book: Book,
    told: Vec<Told>,
    sent: Vec<Report>,
    replies: Vec<Heard>,
    decisions: Vec<Decision>,
}

/// What a schedule leaves: the book, the answers to the reports received, and how far each decision
/// went, the earliest first.
#[derive(Drop)]
pub struct Left {
    pub book: Book,
    pub replies: Vec<Heard>,
    pub decisions: Vec<Decision>,
}

impl Model for Playing {
    ghost use Rattle.std.specs.Prelude.{All};
    ghost use Rattle.ug_rules.specs.Hearing.{IsHearable};
    ghost use Rattle.ug_laws.specs.Worlds.{World};

    ghost Value = { World };

    ghost view = { λ playing. record {
      book = playing.book;
      told = playing.told.items;
      sent = playing.sent.items;
      replies = playing.replies.items;
      decisions = playing.decisions.items;
    } };

    ghost invariant = { λ playing. All IsHearable playing.sent.items };
}

impl Playing {
    /// Nothing was sent yet. It takes no memory.
    pub fn new(alloc: Global, book: Book) -> Playing
        ensures value { result ≡ opening book [] }
        ensures book { IsBook book }
    {
        // The problem shows that the book is one.
        let _problem = book.problem();
        Playing {
            book,
            told: Vec::new(alloc),
            sent: Vec::new(alloc),
            replies: Vec::new(alloc),
            decisions: Vec::new(alloc),
        }
    }

    /// The book.
    pub fn book(&self) -> &Book
        ensures { result.now ≡ self.now.book }
    {
        &self.book
    }

    /// Another book takes the place of this one, as after a restart. What was sent stays sent; no
    /// order of the other was sent.
    pub fn replace(&mut self, book: Book)
        ensures value { self.new ≡ record self.old { book = book; told = [] } }
        ensures book { IsBook book }
    {
        // The problem shows that the book is one.
        let _lent = book.problem();
        drop(mem::replace(&mut self.book, book));
        self.told.clear();
    }

    /// The book, the replies and the decisions.
    pub fn end(self) -> Left
        ensures book { result.book ≡ self.book }
        ensures replies { result.replies.items ≡ self.replies }
        ensures decisions { result.decisions.items ≡ self.decisions }
    {
        let Playing {
            book,
            told,
            sent,
            replies,
            decisions,
        } = self;
        drop(told);
        drop(sent);
        Left {
            book,
            replies,
            decisions,
        }
    }

    /// An event happens. After an error nothing has changed.
    pub fn happen(&mut self, event: &Event) -> Result<(), Halt>
        requires { IsEvent (length self.old.book.ranks) event.now }
        ensures happened { OnOk result (Happens self.old event.now self.new) }
        ensures halted { IfErr result (IsHalted self.old event.now self.new) }
        ensures wide { length self.new.book.ranks ≡ length self.old.book.ranks }
        ensures same { IsSameRun self.old.book self.new.book }
    {
        match event {
            Event::Send { report } => self.send(report),
            Event::Hear { place, rank } => self.hear(*place, *rank),
            Event::Join { rank } => {
                self.book.join(*rank);
                Ok(())
            }
            Event::Gone { rank } => {
                self.book.gone(*rank);
                Ok(())
            }
            Event::Decide => self.decide(),
            Event::Tell => self.tell(),
        }
    }

    // A solver sends a report.
    fn send(&mut self, report: &Report) -> Result<(), Halt>
        requires { IsHearable report.now }
        ensures sent { OnOk result (Happens self.old (Event.Send report.now) self.new) }
        ensures err { IfErr result (λ halt. (halt ≡ Memory) × (self.new ≡ self.old)) }
        ensures wide { length self.new.book.ranks ≡ length self.old.book.ranks }
        ensures same { IsSameRun self.old.book self.new.book }
    {
        let copy = report.copy()?;
        self.sent.push(copy)?;
        Ok(())
    }

    // Receives the report at a place of those sent from a rank.
    fn hear(&mut self, place: usize, rank: u32) -> Result<(), Halt>
        requires { rank < length self.old.book.ranks }
        ensures heard { OnOk result (IsHeard self.old place rank self.new) }
        ensures halted { IfErr result (IsHalted self.old (Event.Hear place rank) self.new) }
        ensures wide { length self.new.book.ranks ≡ length self.old.book.ranks }
        ensures same { IsSameRun self.old.book self.new.book }
    {
        self.replies.reserve(1)?;
        let report = copy_of(&self.sent, place)?;
        let answer = self.book.hear(rank, report);
        self.replies.push(answer)?;
        Ok(())
    }

    // The coordinator decides, as far as memory goes.
    fn decide(&mut self) -> Result<(), Halt>
        ensures decided { OnOk result (HasDecided self.old self.new) }
        ensures err { IfErr result (λ halt. (halt ≡ Memory) × (self.new ≡ self.old)) }
        ensures wide { length self.new.book.ranks ≡ length self.old.book.ranks }
        ensures same { IsSameRun self.old.book self.new.book }
    {
        self.decisions.reserve(1)?;
        let decision = match self.book.decide() {
            Ok(()) => Decision::Whole,
            Err(unfinished) => Decision::CutShort {
                steps: unfinished.stood,
            },
        };
        self.decisions.push(decision)?;
        Ok(())
    }

    // Sends the first queued order.
    fn tell(&mut self) -> Result<(), Halt>
        ensures told { OnOk result (Happens self.old Event.Tell self.new) }
        ensures err { IfErr result (λ halt. (halt ≡ Memory) × (self.new ≡ self.old)) }
        ensures wide { length self.new.book.ranks ≡ length self.old.book.ranks }
        ensures same { IsSameRun self.old.book self.new.book }
    {
        self.told.reserve(1)?;
        if let Some(told) = self.book.next_order() {
            self.told.push(told)?;
        }
        Ok(())
    }
}

// A copy of the report at a place of those sent.
fn copy_of(sent: &[Report], place: usize) -> Result<Report, Halt>
    ensures there { IfOk result (λ report. slice_get sent.now place ≡ Some report) }
    ensures rising { IfOk result HasRisingChanges }
    ensures halted { IfErr result (IsNotThere sent.now place) }
{
    let Some(report) = sent.get(place) else {
        return Err(Halt::NoSuch { place });
    };
    know(report);
    Ok(report.copy()?)
}

// The changes of a hand rise: their type has it so.
fn know(report: &Report)
    ensures { HasRisingChanges report.now }
{
    if let Report::Hand { changes, .. } = report {
        let _changes = changes.as_slice();
    }
}
