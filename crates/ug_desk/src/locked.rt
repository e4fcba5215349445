ghost use Rattle.std.specs.Prelude.{◌≡◌, ◌↔◌, ◌<◌, ◌≤◌, [], length, IfOk, IsTrue, MatchBool, OnErr, OnOk};
ghost use Rattle.ug_problem.specs.Better.{IsSmallCutoff};
ghost use Rattle.ug_book.specs.Openings.{IsOpening};
ghost use Rattle.ug_ranks.specs.Looks.{is_alive};
ghost use Rattle.ug_ranks.specs.States.{state_at};
ghost use Rattle.ug_desk.specs.DeskStates.{opening_state, own_ticket};
ghost use Rattle.ug_desk.specs.Histories.{taken, offered, handed, stated, left, copied};
ghost use Rattle.ug_desk.specs.Entries.{HasEnded, HasEntered, HasEnteredAlive, IsLocked, one_more};
ghost use Rattle.ug_desk.specs.Entries.{IsSnapshotOf};
ghost use Rattle.ug_desk.specs.Givens.{taken_by};
ghost use Rattle.ug_desk.specs.Words.{word_of};

use crate::done::done;
use crate::given::Given;
use crate::hand::{HandedBox, hand};
use crate::state::state;
use crate::take::{note, take};
use crate::ticket::is_of_ticket;
use crate::tickets::tickets;
use crate::waiting::{Waiting, Woken};
use crate::word::{word_behind, word_of};
use std::alloc::{AllocError, Global};
use std::marker::Model;
use ug_base::Task;
use ug_book::{Book, Opening, Unfinished};
use ug_frames::Report;
use ug_nodes::Ticket;
use ug_rows::{IntBox, Point};
use ug_rules::Heard;
use ug_snapshot::{SharedOpening, Snapshot, image_of};
use ug_worker::{Reply, Untaken};

/// The value behind the lock of a desk.
#[derive(Drop)]
pub struct Locked {
    alloc: Global,
    began: SharedOpening,
    book: Book,
    // The ticket of the last work of each rank.
    tickets: Vec<Ticket>,
    // Length of the history, which exists in proofs alone.
    count: u64,
    // The word of the incumbent's cutoff, which is read behind each call.
    word: u64,
    // Who rests.
    waiting: Waiting,
}

impl Model for Locked {
    ghost use Rattle.std.specs.Prelude.{◌≡◌};
    ghost use Rattle.ug_desk.specs.Entries.{LockedState, IsLocked};
    ghost use Rattle.ug_desk.specs.Views.{state_of};
    ghost use Rattle.ug_desk.specs.Words.{word_of};

    ghost Value = { LockedState };

    ghost view = { state_of };

    ghost invariant = { λ l. IsLocked (state_of l) × (l.word ≡ word_of l.book) };
}

impl Locked {
    /// What stands when a run begins: the book is that of the opening, and the history has no call.
    pub fn new(alloc: Global, opening: Opening) -> Result<Locked, AllocError>
        requires { IsOpening opening }
        ensures { IfOk result (λ locked. locked ≡ record {
          opening = opening;
          now = opening_state opening;
          count = 0;
        }) }
    {
        let first = Ticket {
            run: opening.run,
            number: 0,
        };
        let count = opening.settings.solvers;
        let began = SharedOpening::new(alloc, opening)?;
        let Ok(tickets) = tickets(alloc, count, first) else {
            drop(began);
            return Err(AllocError);
        };
        let Ok(waiting) = Waiting::new(alloc, count) else {
            drop(began);
            drop(tickets);
            return Err(AllocError);
        };
        match Book::new(alloc, began.opening()) {
            Ok(book) => {
                let word = word_of(&book);
                Ok(Locked {
                    alloc,
                    began,
                    book,
                    tickets,
                    count: 0,
                    word,
                    waiting,
                })
            }
            Err(error) => {
                drop(began);
                drop(tickets);
                drop(waiting);
                Err(error)
            }
        }
    }

    /// What the book was made of.
    pub fn opening(&self) -> &Opening
        ensures { result.now ≡ self.now.opening }
    {
        self.began.opening()
    }

    /// The book. It is the replay of a history from the opening, and sound where that is covered.
    pub fn book(&self) -> &Book
        ensures value { result.now ≡ self.now.now.book }
        ensures locked { IsLocked self.now }
    {
        &self.book
    }

    /// The book, for one who has read that it is sound.
    pub fn into_book(self) -> Book
        ensures value { result ≡ self.now.book }
        ensures locked { IsLocked self }
    {
        let Locked {
            began,
            book,
            tickets,
            waiting,
            ..
        } = self;
        drop(began);
        drop(tickets);
        drop(waiting);
        book
    }

    /// The word of the incumbent's cutoff.
    pub fn word(&self) -> u64
        ensures { result ≡ word_of self.now.now.book }
    {
        self.word
    }

    /// The rank joins where it is absent or dead, the book decides, and the rank gets the work of
    /// its ticket, if it has one.
    pub fn take(&mut self, rank: u32) -> Result<Given, Untaken>
        requires { rank < length self.old.now.book.ranks }
        ensures { HasEntered rank (taken (taken_by result)) self.old self.new }
    {
        let given = take(self.alloc, &mut self.book, rank);
        note(&mut self.tickets, rank, &given);
        self.waiting
            .looked(rank, matches!(&given, Ok(Given::Nothing)));
        self.count = one_more(self.count);
        given
    }

    /// A point that was found under the ticket of the rank's last work. It takes no memory.
    pub fn solution(&mut self, rank: u32, point: Point) -> Heard
        requires { rank < length self.old.now.book.ranks }
        ensures { HasEntered rank (offered point result) self.old self.new }
    {
        let ticket = self.ticket(rank);
        let heard = self.book.hear(rank, Report::Solution { ticket, point });
        self.count = one_more(self.count);
        self.word = word_behind(&self.book, self.word, heard);
        heard
    }

    /// A box that is handed under the ticket of the rank's last work.
    pub fn hand(&mut self, rank: u32, number: u64, area: &IntBox) -> Heard
        requires here { rank < length self.old.now.book.ranks }
        requires wide { length area.now ≡ length self.old.now.book.problem.columns }
        ensures { HasEntered rank (handed number area.now result) self.old self.new }
    {
        let handed = HandedBox {
            ticket: self.ticket(rank),
            number,
            area,
        };
        let heard = hand(self.alloc, &mut self.book, rank, handed);
        self.count = one_more(self.count);
        heard
    }

    /// How many boxes are left under the ticket of the rank's last work, and the least of their
    /// floors. A racer's book then decides.
    pub fn state(&mut self, rank: u32, left: u64, floor: i128) -> Result<Reply, Unfinished>
        requires here { rank < length self.old.now.book.ranks }
        requires some { 0 < left }
        ensures entered { HasEntered rank (stated left floor result) self.old self.new }
        ensures small { IfOk result (λ reply. IsSmallCutoff reply.cutoff) }
    {
        let ticket = self.ticket(rank);
        let reply = state(&mut self.book, rank, ticket, left, floor);
        self.waiting.told(left);
        self.count = one_more(self.count);
        reply
    }

    /// A task of the book's problem of which no box is left. It is Stale where it is not of the
    /// rank's ticket. It takes no memory.
    pub fn done(&mut self, rank: u32, task: &Task) -> Heard
        requires here { rank < length self.old.now.book.ranks }
        requires problem { task.now.problem ≡ self.old.now.book.problem }
        requires none { task.now.boxes ≡ [] }
        ensures { HasEnded rank task.now result self.old self.new }
    {
        if !is_of_ticket(&self.book, rank, task) {
            return Heard::Stale;
        }
        let heard = done(&mut self.book, rank, task);
        self.count = one_more(self.count);
        heard
    }

    /// Ends the rank. Returns whether it was alive. Takes no memory.
    pub fn leave(&mut self, rank: u32) -> bool
        requires { rank < length self.old.now.book.ranks }
        ensures lived { result ≡ is_alive (state_at self.old.now.book.ranks rank) }
        ensures done { HasEnteredAlive rank left self.old self.new }
    {
        if !self.book.is_alive(rank) {
            return false;
        }
        self.book.gone(rank);
        self.waiting.left(rank);
        self.count = one_more(self.count);
        true
    }

    /// Returns a snapshot of the nodes held. After an error nothing has changed.
    pub fn snapshot(&mut self, rank: u32) -> Result<Snapshot, AllocError>
        requires { rank < length self.old.now.book.ranks }
        ensures made { IfOk result (IsSnapshotOf self.old self.new.count) }
        ensures ok { OnOk result (HasEntered rank copied self.old self.new) }
        ensures err { OnErr result (self.new ≡ self.old) }
    {
        let snapshot = self.copy()?;
        self.count = one_more(self.count);
        Ok(snapshot)
    }

    /// Who is to be woken behind a call.
    pub(crate) fn woken(&self) -> Woken {
        self.waiting.woken(&self.book)
    }

    /// Whether the box has a column for each of the problem.
    pub(crate) fn is_as_wide(&self, area: &IntBox) -> bool
        ensures { IsTrue result ↔ (length area.now ≡ length self.now.now.book.problem.columns) }
    {
        area.as_slice().len() == self.book.problem().problem().columns().len()
    }

    // Returns a snapshot of the nodes held, with one call more.
    fn copy(&self) -> Result<Snapshot, AllocError>
        ensures { IfOk result (IsSnapshotOf self.now (one_more self.now.count)) }
    {
        let began = self.began.share()?;
        match image_of(self.alloc, &self.book, 1) {
            Ok(image) => Ok(Snapshot::new(began, image, one_more(self.count))),
            Err(error) => {
                drop(began);
                Err(error)
            }
        }
    }

    // The ticket of the last work of a rank.
    fn ticket(&self, rank: u32) -> Ticket
        requires { rank < length self.now.now.book.ranks }
        ensures { result ≡ own_ticket self.now.now rank }
    {
        self.tickets[rank as usize]
    }
}

// One call more, up to the end of the count.
fn one_more(count: u64) -> u64
    ensures { result ≡ one_more count }
{
    count.saturating_add(1)
}
