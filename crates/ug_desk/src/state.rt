ghost use Rattle.std.specs.Prelude.{◌≡◌, ◌↔◌, ◌<◌, length, IfErr, IfOk, IsTrue, MatchBool, OnOk, Some};
ghost use Rattle.ug_problem.specs.Better.{IsSmallCutoff};
ghost use Rattle.ug_ranks.specs.States.{state_at};
ghost use Rattle.ug_rules.specs.Books.{IsSoundBook};
ghost use Rattle.ug_ranks.specs.Looks.{is_racing, ticket_at};
ghost use Rattle.ug_book.specs.Views.{IsSameRun};
ghost use Rattle.ug_desk.specs.Reports.{HasHalted, HasMovedOn, HasNotStated, HasNoted, HasStated, IsGoingOn, IsReply, IsStop};

use crate::answer::is_spent;
use crate::decide::decide;
use ug_book::{Book, Unfinished};
use ug_frames::Report;
use ug_nodes::Ticket;
use ug_worker::Reply;

/// Reports what is left under a ticket of a rank. If the rank races, the book then decides.
pub fn state(
    book: &mut Book,
    rank: u32,
    ticket: Ticket,
    left: u64,
    floor: i128,
) -> Result<Reply, Unfinished>
    requires there { rank < length book.old.ranks }
    requires some { 0 < left }
    ensures ok { IfOk result (λ reply. HasStated rank ticket left floor reply book.old book.new) }
    ensures small { IfOk result (λ reply. IsSmallCutoff reply.cutoff) }
    ensures err { IfErr result (λ e. HasNotStated rank ticket left floor e.stood
        book.old book.new) }
    ensures same { IsSameRun book.old book.new }
    ensures sound { IsSoundBook book.old → IsSoundBook book.new }
{
    note(book, rank, ticket, left, floor);
    match move_on(book, rank) {
        Ok(()) => Ok(reply(book, rank, ticket)),
        Err(unfinished) => Err(unfinished),
    }
}

// Gives the report to the book.
fn note(book: &mut Book, rank: u32, ticket: Ticket, left: u64, floor: i128)
    requires there { rank < length book.old.ranks }
    requires some { 0 < left }
    ensures noted { HasNoted rank ticket left floor book.old book.new }
    ensures same { IsSameRun book.old book.new }
    ensures sound { IsSoundBook book.old → IsSoundBook book.new }
{
    let _answer = book.hear(
        rank,
        Report::State {
            ticket,
            open: left,
            floor,
        },
    );
}

// Makes a decision if the rank races.
fn move_on(book: &mut Book, rank: u32) -> Result<(), Unfinished>
    requires { rank < length book.old.ranks }
    ensures ok { OnOk result (HasMovedOn rank book.old book.new) }
    ensures err { IfErr result (λ e. HasHalted rank e.stood book.old book.new) }
    ensures same { IsSameRun book.old book.new }
    ensures sound { IsSoundBook book.old → IsSoundBook book.new }
{
    if is_racing(book, rank) {
        decide(book)
    } else {
        Ok(())
    }
}

// Whether a rank races.
fn is_racing(book: &Book, rank: u32) -> bool
    requires { rank < length book.now.ranks }
    ensures { result ≡ is_racing (state_at book.now.ranks rank) }
{
    match book.current(rank) {
        Some(work) => work.is_racing,
        None => false,
    }
}

// Returns the reply to a rank that works under a ticket.
fn reply(book: &Book, rank: u32, ticket: Ticket) -> Reply
    requires { rank < length book.now.ranks }
    ensures replied { IsReply book.now rank ticket result }
    ensures small { IsSmallCutoff result.cutoff }
{
    Reply {
        cutoff: book.cutoff(),
        collect: book.asked(rank),
        stop: is_stop(book, rank, ticket),
        racing: is_racing(book, rank),
    }
}

// Has the ticket ended, or is the limit of reports reached?
fn is_stop(book: &Book, rank: u32, ticket: Ticket) -> bool
    requires { rank < length book.now.ranks }
    ensures { MatchBool result (IsStop book.now rank ticket) (IsGoingOn book.now rank ticket) }
{
    !is_current(book, rank, ticket) || is_spent(book)
}

// Whether the ticket is the rank's current one.
fn is_current(book: &Book, rank: u32, ticket: Ticket) -> bool
    requires { rank < length book.now.ranks }
    ensures { IsTrue result ↔ (ticket_at (state_at book.now.ranks rank) ≡ Some ticket) }
{
    match book.current(rank) {
        Some(work) => work.ticket == ticket,
        None => false,
    }
}
