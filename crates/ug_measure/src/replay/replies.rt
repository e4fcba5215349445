ghost use Rattle.std.specs.Prelude.{◌<◌, length, IfSome};

use crate::replay::reports::report;
use crate::replay::spelling::{push_answer, push_heard, push_holds, push_left, push_orders};
use crate::replay::words::{small, word};
use std::alloc::Global;
use ug_book::Book;

// A rank of the book.
fn rank_of(book: &Book, word: &str) -> Option<u32>
    ensures { IfSome result (λ rank. rank < length book.now.ranks) }
{
    let rank = small(word)?;
    if rank < book.settings().solvers {
        Some(rank)
    } else {
        None
    }
}

fn hear(alloc: Global, text: &mut String, book: &mut Book, words: &[&str]) -> Option<()> {
    let rank = rank_of(book, word(words, 1))?;
    let report = report(alloc, words)?;
    let answer = book.hear(rank, report);
    push_heard(alloc, text, answer).ok()
}

fn join(book: &mut Book, words: &[&str]) -> Option<()> {
    let rank = rank_of(book, word(words, 1))?;
    book.join(rank);
    Some(())
}

fn gone(book: &mut Book, words: &[&str]) -> Option<()> {
    let rank = rank_of(book, word(words, 1))?;
    book.gone(rank);
    Some(())
}

fn decide(alloc: Global, text: &mut String, book: &mut Book) -> Option<()> {
    book.decide().ok()?;
    push_orders(alloc, text, book).ok()
}

// Decides, and looks at no order.
fn settle(book: &mut Book) -> Option<()> {
    book.decide().ok()?;
    while let Some(told) = book.next_order() {
        drop(told);
    }
    Some(())
}

// Adds what the book replies to these words, which may be nothing.
fn push_reply(alloc: Global, text: &mut String, book: &mut Book, words: &[&str]) -> Option<()> {
    match word(words, 0) {
        "join" => join(book, words),
        "gone" => gone(book, words),
        "decide" => decide(alloc, text, book),
        "settle" => settle(book),
        "left" => push_left(alloc, text, book).ok(),
        "hear" => hear(alloc, text, book, words),
        "answer" => push_answer(alloc, text, book).ok(),
        _ => None,
    }
}

/// Adds a line and the book's reply. Returns `None` if the line is not a call.
pub fn reply(
    alloc: Global,
    text: &mut String,
    book: &mut Book,
    line: &str,
    words: &[&str],
) -> Option<()> {
    if line == "held" {
        return push_holds(alloc, text, book).ok();
    }
    text.push_str(line).ok()?;
    text.push_str(" -> ").ok()?;
    let bare = text.len();
    push_reply(alloc, text, book, words)?;
    if text.len() == bare {
        text.clear();
        text.push_str(line).ok()?;
    }
    Some(())
}
