mod replies;
mod reports;
mod spelling;
mod start;
mod words;

use crate::answers::Answers;
use crate::driver::drive;
use crate::replay::replies::reply;
use crate::replay::start::begin;
use crate::replay::words::{count, split, word};
use std::alloc::Global;
use std::io::{Input, Print};
use std::{io, mem};
use ug_book::Book;

// Adds the line with the reply to its words. Returns `None` if it is not a call that can be made
// now.
fn push_reply(
    alloc: Global,
    text: &mut String,
    book: &mut Option<Book>,
    line: &str,
    words: &[&str],
) -> Option<()> {
    match word(words, 0) {
        "schedule" => {
            drop(mem::replace(book, begin(alloc, words)));
            text.push_str(line).ok()
        }
        "messages" => push_driven(alloc, text, line, count(word(words, 1))?),
        _ => reply(alloc, text, book.as_mut()?, line, words),
    }
}

// Adds the line with what books of 256 ranks answer to this many made messages.
fn push_driven(alloc: Global, text: &mut String, line: &str, messages: u64) -> Option<()> {
    let Answers {
        kept,
        stale,
        other,
        ..
    } = drive(alloc, messages).ok()?;
    let driven = format!(in alloc; "{line} -> kept {kept}, stale {stale}, other {other}").ok()?;
    let pushed = text.push_str(&driven);
    drop(driven);
    pushed.ok()
}

// Adds the result of a line.
fn push_replayed(
    alloc: Global,
    text: &mut String,
    book: &mut Option<Book>,
    line: &str,
) -> Option<()> {
    if line.is_empty() || line.starts_with("#") {
        return text.push_str(line).ok();
    }
    let words = split(alloc, line, ' ').ok()?;
    let pushed = push_reply(alloc, text, book, line, &words);
    drop(words);
    pushed
}

fn print_line<R: Print>(
    rt: &R,
    alloc: Global,
    book: &mut Option<Book>,
    line: &str,
) -> io::Result<()> {
    let mut text = String::new(alloc);
    let printed = match push_replayed(alloc, &mut text, book, line) {
        Some(()) => println!(rt; "{text}"),
        None => println!(rt; "cannot be replayed: {line}"),
    };
    drop(text);
    printed
}

fn replay_lines<R: Input + Print>(
    rt: &R,
    alloc: Global,
    book: &mut Option<Book>,
) -> io::Result<()> {
    for line in rt.lines(alloc) {
        let line = line?;
        let printed = print_line(rt, alloc, book, &line);
        drop(line);
        printed?;
    }
    Ok(())
}

/// Replays the schedules of standard input: each line is a call of a coordinator's book, and is
/// written with what the book replies.
pub fn replay<R: Input + Print + AllocGlobal>(rt: &R) -> io::Result<()> {
    let mut book = None;
    let replayed = replay_lines(rt, rt.alloc(), &mut book);
    drop(book);
    replayed
}
