use std::alloc::{AllocError, Global};
use ug_book::{Book, Opening};
use ug_branch::Base;
use ug_mps::read;
use ug_problem::Shared;
use ug_rules::Settings;

/// How many ranks there are.
pub const RANKS: u32 = 256;

// 100 columns from 0 to 7, whose sum is minimised.
fn text(alloc: Global) -> Result<String, AllocError> {
    let mut text = String::new(alloc);
    match push_all(alloc, &mut text) {
        Ok(()) => Ok(text),
        Err(error) => {
            drop(text);
            Err(error)
        }
    }
}

fn push_all(alloc: Global, text: &mut String) -> Result<(), AllocError> {
    text.push_str("ROWS\n N Z\nCOLUMNS\n M 'MARKER' 'INTORG'\n")?;
    push_lines(alloc, text, " ", "Z 1")?;
    text.push_str("BOUNDS\n")?;
    push_lines(alloc, text, " UP B ", "7")?;
    text.push_str("ENDATA\n")
}

// A line for each column.
fn push_lines(
    alloc: Global,
    text: &mut String,
    before: &str,
    after: &str,
) -> Result<(), AllocError> {
    for column in 0..100u32 {
        push_line(text, format!(in alloc; "{before}C{column} {after}\n")?)?;
    }
    Ok(())
}

fn push_line(text: &mut String, line: String) -> Result<(), AllocError> {
    let pushed = text.push_str(&line);
    drop(line);
    pushed
}

/// The problem of all books.
pub fn problem(alloc: Global) -> Result<Shared, AllocError> {
    let text = text(alloc)?;
    let read = read(alloc, text.as_bytes(), None);
    drop(text);
    match read {
        Ok(problem) => Shared::own(problem).into_counted(alloc),
        Err(error) => {
            drop(error);
            Err(AllocError)
        }
    }
}

/// A book of the root's box.
pub fn begin(alloc: Global, problem: &Shared) -> Result<Book, AllocError> {
    let settings = Settings {
        solvers: RANKS,
        racing: false,
        base: Base::Bound,
        low: 64,
        high: 512,
        every: 1,
        limit: u64::MAX,
        winner: 20,
        gap: 0,
    };
    let opening = Opening::new(alloc, problem.share()?, 1, settings)?;
    let book = Book::new(alloc, &opening);
    drop(opening);
    book
}
