ghost use Rattle.std.specs.Prelude.{◌≡◌, IfOk, codes};
ghost use Rattle.ug_print.specs.Limited.{IsLeftLine, IsOpenLine, IsStrandedLine, best_lines, left_line};

use crate::best::{best_lines, best_word};
use crate::words::{push_number, push_word};
use std::alloc::{AllocError, Global};
use ug_book::Book;

/// The line of a book that continues: the value of its incumbent, and how many primitive nodes it
/// has.
pub fn open_line(alloc: Global, book: &Book) -> Result<Vec<u8>, AllocError>
    ensures { IfOk result (λ text. IsOpenLine book.now text.items) }
{
    left_line(alloc, book, b"open")
}

/// The line of a book all whose ranks are lost, with the same numbers.
pub fn stranded_line(alloc: Global, book: &Book) -> Result<Vec<u8>, AllocError>
    ensures { IfOk result (λ text. IsStrandedLine book.now text.items) }
{
    left_line(alloc, book, b"stranded")
}

/// The lines of the columns of its incumbent that are not 0; none where it has none.
pub fn incumbent_lines(alloc: Global, book: &Book) -> Result<Vec<u8>, AllocError>
    ensures { IfOk result (λ text. text.items ≡ best_lines book.now.problem book.now.best) }
{
    let problem = book.problem();
    best_lines(alloc, problem.problem(), book.best())
}

// The line of this name of a book that has nodes left.
fn left_line(alloc: Global, book: &Book, name: &[u8]) -> Result<Vec<u8>, AllocError>
    ensures { IfOk result (λ text. IsLeftLine name.now book.now text.items) }
{
    let nodes = book.primitive()?;
    let problem = book.problem();
    let best = best_word(alloc, problem.problem(), book.best())?;
    left_words(alloc, name, best.as_slice(), nodes.len())
}

// The line of a name, a best value and a count of nodes.
fn left_words(alloc: Global, name: &[u8], best: &[u8], count: usize) -> Result<Vec<u8>, AllocError>
    ensures { IfOk result (λ text. text.items ≡ left_line name.now best.now count) }
{
    let mut text = Vec::from_slice(alloc, name)?;
    push_word(&mut text, best)?;
    push_number(&mut text, alloc, count as u64)?;
    text.push(b'\n')?;
    Ok(text)
}
