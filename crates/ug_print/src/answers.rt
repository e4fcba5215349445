ghost use Rattle.std.specs.Prelude.{◌≡◌, [], ◌++◌, length, IfOk, OnOk};
ghost use Rattle.ug_problem.specs.Right.{answer_of};
ghost use Rattle.ug_rules.specs.State.{held_nodes};
ghost use Rattle.ug_print.specs.Answers.{AreAnswerLines, ArePointLines, IsAnswerLine, IsValueLine, claim_line, claim_under, value_lines, value_part};

use crate::words::{push_named_signed, push_number, push_word};
use std::alloc::{AllocError, Global};
use ug_book::{Answered, Book};
use ug_problem::{Column, Problem};
use ug_rows::Point;

/// The lines of what a book answers that holds no node, under a gap in the units that are printed:
/// `optimal` or `within` the gap, the value, and the columns that are not 0; or `infeasible`.
pub fn answer_lines(alloc: Global, book: &Book, gap: u64) -> Result<Vec<u8>, AllocError>
    requires { held_nodes book.now ≡ [] }
    ensures { IfOk result (λ text.
        AreAnswerLines gap book.now.problem (answer_of book.now.best) text.items) }
{
    match book.answer() {
        Some(Answered::Optimal(point)) => {
            point_lines(alloc, book.problem().problem(), point, gap)
        }
        Some(Answered::Infeasible) => Vec::from_slice(alloc, b"infeasible\n"),
        None => unreachable!(),
    }
}

/// The first line of what a book answers that holds no node: `optimal` and the value; or
/// `infeasible`.
pub fn answer_line(alloc: Global, book: &Book) -> Result<Vec<u8>, AllocError>
    requires { held_nodes book.now ≡ [] }
    ensures { IfOk result (λ text.
        IsAnswerLine 0 book.now.problem (answer_of book.now.best) text.items) }
{
    match book.answer() {
        Some(Answered::Optimal(point)) => value_line(alloc, book.problem().problem(), point),
        Some(Answered::Infeasible) => Vec::from_slice(alloc, b"infeasible\n"),
        None => unreachable!(),
    }
}

// The first line of a point, without a gap.
fn value_line(alloc: Global, problem: &Problem, point: &Point) -> Result<Vec<u8>, AllocError>
    requires { length point.now ≡ length problem.now.columns }
    ensures { IfOk result (λ text. IsValueLine 0 problem.now point.now text.items) }
{
    let value = problem.print_value(alloc, problem.value(point))?;
    claim_line(alloc, 0, value.as_slice())
}

// The lines of a point under a gap.
fn point_lines(
    alloc: Global,
    problem: &Problem,
    point: &Point,
    gap: u64,
) -> Result<Vec<u8>, AllocError>
    requires { length point.now ≡ length problem.now.columns }
    ensures { IfOk result (λ text. ArePointLines gap problem.now point.now text.items) }
{
    let value = problem.print_value(alloc, problem.value(point))?;
    let mut text = claim_line(alloc, gap, value.as_slice())?;
    push_value_lines(&mut text, alloc, problem.columns(), point.as_slice())?;
    Ok(text)
}

// The line of what is claimed and of a value.
fn claim_line(alloc: Global, gap: u64, value: &[u8]) -> Result<Vec<u8>, AllocError>
    ensures { IfOk result (λ text. text.items ≡ claim_line gap value.now) }
{
    let mut text = claim(alloc, gap)?;
    push_word(&mut text, value)?;
    text.push(b'\n')?;
    Ok(text)
}

// Returns the claim under a gap.
fn claim(alloc: Global, gap: u64) -> Result<Vec<u8>, AllocError>
    ensures { IfOk result (λ text. text.items ≡ claim_under gap) }
{
    if gap == 0 {
        return Vec::from_slice(alloc, b"optimal");
    }
    let mut text = Vec::from_slice(alloc, b"within")?;
    push_number(&mut text, alloc, gap)?;
    Ok(text)
}

/// Adds a line for each column whose value is not 0.
#[tactic(auto, using(crate::proofs::ValueLines::value_lines_more))]
pub fn push_value_lines(
    text: &mut Vec<u8>,
    alloc: Global,
    columns: &[Column],
    values: &[i32],
) -> Result<(), AllocError>
    requires { length values.now ≡ length columns.now }
    ensures { OnOk result (text.new.items ≡ text.old.items ++ value_lines columns.now values.now) }
{
    for i in 0..columns.len() {
        push_value_line(text, alloc, &columns[i], values[i])?;
    }
    Ok(())
}

// Adds the line of a column, if its value is not 0.
fn push_value_line(
    text: &mut Vec<u8>,
    alloc: Global,
    column: &Column,
    value: i32,
) -> Result<(), AllocError>
    ensures { OnOk result (text.new.items ≡ text.old.items ++ value_part column.now value) }
{
    if value == 0 {
        return Ok(());
    }
    push_named_signed(text, alloc, column.name.as_slice(), i128::from(value))
}
