ghost use Rattle.std.specs.Prelude.{◌≡◌, ◌+◌, ◌≤◌, ◌^◌, [], length};
ghost use Rattle.ug_fields.specs.Reading.{Gives};
ghost use Rattle.ug_records.specs.Reading.{column_at, place_at, factor_at, term_at, terms_at, terms_from, columns_at, row_at};

use std::alloc::Global;
use ug_fields::{Fault, bound_at, count_at, name_at, number_at, optional_at, unsigned_at};
use ug_lists::{Items, Text};
use ug_problem::{Column, Columns, NamedRow};
use ug_rows::{Row, Term, Terms};

// A column: its name and its bounds.
#[tactic(auto, unfolding(crate::specs::Reading::column_at))]
fn column_at(alloc: Global, bytes: &[u8]) -> Result<(Column, &[u8]), Fault>
    ensures { Gives (λ x. (x.0, x.1.now)) result (column_at bytes.now) }
{
    let (name, rest) = name_at(bytes)?;
    let (low, rest) = bound_at(rest)?;
    let (high, rest) = bound_at(rest)?;
    match Text::from_slice(alloc, name) {
        Ok(name) => Ok((Column { name, low, high }, rest)),
        Err(error) => Err(Fault::from(error)),
    }
}

/// This many columns, which are put into an empty list.
pub fn columns_at<'a>(
    alloc: Global,
    bytes: &'a [u8],
    count: u32,
    columns: &mut Columns,
) -> Result<&'a [u8], Fault>
    requires { columns.old ≡ [] }
    ensures { Gives (λ rest. ((columns.new, tt), rest.now)) result (columns_at count bytes.now) }
{
    let mut rest = bytes;
    for _ in 0..count {
        let (column, after) = column_at(alloc, rest)?;
        columns.push(column)?;
        rest = after;
    }
    Ok(rest)
}

// The column of a term.
#[tactic(auto, unfolding(crate::specs::Reading::place_at))]
fn place_at(bytes: &[u8], width: u32, least: u64) -> Result<(u32, &[u8]), Fault>
    ensures { Gives (λ x. (x.0, x.1.now)) result (place_at width least bytes.now) }
{
    let (column, rest) = unsigned_at(bytes)?;
    if least <= u64::from(column) && column < width {
        Ok((column, rest))
    } else {
        Err(Fault::Bad(bytes.len()))
    }
}

// A coefficient: a number that is not 0, of at most 10^24.
#[tactic(auto, unfolding(crate::specs::Reading::factor_at))]
fn factor_at(bytes: &[u8]) -> Result<(i128, &[u8]), Fault>
    ensures { Gives (λ x. (x.0, x.1.now)) result (factor_at bytes.now) }
{
    let (factor, rest) = number_at(bytes, MOST_FACTOR)?;
    if 1 <= factor.unsigned_abs() {
        Ok((factor, rest))
    } else {
        Err(Fault::Bad(bytes.len()))
    }
}

const MOST_FACTOR: u128 = 1_000_000_000_000_000_000_000_000;

// A term: its column, behind that of the term before it, and its coefficient.
#[tactic(auto, unfolding(crate::specs::Reading::term_at))]
fn term_at(bytes: &[u8], width: u32, least: u64) -> Result<(Term, &[u8]), Fault>
    ensures { Gives (λ x. (x.0, x.1.now)) result (term_at width least bytes.now) }
{
    let (column, rest) = place_at(bytes, width, least)?;
    let (factor, rest) = factor_at(rest)?;
    Ok((Term { column, factor }, rest))
}

// This many terms, which are put into an empty list, and the least column of another.
fn terms_from<'a>(
    bytes: &'a [u8],
    width: u32,
    count: u32,
    terms: &mut Terms,
) -> Result<(u64, &'a [u8]), Fault>
    requires { terms.old ≡ [] }
    ensures { Gives (λ x. ((terms.new, x.0), x.1.now)) result (terms_from width count bytes.now) }
{
    let mut least = 0;
    let mut rest = bytes;
    for _ in 0..count {
        let (term, after) = term_at(rest, width, least)?;
        terms.push(term)?;
        least = u64::from(term.column) + 1;
        rest = after;
    }
    Ok((least, rest))
}

/// How many terms there are, of which this many may be, and they.
#[tactic(auto, unfolding(crate::specs::Reading::terms_at))]
pub fn terms_at(alloc: Global, bytes: &[u8], width: u32, room: u64) -> Result<(Terms, &[u8]), Fault>
    ensures { Gives (λ x. (x.0, x.1.now)) result (terms_at width room bytes.now) }
{
    let (count, rest) = count_at(bytes, room)?;
    let mut terms = Items::new(alloc);
    match terms_from(rest, width, count, &mut terms) {
        Ok((_, rest)) => Ok((terms, rest)),
        Err(fault) => {
            drop(terms);
            Err(fault)
        }
    }
}

/// The greatest side, and the greatest constant.
pub const MOST_SIDE: u128 = 10_000_000_000_000_000_000_000_000_000_000_000_000;

/// A row: its name, its sides and its terms.
#[tactic(auto, unfolding(crate::specs::Reading::row_at))]
pub fn row_at(
    alloc: Global,
    bytes: &[u8],
    width: u32,
    room: u64,
) -> Result<(NamedRow, &[u8]), Fault>
    ensures { Gives (λ x. (x.0, x.1.now)) result (row_at width room bytes.now) }
{
    let (name, rest) = name_at(bytes)?;
    let (low, rest) = optional_at(rest, MOST_SIDE)?;
    let (high, rest) = optional_at(rest, MOST_SIDE)?;
    let (terms, rest) = terms_at(alloc, rest, width, room)?;
    let row = Row { terms, low, high };
    match Text::from_slice(alloc, name) {
        Ok(name) => Ok((NamedRow { name, row }, rest)),
        Err(error) => {
            drop(row);
            Err(Fault::from(error))
        }
    }
}
