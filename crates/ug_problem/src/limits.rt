ghost use Rattle.std.specs.Prelude.{◌≢◌, ◌≤◌, ◌^◌, ◌↔◌, length, sum_by, IsTrue, IsNone, OnOk, IfErr, IfSome, unsigned_abs};
ghost use Rattle.ug_problem.specs.declared.column.NamedRow.{NamedRow};
ghost use Rattle.ug_problem.specs.Instances.{IsFormed, instance_of};
ghost use Rattle.ug_problem.specs.Limits.{FitsCounts, AreSmall, IsNarrow, IsNarrowObjective, FirstNarrow, IsFirstWide, IsProblem, IsRefused};

use crate::column::{Column, NamedRow};
use crate::error::ProblemError;
use ug_rows::{Objective, Row, Term};

/// The columns that a problem may have.
pub const MOST_COLUMNS: usize = 10_000;

/// The rows that a problem may have.
pub const MOST_ROWS: usize = 10_000;

/// The terms that a problem may have in all, the objective's among them.
pub const MOST_TERMS: usize = 1_000_000;

/// Largest absolute value of a coefficient.
pub const MOST_FACTOR: u128 = 1_000_000_000_000_000_000_000_000;

/// The greatest absolute value of a row's side and of the objective's constant.
pub const MOST_SIDE: u128 = 10_000_000_000_000_000_000_000_000_000_000_000_000;

// Whether the rows have at most `most` terms in all.
fn have_at_most(rows: &[NamedRow], most: usize) -> bool
    ensures { IsTrue result ↔ (sum_by (λ (row : NamedRow). length row.row.terms) rows.now ≤ most) }
{
    let mut left = most;
    for row in rows {
        let count = row.row.terms.len();
        if left < count {
            return false;
        }
        left -= count;
    }
    true
}

// Whether there are few enough columns, rows and terms.
fn fits_counts(columns: &[Column], rows: &[NamedRow], objective: &Objective) -> bool
    ensures { IsTrue result ↔ FitsCounts (instance_of columns.now rows.now objective.now) }
{
    let terms = objective.terms.len();
    columns.len() <= MOST_COLUMNS
        && rows.len() <= MOST_ROWS
        && terms <= MOST_TERMS
        && have_at_most(rows, MOST_TERMS - terms)
}

fn are_small(terms: &[Term]) -> bool
    ensures { IsTrue result ↔ AreSmall terms.now }
{
    terms
        .iter()
        .all(|term| term.factor.unsigned_abs() <= MOST_FACTOR)
}

fn is_narrow_side(side: Option<i128>) -> bool
    ensures { IsTrue result ↔ IfSome side (λ bound. unsigned_abs bound ≤ 10 ^ 37) }
{
    match side {
        Some(bound) => bound.unsigned_abs() <= MOST_SIDE,
        None => true,
    }
}

fn is_narrow(row: &Row) -> bool
    ensures { IsTrue result ↔ IsNarrow row.now }
{
    are_small(row.terms.as_slice()) && is_narrow_side(row.low) && is_narrow_side(row.high)
}

fn is_narrow_objective(objective: &Objective) -> bool
    ensures { IsTrue result ↔ IsNarrowObjective objective.now }
{
    are_small(objective.terms.as_slice()) && objective.constant.unsigned_abs() <= MOST_SIDE
}

// The first row that is not narrow.
fn first_wide(rows: &[NamedRow]) -> Option<u32>
    requires { length rows.now ≤ 10 ^ 4 }
    ensures none { IsNone result → FirstNarrow rows.now (length rows.now) }
    ensures some { IfSome result (IsFirstWide rows.now) }
{
    for (r, named) in rows.iter().enumerate() {
        if !is_narrow(&named.row) {
            return Some(r as u32);
        }
    }
    None
}

// The first limit that the parts of a problem pass: their counts, then a row, then the objective.
pub fn check_limits(
    columns: &[Column],
    rows: &[NamedRow],
    objective: &Objective,
) -> Result<(), ProblemError>
    requires { IsFormed (instance_of columns.now rows.now objective.now) }
    ensures ok { OnOk result (IsProblem (instance_of columns.now rows.now objective.now)) }
    ensures err { IfErr result (IsRefused (instance_of columns.now rows.now objective.now)) }
    ensures memory { result ≢ Err ProblemError.Memory }
{
    if !fits_counts(columns, rows, objective) {
        return Err(ProblemError::TooMany);
    }
    if let Some(row) = first_wide(rows) {
        return Err(ProblemError::TooWide { row: Some(row) });
    }
    if !is_narrow_objective(objective) {
        return Err(ProblemError::TooWide { row: None });
    }
    Ok(())
}
