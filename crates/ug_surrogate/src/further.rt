//! A problem with more rows, which follow from its own, from a box and from a cutoff.

ghost use Rattle.std.specs.Bool.{OnFalse};
ghost use Rattle.std.specs.Prelude.{◌≡◌, ◌≤◌, ◌^◌, ◌*◌, ◌+ℤ◌, ◌⊎◌, ◌↔◌, All, None, Some, length, unsigned_abs, IfNone, IfOk, IfSome, IsSome, IsTrue, OnOk};
ghost use Rattle.ug_rows.specs.Sums.{greatest_sum};
ghost use Rattle.ug_problem.specs.Better.{IsSmallCutoff};
ghost use Rattle.ug_problem.specs.Instances.{IsName, IsRow};
ghost use Rattle.ug_problem.specs.Limits.{IsProblem};
ghost use Rattle.ug_surrogate.specs.Complete.{HasNoCutoff, HasNoRow, IsComplete, IsRoom, IsRowOf, IsWithRowOf, IsWithRowsOf, cutoff_for};
ghost use Rattle.ug_surrogate.specs.Stronger.{Follows, IsAtMost, IsCutoffOver, IsFurtherSum, IsPushed, StandFor};

use crate::implying::{ImpliedError, implied};
use crate::in_place::tighten_all;
use crate::multipliers::{Multipliers, are_of};
use std::alloc::{AllocError, Global};
use ug_lists::{Items, Text};
use ug_problem::{Column, Columns, MOST_ROWS, MOST_TERMS, NamedRow, Problem, ProblemError};
use ug_rows::{Extreme, IntBox, Row, sum_of_ends};

// The greatest cutoff.
const MOST_CUTOFF: u128 = 20_000_000_000_000_000_000_000_000_000_000_000_000;

// The name of a row that the file does not have.
#[tactic(auto, using(crate::proofs::Follows::star_is_name))]
fn name(alloc: Global) -> Result<Text, AllocError>
    ensures { IfOk result (λ name. IsName name) }
{
    let mut bytes = Vec::new(alloc);
    bytes.push(b'*')?;
    Ok(Text::from_vec(bytes))
}

// A row with that name.
fn named(alloc: Global, row: Row) -> Result<NamedRow, AllocError>
    ensures row { IfOk result (λ named. named.row ≡ row) }
    ensures name { IfOk result (λ named. IsName named.name) }
{
    match name(alloc) {
        Ok(name) => Ok(NamedRow { name, row }),
        Err(error) => {
            drop(row);
            Err(error)
        }
    }
}

// The greatest value that the objective could have in a box.
#[tactic(auto, using(crate::proofs::Follows::at_most))]
fn greatest_value(problem: &Problem, area: &IntBox) -> i128
    requires { length area.now ≡ length problem.now.columns }
    ensures value { result ≡ greatest_sum problem.now.objective.terms area.now
        +ℤ problem.now.objective.constant }
    ensures most { IsAtMost problem.now area.now result }
    ensures small { unsigned_abs result ≤ 4 * 10 ^ 37 }
{
    let objective = problem.objective();
    let greatest = sum_of_ends(
        Extreme::Greatest,
        objective.terms.as_slice(),
        area.as_slice(),
    );
    greatest + objective.constant
}

// A cutoff over the values of all feasible points of a box.
#[tactic(auto, using(crate::proofs::Follows::over_most))]
fn over_all(problem: &Problem, area: &IntBox) -> Option<i128>
    requires { length area.now ≡ length problem.now.columns }
    ensures over { IfSome result (IsCutoffOver problem.now area.now None) }
    ensures small { IfSome result (λ over. unsigned_abs over ≤ 2 * 10 ^ 37) }
    ensures value { IfSome result (λ over. over ≡ cutoff_for problem.now area.now None) }
    ensures none { IfNone result (HasNoCutoff problem.now area.now None) }
{
    let over = greatest_value(problem, area) + 1;
    if over.unsigned_abs() <= MOST_CUTOFF {
        Some(over)
    } else {
        None
    }
}

// A cutoff over the values of all good points of a box: if there is none, one more than the
// greatest value.
#[tactic(auto, using(crate::proofs::Follows::over_itself))]
fn cutoff_over(problem: &Problem, area: &IntBox, cutoff: Option<i128>) -> Option<i128>
    requires width { length area.now ≡ length problem.now.columns }
    requires small { IsSmallCutoff cutoff }
    ensures over { IfSome result (IsCutoffOver problem.now area.now cutoff) }
    ensures small { IfSome result (λ over. unsigned_abs over ≤ 2 * 10 ^ 37) }
    ensures value { IfSome result (λ over. over ≡ cutoff_for problem.now area.now cutoff) }
    ensures none { IfNone result (HasNoCutoff problem.now area.now cutoff) }
{
    match cutoff {
        Some(cutoff) => Some(cutoff),
        None => over_all(problem, area),
    }
}

// Puts a row behind the others.
fn push(alloc: Global, rows: &mut Vec<NamedRow>, row: Row) -> Result<(), AllocError>
    ensures { OnOk result (IsPushed row rows.old.items rows.new.items) }
{
    let named = named(alloc, row)?;
    rows.push(named)?;
    Ok(())
}

// Whether one more row is within the limits of a problem.
#[tactic(auto, using(crate::proofs::Complete::counted_more))]
fn is_room(problem: &Problem, rows: &[NamedRow], row: &Row) -> bool
    ensures { IsTrue result ↔ IsRoom problem.now rows.now row.now }
{
    let mut terms = problem.objective().terms.len();
    terms = terms.saturating_add(row.terms.len());
    for named in rows {
        terms = terms.saturating_add(named.row.terms.len());
    }
    rows.len() < MOST_ROWS && terms <= MOST_TERMS
}

// The row that multipliers imply under a cutoff, if they are the problem's and it is within the
// limits.
#[tactic(auto, using(crate::proofs::Follows::implied_follows))]
fn implied_row(
    alloc: Global,
    problem: &Problem,
    area: &IntBox,
    cutoff: i128,
    m: &Multipliers,
) -> Result<Option<Row>, AllocError>
    requires cutoff { unsigned_abs cutoff ≤ 2 * 10 ^ 37 }
    ensures further { IfOk result (λ row. IfSome row
        (IsFurtherSum problem.now area.now (Some cutoff))) }
    ensures some { IfOk result (λ row. IfSome row (IsRowOf problem.now m.now cutoff)) }
    ensures none { IfOk result (λ row. IfNone row (HasNoRow problem.now m.now cutoff)) }
{
    if !are_of(problem, m) {
        return Ok(None);
    }
    match implied(alloc, problem, m, cutoff) {
        Ok(row) => Ok(Some(row)),
        Err(error) => match error {
            ImpliedError::Memory => Err(AllocError),
            _ => Ok(None),
        },
    }
}

// Puts the row that multipliers imply behind the others, if there is one and it is within the
// limits of a problem.
#[tactic(auto, using(crate::proofs::Follows::more_pushed))]
fn push_implied(
    alloc: Global,
    rows: &mut Vec<NamedRow>,
    problem: &Problem,
    area: &IntBox,
    cutoff: i128,
    m: &Multipliers,
) -> Result<(), AllocError>
    requires cutoff { unsigned_abs cutoff ≤ 2 * 10 ^ 37 }
    requires stand { StandFor problem.now area.now (Some cutoff) rows.old.items }
    ensures stand { OnOk result (StandFor problem.now area.now (Some cutoff) rows.new.items) }
    ensures added { OnOk result
        (IsWithRowOf problem.now m.now cutoff rows.old.items rows.new.items) }
{
    let Some(row) = implied_row(alloc, problem, area, cutoff, m)? else {
        return Ok(());
    };
    if is_room(problem, rows.as_slice(), &row) {
        push(alloc, rows, row)
    } else {
        drop(row);
        Ok(())
    }
}

// Puts the rows behind the others that lists of multipliers imply.
fn push_all_implied(
    alloc: Global,
    rows: &mut Vec<NamedRow>,
    problem: &Problem,
    area: &IntBox,
    cutoff: i128,
    lists: &[Multipliers],
) -> Result<(), AllocError>
    requires cutoff { unsigned_abs cutoff ≤ 2 * 10 ^ 37 }
    requires stand { StandFor problem.now area.now (Some cutoff) rows.old.items }
    ensures stand { OnOk result (StandFor problem.now area.now (Some cutoff) rows.new.items) }
    ensures added { OnOk result
        (IsWithRowsOf problem.now lists.now cutoff rows.old.items rows.new.items) }
{
    for m in lists {
        push_implied(alloc, rows, problem, area, cutoff, m)?;
    }
    Ok(())
}

// Rounds the sides of the rows, and puts those behind them that the lists imply under the cutoff.
// Returns whether anything changed.
fn strengthen(
    alloc: Global,
    rows: &mut Vec<NamedRow>,
    problem: &Problem,
    area: &IntBox,
    cutoff: i128,
    lists: &[Multipliers],
) -> Result<bool, AllocError>
    requires width { length area.now ≡ length problem.now.columns }
    requires cutoff { unsigned_abs cutoff ≤ 2 * 10 ^ 37 }
    requires own { rows.old.items ≡ problem.now.rows }
    ensures stand { IfOk result (λ _. StandFor problem.now area.now (Some cutoff) rows.new.items) }
    ensures complete { IfOk result (λ _. IsComplete problem.now area.now (Some cutoff) lists.now
        rows.new.items) }
    ensures same { IfOk result (λ is_changed. OnFalse is_changed
        (rows.new.items ≡ rows.old.items)) }
{
    let own = rows.len();
    let is_tighter = tighten_all(alloc, rows, problem, area)?;
    push_all_implied(alloc, rows, problem, area, cutoff, lists)?;
    Ok(is_tighter || own < rows.len())
}

fn copied_columns(alloc: Global, columns: &[Column]) -> Result<Columns, AllocError>
    ensures { IfOk result (λ copy. copy ≡ columns.now) }
{
    let copies = columns.to_vec(alloc)?;
    Ok(Items::from_vec(copies))
}

fn copied_rows(alloc: Global, rows: &[NamedRow]) -> Result<Vec<NamedRow>, AllocError>
    ensures { IfOk result (λ copy. copy.items ≡ rows.now) }
{
    let copies = rows.to_vec(alloc)?;
    Ok(copies)
}

// The problem's rows.
#[tactic(auto, using(crate::proofs::Follows::own_stand))]
fn own_rows(alloc: Global, problem: &Problem, area: &IntBox) -> Result<Vec<NamedRow>, AllocError>
    ensures stand { IfOk result (λ rows. StandFor problem.now area.now None rows.items) }
    ensures own { IfOk result (λ rows. rows.items ≡ problem.now.rows) }
    ensures problem { IsProblem problem.now }
{
    copied_rows(alloc, problem.rows())
}

// The rows that stand for the problem's own, if they are others.
fn all_rows(
    alloc: Global,
    problem: &Problem,
    area: &IntBox,
    cutoff: i128,
    lists: &[Multipliers],
) -> Result<Option<Vec<NamedRow>>, AllocError>
    requires width { length area.now ≡ length problem.now.columns }
    requires cutoff { unsigned_abs cutoff ≤ 2 * 10 ^ 37 }
    ensures rows { IfOk result (λ made. IfSome made (λ rows.
        StandFor problem.now area.now (Some cutoff) rows.items)) }
    ensures complete { IfOk result (λ made. IfSome made (λ rows.
        IsComplete problem.now area.now (Some cutoff) lists.now rows.items)) }
    ensures unchanged { IfOk result (λ made. IfNone made
        (IsComplete problem.now area.now (Some cutoff) lists.now problem.now.rows)) }
    ensures problem { IsProblem problem.now }
{
    let mut rows = own_rows(alloc, problem, area)?;
    match strengthen(alloc, &mut rows, problem, area, cutoff, lists) {
        Ok(true) => Ok(Some(rows)),
        Ok(false) => {
            drop(rows);
            Ok(None)
        }
        Err(error) => {
            drop(rows);
            Err(error)
        }
    }
}

// The problem with these rows in the place of its own. They are within the limits, so it fails only
// if out of memory.
#[tactic(auto, using(crate::proofs::Follows::formed_with))]
fn with_rows(
    alloc: Global,
    problem: &Problem,
    rows: Vec<NamedRow>,
) -> Result<Option<Problem>, AllocError>
    requires formed { All (IsRow (length problem.now.columns)) rows.items }
    requires within { IsProblem (record problem.now { rows = rows.items }) }
    ensures made { IfOk result (λ made. IfSome made (λ s. s
        ≡ record problem.now { rows = rows.items })) }
    ensures some { IfOk result (λ made. IsSome made) }
{
    let columns = match copied_columns(alloc, problem.columns()) {
        Ok(columns) => columns,
        Err(error) => {
            drop(rows);
            return Err(error);
        }
    };
    let objective = match problem.objective().clone() {
        Ok(objective) => objective,
        Err(error) => {
            drop(rows);
            drop(columns);
            return Err(error);
        }
    };
    match Problem::new(alloc, columns, Items::from_vec(rows), objective) {
        Ok(problem) => Ok(Some(problem)),
        Err(ProblemError::Memory) => Err(AllocError),
        Err(_) => Ok(None),
    }
}

/// The problem with stronger rows, if there are any: the sides of its own rows rounded over the
/// box, each in its place, and behind them the rows that these lists of multipliers imply under the
/// cutoff, as far as the limits of a problem allow. Without a cutoff one more than the greatest
/// value in the box is used. Returns `None` only if the rows would stay as they are, or if that
/// value is too large for a cutoff.
pub fn stronger(
    alloc: Global,
    problem: &Problem,
    area: &IntBox,
    cutoff: Option<i128>,
    lists: &[Multipliers],
) -> Result<Option<Problem>, AllocError>
    requires width { length area.now ≡ length problem.now.columns }
    requires cutoff { IsSmallCutoff cutoff }
    ensures follows { IfOk result (λ made. IfSome made (Follows problem.now area.now cutoff)) }
    ensures complete { IfOk result (λ made. IfSome made (λ s.
        IsComplete problem.now area.now cutoff lists.now s.rows)) }
    ensures unchanged { IfOk result (λ made. IfNone made
        (HasNoCutoff problem.now area.now cutoff
        ⊎ IsComplete problem.now area.now cutoff lists.now problem.now.rows)) }
{
    let Some(over) = cutoff_over(problem, area, cutoff) else {
        return Ok(None);
    };
    match all_rows(alloc, problem, area, over, lists)? {
        Some(rows) => with_rows(alloc, problem, rows),
        None => Ok(None),
    }
}
