//! The rows of a problem with their sides rounded over a box, each in its own place.

ghost use Rattle.std.specs.Bool.{OnFalse, OnTrue};
ghost use Rattle.std.specs.Prelude.{◌≡◌, ◌<◌, ◌≤◌, ℕ, [], negsuc, None, Some, if◌then◌else◌, length, IfNone, IfOk, IfSome};
ghost use Rattle.ug_problem.specs.Instances.{row_at};
ghost use Rattle.ug_problem.specs.Limits.{IsProblem};
ghost use Rattle.ug_surrogate.specs.Complete.{AreTightened, IsLeftAt, IsTightened, IsTightenedAt, is_within_limit, row_left, with_sides};
ghost use Rattle.ug_surrogate.specs.Rounding.{IsCommonDivisor, IsNarrower, LosesNone, rounded_by};
ghost use Rattle.ug_surrogate.specs.Stronger.{IsInPlaceOf, IsPutAt, StandFor};

use crate::rounding::{Narrowed, Sides, rounded};
use std::alloc::{AllocError, Global};
use std::mem;
use ug_lists::Items;
use ug_problem::{MOST_SIDE, NamedRow, Problem};
use ug_rows::{IntBox, Row};

// What rounding leaves of the sides of row r over a box.
#[tactic(auto, using(crate::proofs::Follows::linear_at, crate::proofs::Follows::sides_small))]
fn rounded_at(problem: &Problem, area: &IntBox, r: usize) -> Narrowed
    requires there { r < length problem.now.rows }
    requires width { length area.now ≡ length problem.now.columns }
    ensures value { (g : ℕ) × IsCommonDivisor (row_at problem.now r).terms area.now g
        × (result ≡ rounded_by g (row_at problem.now r) area.now) }
    ensures kept { LosesNone (row_at problem.now r) area.now result }
    ensures narrower { IsNarrower (row_at problem.now r) result }
    ensures problem { IsProblem problem.now }
{
    let rows = problem.rows();
    rounded(&rows[r].row, area)
}

// Whether a side is within the limits of a problem, if it is there.
fn is_small(side: Option<i128>) -> bool
    ensures { result ≡ is_within_limit side }
{
    match side {
        Some(side) => side.unsigned_abs() <= MOST_SIDE,
        None => true,
    }
}

// Whether these sides are other than those of row r, and within the limits of a problem.
#[tactic(auto, using(crate::proofs::Complete::left_with_own))]
fn are_new_sides(problem: &Problem, r: usize, sides: Sides) -> bool
    requires { r < length problem.now.rows }
    ensures { row_left (row_at problem.now r) (Narrowed.To sides)
        ≡ (if result then with_sides (row_at problem.now r) sides else row_at problem.now r) }
{
    let row = &problem.rows()[r].row;
    let is_same = sides.low == row.low && sides.high == row.high;
    !is_same && is_small(sides.low) && is_small(sides.high)
}

// Row r with these sides.
fn row_with(problem: &Problem, r: usize, sides: Sides) -> Result<Row, AllocError>
    requires { r < length problem.now.rows }
    ensures { IfOk result (λ row. row ≡ record {
      terms = (row_at problem.now r).terms;
      low = sides.low;
      high = sides.high;
    }) }
{
    let terms = problem.rows()[r].row.terms.clone()?;
    Ok(Row {
        terms,
        low: sides.low,
        high: sides.high,
    })
}

// A row that no point satisfies.
fn no_row(alloc: Global) -> Row
    ensures { result ≡ record { terms = []; low = None; high = Some (negsuc 0) } }
{
    Row {
        terms: Items::new(alloc),
        low: None,
        high: Some(-1),
    }
}

// Row r with the sides that rounding leaves over a box, if they are others; a row that no point
// satisfies if it leaves none.
fn rounded_row(
    alloc: Global,
    problem: &Problem,
    area: &IntBox,
    r: usize,
) -> Result<Option<Row>, AllocError>
    requires there { r < length problem.now.rows }
    requires width { length area.now ≡ length problem.now.columns }
    ensures in_place { IfOk result (λ row. IfSome row (IsInPlaceOf problem.now area.now r)) }
    ensures some { IfOk result (λ row. IfSome row
        (IsTightened area.now (row_at problem.now r))) }
    ensures none { IfOk result (λ row. IfNone row
        (IsTightened area.now (row_at problem.now r) (row_at problem.now r))) }
{
    match rounded_at(problem, area, r) {
        Narrowed::To(sides) => {
            if !are_new_sides(problem, r, sides) {
                return Ok(None);
            }
            let row = row_with(problem, r, sides)?;
            Ok(Some(row))
        }
        Narrowed::Empty => Ok(Some(no_row(alloc))),
    }
}

// Puts a row in the place of row r, under its name.
fn put(rows: &mut Vec<NamedRow>, r: usize, row: Row)
    requires { r < length rows.old.items }
    ensures { IsPutAt r row rows.old.items rows.new.items }
{
    drop(mem::replace(&mut rows[r].row, row));
}

// Rounds the sides of row r, in its place. Returns whether the row changed.
#[tactic(auto, using(crate::proofs::Follows::put_stand))]
fn tighten(
    alloc: Global,
    rows: &mut Vec<NamedRow>,
    problem: &Problem,
    area: &IntBox,
    r: usize,
) -> Result<bool, AllocError>
    requires there { r < length problem.now.rows }
    requires width { length area.now ≡ length problem.now.columns }
    requires stand { StandFor problem.now area.now None rows.old.items }
    ensures stand { IfOk result (λ _. StandFor problem.now area.now None rows.new.items) }
    ensures changed { IfOk result (λ is_changed. OnTrue is_changed
        (IsTightenedAt problem.now area.now r rows.old.items rows.new.items)) }
    ensures same { IfOk result (λ is_changed. OnFalse is_changed
        (IsLeftAt problem.now area.now r rows.old.items rows.new.items)) }
{
    match rounded_row(alloc, problem, area, r)? {
        Some(row) => {
            put(rows, r, row);
            Ok(true)
        }
        None => Ok(false),
    }
}

/// Rounds the sides of each row over the box, in its place. Returns whether any row changed.
pub fn tighten_all(
    alloc: Global,
    rows: &mut Vec<NamedRow>,
    problem: &Problem,
    area: &IntBox,
) -> Result<bool, AllocError>
    requires width { length area.now ≡ length problem.now.columns }
    requires own { rows.old.items ≡ problem.now.rows }
    ensures stand { IfOk result (λ _. StandFor problem.now area.now None rows.new.items) }
    ensures tightened { IfOk result (λ _. AreTightened problem.now area.now rows.new.items) }
    ensures same { IfOk result (λ is_changed. OnFalse is_changed
        (rows.new.items ≡ rows.old.items)) }
{
    let mut is_changed = false;
    for r in 0..problem.rows().len() {
        if tighten(alloc, rows, problem, area, r)? {
            is_changed = true;
        }
    }
    Ok(is_changed)
}
