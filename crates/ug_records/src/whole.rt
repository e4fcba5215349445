ghost use Rattle.std.specs.Prelude.{◌≡◌, ◌≤◌, ◌^◌, [], length};
ghost use Rattle.ug_problem.specs.Instances.{instance_of};
ghost use Rattle.ug_fields.specs.Reading.{Gives};
ghost use Rattle.ug_records.specs.Reading.{rows_at, objective_at, parts_at, record_at};

use crate::lists::{MOST_SIDE, columns_at, row_at, terms_at};
use std::alloc::Global;
use ug_fields::{Fault, count_at, number_at, small_at};
use ug_lists::Items;
use ug_problem::{Columns, NamedRows};
use ug_rows::Objective;

// What the rows may have: columns below the width, and this many terms.
#[derive(Clone, Copy)]
struct Limits {
    width: u32,
    room: u64,
}

// This many rows, which are put into an empty list, and how many terms may still be.
fn rows_at<'a>(
    alloc: Global,
    bytes: &'a [u8],
    limits: Limits,
    count: u32,
    rows: &mut NamedRows,
) -> Result<(u64, &'a [u8]), Fault>
    requires { rows.old ≡ [] }
    ensures { Gives (λ x. ((rows.new, x.0), x.1.now)) result
        (rows_at limits.width limits.room count bytes.now) }
{
    let mut left = limits.room;
    let mut rest = bytes;
    for _ in 0..count {
        let (row, after) = row_at(alloc, rest, limits.width, left)?;
        left = left.saturating_sub(row.row.terms.len() as u64);
        rows.push(row)?;
        rest = after;
    }
    Ok((left, rest))
}

// The objective: its sense, its scale, its constant and its terms.
#[tactic(auto, unfolding(crate::specs::Reading::objective_at))]
fn objective_at(
    alloc: Global,
    bytes: &[u8],
    width: u32,
    room: u64,
) -> Result<(Objective, &[u8]), Fault>
    ensures { Gives (λ x. (x.0, x.1.now)) result (objective_at width room bytes.now) }
{
    let (sense, rest) = small_at(bytes, 0, 1)?;
    let (scale, rest) = small_at(rest, 0, 60)?;
    let (constant, rest) = number_at(rest, MOST_SIDE)?;
    let (terms, rest) = terms_at(alloc, rest, width, room)?;
    let objective = Objective {
        terms,
        constant,
        maximise: sense == 1,
        scale,
    };
    Ok((objective, rest))
}

// The columns and the rows, which are put into empty lists, and the objective.
#[tactic(auto, unfolding(crate::specs::Reading::parts_at))]
fn parts_at<'a>(
    alloc: Global,
    bytes: &'a [u8],
    columns: &mut Columns,
    rows: &mut NamedRows,
) -> Result<(Objective, &'a [u8]), Fault>
    requires columns { columns.old ≡ [] }
    requires rows { rows.old ≡ [] }
    ensures { Gives (λ x. (instance_of columns.new rows.new x.0, x.1.now)) result
        (parts_at bytes.now) }
{
    let (width, rest) = count_at(bytes, 10_000)?;
    let rest = columns_at(alloc, rest, width, columns)?;
    let (height, rest) = count_at(rest, 10_000)?;
    let limits = Limits {
        width,
        room: 1_000_000,
    };
    let (room, rest) = rows_at(alloc, rest, limits, height, rows)?;
    objective_at(alloc, rest, width, room)
}

/// The parts of the problem whose record the bytes are.
#[tactic(auto, unfolding(crate::specs::Reading::record_at))]
pub fn parts_of(alloc: Global, bytes: &[u8]) -> Result<(Columns, NamedRows, Objective), Fault>
    ensures { Gives (λ x. instance_of x.0 x.1 x.2) result (record_at bytes.now) }
{
    let mut columns = Items::new(alloc);
    let mut rows = Items::new(alloc);
    let fault = match parts_at(alloc, bytes, &mut columns, &mut rows) {
        Ok((objective, rest)) => {
            if rest.is_empty() {
                return Ok((columns, rows, objective));
            }
            drop(objective);
            Fault::Bad(rest.len())
        }
        Err(fault) => fault,
    };
    drop(columns);
    drop(rows);
    Err(fault)
}
