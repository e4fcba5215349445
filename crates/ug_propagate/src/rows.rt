//! The sums of all rows of a problem over a box, and how far their terms reach.

ghost use Rattle.std.specs.Prelude.{◌≡◌, true, ◌+◌, ◌<◌, ◌≤◌, ◌^◌, length, unsigned_abs, IfOk, IfSome, OnOk};
ghost use Rattle.ug_propagate.specs.Running.{are_in_64_bits, extremes_at, sums_in, widened};
ghost use Rattle.ug_propagate.specs.Working.{AreFirstShort, AreFirstWide, AreMeasured};

use crate::short_measure::measure_short;
use crate::sums::{Extremes, measured, terms_at};
use std::alloc::{AllocError, Global};
use ug_problem::Problem;
use ug_rows::Interval;

/// The least and the greatest sum of a row over a box, in 64 bits.
#[derive(Clone, Copy)]
pub struct ShortExtremes {
    pub least: i64,
    pub greatest: i64,
}

/// The sums of each row and of the objective, in 64 bits where they fit whatever the box.
#[derive(Drop)]
pub enum RowSums {
    Short(Vec<ShortExtremes>),
    Wide(Vec<Extremes>),
}

/// The sums of each row and of the objective over a box, and for each a number that no span of its
/// terms is above.
#[derive(Drop)]
pub struct MeasuredRows {
    pub sums: RowSums,
    pub max_span: Vec<i128>,
}

/// Sums that fit in 64 bits.
pub fn shortened(ends: Extremes) -> ShortExtremes
    requires least { unsigned_abs ends.least ≤ 2 ^ 60 }
    requires greatest { unsigned_abs ends.greatest ≤ 2 ^ 60 }
    ensures { widened result ≡ ends }
{
    ShortExtremes {
        least: ends.least as i64,
        greatest: ends.greatest as i64,
    }
}

fn wide(ends: ShortExtremes) -> Extremes
    ensures { result ≡ widened ends }
{
    Extremes {
        least: i128::from(ends.least),
        greatest: i128::from(ends.greatest),
    }
}

// The measures of the first rows over a box in 64 bits, and those of one row more. It says whether
// that row is short: if it is not, nothing is added.
#[tactic(auto, using(crate::proofs::Fresh::short_push))]
fn add_short(
    problem: &Problem,
    area: &[Interval],
    sums: &mut Vec<ShortExtremes>,
    max_span: &mut Vec<i128>,
    r: usize,
) -> Result<bool, AllocError>
    requires there { r ≤ length problem.now.rows }
    requires width { length area.now ≡ length problem.now.columns }
    requires so_far { AreFirstShort problem.now area.now r sums.old.items max_span.old.items }
    ensures { IfOk result (λ short. short ≡ true
        → AreFirstShort problem.now area.now (r + 1) sums.new.items max_span.new.items) }
{
    match measure_short(terms_at(problem, r), area) {
        None => Ok(false),
        Some(ends) => {
            sums.push(ShortExtremes {
                least: ends.least,
                greatest: ends.greatest,
            })?;
            max_span.push(i128::from(ends.widest))?;
            Ok(true)
        }
    }
}

// One pass over all rows and the objective in 64 bits. There is nothing where one of them is not
// short.
#[tactic(auto, using(crate::proofs::Fresh::all_measured))]
fn all_short(
    alloc: Global,
    problem: &Problem,
    area: &[Interval],
) -> Result<Option<MeasuredRows>, AllocError>
    requires { length area.now ≡ length problem.now.columns }
    ensures { IfOk result (λ found. IfSome found (AreMeasured problem.now area.now)) }
{
    let count = problem.rows().len() + 1;
    let mut sums = Vec::with_capacity(alloc, count)?;
    let mut max_span = Vec::with_capacity(alloc, count)?;
    for r in 0..count {
        if !add_short(problem, area, &mut sums, &mut max_span, r)? {
            return Ok(None);
        }
    }
    Ok(Some(MeasuredRows {
        sums: RowSums::Short(sums),
        max_span,
    }))
}

// The measures of the first rows over a box, and those of one row more.
#[tactic(auto, using(crate::proofs::Fresh::wide_push))]
fn add_wide(
    problem: &Problem,
    area: &[Interval],
    sums: &mut Vec<Extremes>,
    max_span: &mut Vec<i128>,
    r: usize,
) -> Result<(), AllocError>
    requires there { r ≤ length problem.now.rows }
    requires width { length area.now ≡ length problem.now.columns }
    requires so_far { AreFirstWide problem.now area.now r sums.old.items max_span.old.items }
    ensures { OnOk result
        (AreFirstWide problem.now area.now (r + 1) sums.new.items max_span.new.items) }
{
    let ends = measured(problem, r, area);
    sums.push(Extremes {
        least: ends.least,
        greatest: ends.greatest,
    })?;
    max_span.push(ends.widest)?;
    Ok(())
}

// One pass over all rows and the objective.
#[tactic(auto, using(crate::proofs::Fresh::all_measured))]
fn all_wide(alloc: Global, problem: &Problem, area: &[Interval]) -> Result<MeasuredRows, AllocError>
    requires { length area.now ≡ length problem.now.columns }
    ensures { IfOk result (AreMeasured problem.now area.now) }
{
    let count = problem.rows().len() + 1;
    let mut sums = Vec::with_capacity(alloc, count)?;
    let mut max_span = Vec::with_capacity(alloc, count)?;
    for r in 0..count {
        add_wide(problem, area, &mut sums, &mut max_span, r)?;
    }
    Ok(MeasuredRows {
        sums: RowSums::Wide(sums),
        max_span,
    })
}

/// The sums of all rows and of the objective over a box and how far each reaches, by one pass over
/// the terms where they are kept in 64 bits.
pub fn all_rows(
    alloc: Global,
    problem: &Problem,
    area: &[Interval],
) -> Result<MeasuredRows, AllocError>
    requires { length area.now ≡ length problem.now.columns }
    ensures { IfOk result (AreMeasured problem.now area.now) }
{
    match all_short(alloc, problem, area)? {
        Some(rows) => Ok(rows),
        None => all_wide(alloc, problem, area),
    }
}

/// Whether they are kept in 64 bits.
pub fn is_short_in(rows: &RowSums) -> bool
    ensures { result ≡ are_in_64_bits rows.now }
{
    match rows {
        RowSums::Short(_) => true,
        RowSums::Wide(_) => false,
    }
}

/// The sums of row r.
pub fn ends_in(rows: &RowSums, r: usize) -> Extremes
    requires { r < length (sums_in rows.now) }
    ensures { result ≡ extremes_at (sums_in rows.now) r }
{
    match rows {
        RowSums::Short(sums) => wide(sums[r]),
        RowSums::Wide(sums) => sums[r],
    }
}
