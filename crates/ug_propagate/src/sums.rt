ghost use Rattle.std.specs.Prelude.{◌≡◌, ℕ, ◌+◌, ◌<◌, ◌≤◌, ◌*◌, ◌^◌, ◌+ℤ◌, ◌-ℤ◌, ◌*ℤ◌, ◌≤ℤ◌, length, slice_set, slice_index_or, take, unsigned_abs, IfOk, MatchOption, [], OnErr, OnOk};
ghost use Rattle.ug_rows.specs.Boxes.{HasSmallEnds, interval_at};
ghost use Rattle.ug_rows.specs.Rows.{IsLinear};
ghost use Rattle.ug_rows.specs.Sums.{end_of, least_sum, greatest_sum};
ghost use Rattle.ug_rows.specs.declared.sums.Extreme.TheVariants.{Least, Greatest};
ghost use Rattle.ug_problem.specs.Instances.{no_row};
ghost use Rattle.ug_problem.specs.Limits.{IsProblem};
ghost use Rattle.ug_problem.specs.ColumnEntries.{AreColumnEntries, terms_of};
ghost use Rattle.ug_propagate.specs.Steps.{IsMeasured};
ghost use Rattle.ug_propagate.specs.Running.{HasMoved, IsLastOf, IsObjectiveEntry, IsNamedRow, IsRunning, IsSummed, are_in_64_bits, extremes_at, move_of, sums_in, terms_named};

use crate::measure::{Ends, measure, moves_between};
use crate::moving::{move_sums, shift};
use crate::rows::{RowSums, all_rows, ends_in, is_short_in};
use std::alloc::{AllocError, Global};
use std::marker::Model;
use ug_problem::{ColumnEntry, NamedRow, Problem};
use ug_rows::{Interval, Term};

/// The least and the greatest sum of a row over a box.
#[derive(Clone, Copy)]
pub struct Extremes {
    pub least: i128,
    pub greatest: i128,
}

// The terms of a row.
fn row_terms(rows: &[NamedRow], r: usize) -> &[Term]
    requires { r < length rows.now }
    ensures { result.now ≡ (slice_index_or rows.now r no_row).row.terms }
{
    rows[r].row.terms.as_slice()
}

// The row, counted from 0; the objective is the row behind the last.
#[tactic(auto, using(crate::proofs::Running::named_inner, crate::proofs::Running::named_last))]
fn row_index(problem: &Problem, row: Option<u32>) -> usize
    requires { IsNamedRow problem.now row }
    ensures there { result ≤ length problem.now.rows }
    ensures terms { terms_of problem.now result ≡ terms_named problem.now row }
    ensures problem { IsProblem problem.now }
{
    let rows = problem.rows();
    match row {
        Some(r) => r as usize,
        None => rows.len(),
    }
}

/// The terms of row r; the objective is the row behind the last.
#[tactic(auto, using(crate::proofs::Running::terms_inner, crate::proofs::Running::terms_last))]
pub fn terms_at(problem: &Problem, r: usize) -> &[Term]
    requires { r ≤ length problem.now.rows }
    ensures value { result.now ≡ terms_of problem.now r }
    ensures problem { IsProblem problem.now }
{
    let rows = problem.rows();
    if r < rows.len() {
        row_terms(rows, r)
    } else {
        problem.objective().terms.as_slice()
    }
}

/// The sums of row r over a box, and a number that no span of a term is above.
pub fn measured(problem: &Problem, r: usize, area: &[Interval]) -> Ends
    requires there { r ≤ length problem.now.rows }
    requires width { length area.now ≡ length problem.now.columns }
    ensures { IsMeasured (terms_of problem.now r) area.now result }
{
    measure(terms_at(problem, r), area)
}

// The last standing, if there is one.
fn last_entry(entries: &[ColumnEntry]) -> Option<ColumnEntry>
    ensures { MatchOption result (entries.now ≡ []) (IsLastOf entries.now) }
{
    if entries.is_empty() {
        None
    } else {
        Some(entries[entries.len() - 1])
    }
}

// Returns the entry of a column in the objective, if it has one.
fn objective_entry(problem: &Problem, column: usize) -> Option<ColumnEntry>
    requires { column < length problem.now.columns }
    ensures problem { IsProblem problem.now }
    ensures entry { IsObjectiveEntry problem.now column result }
{
    let rows = problem.rows().len();
    match last_entry(problem.entries(column)) {
        None => None,
        Some(last) => {
            if last.row as usize == rows {
                Some(last)
            } else {
                None
            }
        }
    }
}

// The sums of a row after the interval of the standing's column was replaced.
fn moved_by(ends: Extremes, entry: ColumnEntry, before: Interval, after: Interval) -> Extremes
    requires least { unsigned_abs ends.least ≤ 3 * 10 ^ 37 }
    requires greatest { unsigned_abs ends.greatest ≤ 3 * 10 ^ 37 }
    requires factor { unsigned_abs entry.factor ≤ 10 ^ 24 }
    ensures least { result.least
        ≡ ends.least +ℤ ((entry.factor *ℤ end_of Least entry.factor after) -ℤ
        (entry.factor *ℤ end_of Least entry.factor before)) }
    ensures greatest { result.greatest
        ≡ ends.greatest +ℤ ((entry.factor *ℤ end_of Greatest entry.factor after) -ℤ
        (entry.factor *ℤ end_of Greatest entry.factor before)) }
    ensures after { HasSmallEnds after }
{
    let mut ends = ends;
    move_sums(&mut ends, entry.factor, moves_between(before, after));
    ends
}

fn least_in(ends: Extremes) -> i128
    requires { unsigned_abs ends.least ≤ 3 * 10 ^ 37 }
    ensures value { result ≡ ends.least }
    ensures small { unsigned_abs result ≤ 3 * 10 ^ 37 }
{
    ends.least
}

// The sums of the objective where a column had another interval.
fn objective_with(
    problem: &Problem,
    column: usize,
    area: &[Interval],
    ends: Extremes,
    side: Interval,
) -> Extremes
    requires there { column < length problem.now.columns }
    requires width { length area.now ≡ length problem.now.columns }
    requires summed { IsSummed problem.now.objective.terms area.now ends }
    ensures { IsSummed problem.now.objective.terms (slice_set area.now column side) result }
{
    match objective_entry(problem, column) {
        Some(entry) => moved_by(ends, entry, area[column], side),
        None => ends,
    }
}

/// The least and the greatest sum of each row of a problem, and of its objective without the
/// constant, over a box that may change a column at a time.
#[derive(Drop)]
pub struct Sums {
    sides: Vec<Interval>,
    rows: RowSums,
}

impl Model for Sums {
    ghost use Rattle.ug_propagate.specs.Steps.{IsMeasured};
    ghost use Rattle.ug_propagate.specs.Running.{SumsState, are_in_64_bits, sums_in};

    ghost Value = { SumsState };

    ghost view = { λ s. record {
      area = s.sides.items;
      sums = sums_in s.rows;
      short = are_in_64_bits s.rows;
    } };
}

impl Sums {
    /// These sums over the box of these intervals.
    pub fn of(sides: Vec<Interval>, rows: RowSums) -> Sums
        ensures { result ≡ record {
          area = sides.items;
          sums = sums_in rows;
          short = are_in_64_bits rows;
        } }
    {
        Sums { sides, rows }
    }

    /// Takes the sums of another problem's rows over the same box. After an error nothing was
    /// changed.
    #[tactic(auto, using(crate::proofs::Running::running_of))]
    pub fn over(&mut self, alloc: Global, problem: &Problem) -> Result<(), AllocError>
        requires { length self.old.area ≡ length problem.now.columns }
        ensures area { self.new.area ≡ self.old.area }
        ensures ok { OnOk result (IsRunning problem.now self.new) }
        ensures err { OnErr result (self.new ≡ self.old) }
    {
        let measured = all_rows(alloc, problem, self.sides.as_slice())?;
        self.rows = measured.sums;
        Ok(())
    }

    /// Replaces the interval of a column. It touches the rows in which the column stands, and no
    /// others.
    pub fn set(&mut self, problem: &Problem, column: u32, low: i32, high: i32)
        requires there { column < length problem.now.columns }
        requires sums { IsRunning problem.now self.old }
        ensures area { self.new.area
            ≡ slice_set self.old.area column (record { low = low; high = high }) }
        ensures sums { IsRunning problem.now self.new }
    {
        self.put(problem, column as usize, Interval { low, high });
    }

    /// Replaces the interval of a column by this one.
    #[tactic(auto, using(crate::proofs::Running::sums_of, crate::proofs::Running::running_of))]
    pub fn put(&mut self, problem: &Problem, column: usize, side: Interval)
        requires there { column < length problem.now.columns }
        requires sums { IsRunning problem.now self.old }
        ensures area { self.new.area ≡ slice_set self.old.area column side }
        ensures sums { IsRunning problem.now self.new }
    {
        shift(problem, column, self.sides.as_slice(), side, &mut self.rows);
        self.sides[column] = side;
    }

    /// Whether the sums are kept in 64 bits.
    pub fn is_short(&self) -> bool
        ensures { result ≡ self.now.short }
    {
        is_short_in(&self.rows)
    }

    /// The sums of row r.
    pub fn ends(&self, r: usize) -> Extremes
        requires { r < length self.now.sums }
        ensures { result ≡ extremes_at self.now.sums r }
    {
        ends_in(&self.rows, r)
    }

    /// The interval of a column.
    pub fn side(&self, column: usize) -> Interval
        requires { column < length self.now.area }
        ensures { result ≡ interval_at self.now.area column }
    {
        self.sides[column]
    }

    /// The least sum of a row, or of the objective without its constant.
    pub fn least(&self, problem: &Problem, row: Option<u32>) -> i128
        requires there { IsNamedRow problem.now row }
        requires sums { IsRunning problem.now self.now }
        ensures value { result ≡ least_sum (terms_named problem.now row) self.now.area }
        ensures small { unsigned_abs result ≤ 3 * 10 ^ 37 }
    {
        least_in(self.ends(row_index(problem, row)))
    }

    /// The greatest sum of a row, or of the objective without its constant.
    pub fn greatest(&self, problem: &Problem, row: Option<u32>) -> i128
        requires there { IsNamedRow problem.now row }
        requires sums { IsRunning problem.now self.now }
        ensures { result ≡ greatest_sum (terms_named problem.now row) self.now.area }
    {
        self.ends(row_index(problem, row)).greatest
    }

    /// The least sum of the objective where a column had another interval. It looks at that column
    /// alone.
    pub fn least_with(&self, problem: &Problem, column: usize, side: Interval) -> i128
        requires there { column < length problem.now.columns }
        requires sums { IsRunning problem.now self.now }
        ensures value { result ≡ least_sum problem.now.objective.terms
            (slice_set self.now.area column side) }
        ensures small { unsigned_abs result ≤ 3 * 10 ^ 37 }
    {
        let ends = self.ends(problem.rows().len());
        let area = self.sides();
        least_in(objective_with(problem, column, area, ends, side))
    }

    /// The intervals of the box. It takes no memory.
    pub fn into_sides(self) -> Vec<Interval>
        ensures { result.items ≡ self.area }
    {
        self.sides
    }

    /// The box.
    pub fn sides(&self) -> &[Interval]
        ensures { result.now ≡ self.now.area }
    {
        self.sides.as_slice()
    }
}
