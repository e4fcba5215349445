ghost use Rattle.std.specs.Prelude.{◌≡◌, List, ℤ, pos, ◌*◌, ◌^◌, ◌<◌, ◌≤◌, ◌-ℤ◌, ◌≤ℤ◌, ◌↔◌, length, map, IsNone, IsTrue, IfSome, IfOk, OnOk, IfErr, unsigned_abs};
ghost use Rattle.std.specs.Int.{int_max};
ghost use Rattle.ug_rows.specs.Boxes.{IsBelow, IsInside};
ghost use Rattle.ug_rows.specs.Rows.{value_of};
ghost use Rattle.ug_rows.specs.Sums.{box_floor};
ghost use Rattle.ug_problem.specs.Better.{IsGap, cutoff_of};
ghost use Rattle.ug_problem.specs.Feasible.{Feasible, IsFirstBroken};
ghost use Rattle.ug_problem.specs.Instances.{IsFormed, bounds_of, instance_of, root_of};
ghost use Rattle.ug_problem.specs.Limits.{IsProblem, IsRefused};
ghost use Rattle.ug_problem.specs.Locks.{AreKeptLocks, AreLocksOf};
ghost use Rattle.ug_problem.specs.Printed.{IsPrinted};
ghost use Rattle.ug_problem.specs.ColumnEntries.{AreKept, AreColumnEntries};

use crate::answer::Broken;
use crate::column::{Column, Columns, NamedRow, NamedRows};
use crate::entries::{ColumnEntries, ColumnEntry, copied_entries, entries_of, gather};
use crate::error::ProblemError;
use crate::feasible::find_broken;
use crate::limits::check_limits;
use crate::locks::{Inward, Locks, copied_locks, locks_of, rows_at};
use crate::print::{shown, spell};
use std::alloc::{AllocError, Global};
use std::marker::Model;
use ug_lists::{Same, Text};
use ug_rows::{IntBox, Interval, Objective, Point, floor, value};

/// A bounded integer program: columns, rows and an objective, all within the limits.
#[derive(Drop)]
pub struct Problem {
    columns: Columns,
    rows: NamedRows,
    objective: Objective,
    root: IntBox,
    entries: ColumnEntries,
    locks: Locks,
}

impl Model for Problem {
    ghost use Rattle.std.specs.Prelude.{◌≡◌};
    ghost use Rattle.ug_problem.specs.Instances.{Instance, root_of};
    ghost use Rattle.ug_problem.specs.Limits.{IsProblem};
    ghost use Rattle.ug_problem.specs.Locks.{AreKeptLocks};
    ghost use Rattle.ug_problem.specs.ColumnEntries.{AreKept};

    ghost Value = { Instance };

    ghost view = { λ p. record { columns = p.columns; rows = p.rows; objective = p.objective } };

    ghost invariant = { λ p. IsProblem (record { columns = p.columns; rows = p.rows; objective = p.objective })
        × (p.root
        ≡ root_of (record { columns = p.columns; rows = p.rows; objective = p.objective }))
        × AreKept (record { columns = p.columns; rows = p.rows; objective = p.objective })
        p.entries
        × AreKeptLocks p.rows p.entries p.locks };
}

// Returns the bounds of each column.
fn bounds(alloc: Global, columns: &[Column]) -> Result<Vec<Interval>, AllocError>
    ensures { IfOk result (λ sides. sides.items ≡ map bounds_of columns.now) }
{
    columns
        .iter()
        .map(|column| Interval {
            low: column.low,
            high: column.high,
        })
        .collect(alloc)
}

fn copied_columns(columns: &Columns) -> Result<Columns, AllocError>
    ensures { IfOk result (λ copy. copy ≡ columns.now) }
{
    columns.clone()
}

fn copied_rows(rows: &NamedRows) -> Result<NamedRows, AllocError>
    ensures { IfOk result (λ copy. copy ≡ rows.now) }
{
    rows.clone()
}

fn copied_objective(objective: &Objective) -> Result<Objective, AllocError>
    ensures { IfOk result (λ copy. copy ≡ objective.now) }
{
    objective.clone()
}

// Returns a value less a gap.
fn less_gap(value: i128, gap: i128) -> i128
    requires value { unsigned_abs value ≤ 4 * 10 ^ 37 }
    requires gap { IsGap gap }
    ensures { result ≡ value -ℤ gap }
{
    value - gap
}

fn greater(a: i128, b: i128) -> i128
    ensures { result ≡ int_max a b }
{
    if b < a { a } else { b }
}

// The parts of a problem.
#[derive(Drop)]
struct Parts {
    columns: Columns,
    rows: NamedRows,
    objective: Objective,
}

fn copied_parts(
    columns: &Columns,
    rows: &NamedRows,
    objective: &Objective,
) -> Result<Parts, AllocError>
    ensures columns { IfOk result (λ parts. parts.columns ≡ columns.now) }
    ensures rows { IfOk result (λ parts. parts.rows ≡ rows.now) }
    ensures objective { IfOk result (λ parts. parts.objective ≡ objective.now) }
{
    let columns = copied_columns(columns)?;
    let rows = match copied_rows(rows) {
        Ok(rows) => rows,
        Err(error) => {
            drop(columns);
            return Err(error);
        }
    };
    match copied_objective(objective) {
        Ok(objective) => Ok(Parts {
            columns,
            rows,
            objective,
        }),
        Err(error) => {
            drop(columns);
            drop(rows);
            Err(error)
        }
    }
}

// Everything computed from the parts of a problem and stored with it.
#[derive(Drop)]
struct Derived {
    root: IntBox,
    entries: ColumnEntries,
    locks: Locks,
}

// The entries of each column, and the rows that lose slack with it.
#[derive(Drop)]
struct Stands {
    entries: ColumnEntries,
    locks: Locks,
}

fn stands_of(
    alloc: Global,
    columns: &[Column],
    rows: &[NamedRow],
    objective: &Objective,
) -> Result<Stands, AllocError>
    requires { IsProblem (instance_of columns.now rows.now objective.now) }
    ensures entries { IfOk result (λ s. AreKept
        (instance_of columns.now rows.now objective.now) s.entries) }
    ensures locks { IfOk result (λ s. AreKeptLocks rows.now s.entries s.locks) }
{
    let entries = gather(alloc, columns, rows, objective)?;
    match locks_of(alloc, rows, &entries) {
        Ok(locks) => Ok(Stands { entries, locks }),
        Err(error) => {
            drop(entries);
            Err(error)
        }
    }
}

// Returns the root box, the entries of each column and the rows that lose slack with it, if the
// parts are within the limits.
fn derived_from(
    alloc: Global,
    columns: &[Column],
    rows: &[NamedRow],
    objective: &Objective,
) -> Result<Derived, ProblemError>
    requires { IsFormed (instance_of columns.now rows.now objective.now) }
    ensures root { IfOk result (λ g. g.root
        ≡ root_of (instance_of columns.now rows.now objective.now)) }
    ensures entries { IfOk result (λ g. AreKept
        (instance_of columns.now rows.now objective.now) g.entries) }
    ensures locks { IfOk result (λ g. AreKeptLocks rows.now g.entries g.locks) }
    ensures kept { OnOk result (IsProblem (instance_of columns.now rows.now objective.now)) }
    ensures refused { IfErr result (IsRefused (instance_of columns.now rows.now objective.now)) }
{
    check_limits(columns, rows, objective)?;
    let root = IntBox::from_vec(bounds(alloc, columns)?);
    match stands_of(alloc, columns, rows, objective) {
        Ok(Stands { entries, locks }) => Ok(Derived {
            root,
            entries,
            locks,
        }),
        Err(error) => {
            drop(root);
            Err(ProblemError::from(error))
        }
    }
}

fn copied_stands(entries: &ColumnEntries, locks: &Locks) -> Result<Stands, AllocError>
    ensures entries { IfOk result (λ stands. stands.entries ≡ entries.now) }
    ensures locks { IfOk result (λ stands. stands.locks ≡ locks.now) }
{
    let entries = copied_entries(entries)?;
    match copied_locks(locks) {
        Ok(locks) => Ok(Stands { entries, locks }),
        Err(error) => {
            drop(entries);
            Err(error)
        }
    }
}

fn copied_derived(
    root: &IntBox,
    entries: &ColumnEntries,
    locks: &Locks,
) -> Result<Derived, AllocError>
    ensures root { IfOk result (λ derived. derived.root ≡ root.now) }
    ensures entries { IfOk result (λ derived. derived.entries ≡ entries.now) }
    ensures locks { IfOk result (λ derived. derived.locks ≡ locks.now) }
{
    let Stands { entries, locks } = copied_stands(entries, locks)?;
    match root.clone() {
        Ok(root) => Ok(Derived {
            root,
            entries,
            locks,
        }),
        Err(error) => {
            drop(entries);
            drop(locks);
            Err(error)
        }
    }
}

impl Problem {
    /// Returns the problem of these parts, or names the first count or row beyond its limit. Takes
    /// memory for the root box and the entries of the columns.
    pub fn new(
        alloc: Global,
        columns: Columns,
        rows: NamedRows,
        objective: Objective,
    ) -> Result<Problem, ProblemError>
        requires { IsFormed (instance_of columns rows objective) }
        ensures made { IfOk result (λ p. p ≡ instance_of columns rows objective) }
        ensures kept { OnOk result (IsProblem (instance_of columns rows objective)) }
        ensures refused { IfErr result (IsRefused (instance_of columns rows objective)) }
    {
        match derived_from(alloc, columns.as_slice(), rows.as_slice(), &objective) {
            Ok(
                Derived {
                    root,
                    entries,
                    locks,
                },
            ) => Ok(Problem {
                columns,
                rows,
                objective,
                root,
                entries,
                locks,
            }),
            Err(error) => {
                drop(columns);
                drop(rows);
                drop(objective);
                Err(error)
            }
        }
    }

    /// Returns the columns, in the order of the file.
    pub fn columns(&self) -> &[Column]
        ensures value { result.now ≡ self.now.columns }
        ensures problem { IsProblem self.now }
    {
        self.columns.as_slice()
    }

    /// Returns the rows, in the order of the file.
    pub fn rows(&self) -> &[NamedRow]
        ensures value { result.now ≡ self.now.rows }
        ensures problem { IsProblem self.now }
    {
        self.rows.as_slice()
    }

    /// Returns the objective, which is minimised.
    pub fn objective(&self) -> &Objective
        ensures value { result.now ≡ self.now.objective }
        ensures problem { IsProblem self.now }
    {
        &self.objective
    }

    /// Returns the root box: the bounds of all columns.
    pub fn root(&self) -> &IntBox
        ensures value { result.now ≡ root_of self.now }
        ensures problem { IsProblem self.now }
    {
        &self.root
    }

    /// Returns the rows in which a column has a coefficient, in rising order, with the
    /// coefficients; the objective is the row behind the last. Takes no memory.
    pub fn entries(&self, column: usize) -> &[ColumnEntry]
        requires { column < length self.now.columns }
        ensures value { AreColumnEntries self.now column result.now }
        ensures problem { IsProblem self.now }
    {
        entries_of(&self.entries, column)
    }

    /// Returns the rows that lose slack if this bound of a column is tightened, in rising order.
    /// The objective, the row behind the last, counts as having a high side. Takes no memory.
    pub fn locks(&self, inward: Inward, column: usize) -> &[u32]
        requires { column < length self.now.columns }
        ensures value { AreLocksOf self.now column inward result.now }
        ensures problem { IsProblem self.now }
    {
        match inward {
            Inward::Up => rows_at(&self.locks.ups, column),
            Inward::Down => rows_at(&self.locks.downs, column),
        }
    }

    /// Returns a copy of the problem.
    pub fn copy(&self) -> Result<Problem, AllocError>
        ensures { IfOk result (λ p. p ≡ self.now) }
    {
        let Derived {
            root,
            entries,
            locks,
        } = copied_derived(&self.root, &self.entries, &self.locks)?;
        match copied_parts(&self.columns, &self.rows, &self.objective) {
            Ok(
                Parts {
                    columns,
                    rows,
                    objective,
                },
            ) => Ok(Problem {
                columns,
                rows,
                objective,
                root,
                entries,
                locks,
            }),
            Err(error) => {
                drop(root);
                drop(entries);
                drop(locks);
                Err(error)
            }
        }
    }

    /// Are two problems equal: columns, rows, objective and all names? Takes no memory.
    pub fn is(&self, other: &Problem) -> bool
        ensures { IsTrue result ↔ (self.now ≡ other.now) }
    {
        self.objective.is(&other.objective)
            && self.columns.is(&other.columns)
            && self.rows.is(&other.rows)
    }

    /// Returns the first violation of a point, or `None` exactly if it is feasible: its length,
    /// then the lowest column, then the lowest row. Takes no memory.
    pub fn first_broken(&self, point: &Point) -> Option<Broken>
        ensures feasible { IsNone result ↔ Feasible self.now point.now }
        ensures first { IfSome result (IsFirstBroken self.now point.now) }
    {
        find_broken(self, point)
    }

    /// Returns the value of a point. Takes no memory.
    #[tactic(auto, using(crate::proofs::Linear::linear_objective, crate::proofs::Values::value_within))]
    pub fn value(&self, point: &Point) -> i128
        requires { length point.now ≡ length self.now.columns }
        ensures value { result ≡ value_of self.now.objective point.now }
        ensures small { unsigned_abs result ≤ 4 * 10 ^ 37 }
        ensures within { IsInside (root_of self.now) point.now → unsigned_abs result ≤ 2 * 10 ^ 37 }
    {
        value(self.objective(), point)
    }

    /// Returns the floor of a box: the least value of the objective over it, whatever the rows say.
    /// Takes no memory.
    #[tactic(auto, using(crate::proofs::Floors::objective_is_linear, crate::proofs::Floors::floor_within))]
    pub fn floor(&self, area: &IntBox) -> i128
        requires { length area.now ≡ length self.now.columns }
        ensures value { result ≡ box_floor self.now.objective area.now }
        ensures bound { (x : List ℤ) → IsInside area.now x
            → result ≤ℤ value_of self.now.objective x }
        ensures small { unsigned_abs result ≤ 4 * 10 ^ 37 }
        ensures within { IsBelow area.now (root_of self.now) → unsigned_abs result ≤ 2 * 10 ^ 37 }
    {
        floor(self.objective(), area)
    }

    /// Returns the cutoff of a point under a gap: a point within all bounds is better by more than
    /// the gap exactly if its value is below. Takes no memory.
    #[tactic(auto, using(crate::proofs::Cutoffs::cutoff_small, crate::proofs::Cutoffs::cutoff_without_gap))]
    pub fn cutoff(&self, gap: i128, point: &Point) -> i128
        requires width { length point.now ≡ length self.now.columns }
        requires gap { IsGap gap }
        ensures value { result ≡ cutoff_of self.now gap point.now }
        ensures no_gap { gap ≡ pos 0 → IsInside (root_of self.now) point.now
            → result ≡ value_of self.now.objective point.now }
        ensures within { IsInside (root_of self.now) point.now → unsigned_abs result ≤ 2 * 10 ^ 37 }
    {
        let value = self.value(point);
        let floor = self.floor(self.root());
        greater(less_gap(value, gap), floor)
    }

    /// Returns a value as the user reads it, such as 2.25 for 225 hundredths.
    pub fn print_value(&self, alloc: Global, value: i128) -> Result<Text, AllocError>
        requires { unsigned_abs value ≤ 10 ^ 38 }
        ensures { IfOk result (IsPrinted self.now.objective value) }
    {
        let shown = shown(&self.objective, value);
        let text = spell(alloc, shown, self.objective.scale)?;
        Ok(Text::from_vec(text))
    }
}
