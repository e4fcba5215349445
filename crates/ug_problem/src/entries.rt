//! The entries of each column: its rows and coefficients.

ghost use Rattle.std.specs.Prelude.{◌≡◌, ℕ, ◌+◌, ◌<◌, ◌≤◌, ◌^◌, [], ◌∷◌, ◌++◌, length, slice_set, take, All, IfOk, OnOk};
ghost use Rattle.ug_rows.specs.Rows.{term_at};
ghost use Rattle.ug_problem.specs.Instances.{AreTerms, IsRow, instance_of};
ghost use Rattle.ug_problem.specs.Limits.{IsProblem};
ghost use Rattle.ug_problem.specs.ColumnEntries.{AreGathered, AreKept, entries_at, entries_in, entries_over, terms_of_rows};

use crate::column::{Column, NamedRow};
use std::alloc::{AllocError, Global};
use ug_lists::Items;
use ug_rows::{Objective, Term};

/// An entry of a column: a row, or the objective as the row behind the last, with the coefficient.
#[derive(Clone, Copy, PartialEq, Eq)]
pub struct ColumnEntry {
    pub row: u32,
    pub factor: i128,
}

/// For each column, in their order, where it stands.
pub type ColumnEntries = Items<Items<ColumnEntry>>;

// The standing that a term of a row says.
fn entry_of(row: u32, term: Term) -> ColumnEntry
    ensures { result ≡ record { row = row; factor = term.factor } }
{
    ColumnEntry {
        row,
        factor: term.factor,
    }
}

// Adds a standing to the list of a column.
fn add_entry(
    lists: &mut [Items<ColumnEntry>],
    column: usize,
    entry: ColumnEntry,
) -> Result<(), AllocError>
    requires { column < length lists.old }
    ensures { OnOk result (lists.new
        ≡ slice_set lists.old column (entries_at lists.old column ++ entry ∷ [])) }
{
    lists[column].push(entry)
}

// Adds the terms of one row to the lists of their columns.
#[tactic(auto, using(crate::proofs::Gathered::term_added))]
fn add_terms(lists: &mut [Items<ColumnEntry>], row: u32, terms: &[Term]) -> Result<(), AllocError>
    requires { (k : ℕ) → k < length terms.now → (term_at terms.now k).column < length lists.old }
    ensures { OnOk result ((j : ℕ) → j < length lists.old
        → entries_at lists.new j ≡ entries_at lists.old j ++ entries_in j row terms.now) }
{
    for term in terms {
        add_entry(lists, term.column as usize, entry_of(row, *term))?;
    }
    Ok(())
}

// An empty list for each column.
#[tactic(auto, using(crate::proofs::Gathered::nothing_gathered))]
fn empty_lists(alloc: Global, columns: usize) -> Result<Vec<Items<ColumnEntry>>, AllocError>
    ensures { IfOk result (λ lists. AreGathered [] columns lists.items) }
{
    let mut lists = Vec::with_capacity(alloc, columns)?;
    for _ in 0..columns {
        lists.push(Items::new(alloc))?;
    }
    Ok(lists)
}

// Adds the terms of row r.
#[tactic(auto, using(crate::proofs::Gathered::named_gathered))]
fn add_row(lists: &mut [Items<ColumnEntry>], rows: &[NamedRow], r: usize) -> Result<(), AllocError>
    requires there { r < length rows.now }
    requires few { length rows.now ≤ 10 ^ 4 }
    requires rows { All (IsRow (length lists.old)) rows.now }
    requires so_far { AreGathered (terms_of_rows (take r rows.now)) (length lists.old) lists.old }
    ensures { OnOk result (AreGathered (terms_of_rows (take (r + 1) rows.now)) (length lists.old)
        lists.new) }
{
    let named = &rows[r];
    add_terms(lists, r as u32, named.row.terms.as_slice())?;
    Ok(())
}

// Adds the terms of all rows.
fn add_rows(lists: &mut [Items<ColumnEntry>], rows: &[NamedRow]) -> Result<(), AllocError>
    requires few { length rows.now ≤ 10 ^ 4 }
    requires empty { AreGathered [] (length lists.old) lists.old }
    requires rows { All (IsRow (length lists.old)) rows.now }
    ensures { OnOk result (AreGathered (terms_of_rows rows.now) (length lists.old) lists.new) }
{
    for r in 0..rows.len() {
        add_row(lists, rows, r)?;
    }
    Ok(())
}

// Adds the terms of the objective, as those of the row behind the last.
#[tactic(auto, using(crate::proofs::Gathered::last_gathered))]
fn add_objective(
    lists: &mut [Items<ColumnEntry>],
    rows: &[NamedRow],
    objective: &Objective,
) -> Result<(), AllocError>
    requires few { length rows.now ≤ 10 ^ 4 }
    requires objective { AreTerms (length lists.old) objective.now.terms }
    requires so_far { AreGathered (terms_of_rows rows.now) (length lists.old) lists.old }
    ensures { OnOk result (AreGathered (terms_of_rows rows.now ++ objective.now.terms ∷ [])
        (length lists.old) lists.new) }
{
    add_terms(lists, rows.len() as u32, objective.terms.as_slice())?;
    Ok(())
}

// Adds all terms.
fn add_all(
    lists: &mut [Items<ColumnEntry>],
    rows: &[NamedRow],
    objective: &Objective,
) -> Result<(), AllocError>
    requires few { length rows.now ≤ 10 ^ 4 }
    requires empty { AreGathered [] (length lists.old) lists.old }
    requires rows { All (IsRow (length lists.old)) rows.now }
    requires objective { AreTerms (length lists.old) objective.now.terms }
    ensures { OnOk result (AreGathered (terms_of_rows rows.now ++ objective.now.terms ∷ [])
        (length lists.old) lists.new) }
{
    add_rows(lists, rows)?;
    add_objective(lists, rows, objective)
}

// Returns the entries of the first columns.
fn gather_lists(
    alloc: Global,
    columns: usize,
    rows: &[NamedRow],
    objective: &Objective,
) -> Result<ColumnEntries, AllocError>
    requires few { length rows.now ≤ 10 ^ 4 }
    requires rows { All (IsRow columns) rows.now }
    requires objective { AreTerms columns objective.now.terms }
    ensures { IfOk result (AreGathered (terms_of_rows rows.now ++ objective.now.terms ∷ [])
        columns) }
{
    let mut lists = empty_lists(alloc, columns)?;
    add_all(lists.as_mut_slice(), rows, objective)?;
    Ok(Items::from_vec(lists))
}

/// Returns the entries of each column.
pub fn gather(
    alloc: Global,
    columns: &[Column],
    rows: &[NamedRow],
    objective: &Objective,
) -> Result<ColumnEntries, AllocError>
    requires { IsProblem (instance_of columns.now rows.now objective.now) }
    ensures { IfOk result (AreKept (instance_of columns.now rows.now objective.now)) }
{
    let lists = gather_lists(alloc, columns.len(), rows, objective)?;
    Ok(lists)
}

/// The standings of a column.
pub fn entries_of(lists: &ColumnEntries, column: usize) -> &[ColumnEntry]
    requires { column < length lists.now }
    ensures { result.now ≡ entries_at lists.now column }
{
    lists.as_slice()[column].as_slice()
}

/// A copy.
pub fn copied_entries(lists: &ColumnEntries) -> Result<ColumnEntries, AllocError>
    ensures { IfOk result (λ copy. copy ≡ lists.now) }
{
    lists.clone()
}
