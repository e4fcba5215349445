//! Which rows lose slack where an end of a column goes inwards. A row that has no side which bounds
//! the sum that the end moves loses none; of the objective the high side counts as there, since a
//! cutoff is one.

ghost use Rattle.std.specs.Prelude.{◌≡◌, ℕ, ◌+◌, ◌<◌, ◌≤◌, length, IfOk, IsTrue, OnOk};
ghost use Rattle.ug_problem.specs.Locks.{AreAllLocks, AreAllWithin, AreFirstLocks, AreKeptLocks, AreLocks, AreLocksTo, AreWithin, HasHighSide, HasLowSide, IsLock, rows_in};
ghost use Rattle.ug_problem.specs.ColumnEntries.{entry_at, entries_at};

use crate::column::NamedRow;
use crate::entries::{ColumnEntries, ColumnEntry, entries_of};
use std::alloc::{AllocError, Global};
use ug_lists::Items;

/// An end of an interval that goes inwards.
#[derive(Clone, Copy)]
pub enum Inward {
    /// The low end goes up.
    Up,
    /// The high end goes down.
    Down,
}

/// For each column, in their order, rows.
pub type RowLists = Items<Items<u32>>;

// Whether the row has a high side.
fn has_high(rows: &[NamedRow], r: usize) -> bool
    ensures { HasHighSide rows.now r → IsTrue result }
{
    r >= rows.len() || rows[r].row.high.is_some()
}

// Whether the row has a low side.
fn has_low(rows: &[NamedRow], r: usize) -> bool
    ensures { HasLowSide rows.now r → IsTrue result }
{
    r < rows.len() && rows[r].row.low.is_some()
}

// Whether a row in which the column stands so loses slack.
fn is_lock(rows: &[NamedRow], inward: Inward, entry: ColumnEntry) -> bool
    ensures { IsLock inward rows.now entry.row entry.factor → IsTrue result }
{
    let r = entry.row as usize;
    match inward {
        Inward::Up if entry.factor < 0 => has_low(rows, r),
        Inward::Up => has_high(rows, r),
        Inward::Down if entry.factor < 0 => has_high(rows, r),
        Inward::Down => has_low(rows, r),
    }
}

// Lists the row if it loses slack.
fn add_lock(
    rows: &[NamedRow],
    inward: Inward,
    entries: &[ColumnEntry],
    k: usize,
    list: &mut Items<u32>,
) -> Result<(), AllocError>
    requires there { k < length entries.now }
    requires within { AreWithin rows.now entries.now }
    requires so_far { AreLocksTo inward rows.now entries.now k list.old }
    ensures { OnOk result (AreLocksTo inward rows.now entries.now (k + 1) list.new) }
{
    let entry = entries[k];
    if is_lock(rows, inward, entry) {
        list.push(entry.row)?;
    }
    Ok(())
}

// The rows that lose slack, of those in which a column stands.
fn locking_rows(
    alloc: Global,
    rows: &[NamedRow],
    inward: Inward,
    entries: &[ColumnEntry],
) -> Result<Items<u32>, AllocError>
    requires { AreWithin rows.now entries.now }
    ensures { IfOk result (AreLocks inward rows.now entries.now) }
{
    let mut list = Items::new(alloc);
    for k in 0..entries.len() {
        if add_lock(rows, inward, entries, k, &mut list).is_err() {
            drop(list);
            return Err(AllocError);
        }
    }
    Ok(list)
}

// The lists of the first columns, and that of one column more.
fn add_list(
    alloc: Global,
    rows: &[NamedRow],
    inward: Inward,
    entries: &ColumnEntries,
    lists: &mut Vec<Items<u32>>,
) -> Result<(), AllocError>
    requires there { length lists.old.items < length entries.now }
    requires within { AreAllWithin rows.now entries.now }
    requires so_far { AreFirstLocks inward rows.now entries.now
        (length lists.old.items) lists.old.items }
    ensures { OnOk result (AreFirstLocks inward rows.now entries.now
        (length lists.old.items + 1) lists.new.items) }
{
    let list = locking_rows(alloc, rows, inward, entries_of(entries, lists.len()))?;
    lists.push(list)?;
    Ok(())
}

/// For each column the rows that lose slack.
pub fn all_locks(
    alloc: Global,
    rows: &[NamedRow],
    inward: Inward,
    entries: &ColumnEntries,
) -> Result<RowLists, AllocError>
    requires { AreAllWithin rows.now entries.now }
    ensures { IfOk result (AreAllLocks inward rows.now entries.now) }
{
    let columns = entries.len();
    let mut lists = Vec::with_capacity(alloc, columns)?;
    for j in 0..columns {
        if add_list(alloc, rows, inward, entries, &mut lists).is_err() {
            drop(lists);
            return Err(AllocError);
        }
    }
    Ok(Items::from_vec(lists))
}

/// The rows of a column.
pub fn rows_at(lists: &RowLists, column: usize) -> &[u32]
    requires { column < length lists.now }
    ensures { result.now ≡ rows_in lists.now column }
{
    lists.as_slice()[column].as_slice()
}

/// For each column the rows that lose slack where its low end goes up, and those that do where its
/// high end goes down.
#[derive(Drop)]
pub struct Locks {
    pub ups: RowLists,
    pub downs: RowLists,
}

/// The rows that lose slack, of those in which each column stands.
pub fn locks_of(
    alloc: Global,
    rows: &[NamedRow],
    entries: &ColumnEntries,
) -> Result<Locks, AllocError>
    requires { AreAllWithin rows.now entries.now }
    ensures { IfOk result (AreKeptLocks rows.now entries.now) }
{
    let ups = all_locks(alloc, rows, Inward::Up, entries)?;
    match all_locks(alloc, rows, Inward::Down, entries) {
        Ok(downs) => Ok(Locks { ups, downs }),
        Err(error) => {
            drop(ups);
            Err(error)
        }
    }
}

/// A copy.
pub fn copied_locks(locks: &Locks) -> Result<Locks, AllocError>
    ensures { IfOk result (λ copy. copy ≡ locks.now) }
{
    let ups = locks.ups.clone()?;
    match locks.downs.clone() {
        Ok(downs) => Ok(Locks { ups, downs }),
        Err(error) => {
            drop(ups);
            Err(error)
        }
    }
}
