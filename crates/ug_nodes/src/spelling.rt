ghost use Rattle.std.specs.Prelude.{◌≡◌, ◌≢◌, ◌+◌, ◌≤◌, ◌<◌, ◌^◌, ◌↔◌, List, length, IfOk, OnOk, IsTrue, MatchBool, MatchOption, MatchResult};
ghost use Rattle.ug_rows.specs.declared.area.Interval.{Interval};
ghost use Rattle.ug_rows.specs.Boxes.{IsBelow, IsClosedWithin};
ghost use Rattle.ug_nodes.specs.declared.spelling.AreaError.TheVariants.{Memory};
ghost use Rattle.ug_nodes.specs.Changes.{IsChangeOf, IsRising, Tell, Spells, AreChangesOf, AreThere, IsFirstBad, IsAreaRefused, area_by};
ghost use Rattle.ug_nodes.specs.Steps.{IsToldTo, change_with};

use crate::change::{Change, Changes};
use std::alloc::{AllocError, Global};
use ug_rows::{IntBox, Interval, is_closed_within};

/// Why no box is made.
#[derive(Clone, Copy, Debug, PartialEq, Eq)]
pub enum AreaError {
    /// Memory ran out.
    Memory,
    /// The change of this column is the first one that belongs to no box below the root.
    Outside { column: u32 },
}

impl From<AllocError> for AreaError {
    ghost from_gives = { λ _ e. e ≡ Memory };

    fn from(_e: AllocError) -> AreaError {
        AreaError::Memory
    }
}

/// The columns in which a box differs from the root's, with its bounds.
#[tactic(auto, using(crate::proofs::Lists::told, crate::proofs::Lists::spelled))]
pub fn changes_of(alloc: Global, root: &IntBox, area: &IntBox) -> Result<Changes, AllocError>
    requires width { length area.now ≡ length root.now }
    requires few { length root.now ≤ 10 ^ 4 }
    ensures told { IfOk result (λ changes. Tell root.now changes area.now) }
    ensures rising { IfOk result IsRising }
    // For a box below the root they are what `area_of` takes.
    ensures below { IsBelow area.now root.now
        → IfOk result (λ changes. Spells root.now changes area.now) }
{
    let changes = differences(alloc, root.as_slice(), area.as_slice())?;
    Ok(Changes::new(changes))
}

#[tactic(auto, using(crate::proofs::Steps::none_told))]
pub(crate) fn differences(
    alloc: Global,
    root: &[Interval],
    area: &[Interval],
) -> Result<Vec<Change>, AllocError>
    requires width { length area.now ≡ length root.now }
    requires few { length root.now ≤ 10 ^ 4 }
    ensures { IfOk result (λ changes. IsToldTo (length root.now) root.now area.now changes.items) }
{
    let mut changes = Vec::new(alloc);
    for j in 0..root.len() {
        look_at(root, area, j, &mut changes)?;
    }
    Ok(changes)
}

// Adds the change of one column more, if it has other bounds than in the root.
#[tactic(auto, using(crate::proofs::Steps::same_told, crate::proofs::Steps::other_told))]
fn look_at(
    root: &[Interval],
    area: &[Interval],
    j: usize,
    changes: &mut Vec<Change>,
) -> Result<(), AllocError>
    requires few { length root.now ≤ 10 ^ 4 }
    requires width { length area.now ≡ length root.now }
    requires there { j < length root.now }
    requires told { IsToldTo j root.now area.now changes.old.items }
    ensures { OnOk result (IsToldTo (j + 1) root.now area.now changes.new.items) }
{
    if differ(area[j], root[j]) {
        changes.push(change_to(j as u32, area[j]))?;
    }
    Ok(())
}

fn differ(one: Interval, other: Interval) -> bool
    ensures { MatchBool result (one ≢ other) (one ≡ other) }
{
    one != other
}

// The change of a column to these bounds.
fn change_to(column: u32, bounds: Interval) -> Change
    ensures { result ≡ change_with column bounds }
{
    Change {
        column,
        low: bounds.low,
        high: bounds.high,
    }
}

/// The box that the changes make of the root's.
#[tactic(auto, using(crate::proofs::Areas::made))]
pub fn area_of(alloc: Global, root: &IntBox, changes: &Changes) -> Result<IntBox, AreaError>
    ensures outcome { MatchResult result
        (Spells root.now changes.now)
        (IsAreaRefused root.now changes.now) }
    ensures value { IfOk result (λ area. area ≡ area_by root.now changes.now) }
    ensures below { IfOk result (λ area. IsBelow area root.now) }
    // Changes that spell a box give it back.
    ensures back { (area : List Interval) → Spells root.now changes.now area
        → MatchResult result (λ made. made ≡ area) (λ e. e ≡ Memory) }
{
    if let Some(column) = first_bad(root.as_slice(), changes.as_slice()) {
        return Err(AreaError::Outside { column });
    }
    let sides = changed(alloc, root.as_slice(), changes.as_slice())?;
    Ok(IntBox::from_vec(sides))
}

// Returns the column of the first change that belongs to no box below the root.
fn first_bad(root: &[Interval], changes: &[Change]) -> Option<u32>
    ensures { MatchOption result
        (AreChangesOf root.now changes.now)
        (IsFirstBad root.now changes.now) }
{
    for change in changes {
        if !is_change_of(root, *change) {
            return Some(change.column);
        }
    }
    None
}

// Whether the column is there, and the bounds are closed, within the root's and not the root's.
pub(crate) fn is_change_of(root: &[Interval], change: Change) -> bool
    ensures { IsTrue result ↔ IsChangeOf root.now change }
{
    let column = change.column as usize;
    if root.len() <= column {
        return false;
    }
    let bounds = change.bounds();
    bounds != root[column] && is_closed_within(bounds, root[column])
}

// The root's intervals with those of the changes in their columns.
#[tactic(auto, using(crate::proofs::Areas::written))]
fn changed(
    alloc: Global,
    root: &[Interval],
    changes: &[Change],
) -> Result<Vec<Interval>, AllocError>
    requires rising { IsRising changes.now }
    requires valid { AreChangesOf root.now changes.now }
    ensures { IfOk result (λ sides. Spells root.now changes.now sides.items) }
{
    let mut sides = Vec::from_slice(alloc, root)?;
    write_all(&mut sides, changes);
    Ok(sides)
}

// Writes the bounds of each change into its column.
#[tactic(auto, using(crate::proofs::Areas::area_by_width))]
pub(crate) fn write_all(sides: &mut Vec<Interval>, changes: &[Change])
    requires { AreThere (length sides.old.items) changes.now }
    ensures { sides.new.items ≡ area_by sides.old.items changes.now }
{
    for change in changes {
        sides[change.column as usize] = change.bounds();
    }
}
