ghost use Rattle.std.specs.Prelude.{◌≡◌, ◌+◌, ◌<◌, ◌≤◌, ◌↔◌, length, IsTrue, MatchOption, MatchResult};
ghost use Rattle.std.specs.Ordering.{MatchOrdering};
ghost use Rattle.ug_rows.specs.Boxes.{IsClosedWithin};
ghost use Rattle.ug_nodes.specs.Changes.{AreChangesOf, IsChangeOf, IsRising, change_at, change_bounds};
ghost use Rattle.ug_nodes.specs.Outside.{IsFirstOutside, SpellBelow};
ghost use Rattle.ug_nodes.specs.Steps.{ArePassed};

use crate::change::{Change, Changes};
use crate::spelling::is_change_of;
use std::cmp::Ordering;
use ug_rows::{IntBox, Interval, is_closed_within};

/// Returns the least column in which the changes spell no box below the one that `told` spells: its
/// change belongs to no box below the root, or its bounds, the root's if no change lists it, are
/// not within those given. Returns `None` exactly if the changes spell such a box. It makes no box,
/// takes no memory, and passes once over both lists.
pub fn first_outside(root: &IntBox, told: &Changes, changes: &Changes) -> Option<u32>
    requires { AreChangesOf root.now told.now }
    ensures { MatchOption result
        (SpellBelow root.now told.now changes.now)
        (IsFirstOutside root.now told.now changes.now) }
{
    outside_of(root.as_slice(), told.as_slice(), changes.as_slice())
}

#[tactic(auto, using(crate::proofs::Passes::none_passed))]
fn outside_of(root: &[Interval], told: &[Change], changes: &[Change]) -> Option<u32>
    requires valid { AreChangesOf root.now told.now }
    requires told { IsRising told.now }
    requires changes { IsRising changes.now }
    ensures { MatchOption result
        (SpellBelow root.now told.now changes.now)
        (IsFirstOutside root.now told.now changes.now) }
{
    let mut at = 0;
    for i in 0..changes.len() {
        match pass(root, told, at, changes, i) {
            Ok(next) => at = next,
            Err(column) => return Some(column),
        }
    }
    left(told, at)
}

// Passes one change more: how many of those given are passed then, or the column that does not
// fit.
fn pass(
    root: &[Interval],
    told: &[Change],
    at: usize,
    changes: &[Change],
    i: usize,
) -> Result<usize, u32>
    requires valid { AreChangesOf root.now told.now }
    requires told { IsRising told.now }
    requires changes { IsRising changes.now }
    requires there { i < length changes.now }
    requires passed { ArePassed root.now told.now changes.now i at }
    ensures { MatchResult result
        (ArePassed root.now told.now changes.now (i + 1))
        (IsFirstOutside root.now told.now changes.now) }
{
    let change = changes[i];
    match next_told(told, at, change.column) {
        Ordering::Less => Err(told[at].column),
        Ordering::Equal => {
            if is_change_within(root, change, told[at]) {
                Ok(at + 1)
            } else {
                Err(change.column)
            }
        }
        Ordering::Greater => {
            if is_change_of(root, change) {
                Ok(at)
            } else {
                Err(change.column)
            }
        }
    }
}

// How the column of the next given change stands to this one: as if behind it, where none is
// left.
fn next_told(told: &[Change], at: usize, column: u32) -> Ordering
    ensures { MatchOrdering result
        ((at < length told.now) × ((change_at told.now at).column < column))
        ((at < length told.now) × ((change_at told.now at).column ≡ column))
        (at < length told.now → column < (change_at told.now at).column) }
{
    if told.len() <= at {
        return Ordering::Greater;
    }
    told[at].column.cmp(&column)
}

fn is_change_within(root: &[Interval], change: Change, told: Change) -> bool
    ensures { IsTrue result ↔ (IsChangeOf root.now change
        × IsClosedWithin (change_bounds change) (change_bounds told)) }
{
    is_change_of(root, change) && is_closed_within(change.bounds(), told.bounds())
}

// The column of the next given change, if any is left.
fn left(told: &[Change], at: usize) -> Option<u32>
    ensures { MatchOption result
        (length told.now ≤ at)
        (λ column. (at < length told.now) × ((change_at told.now at).column ≡ column)) }
{
    if told.len() <= at {
        return None;
    }
    Some(told[at].column)
}
