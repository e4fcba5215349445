ghost use Rattle.std.specs.Prelude.{◌≡◌, ◌+◌, ◌<◌, ◌≤◌, ◌↔◌, length, IsTrue, MatchBool};
ghost use Rattle.ug_rows.specs.Boxes.{interval_at};
ghost use Rattle.ug_nodes.specs.Changes.{IsRising, area_by};
ghost use Rattle.ug_desk.specs.Areas.{AreBefore, IsNext, IsNotNext};

use ug_nodes::{Change, Changes};
use ug_rows::{IntBox, Interval};

/// Whether a box is the one that the changes make of the root's. It takes no memory.
pub fn is_area_by(root: &IntBox, changes: &Changes, area: &IntBox) -> bool
    ensures { IsTrue result ↔ (area.now ≡ area_by root.now changes.now) }
{
    is_made(root.as_slice(), changes.as_slice(), area.as_slice())
}

#[tactic(auto, using(crate::proofs::Columns::one_differs, ug_nodes::proofs::Areas::area_by_width, crate::proofs::Columns::none_before))]
fn is_made(root: &[Interval], changes: &[Change], area: &[Interval]) -> bool
    requires { IsRising changes.now }
    ensures { IsTrue result ↔ (area.now ≡ area_by root.now changes.now) }
{
    if area.len() != root.len() {
        return false;
    }
    let mut before = 0;
    for j in 0..root.len() {
        if area[j] != side_by(root, changes, before, j) {
            return false;
        }
        before = passed(changes, before, j);
    }
    true
}

// Returns the interval that the changes give to column j, of which `before` are of columns before
// it.
#[tactic(auto, using(crate::proofs::Columns::side_changed, crate::proofs::Columns::side_kept))]
fn side_by(root: &[Interval], changes: &[Change], before: usize, j: usize) -> Interval
    requires rising { IsRising changes.now }
    requires there { j < length root.now }
    requires before { AreBefore changes.now j before }
    ensures { result ≡ interval_at (area_by root.now changes.now) j }
{
    if is_next(changes, before, j) {
        changes[before].bounds()
    } else {
        root[j]
    }
}

// Returns how many of the changes are of columns up to j, of which `before` are of columns before
// it.
#[tactic(auto, using(crate::proofs::Columns::one_passed, crate::proofs::Columns::none_passed))]
fn passed(changes: &[Change], before: usize, j: usize) -> usize
    requires rising { IsRising changes.now }
    requires before { AreBefore changes.now j before }
    ensures { AreBefore changes.now (j + 1) result }
{
    if is_next(changes, before, j) {
        before + 1
    } else {
        before
    }
}

// Is the change at place `before` of column j?
fn is_next(changes: &[Change], before: usize, j: usize) -> bool
    ensures { MatchBool result (IsNext changes.now before j) (IsNotNext changes.now before j) }
{
    before < changes.len() && changes[before].column as usize == j
}
