ghost use Rattle.std.specs.Prelude.{◌≡◌, ◌≢◌, ℕ, List, ◌+◌, ◌*◌, ◌^◌, ◌≤◌, ◌<◌, ◌↔◌, ◌+ℤ◌, ◌-ℤ◌, ◌*ℤ◌, length, slice_set, unsigned_abs, IsTrue, MatchOption};
ghost use Rattle.ug_rows.specs.declared.area.Interval.{Interval};
ghost use Rattle.ug_rows.specs.declared.sums.Extreme.TheVariants.{Least};
ghost use Rattle.ug_rows.specs.Boxes.{interval_at};
ghost use Rattle.ug_rows.specs.Rows.{IsAmong, IsLinear, term_at};
ghost use Rattle.ug_rows.specs.Sums.{box_floor, end_of, least_sum};
ghost use Rattle.ug_nodes.specs.Changes.{AreChangesOf, IsRising, area_by, change_bounds};
ghost use Rattle.ug_nodes.specs.Steps.{DoColumnsRise, IsColumnPlace};

use crate::change::{Change, Changes};
use ug_rows::{Extreme, IntBox, Interval, Objective, Term, add_end};

/// The least value of an objective over the points of the box that the changes make of the root's,
/// from the least over the root's. It makes no box, takes no memory, and looks for one term
/// for each change.
pub fn floor_of_changes(
    objective: &Objective,
    root: &IntBox,
    root_floor: i128,
    changes: &Changes,
) -> i128
    requires terms { IsLinear (length root.now) objective.now.terms }
    requires constant { unsigned_abs objective.now.constant ≤ 10 ^ 37 }
    requires floor { root_floor ≡ box_floor objective.now root.now }
    requires small { unsigned_abs root_floor ≤ 4 * 10 ^ 37 }
    requires changes { AreChangesOf root.now changes.now }
    ensures floor { result ≡ box_floor objective.now (area_by root.now changes.now) }
    ensures small { unsigned_abs result ≤ 9 * 10 ^ 37 }
{
    moved_by(
        objective.terms.as_slice(),
        root.as_slice(),
        root_floor,
        changes.as_slice(),
    )
}

fn moved_by(terms: &[Term], root: &[Interval], floor: i128, changes: &[Change]) -> i128
    requires linear { IsLinear (length root.now) terms.now }
    requires small { unsigned_abs floor ≤ 10 ^ 38 }
    requires valid { AreChangesOf root.now changes.now }
    requires rising { IsRising changes.now }
    ensures value { result +ℤ least_sum terms.now root.now
        ≡ floor +ℤ least_sum terms.now (area_by root.now changes.now) }
    ensures small { unsigned_abs result ≤ unsigned_abs floor + 5 * 10 ^ 37 }
{
    let mut total = floor;
    for change in changes {
        total = moved_by_one(terms, root, total, *change);
    }
    total
}

// The total moves as the least sum does when the change's bounds come in place of the root's.
fn moved_by_one(terms: &[Term], root: &[Interval], total: i128, change: Change) -> i128
    requires linear { IsLinear (length root.now) terms.now }
    requires small { unsigned_abs total ≤ 16 * 10 ^ 37 }
    requires there { change.column < length root.now }
    ensures value { (area : List Interval) → length area ≡ length root.now
        → interval_at area change.column ≡ interval_at root.now change.column
        → result +ℤ least_sum terms.now area
        ≡ total +ℤ least_sum terms.now (slice_set area change.column (change_bounds change)) }
    ensures small { unsigned_abs result ≤ unsigned_abs total + 10 ^ 24 * 2 ^ 32 }
{
    match term_of(terms, change.column) {
        Some(term) => replaced(total, term, root[change.column as usize], change.bounds()),
        None => total,
    }
}

// The total with a term at the least end of another interval than before.
fn replaced(total: i128, term: Term, before: Interval, after: Interval) -> i128
    requires total { unsigned_abs total ≤ 16 * 10 ^ 37 }
    requires factor { unsigned_abs term.factor ≤ 10 ^ 24 }
    ensures value { result ≡ (total -ℤ (term.factor *ℤ end_of Least term.factor before))
        +ℤ (term.factor *ℤ end_of Least term.factor after) }
    ensures small { unsigned_abs result ≤ unsigned_abs total + 10 ^ 24 * 2 ^ 32 }
{
    let old = add_end(Extreme::Least, 0, term, before);
    let new = add_end(Extreme::Least, 0, term, after);
    total - old + new
}

// The term of a column, if there is one.
fn term_of(terms: &[Term], column: u32) -> Option<Term>
    requires { DoColumnsRise terms.now }
    ensures { MatchOption result
        ((k : ℕ) → k < length terms.now → (term_at terms.now k).column ≢ column)
        (λ term. IsAmong term terms.now × (term.column ≡ column)) }
{
    // If each lower column has a term, this one's is at the column's own place.
    let own = column as usize;
    if is_of(terms, own, column) {
        return Some(terms[own]);
    }
    searched(terms, column)
}

// The same, by a search.
fn searched(terms: &[Term], column: u32) -> Option<Term>
    requires { DoColumnsRise terms.now }
    ensures { MatchOption result
        ((k : ℕ) → k < length terms.now → (term_at terms.now k).column ≢ column)
        (λ term. IsAmong term terms.now × (term.column ≡ column)) }
{
    let at = first_from(terms, column);
    if is_of(terms, at, column) {
        Some(terms[at])
    } else {
        None
    }
}

// How many terms are of columns before this one.
fn first_from(terms: &[Term], column: u32) -> usize
    requires { DoColumnsRise terms.now }
    ensures { IsColumnPlace terms.now column result }
{
    terms.partition_point(|term| term.column < column)
}

fn is_of(terms: &[Term], at: usize, column: u32) -> bool
    ensures { IsTrue result ↔ ((at < length terms.now) × ((term_at terms.now at).column ≡ column)) }
{
    at < terms.len() && terms[at].column == column
}
