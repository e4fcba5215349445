ghost use Rattle.std.specs.Prelude.{◌≡◌, ◌↔◌, ℕ, ℤ, pos, ◌+ℤ◌, ◌*ℤ◌, ◌+◌, ◌^◌, ◌<◌, ◌≤◌, ◌≤ℤ◌, ◌<ℤ◌, length, IfSome, IsNone, IsTrue, MatchBool, true};
ghost use Rattle.ug_rows.specs.Boxes.{interval_at};
ghost use Rattle.ug_branch.specs.Choices.{width_of, IsOpen, HasNoneOpen, AreClosed, IsAhead, IsFirstAhead, IsMiddle, IsBest, IsChosen, AreHalves};

use crate::params::{End, Params, Pick};
use ug_rows::{IntBox, Interval};

/// The split of a box: the column, and the value that ends its lower half.
#[derive(Clone, Copy, PartialEq, Eq)]
pub struct Branch {
    pub column: u32,
    pub middle: i32,
}

/// If to branch the box, or none if each of its columns has its high at most its low.
pub fn choose(params: Params, area: &IntBox) -> Option<Branch>
    requires { length area.now ≤ 10 ^ 4 }
    ensures none { IsNone result ↔ HasNoneOpen area.now }
    ensures chosen { IfSome result (IsChosen params area.now) }
    // Each point of the box is in one of the two branches, and in one alone.
    ensures halves { IfSome result (AreHalves area.now) }
{
    branch_of(params, area.as_slice())
}

/// The same of the box with these intervals.
pub fn branch_of(params: Params, sides: &[Interval]) -> Option<Branch>
    requires { length sides.now ≤ 10 ^ 4 }
    ensures none { IsNone result ↔ HasNoneOpen sides.now }
    ensures chosen { IfSome result (IsChosen params sides.now) }
    ensures halves { IfSome result (AreHalves sides.now) }
{
    branch_from(params, sides, 0)
}

/// The same where the first columns are known to be closed, this many: they are not examined.
#[tactic(auto, using(crate::proofs::ChoiceLemmas::is_chosen, crate::proofs::ChoiceLemmas::is_not_fixed))]
pub fn branch_from(params: Params, sides: &[Interval], first: usize) -> Option<Branch>
    requires few { length sides.now ≤ 10 ^ 4 }
    requires closed { AreClosed first sides.now }
    ensures none { IsNone result ↔ HasNoneOpen sides.now }
    ensures chosen { IfSome result (IsChosen params sides.now) }
    ensures halves { IfSome result (AreHalves sides.now) }
{
    match best_column(params, sides, first) {
        Some(column) => Some(branch_at(sides, column)),
        None => None,
    }
}

// The branch on an open column.
fn branch_at(sides: &[Interval], column: usize) -> Branch
    requires few { length sides.now ≤ 10 ^ 4 }
    requires open { IsOpen sides.now column }
    ensures column { result.column ≡ column }
    ensures middle { IsMiddle (interval_at sides.now column) result.middle }
{
    Branch {
        column: column as u32,
        middle: middle(sides[column]),
    }
}

// The value that ends the lower half of an open interval.
fn middle(side: Interval) -> i32
    requires { side.low <ℤ side.high }
    ensures low { (pos 2 *ℤ result) ≤ℤ (side.low +ℤ side.high) }
    ensures high { (side.low +ℤ side.high) <ℤ ((pos 2 *ℤ result) +ℤ pos 2) }
{
    let sum = i64::from(side.low) + i64::from(side.high);
    sum.div_euclid(2) as i32
}

// The open column that is ahead of all open ones, if there is one. If the place decides and the
// lowest wins it is the first open one, and the columns behind it, thousands in a wide box, are not
// examined.
#[tactic(auto, using(crate::proofs::ChoiceLemmas::first_wins, crate::proofs::ChoiceLemmas::best_of_all))]
fn best_column(params: Params, sides: &[Interval], first: usize) -> Option<usize>
    requires { AreClosed first sides.now }
    ensures { IsBest params sides.now (length sides.now) result }
{
    let mut best = None;
    for c in first..sides.len() {
        best = best_with(params, sides, best, c);
        if best.is_some() && is_first_ahead(params) {
            return best;
        }
    }
    best
}

// Whether each column is ahead of all those behind it.
fn is_first_ahead(params: Params) -> bool
    ensures { result ≡ true → IsFirstAhead params }
{
    match params.pick {
        Pick::Place => match params.end {
            End::Lowest => true,
            End::Highest => false,
        },
        Pick::Width => false,
    }
}

// The best of the columns before, or column c.
#[tactic(auto, using(crate::proofs::ChoiceLemmas::closed_next, crate::proofs::ChoiceLemmas::first_open))]
fn best_with(params: Params, sides: &[Interval], best: Option<usize>, c: usize) -> Option<usize>
    requires there { c < length sides.now }
    requires best { IsBest params sides.now c best }
    ensures { IsBest params sides.now (c + 1) result }
{
    if !is_open(sides[c]) {
        return best;
    }
    match best {
        Some(before) => Some(first_of(params, sides, before, c)),
        None => Some(c),
    }
}

// Whether the interval has its low below its high.
fn is_open(side: Interval) -> bool
    ensures { IsTrue result ↔ (side.low <ℤ side.high) }
{
    side.low < side.high
}

// Which of two open columns is ahead, if the one is ahead of all open ones before the other.
#[tactic(auto, using(crate::proofs::ChoiceLemmas::best_stays, crate::proofs::ChoiceLemmas::best_changes))]
fn first_of(params: Params, sides: &[Interval], before: usize, later: usize) -> usize
    requires best { IsBest params sides.now later (Some before) }
    requires open { IsOpen sides.now later }
    ensures { IsBest params sides.now (later + 1) (Some result) }
{
    if is_ahead(params, sides, before, later) {
        later
    } else {
        before
    }
}

// Whether a column is ahead of one before it.
fn is_ahead(params: Params, sides: &[Interval], before: usize, later: usize) -> bool
    requires before { before < later }
    requires later { later < length sides.now }
    ensures { MatchBool result (IsAhead params sides.now later before)
        (IsAhead params sides.now before later) }
{
    match params.pick {
        Pick::Place => match params.end {
            End::Lowest => false,
            End::Highest => true,
        },
        Pick::Width => match params.end {
            End::Lowest => width(sides[before]) < width(sides[later]),
            End::Highest => width(sides[before]) <= width(sides[later]),
        },
    }
}

// How far the interval's high is above its low.
fn width(side: Interval) -> i64
    ensures { result ≡ width_of side }
{
    i64::from(side.high) - i64::from(side.low)
}
