ghost use Rattle.std.specs.Prelude.{◌≡◌, ◌≤◌, ◌<◌, ◌*◌, ◌^◌, ◌+ℤ◌, ◌-ℤ◌, length, unsigned_abs};
ghost use Rattle.ug_rows.specs.Boxes.{interval_at};
ghost use Rattle.ug_rows.specs.Sums.{end_product};
ghost use Rattle.ug_rows.specs.declared.sums.Extreme.TheVariants.{Least, Greatest};
ghost use Rattle.ug_propagate.specs.Rounds.{keep_at_least, keep_at_most, lower_high, raise_low};
ghost use Rattle.ug_propagate.specs.Steps.{IsTermOf};
ghost use Rattle.ug_propagate.specs.Cuts.{IsInnerCut, cut_of};

use crate::measure::{minus, plus, product};
use crate::quotient::{ceiling_div, floor_div};
use crate::steps::{near, steps_within};
use crate::tight::Reason;
use ug_rows::{Extreme, Interval, Term};

/// What a bound makes of the interval of a column.
#[derive(Clone, Copy)]
pub enum Cut {
    /// It is as it was.
    Whole,
    /// Nothing is left of it.
    Nothing,
    /// This is left of it.
    To(Interval),
}

// The column satisfies at most `most`.
fn cut_below(reason: Reason, column: usize, most: i128, area: &[Interval]) -> Cut
    requires { column < length area.now }
    ensures value { cut_of reason column area.now result ≡ lower_high reason column most area.now }
    ensures inner { IsInnerCut (interval_at area.now column) result }
{
    let side = area[column];
    if i128::from(side.high) <= most {
        return Cut::Whole;
    }
    if most < i128::from(side.low) {
        return Cut::Nothing;
    }
    Cut::To(Interval {
        low: side.low,
        high: most as i32,
    })
}

// The column satisfies at least `least`.
fn cut_above(reason: Reason, column: usize, least: i128, area: &[Interval]) -> Cut
    requires { column < length area.now }
    ensures value { cut_of reason column area.now result ≡ raise_low reason column least area.now }
    ensures inner { IsInnerCut (interval_at area.now column) result }
{
    let side = area[column];
    if least <= i128::from(side.low) {
        return Cut::Whole;
    }
    if i128::from(side.high) < least {
        return Cut::Nothing;
    }
    Cut::To(Interval {
        low: least as i32,
        high: side.high,
    })
}

/// The product of the term and its column satisfies at most `most`.
#[tactic(auto, using(crate::proofs::Bodies::at_most_cases))]
pub fn cut_at_most(reason: Reason, term: Term, most: i128, area: &[Interval]) -> Cut
    requires term { IsTermOf (length area.now) term }
    requires most { unsigned_abs most ≤ 10 ^ 38 }
    ensures value { cut_of reason term.column area.now result
        ≡ keep_at_most reason term.factor term.column most area.now }
    ensures inner { IsInnerCut (interval_at area.now term.column) result }
{
    let column = term.column as usize;
    if term.factor > 0 {
        cut_below(reason, column, floor_div(most, term.factor), area)
    } else {
        cut_above(reason, column, ceiling_div(most, term.factor), area)
    }
}

/// The product of the term and its column satisfies at least `least`.
#[tactic(auto, using(crate::proofs::Bodies::at_least_cases))]
pub fn cut_at_least(reason: Reason, term: Term, least: i128, area: &[Interval]) -> Cut
    requires term { IsTermOf (length area.now) term }
    requires least { unsigned_abs least ≤ 10 ^ 38 }
    ensures value { cut_of reason term.column area.now result
        ≡ keep_at_least reason term.factor term.column least area.now }
    ensures inner { IsInnerCut (interval_at area.now term.column) result }
{
    let column = term.column as usize;
    if term.factor > 0 {
        cut_above(reason, column, ceiling_div(least, term.factor), area)
    } else {
        cut_below(reason, column, floor_div(least, term.factor), area)
    }
}

/// What a slack under the high side leaves of the term's column: its product goes at most that far
/// up from its least.
pub fn cut_up(reason: Reason, term: Term, slack: i128, area: &[Interval]) -> Cut
    requires term { IsTermOf (length area.now) term }
    requires slack { unsigned_abs slack ≤ 9 * 10 ^ 37 }
    ensures value { cut_of reason term.column area.now result
        ≡ keep_at_most reason term.factor term.column
        (slack +ℤ end_product Least term area.now) area.now }
    ensures inner { IsInnerCut (interval_at area.now term.column) result }
{
    let side = area[term.column as usize];
    if let Some(steps) = steps_within(slack, term.factor.unsigned_abs(), side) {
        return Cut::To(near(Extreme::Least, term.factor, side, steps));
    }
    let most = plus(slack, product(Extreme::Least, term, side));
    cut_at_most(reason, term, most, area)
}

/// What a slack over the low side leaves of it: its product goes at most that far down from its
/// greatest.
pub fn cut_down(reason: Reason, term: Term, slack: i128, area: &[Interval]) -> Cut
    requires term { IsTermOf (length area.now) term }
    requires slack { unsigned_abs slack ≤ 9 * 10 ^ 37 }
    ensures value { cut_of reason term.column area.now result
        ≡ keep_at_least reason term.factor term.column
        (end_product Greatest term area.now -ℤ slack) area.now }
    ensures inner { IsInnerCut (interval_at area.now term.column) result }
{
    let side = area[term.column as usize];
    if let Some(steps) = steps_within(slack, term.factor.unsigned_abs(), side) {
        return Cut::To(near(Extreme::Greatest, term.factor, side, steps));
    }
    let least = minus(product(Extreme::Greatest, term, side), slack);
    cut_at_least(reason, term, least, area)
}
