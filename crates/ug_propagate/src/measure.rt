ghost use Rattle.std.specs.Prelude.{◌≡◌, ◌≤◌, ◌<◌, ◌*◌, ◌^◌, ◌+◌, ◌+ℤ◌, ◌-ℤ◌, ◌*ℤ◌, ◌≤ℤ◌, ◌⊎◌, length, unsigned_abs, IfSome};
ghost use Rattle.ug_rows.specs.Boxes.{HasSmallEnds};
ghost use Rattle.ug_rows.specs.Rows.{IsLinear};
ghost use Rattle.ug_rows.specs.Sums.{end_of};
ghost use Rattle.ug_rows.specs.declared.sums.Extreme.TheVariants.{Least, Greatest};
ghost use Rattle.ug_propagate.specs.Running.{AreMoves, IsSummed};
ghost use Rattle.ug_propagate.specs.Shorts.{IsShort, IsShortSlack, IsShortSpan};
ghost use Rattle.ug_propagate.specs.Steps.{IsMeasured, IsPropagable, IsSlackOf, IsTermOf, high_of, low_of, span_of};

use crate::row_sides::RowSides;
use crate::sums::Extremes;
use ug_rows::{Extreme, Interval, Term, add_end, end_at};

/// The least and the greatest sum of a row over a box, and a number that no span of a term is
/// above.
#[derive(Clone, Copy)]
pub struct Ends {
    pub least: i128,
    pub greatest: i128,
    pub widest: i128,
}

/// How far the least sum of a row is below its high side, and the greatest above its low side.
#[derive(Clone, Copy)]
pub struct Slack {
    pub high: i128,
    pub low: i128,
}

/// How far the ends of an interval go.
#[derive(Clone, Copy)]
pub struct Moves {
    pub low: i64,
    pub high: i64,
}

/// A sum of two numbers.
pub fn plus(a: i128, b: i128) -> i128
    requires { unsigned_abs a + unsigned_abs b ≤ 10 ^ 38 }
    ensures value { result ≡ a +ℤ b }
    ensures small { unsigned_abs result ≤ unsigned_abs a + unsigned_abs b }
{
    a + b
}

/// A difference of two numbers.
pub fn minus(a: i128, b: i128) -> i128
    requires { unsigned_abs a + unsigned_abs b ≤ 10 ^ 38 }
    ensures value { result ≡ a -ℤ b }
    ensures small { unsigned_abs result ≤ unsigned_abs a + unsigned_abs b }
{
    a - b
}

/// How far apart two ends are.
pub fn apart(near: i32, far: i32) -> i64
    ensures value { result ≡ far -ℤ near }
    ensures small { unsigned_abs result ≤ 2 ^ 32 }
{
    i64::from(far) - i64::from(near)
}

// The product of a coefficient and a number of 33 bits.
fn times(factor: i128, width: i64) -> i128
    requires factor { unsigned_abs factor ≤ 10 ^ 24 }
    requires width { unsigned_abs width ≤ 2 ^ 32 }
    ensures value { result ≡ factor *ℤ width }
    ensures small { unsigned_abs result ≤ 10 ^ 24 * 2 ^ 32 }
{
    factor * i128::from(width)
}

/// How far the ends go from one interval to another.
pub fn moves_between(before: Interval, after: Interval) -> Moves
    ensures { AreMoves before after result }
{
    Moves {
        low: apart(before.low, after.low),
        high: apart(before.high, after.high),
    }
}

/// Adds the product of a coefficient and how far an end went. An end that stays costs neither a
/// product nor a write.
pub fn add_move(sum: &mut i128, factor: i128, by: i64)
    requires sum { unsigned_abs sum.old ≤ 3 * 10 ^ 37 }
    requires factor { unsigned_abs factor ≤ 10 ^ 24 }
    requires by { unsigned_abs by ≤ 2 ^ 32 }
    ensures { sum.new ≡ sum.old +ℤ (factor *ℤ by) }
{
    if by != 0 {
        *sum = plus(*sum, times(factor, by));
    }
}

// How the product of a coefficient changes from one end to another.
fn change(factor: i128, before: i32, after: i32) -> i128
    requires { unsigned_abs factor ≤ 10 ^ 24 }
    ensures value { result ≡ (factor *ℤ after) -ℤ (factor *ℤ before) }
    ensures small { unsigned_abs result ≤ 10 ^ 24 * 2 ^ 32 }
{
    times(factor, apart(before, after))
}

/// How far the product of the term goes over the box.
pub fn span(term: Term, area: &[Interval]) -> i128
    requires { IsTermOf (length area.now) term }
    ensures value { result ≡ span_of term area.now }
    ensures small { unsigned_abs result ≤ 10 ^ 24 * 2 ^ 32 }
{
    let side = area[term.column as usize];
    let near = end_at(Extreme::Least, term.factor, side);
    let far = end_at(Extreme::Greatest, term.factor, side);
    change(term.factor, near, far)
}

// A coefficient of 32 bits: its product with a number of 33 bits is of 64.
const MOST_SHORT_FACTOR: i128 = 2_147_483_647;

// The product of a coefficient and a number of 33 bits, in 64 bits.
fn short_times(factor: i64, width: i64) -> i64
    requires factor { unsigned_abs factor < 2 ^ 31 }
    requires width { unsigned_abs width ≤ 2 ^ 32 }
    ensures value { result ≡ factor *ℤ width }
    ensures small { unsigned_abs result < 2 ^ 63 }
{
    factor * width
}

// How the product of a coefficient changes from one end to another, in 64 bits.
fn short_change(factor: i64, before: i32, after: i32) -> i64
    requires { unsigned_abs factor < 2 ^ 31 }
    ensures value { result ≡ (factor *ℤ after) -ℤ (factor *ℤ before) }
    ensures small { unsigned_abs result < 2 ^ 63 }
{
    short_times(factor, apart(before, after))
}

/// The span of a term in 64 bits, where its column has one value or its coefficient is of 32 bits.
#[tactic(auto, using(crate::proofs::Shorts::no_span))]
pub fn short_span(term: Term, area: &[Interval]) -> Option<i64>
    requires { IsTermOf (length area.now) term }
    ensures { IfSome result (IsShortSpan term area.now) }
{
    let side = area[term.column as usize];
    if side.low == side.high {
        return Some(0);
    }
    if term.factor > MOST_SHORT_FACTOR || term.factor < -MOST_SHORT_FACTOR {
        return None;
    }
    let near = end_at(Extreme::Least, term.factor, side);
    let far = end_at(Extreme::Greatest, term.factor, side);
    Some(short_change(term.factor as i64, near, far))
}

/// The product of a term at an end of its column's interval, whose ends are i32 numbers.
pub fn product(extreme: Extreme, term: Term, side: Interval) -> i128
    requires { unsigned_abs term.factor ≤ 10 ^ 24 }
    ensures value { result ≡ term.factor *ℤ end_of extreme term.factor side }
    ensures small { unsigned_abs result ≤ 10 ^ 24 * 2 ^ 31 }
    ensures side { HasSmallEnds side }
{
    add_end(extreme, 0, term, side)
}

fn larger(a: i128, b: i128) -> i128
    ensures first { a ≤ℤ result }
    ensures second { b ≤ℤ result }
    ensures one { (result ≡ a) ⊎ (result ≡ b) }
{
    if a < b { b } else { a }
}

// The sums and the widest span with one term more.
fn with_term(ends: Ends, term: Term, side: Interval) -> Ends
    requires least { unsigned_abs ends.least ≤ 3 * 10 ^ 37 }
    requires greatest { unsigned_abs ends.greatest ≤ 3 * 10 ^ 37 }
    requires factor { unsigned_abs term.factor ≤ 10 ^ 24 }
    ensures least { result.least ≡ ends.least +ℤ (term.factor *ℤ end_of Least term.factor side) }
    ensures greatest { result.greatest
        ≡ ends.greatest +ℤ (term.factor *ℤ end_of Greatest term.factor side) }
    ensures span { ((term.factor *ℤ end_of Greatest term.factor side) -ℤ
        (term.factor *ℤ end_of Least term.factor side)) ≤ℤ result.widest }
    ensures widest { ends.widest ≤ℤ result.widest }
    ensures small_least { unsigned_abs result.least ≤ unsigned_abs ends.least + 10 ^ 24 * 2 ^ 31 }
    ensures small_greatest { unsigned_abs result.greatest
        ≤ unsigned_abs ends.greatest + 10 ^ 24 * 2 ^ 31 }
    ensures side { HasSmallEnds side }
{
    let least = product(Extreme::Least, term, side);
    let greatest = product(Extreme::Greatest, term, side);
    Ends {
        least: plus(ends.least, least),
        greatest: plus(ends.greatest, greatest),
        widest: larger(ends.widest, minus(greatest, least)),
    }
}

/// One pass over the terms of a row.
pub fn measure(terms: &[Term], area: &[Interval]) -> Ends
    requires { IsLinear (length area.now) terms.now }
    ensures measured { IsMeasured terms.now area.now result }
    ensures least { unsigned_abs result.least ≤ 3 * 10 ^ 37 }
    ensures greatest { unsigned_abs result.greatest ≤ 3 * 10 ^ 37 }
{
    let mut ends = Ends {
        least: 0,
        greatest: 0,
        widest: 0,
    };
    for term in terms {
        ends = with_term(ends, *term, area[term.column as usize]);
    }
    ends
}

// The greatest number of 64 bits.
const MOST_SHORT: i128 = 9_223_372_036_854_775_807;

// The number in 64 bits, or the end of their range that it is beyond.
fn short(number: i128) -> i64
    ensures { IsShort number result }
{
    if number > MOST_SHORT {
        return i64::MAX;
    }
    if number < -MOST_SHORT {
        return i64::MIN;
    }
    number as i64
}

fn lesser(a: i64, b: i64) -> i64
    ensures first { result ≤ℤ a }
    ensures second { result ≤ℤ b }
{
    if a < b { a } else { b }
}

/// The smaller slack of the two sides in 64 bits.
pub fn short_slack(slack: Slack) -> i64
    requires high { unsigned_abs slack.high ≤ 9 * 10 ^ 37 }
    requires low { unsigned_abs slack.low ≤ 9 * 10 ^ 37 }
    ensures { IsShortSlack slack result }
{
    let high = short(slack.high);
    let low = short(slack.low);
    lesser(high, low)
}

// A side of a row, or where there is none a number that no sum reaches.
const NO_SIDE: i128 = 60_000_000_000_000_000_000_000_000_000_000_000_000;

fn high_or_none(high: Option<i128>) -> i128
    ensures { result ≡ high_of high }
{
    match high {
        Some(high) => high,
        None => NO_SIDE,
    }
}

fn low_or_none(low: Option<i128>) -> i128
    ensures { result ≡ low_of low }
{
    match low {
        Some(low) => low,
        None => -NO_SIDE,
    }
}

/// The slack that running sums leave within the sides of the row.
pub fn slack_between(
    row_sides: RowSides,
    terms: &[Term],
    ends: Extremes,
    area: &[Interval],
) -> Slack
    requires ready { IsPropagable (length area.now) row_sides terms.now }
    requires summed { IsSummed terms.now area.now ends }
    requires least { unsigned_abs ends.least ≤ 3 * 10 ^ 37 }
    requires greatest { unsigned_abs ends.greatest ≤ 3 * 10 ^ 37 }
    ensures { IsSlackOf row_sides terms.now area.now result }
{
    Slack {
        high: minus(high_or_none(row_sides.high), ends.least),
        low: minus(ends.greatest, low_or_none(row_sides.low)),
    }
}
