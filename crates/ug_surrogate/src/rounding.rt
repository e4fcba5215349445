//! The sides of a row, moved inwards to the sums that it can have over a box.

ghost use Rattle.std.specs.Prelude.{◌≡◌, ◌≢◌, MatchBool, ℕ, max, pos, ◌+ℤ◌, ◌-ℤ◌, ◌*ℤ◌, ◌<◌, ◌≤◌, ◌*◌, ◌^◌, ◌+◌, ◌↔◌, IsTrue, length, option_map, unsigned_abs, IfSome};
ghost use Rattle.std.specs.Int.{IsGcd, int_div_euclid};
ghost use Rattle.ug_rows.specs.Boxes.{interval_at};
ghost use Rattle.ug_rows.specs.Rows.{IsLinear, term_at};
ghost use Rattle.ug_surrogate.specs.Weights.{rounded_up};
ghost use Rattle.ug_surrogate.specs.Rounding.{HasSmallSides, IsCommonDivisor, IsDivisorOf, IsNarrower, IsOpen, LosesNone, down_to_step, rounded_by, sides_or_empty, up_to_step};

use crate::exact::{divide_down, divide_up, minus, plus, times};
use ug_rows::{Extreme, IntBox, Interval, Row, Term, sum_of_ends};

/// The sides that are left of a row. A side that is `None` is infinite.
#[derive(Clone, Copy, Debug, PartialEq, Eq)]
pub struct Sides {
    pub low: Option<i128>,
    pub high: Option<i128>,
}

/// What rounding makes of the sides of a row.
#[derive(Clone, Copy, Debug, PartialEq, Eq)]
pub enum Narrowed {
    /// These sides are left.
    To(Sides),
    /// No sum that the row can have is within both sides.
    Empty,
}

// The greatest common divisor of two numbers, by Euclid's steps.
fn gcd(a: u128, b: u128) -> u128
    ensures value { IsGcd a b result }
    ensures small { result ≤ max a b }
{
    let mut x = a;
    let mut y = b;
    while y != 0 {
        let rest = x % y;
        x = y;
        y = rest;
    }
    x
}

// Whether a column has more than one value, or none.
fn is_open(side: Interval) -> bool
    ensures { MatchBool result (IsOpen side) (side.low ≡ side.high) }
{
    side.low != side.high
}

// The greatest common divisor of a divisor and a coefficient.
fn with_factor(divisor: u128, factor: i128) -> u128
    requires factor { unsigned_abs factor ≤ 10 ^ 24 }
    requires small { divisor ≤ 10 ^ 24 }
    ensures value { IsGcd divisor (unsigned_abs factor) result }
    ensures small { result ≤ 10 ^ 24 }
{
    gcd(divisor, factor.unsigned_abs())
}

// A common divisor with one term more.
#[tactic(auto, using(crate::proofs::Divisors::with_open, crate::proofs::Divisors::with_fixed))]
fn with_term(divisor: u128, terms: &[Term], k: usize, area: &[Interval]) -> u128
    requires there { k < length terms.now }
    requires column { (term_at terms.now k).column < length area.now }
    requires factor { unsigned_abs (term_at terms.now k).factor ≤ 10 ^ 24 }
    requires small { divisor ≤ 10 ^ 24 }
    requires so_far { IsDivisorOf terms.now area.now k divisor }
    ensures value { IsDivisorOf terms.now area.now (k + 1) result }
    ensures small { result ≤ 10 ^ 24 }
{
    if is_open(area[terms[k].column as usize]) {
        with_factor(divisor, terms[k].factor)
    } else {
        divisor
    }
}

// The greatest common divisor of the coefficients of the open columns, 0 where none is open.
#[tactic(auto, using(crate::proofs::Divisors::with_none))]
fn common_divisor(terms: &[Term], area: &[Interval]) -> u128
    requires { IsLinear (length area.now) terms.now }
    ensures value { IsCommonDivisor terms.now area.now result }
    ensures small { result ≤ 10 ^ 24 }
{
    let mut divisor = 0;
    for k in 0..terms.len() {
        divisor = with_term(divisor, terms, k, area);
    }
    divisor
}

// A sum and this many steps of the divisor.
fn add_steps(base: i128, divisor: u128, steps: i128) -> i128
    requires base { unsigned_abs base ≤ 3 * 10 ^ 37 }
    requires divisor { divisor ≤ 10 ^ 24 }
    requires steps { divisor * unsigned_abs steps ≤ 7 * 10 ^ 37 }
    ensures { result ≡ base +ℤ (pos divisor *ℤ steps) }
{
    plus(base, times(divisor as i128, steps))
}

// Returns the number of steps up from the base that reach `low`.
fn steps_up(divisor: u128, base: i128, low: i128) -> i128
    requires some { 0 < divisor }
    requires divisor { divisor ≤ 10 ^ 24 }
    requires base { unsigned_abs base ≤ 3 * 10 ^ 37 }
    requires low { unsigned_abs low ≤ 3 * 10 ^ 37 }
    ensures value { result ≡ rounded_up (low -ℤ base) divisor }
    ensures product { divisor * unsigned_abs result ≤ 7 * 10 ^ 37 }
{
    divide_up(minus(low, base), divisor)
}

// How many steps up from the base can be made below `high`.
fn steps_down(divisor: u128, base: i128, high: i128) -> i128
    requires some { 0 < divisor }
    requires divisor { divisor ≤ 10 ^ 24 }
    requires base { unsigned_abs base ≤ 3 * 10 ^ 37 }
    requires high { unsigned_abs high ≤ 3 * 10 ^ 37 }
    ensures value { result ≡ int_div_euclid (high -ℤ base) (pos divisor) }
    ensures product { divisor * unsigned_abs result ≤ 7 * 10 ^ 37 }
{
    divide_down(minus(high, base), divisor)
}

// The least of the sums base, base + divisor, .., down and up, that is at least `low`.
fn step_up(divisor: u128, base: i128, low: i128) -> i128
    requires some { 0 < divisor }
    requires divisor { divisor ≤ 10 ^ 24 }
    requires base { unsigned_abs base ≤ 3 * 10 ^ 37 }
    requires low { unsigned_abs low ≤ 3 * 10 ^ 37 }
    ensures { result ≡ up_to_step divisor base low }
{
    add_steps(base, divisor, steps_up(divisor, base, low))
}

// The greatest of them that is at most `high`.
fn step_down(divisor: u128, base: i128, high: i128) -> i128
    requires some { 0 < divisor }
    requires divisor { divisor ≤ 10 ^ 24 }
    requires base { unsigned_abs base ≤ 3 * 10 ^ 37 }
    requires high { unsigned_abs high ≤ 3 * 10 ^ 37 }
    ensures { result ≡ down_to_step divisor base high }
{
    add_steps(base, divisor, steps_down(divisor, base, high))
}

fn low_up(divisor: u128, base: i128, low: Option<i128>) -> Option<i128>
    requires some { 0 < divisor }
    requires divisor { divisor ≤ 10 ^ 24 }
    requires base { unsigned_abs base ≤ 3 * 10 ^ 37 }
    requires low { IfSome low (λ low. unsigned_abs low ≤ 3 * 10 ^ 37) }
    ensures { result ≡ option_map (up_to_step divisor base) low }
{
    match low {
        Some(low) => Some(step_up(divisor, base, low)),
        None => None,
    }
}

fn high_down(divisor: u128, base: i128, high: Option<i128>) -> Option<i128>
    requires some { 0 < divisor }
    requires divisor { divisor ≤ 10 ^ 24 }
    requires base { unsigned_abs base ≤ 3 * 10 ^ 37 }
    requires high { IfSome high (λ high. unsigned_abs high ≤ 3 * 10 ^ 37) }
    ensures { result ≡ option_map (down_to_step divisor base) high }
{
    match high {
        Some(high) => Some(step_down(divisor, base, high)),
        None => None,
    }
}

// These sides, if a sum can satisfy both.
fn sides_left(low: Option<i128>, high: Option<i128>) -> Narrowed
    ensures { result ≡ sides_or_empty low high }
{
    match (low, high) {
        (Some(least), Some(most)) if most < least => Narrowed::Empty,
        _ => Narrowed::To(Sides { low, high }),
    }
}

// Returns the rest of the sides of a row whose sums over the box differ by multiples of a divisor.
fn narrowed_by(divisor: u128, row: &Row, area: &[Interval]) -> Narrowed
    requires divisor { divisor ≤ 10 ^ 24 }
    requires terms { IsLinear (length area.now) row.now.terms }
    requires sides { HasSmallSides row.now }
    ensures { result ≡ rounded_by divisor row.now area.now }
{
    if divisor < 2 {
        return Narrowed::To(Sides {
            low: row.low,
            high: row.high,
        });
    }
    let base = sum_of_ends(Extreme::Least, row.terms.as_slice(), area);
    let low = low_up(divisor, base, row.low);
    sides_left(low, high_down(divisor, base, row.high))
}

/// Returns the rest of the sides of a row if its sums over a box differ by multiples of a common
/// divisor of the coefficients of the open columns: no point of the box that satisfies the row is
/// lost. If there is no such divisor above 1, the sides stay as they are. Takes no memory.
pub fn rounded(row: &Row, area: &IntBox) -> Narrowed
    requires terms { IsLinear (length area.now) row.now.terms }
    requires sides { HasSmallSides row.now }
    ensures value { (g : ℕ) × IsCommonDivisor row.now.terms area.now g
        × (result ≡ rounded_by g row.now area.now) }
    ensures kept { LosesNone row.now area.now result }
    ensures narrower { IsNarrower row.now result }
{
    let divisor = common_divisor(row.terms.as_slice(), area.as_slice());
    narrowed_by(divisor, row, area.as_slice())
}
