//! One pass over the terms of a row in 64 bits: its sums, how far its terms reach, and whether it
//! is short.

ghost use Rattle.std.specs.Prelude.{◌≡◌, ◌+◌, ◌<◌, ◌≤◌, ◌*◌, ◌^◌, ◌+ℤ◌, ◌-ℤ◌, ◌*ℤ◌, ◌≤ℤ◌, ◌⊎◌, length, unsigned_abs, IfSome};
ghost use Rattle.ug_rows.specs.Boxes.{HasSmallEnds};
ghost use Rattle.ug_rows.specs.Rows.{IsLinear};
ghost use Rattle.ug_rows.specs.Sums.{end_of};
ghost use Rattle.ug_rows.specs.declared.sums.Extreme.TheVariants.{Least, Greatest};
ghost use Rattle.ug_propagate.specs.Shorts.{IsShortMeasured};

use crate::short::{MOST_SIZE, small_minus, small_plus, small_product};
use ug_rows::{Extreme, Interval, Term, end_at};

/// The least and the greatest sum of a row over a box, and a number that no span of a term is
/// above, in 64 bits.
#[derive(Clone, Copy)]
pub struct ShortEnds {
    pub least: i64,
    pub greatest: i64,
    pub widest: i64,
}

// The product of a term at an end of its column's interval.
fn end_product(extreme: Extreme, term: Term, side: Interval) -> i64
    requires { unsigned_abs term.factor ≤ 2 ^ 29 }
    ensures value { result ≡ term.factor *ℤ end_of extreme term.factor side }
    ensures small { unsigned_abs result ≤ unsigned_abs term.factor * 2 ^ 31 }
    ensures side { HasSmallEnds side }
{
    let end = end_at(extreme, term.factor, side);
    small_product(term.factor as i64, i64::from(end))
}

fn larger(a: i64, b: i64) -> i64
    ensures first { a ≤ℤ result }
    ensures second { b ≤ℤ result }
{
    if a < b { b } else { a }
}

// The sums and the widest span with one term more.
fn with_term(ends: ShortEnds, term: Term, side: Interval) -> ShortEnds
    requires least { unsigned_abs ends.least ≤ 2 ^ 60 }
    requires greatest { unsigned_abs ends.greatest ≤ 2 ^ 60 }
    requires factor { unsigned_abs term.factor ≤ 2 ^ 29 }
    ensures least { result.least ≡ ends.least +ℤ (term.factor *ℤ end_of Least term.factor side) }
    ensures greatest { result.greatest
        ≡ ends.greatest +ℤ (term.factor *ℤ end_of Greatest term.factor side) }
    ensures span { ((term.factor *ℤ end_of Greatest term.factor side) -ℤ
        (term.factor *ℤ end_of Least term.factor side)) ≤ℤ result.widest }
    ensures widest { ends.widest ≤ℤ result.widest }
    ensures small_least { unsigned_abs result.least
        ≤ unsigned_abs ends.least + unsigned_abs term.factor * 2 ^ 31 }
    ensures small_greatest { unsigned_abs result.greatest
        ≤ unsigned_abs ends.greatest + unsigned_abs term.factor * 2 ^ 31 }
    ensures side { HasSmallEnds side }
{
    let least = end_product(Extreme::Least, term, side);
    let greatest = end_product(Extreme::Greatest, term, side);
    ShortEnds {
        least: small_plus(ends.least, least),
        greatest: small_plus(ends.greatest, greatest),
        widest: larger(ends.widest, small_minus(greatest, least)),
    }
}

/// One pass over the terms of a row. There is nothing where the row is not short.
pub fn measure_short(terms: &[Term], area: &[Interval]) -> Option<ShortEnds>
    requires { IsLinear (length area.now) terms.now }
    ensures { IfSome result (IsShortMeasured terms.now area.now) }
{
    let mut ends = ShortEnds {
        least: 0,
        greatest: 0,
        widest: 0,
    };
    let mut left = MOST_SIZE;
    for term in terms {
        let size = term.factor.unsigned_abs();
        if size > left {
            return None;
        }
        left -= size;
        ends = with_term(ends, *term, area[term.column as usize]);
    }
    Some(ends)
}
