//! Rows whose sides and slacks are of 64 bits.

ghost use Rattle.std.specs.Prelude.{◌≡◌, ◌≤◌, ◌^◌, ◌-ℤ◌, length, unsigned_abs, IfSome, IsTrue};
ghost use Rattle.ug_problem.specs.ColumnEntries.{terms_of};
ghost use Rattle.ug_propagate.specs.Shorts.{AreNearSlacks, AreShort, IsShortHigh, IsShortSides, IsShortLow};
ghost use Rattle.ug_propagate.specs.Steps.{IsPropagable};
ghost use Rattle.ug_propagate.specs.Working.{IsBox};

use crate::row_sides::RowSides;
use crate::rows::shortened;
use crate::short::small_minus;
use crate::working::Working;
use ug_problem::Problem;

/// The sides of row r if they are of 64 bits: a side that is missing is a number that no sum
/// reaches.
#[derive(Clone, Copy)]
pub struct ShortSides {
    pub r: usize,
    pub row_sides: RowSides,
    pub low: i64,
    pub high: i64,
}

/// The slack within the sides, or a number that is not above it and that no span is above.
#[derive(Clone, Copy)]
pub struct ShortSlack {
    pub high: i64,
    pub low: i64,
}

// The most that a side may be: 2^61. Sums are at most 2^60, so a slack is then of 64 bits.
const MOST_SIDE: i128 = 2_305_843_009_213_693_952;

// A high side where there is none: 2^62. It leaves more slack than 2^61, the most of a span.
const NO_SIDE: i64 = 4_611_686_018_427_387_904;

fn is_small(side: Option<i128>) -> bool
    ensures { IsTrue result → IfSome side (λ n. unsigned_abs n ≤ 2 ^ 61) }
{
    match side {
        Some(side) => side <= MOST_SIDE && side >= -MOST_SIDE,
        None => true,
    }
}

fn short_high(high: Option<i128>) -> i64
    requires { IfSome high (λ n. unsigned_abs n ≤ 2 ^ 61) }
    ensures { IsShortHigh high result }
{
    match high {
        Some(high) => high as i64,
        None => NO_SIDE,
    }
}

fn short_low(low: Option<i128>) -> i64
    requires { IfSome low (λ n. unsigned_abs n ≤ 2 ^ 61) }
    ensures { IsShortLow low result }
{
    match low {
        Some(low) => low as i64,
        None => -NO_SIDE,
    }
}

/// The sides of row r of a problem whose sums are short, if its sides are of 64 bits.
pub fn short_sides(problem: &Problem, r: usize, row_sides: RowSides) -> Option<ShortSides>
    requires there { r ≤ length problem.now.rows }
    requires short { AreShort problem.now }
    requires row { IsPropagable (length problem.now.columns) row_sides (terms_of problem.now r) }
    ensures is { IfSome result (IsShortSides problem.now) }
    ensures row { IfSome result (λ s. s.r ≡ r) }
    ensures row_sides { IfSome result (λ s. s.row_sides ≡ row_sides) }
{
    if is_small(row_sides.high) && is_small(row_sides.low) {
        Some(ShortSides {
            r,
            row_sides,
            low: short_low(row_sides.low),
            high: short_high(row_sides.high),
        })
    } else {
        None
    }
}

// The slack that sums leave within the sides.
fn slack_within(s: ShortSides, least: i64, greatest: i64) -> ShortSlack
    requires high { unsigned_abs s.high ≤ 2 ^ 62 }
    requires low { unsigned_abs s.low ≤ 2 ^ 62 }
    requires least { unsigned_abs least ≤ 2 ^ 60 }
    requires greatest { unsigned_abs greatest ≤ 2 ^ 60 }
    ensures high { result.high ≡ s.high -ℤ least }
    ensures low { result.low ≡ greatest -ℤ s.low }
{
    ShortSlack {
        high: small_minus(s.high, least),
        low: small_minus(greatest, s.low),
    }
}

/// The slack that the sums of the row leave within its sides.
pub fn short_slack(work: &Working, problem: &Problem, s: ShortSides) -> ShortSlack
    requires row_sides { IsShortSides problem.now s }
    requires work { IsBox problem.now work.now }
    ensures { AreNearSlacks s (terms_of problem.now s.r) work.now.sums.area result }
{
    let ends = shortened(work.ends(s.r));
    slack_within(s, ends.least, ends.greatest)
}
