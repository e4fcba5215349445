//! How far a column may go from one of its ends, in whole steps.

ghost use Rattle.std.specs.Prelude.{◌≡◌, ◌<◌, ◌-ℤ◌, ◌<ℤ◌, pos, IfSome, IsTrue};
ghost use Rattle.ug_propagate.specs.Cuts.{AreSteps, down_from, near_end, up_from};

use ug_rows::{Extreme, Interval};

// Whether there are fewer steps than the interval is wide.
fn are_few(steps: u64, side: Interval) -> bool
    ensures { IsTrue result → pos steps <ℤ (side.high -ℤ side.low) }
{
    let width = i64::from(side.high) - i64::from(side.low);
    match i64::try_from(steps) {
        Ok(steps) => steps < width,
        Err(_) => false,
    }
}

/// How many whole steps of a size lie within a slack, if they are fewer than the interval is wide,
/// and slack and size are of 64 bits.
pub fn steps_within(slack: i128, size: u128, side: Interval) -> Option<u64>
    requires { 0 < size }
    ensures { IfSome result (AreSteps slack size side) }
{
    match (u64::try_from(slack), u64::try_from(size)) {
        (Ok(slack), Ok(size)) => {
            let steps = slack / size;
            if are_few(steps, side) {
                Some(steps)
            } else {
                None
            }
        }
        _ => None,
    }
}

fn up(side: Interval, steps: u64) -> Interval
    requires { pos steps <ℤ (side.high -ℤ side.low) }
    ensures { result ≡ up_from side steps }
{
    Interval {
        low: side.low,
        high: (i64::from(side.low) + steps as i64) as i32,
    }
}

fn down(side: Interval, steps: u64) -> Interval
    requires { pos steps <ℤ (side.high -ℤ side.low) }
    ensures { result ≡ down_from side steps }
{
    Interval {
        low: (i64::from(side.high) - steps as i64) as i32,
        high: side.high,
    }
}

/// The values at most this many steps from the end at which the product with a coefficient is the
/// least, or the greatest.
pub fn near(extreme: Extreme, factor: i128, side: Interval, steps: u64) -> Interval
    requires { pos steps <ℤ (side.high -ℤ side.low) }
    ensures { result ≡ near_end extreme factor side steps }
{
    match extreme {
        Extreme::Least if factor < 0 => down(side, steps),
        Extreme::Least => up(side, steps),
        Extreme::Greatest if factor < 0 => up(side, steps),
        Extreme::Greatest => down(side, steps),
    }
}
