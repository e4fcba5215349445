ghost use Rattle.std.specs.Prelude.{◌≡◌, ◌≤◌, ◌^◌, SomeIff, unsigned_abs};
ghost use Rattle.ug_problem.specs.Decimals.{IsDecimal, signed};
ghost use Rattle.ug_problem.specs.Fractions.{places_of, scaled, zeros_of_power};

use crate::decimal::Decimal;
use crate::decimal::power::times_power;

const MOST: u128 = 10_000_000_000_000_000_000_000_000_000_000_000_000;

// The number, negated where it is to be negative.
fn signed(negative: bool, number: u128) -> i128
    requires { number ≤ 10 ^ 38 }
    ensures { result ≡ signed negative number }
{
    if negative {
        -(number as i128)
    } else {
        number as i128
    }
}

impl Decimal {
    /// Returns the number of digits behind the point.
    pub fn places(self) -> u32
        requires { IsDecimal self }
        ensures value { result ≡ places_of self }
        ensures small { result ≤ 20000 }
    {
        if self.power < 0 {
            self.power.unsigned_abs()
        } else {
            0
        }
    }

    // How many zeros follow the digits.
    pub(super) fn zeros(self) -> u32
        requires { IsDecimal self }
        ensures value { result ≡ zeros_of_power self.power }
        ensures small { result ≤ 20000 }
    {
        if self.power > 0 {
            self.power.unsigned_abs()
        } else {
            0
        }
    }

    /// The number times 10^`scale`, if its absolute value is at most 10^37.
    pub fn scaled(self, scale: u32) -> Option<i128>
        requires decimal { IsDecimal self }
        requires whole { places_of self ≤ scale }
        requires near { scale ≤ 20000 }
        ensures { SomeIff result (unsigned_abs (scaled scale self) ≤ 10 ^ 37) (scaled scale self) }
    {
        let number = times_power(self.digits, self.zeros() + (scale - self.places()))?;
        if number > MOST {
            return None;
        }
        Some(signed(self.negative, number))
    }
}
