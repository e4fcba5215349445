ghost use Rattle.std.specs.Prelude.{◌≡◌, ◌*◌, ◌/◌, ◌<◌, ◌≤◌, ◌^◌, false, unsigned_abs};
ghost use Rattle.ug_problem.specs.Decimals.{IsDecimal};
ghost use Rattle.ug_problem.specs.Fractions.{ceiling_of, floor_of, is_huge, places_of, zeros_of_power};

use crate::decimal::Decimal;
use crate::decimal::power::times_power;

const HUGE: u128 = 100_000_000_000_000_000_000;

impl Decimal {
    /// Whether the absolute value is 10^20 or more.
    pub fn is_huge(self) -> bool
        requires { IsDecimal self }
        ensures { result ≡ is_huge self }
    {
        let Some(numerator) = times_power(self.digits, self.zeros()) else {
            return true;
        };
        match times_power(HUGE, self.places()) {
            Some(least) => numerator >= least,
            None => false,
        }
    }

    // The absolute value rounded down.
    #[tactic(auto, using(crate::proofs::Bounds::vanishes, crate::proofs::Powers::power_small))]
    fn whole(self) -> u128
        requires decimal { IsDecimal self }
        requires small { is_huge self ≡ false }
        ensures value { result ≡ self.digits * 10 ^ zeros_of_power self.power / 10 ^ places_of
            self }
        ensures small { result < 10 ^ 20 }
    {
        if self.power >= 0 {
            self.digits * 10u128.pow(self.zeros())
        } else if self.places() > 37 {
            0
        } else {
            self.digits / 10u128.pow(self.places())
        }
    }

    /// The number rounded down.
    pub fn floor(self) -> i128
        requires decimal { IsDecimal self }
        requires small { is_huge self ≡ false }
        ensures value { result ≡ floor_of self }
        ensures small { unsigned_abs result ≤ 10 ^ 20 }
    {
        let whole = self.whole() as i128;
        if self.negative {
            if self.power >= 0 { -whole } else { -whole - 1 }
        } else {
            whole
        }
    }

    /// The number rounded up.
    pub fn ceiling(self) -> i128
        requires decimal { IsDecimal self }
        requires small { is_huge self ≡ false }
        ensures value { result ≡ ceiling_of self }
        ensures small { unsigned_abs result ≤ 10 ^ 20 }
    {
        let whole = self.whole() as i128;
        if self.negative {
            -whole
        } else {
            if self.power >= 0 { whole } else { whole + 1 }
        }
    }
}
