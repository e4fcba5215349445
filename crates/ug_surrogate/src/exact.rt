//! Sums and products of numbers of at most 10^38, which fit.

ghost use Rattle.std.specs.Prelude.{◌≡◌, ◌≤◌, ◌*◌, ◌^◌, ◌+ℤ◌, ◌-ℤ◌, ◌*ℤ◌, ◌<◌, ◌+◌, pos, unsigned_abs};
ghost use Rattle.std.specs.Int.{int_div_euclid};
ghost use Rattle.ug_surrogate.specs.Weights.{rounded_up};

/// A sum of two numbers.
#[tactic(auto, using(crate::proofs::Machine::fits))]
pub fn plus(a: i128, b: i128) -> i128
    requires { unsigned_abs (a +ℤ b) ≤ 10 ^ 38 }
    ensures { result ≡ a +ℤ b }
{
    a + b
}

/// A difference of two numbers.
#[tactic(auto, using(crate::proofs::Machine::fits))]
pub fn minus(a: i128, b: i128) -> i128
    requires { unsigned_abs (a -ℤ b) ≤ 10 ^ 38 }
    ensures { result ≡ a -ℤ b }
{
    a - b
}

/// A product of two numbers.
pub fn times(a: i128, b: i128) -> i128
    requires { unsigned_abs a * unsigned_abs b ≤ 10 ^ 38 }
    ensures { result ≡ a *ℤ b }
{
    a * b
}

/// `number` / `divisor`, rounded down.
#[tactic(auto, using(crate::proofs::Machine::quotient_size, crate::proofs::Machine::quotient_small, crate::proofs::Machine::small_fits))]
pub fn divide_down(number: i128, divisor: u128) -> i128
    requires number { unsigned_abs number ≤ 10 ^ 38 }
    requires some { 0 < divisor }
    requires divisor { divisor ≤ 10 ^ 24 }
    ensures value { result ≡ int_div_euclid number (pos divisor) }
    ensures small { unsigned_abs result ≤ 10 ^ 38 }
    ensures product { divisor * unsigned_abs result ≤ unsigned_abs number + divisor }
{
    number.div_euclid(divisor as i128)
}

/// `number` / `divisor`, rounded up.
pub fn divide_up(number: i128, divisor: u128) -> i128
    requires number { unsigned_abs number ≤ 10 ^ 38 }
    requires some { 0 < divisor }
    requires divisor { divisor ≤ 10 ^ 24 }
    ensures value { result ≡ rounded_up number divisor }
    ensures product { divisor * unsigned_abs result ≤ unsigned_abs number + divisor }
{
    -divide_down(-number, divisor)
}
