//! Sums and products of 64 bits, where the coefficients of a row are small enough together.

ghost use Rattle.std.specs.Prelude.{◌≡◌, ◌+◌, ◌<◌, ◌≤◌, ◌^◌, ◌+ℤ◌, ◌-ℤ◌, ◌*ℤ◌, unsigned_abs};

/// The largest total of the absolute coefficients of a row whose sums are kept in 64 bits: over
/// numbers of 32 bits they are then at most 2^60, and the product of a coefficient and a number of
/// 33 bits at most 2^61.
pub const MOST_SIZE: u128 = 536_870_912;

/// The product of a coefficient and a number of 33 bits.
pub fn small_product(factor: i64, by: i64) -> i64
    requires factor { unsigned_abs factor ≤ 2 ^ 29 }
    requires by { unsigned_abs by ≤ 2 ^ 32 }
    ensures value { result ≡ factor *ℤ by }
    ensures small { unsigned_abs result ≤ 2 ^ 61 }
{
    factor * by
}

/// A difference of two numbers.
pub fn small_minus(a: i64, b: i64) -> i64
    requires { unsigned_abs a + unsigned_abs b < 2 ^ 63 }
    ensures { result ≡ a -ℤ b }
{
    a - b
}

/// A sum of two numbers.
pub fn small_plus(a: i64, b: i64) -> i64
    requires { unsigned_abs a + unsigned_abs b < 2 ^ 63 }
    ensures { result ≡ a +ℤ b }
{
    a + b
}

/// Adds the product of a coefficient and how far an end went. An end that stays costs neither a
/// product nor a write.
pub fn add_short_move(sum: &mut i64, factor: i64, by: i64)
    requires sum { unsigned_abs sum.old ≤ 2 ^ 60 }
    requires factor { unsigned_abs factor ≤ 2 ^ 29 }
    requires by { unsigned_abs by ≤ 2 ^ 32 }
    ensures { sum.new ≡ sum.old +ℤ (factor *ℤ by) }
{
    if by != 0 {
        *sum = small_plus(*sum, small_product(factor, by));
    }
}
