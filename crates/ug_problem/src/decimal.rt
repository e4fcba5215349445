mod digits;
mod power;
mod reading;
mod rounding;
mod scaling;

ghost use Rattle.std.specs.Prelude.{◌≡◌, ◌≤◌, ℕ, ℤ, ◌↔◌, ◌≤ℤ◌, codes, pos, negsuc, None, Some, true, false};
ghost use Rattle.ug_problem.specs.Decimals.{IsDecimal, decimal_of};
ghost use Rattle.ug_problem.specs.Fractions.{IsAtLeast, IsAtMost, IsScaled, ceiling_of, floor_of, places_of, scaled};

pub use reading::{starts_with_minus, without_sign};

/// An exact decimal number: `digits` times ten to the `power`, negated where `negative`.
#[derive(Clone, Copy, Debug, PartialEq, Eq)]
pub struct Decimal {
    pub negative: bool,
    pub digits: u128,
    pub power: i32,
}

/// Words by which the reading of numbers was tried.
pub fn reads_these_words()
    ensures whole { decimal_of (codes "1.")
        ≡ Some (record { negative = false; digits = 1; power = pos 0 }) }
    ensures fraction { decimal_of (codes ".5")
        ≡ Some (record { negative = false; digits = 5; power = negsuc 0 }) }
    ensures letter { decimal_of (codes "1d2")
        ≡ Some (record { negative = false; digits = 1; power = pos 2 }) }
    ensures sign { decimal_of (codes "-2.50")
        ≡ Some (record { negative = true; digits = 25; power = negsuc 0 }) }
    ensures power { decimal_of (codes "+10E+0023")
        ≡ Some (record { negative = false; digits = 1; power = pos 24 }) }
    ensures zero { decimal_of (codes "-0.0e-7")
        ≡ Some (record { negative = false; digits = 0; power = pos 0 }) }
    ensures point { decimal_of (codes ".") ≡ None }
    ensures points { decimal_of (codes "1.2.3") ≡ None }
    ensures empty { decimal_of (codes "") ≡ None }
    ensures bare_letter { decimal_of (codes "1e") ≡ None }
    ensures bare_sign { decimal_of (codes "1e+") ≡ None }
    ensures no_mantissa { decimal_of (codes "e5") ≡ None }
    ensures no_digit { decimal_of (codes "0x1") ≡ None }
    ensures high { decimal_of (codes "1e10000") ≡ None }
    ensures long { decimal_of (codes "100000000000000000000000000000000000001") ≡ None }
{}

/// A whole number is not above a decimal exactly where it is not above the floor, which is so the
/// greatest such.
pub fn floor_is_greatest()
    ensures { (n : ℤ) (d : Decimal) → IsAtMost n d ↔ (n ≤ℤ floor_of d) }
{}

/// A whole number is not below a decimal exactly where it is not below the ceiling, which is so the
/// least such.
pub fn ceiling_is_least()
    ensures { (n : ℤ) (d : Decimal) → IsAtLeast n d ↔ (ceiling_of d ≤ℤ n) }
{}

/// A decimal times a power of ten is whole exactly where the power is at least its places, and is
/// then this.
pub fn scales_from_its_places()
    ensures whole { (s : ℕ) (d : Decimal) (z : ℤ) → IsDecimal d → IsScaled s d z → places_of d ≤ s }
    ensures value { (s : ℕ) (d : Decimal) → places_of d ≤ s → IsScaled s d (scaled s d) }
{}
