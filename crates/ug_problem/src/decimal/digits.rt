ghost use Rattle.std.specs.Prelude.{◌≡◌, ◌+◌, ◌≤◌, List, ℕ, ◌++◌, ◌∷◌, [], length, IfSome};
ghost use Rattle.ug_problem.specs.Digits.{IsKept, kept_of, read_of};

use crate::decimal::power::times_power;

// The number that digits spell without the zeros at their end, and how many those are.
#[derive(Clone, Copy)]
pub struct Digits {
    pub number: u128,
    pub zeros: u32,
}

impl Digits {
    // The value before the first digit.
    const NONE: Digits = Digits {
        number: 0,
        zeros: 0,
    };

    // One digit more.
    #[tactic(auto, using(crate::proofs::Significant::kept_more, crate::proofs::Significant::kept_no_more, crate::proofs::Significant::kept_number))]
    fn push(self, byte: u8) -> Option<Digits>
        requires kept { IsKept self }
        requires few { self.zeros ≤ 255 }
        ensures value { (text : List ℕ) → kept_of text ≡ Some self
            → result ≡ kept_of (text ++ byte ∷ []) }
        ensures kept { IfSome result IsKept }
        ensures few { IfSome result (λ d. d.zeros ≤ self.zeros + 1) }
    {
        if !byte.is_ascii_digit() {
            return None;
        }
        if byte == b'0' {
            return Some(Digits {
                number: self.number,
                zeros: self.zeros + 1,
            });
        }
        let tens = times_power(self.number, self.zeros + 1)?;
        Some(Digits {
            number: tens + u128::from(byte - b'0'),
            zeros: 0,
        })
    }

    // More digits.
    fn extend(self, bytes: &[u8]) -> Option<Digits>
        requires kept { IsKept self }
        requires few { self.zeros + length bytes.now ≤ 255 }
        ensures value { (text : List ℕ) → kept_of text ≡ Some self
            → result ≡ kept_of (text ++ bytes.now) }
        ensures kept { IfSome result IsKept }
        ensures few { IfSome result (λ d. d.zeros ≤ self.zeros + length bytes.now) }
    {
        let mut digits = self;
        for byte in bytes {
            digits = digits.push(*byte)?;
        }
        Some(digits)
    }
}

// Returns the value of the digits of both parts.
fn keep(whole: &[u8], fraction: &[u8]) -> Option<Digits>
    requires { length whole.now + length fraction.now ≤ 255 }
    ensures value { result ≡ kept_of (whole.now ++ fraction.now) }
    ensures kept { IfSome result IsKept }
    ensures few { IfSome result (λ d. d.zeros ≤ length whole.now + length fraction.now) }
{
    Digits::NONE.extend(whole)?.extend(fraction)
}

// Returns the value of the digits of both parts, if there is a digit at all.
pub fn read(whole: &[u8], fraction: &[u8]) -> Option<Digits>
    requires { length whole.now + length fraction.now ≤ 255 }
    ensures value { result ≡ read_of (whole.now ++ fraction.now) }
    ensures kept { IfSome result IsKept }
    ensures few { IfSome result (λ d. d.zeros ≤ length whole.now + length fraction.now) }
{
    if whole.is_empty() && fraction.is_empty() {
        None
    } else {
        keep(whole, fraction)
    }
}
