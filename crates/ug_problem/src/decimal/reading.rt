ghost use Rattle.std.specs.Prelude.{◌≡◌, ◌+◌, ◌+ℤ◌, ◌-ℤ◌, pos, ◌≤◌, ◌%◌, ◌⊎◌, ◌≢◌, ◌<◌, ◌^◌, length, drop, position, IfSome, unsigned_abs};
ghost use Rattle.std.specs.Char.{is_ascii_digit};
ghost use Rattle.std.specs.Float.Parse.{without_sign};
ghost use Rattle.std.specs.List.{position_or_len};
ghost use Rattle.std.specs.Str.Parse.{starts_with_minus};
ghost use Rattle.ug_problem.specs.Decimals.{IsDecimal, decimal_from, decimal_of, exponent_of, is_exponent_letter, is_point, mantissa_of, pointed_of, small_of};

use crate::decimal::Decimal;
use crate::decimal::digits::read;

const MOST_EXPONENT: u32 = 9_999;

fn first_letter(word: &[u8]) -> Option<usize>
    ensures { result ≡ position is_exponent_letter word.now }
{
    word.iter()
        .position(|b| matches!(*b, b'e' | b'E' | b'd' | b'D'))
}

// Returns the place of the exponent, or the length if there is none.
#[tactic(auto, using(crate::proofs::Numerals::place_within))]
fn exponent_start(word: &[u8]) -> usize
    ensures value { result ≡ position_or_len is_exponent_letter word.now }
    ensures within { result ≤ length word.now }
{
    first_letter(word).unwrap_or(word.len())
}

fn first_point(text: &[u8]) -> Option<usize>
    ensures { result ≡ position is_point text.now }
{
    text.iter().position(|b| *b == b'.')
}

// Returns the place of the point, or the length if there is none.
#[tactic(auto, using(crate::proofs::Numerals::place_within))]
fn point_place(text: &[u8]) -> usize
    ensures value { result ≡ position_or_len is_point text.now }
    ensures within { result ≤ length text.now }
{
    first_point(text).unwrap_or(text.len())
}

// Returns the bytes behind a place.
fn behind(text: &[u8], place: usize) -> &[u8]
    requires { place ≤ length text.now }
    ensures { result.now ≡ drop (place + 1) text.now }
{
    if place < text.len() {
        &text[place + 1..]
    } else {
        &text[place..]
    }
}

/// Whether a word begins with a minus sign.
pub fn starts_with_minus(text: &[u8]) -> bool
    ensures { result ≡ starts_with_minus text.now }
{
    match text {
        [b'-', ..] => true,
        _ => false,
    }
}

/// A word without its sign.
pub fn without_sign(text: &[u8]) -> &[u8]
    ensures { result.now ≡ without_sign text.now }
{
    match text {
        [b'+' | b'-', rest @ ..] => rest,
        _ => text,
    }
}

// The number that digits spell, if it is at most 9,999.
#[tactic(auto, using(crate::proofs::Numerals::one_digit_more, crate::proofs::Numerals::not_small, crate::proofs::Numerals::not_digits))]
fn small(digits: &[u8]) -> Option<u32>
    ensures value { result ≡ small_of digits.now }
    ensures small { IfSome result (λ n. n ≤ 9999) }
{
    if digits.is_empty() {
        return None;
    }
    let mut number: u32 = 0;
    for digit in digits {
        if !digit.is_ascii_digit() {
            return None;
        }
        let more = number * 10 + u32::from(*digit - b'0');
        if more > MOST_EXPONENT {
            return None;
        }
        number = more;
    }
    Some(number)
}

// The exponent that a letter, an optional sign and digits spell.
fn exponent(text: &[u8]) -> Option<i32>
    ensures value { result ≡ exponent_of text.now }
    ensures small { IfSome result (λ e. unsigned_abs e ≤ 9999) }
{
    let [_, text @ ..] = text else {
        return Some(0);
    };
    let number = small(without_sign(text))? as i32;
    Some(if starts_with_minus(text) {
        -number
    } else {
        number
    })
}

// The number of these digits times ten to the power.
fn decimal(negative: bool, number: u128, power: i32) -> Decimal
    requires short { number < 10 ^ 38 }
    requires lowest { (number ≡ 0) ⊎ (number % 10 ≢ 0) }
    requires near { unsigned_abs power ≤ 20000 }
    ensures value { result ≡ decimal_from negative number power }
    ensures normal { IsDecimal result }
{
    if number == 0 {
        return Decimal {
            negative: false,
            digits: 0,
            power: 0,
        };
    }
    Decimal {
        negative,
        digits: number,
        power,
    }
}

// What the last digit is worth: the exponent, less the digits behind the point, and the zeros that
// were taken off.
fn power(exponent: i32, places: usize, zeros: u32) -> i32
    requires exponent { unsigned_abs exponent ≤ 9999 }
    requires places { places ≤ 255 }
    requires zeros { zeros ≤ 255 }
    ensures value { result ≡ exponent -ℤ pos places +ℤ pos zeros }
    ensures near { unsigned_abs result ≤ 20000 }
{
    exponent - places as i32 + zeros as i32
}

// The number that digits with at most one point spell, times ten to the exponent.
#[tactic(auto, using(crate::proofs::Words::number_some, crate::proofs::Words::number_none, crate::proofs::Words::pieces_fit))]
fn pointed(negative: bool, text: &[u8], exponent: i32) -> Option<Decimal>
    requires short { length text.now ≤ 255 }
    requires small { unsigned_abs exponent ≤ 9999 }
    ensures value { result ≡ pointed_of negative text.now exponent }
    ensures normal { IfSome result IsDecimal }
{
    let point = point_place(text);
    let whole = &text[..point];
    let fraction = behind(text, point);
    let digits = read(whole, fraction)?;
    let power = power(exponent, fraction.len(), digits.zeros);
    Some(decimal(negative, digits.number, power))
}

// The number that an optional sign and digits with at most one point spell, times ten to the
// exponent.
fn mantissa(text: &[u8], exponent: i32) -> Option<Decimal>
    requires short { length text.now ≤ 255 }
    requires small { unsigned_abs exponent ≤ 9999 }
    ensures value { result ≡ mantissa_of text.now exponent }
    ensures normal { IfSome result IsDecimal }
{
    pointed(starts_with_minus(text), without_sign(text), exponent)
}

impl Decimal {
    /// The number that a word spells: an optional sign, digits with at most one point, and an
    /// optional exponent.
    pub fn from_word(word: &[u8]) -> Option<Decimal>
        requires { length word.now ≤ 255 }
        ensures value { result ≡ decimal_of word.now }
        ensures normal { IfSome result IsDecimal }
    {
        let start = exponent_start(word);
        let exponent = exponent(&word[start..])?;
        mantissa(&word[..start], exponent)
    }
}
