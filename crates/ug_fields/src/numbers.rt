ghost use Rattle.std.specs.Prelude.{◌≡◌, ◌≤◌, length};
ghost use Rattle.ug_fields.specs.Reading.{Gives, small_at, count_at, unsigned_at, signed_at, bound_at, long_at, number_of, number_at, amount_at};

use crate::fault::Fault;

/// A byte from one value to another.
#[tactic(auto, unfolding(crate::specs::Reading::small_at))]
pub fn small_at(bytes: &[u8], least: u8, most: u8) -> Result<(u8, &[u8]), Fault>
    ensures { Gives (λ x. (x.0, x.1.now)) result (small_at least most bytes.now) }
{
    match bytes {
        [b, rest @ ..] if least <= *b && *b <= most => Ok((*b, rest)),
        _ => Err(Fault::Bad(bytes.len())),
    }
}

/// A count of at most this many, in four bytes.
#[tactic(auto, unfolding(crate::specs::Reading::count_at))]
pub fn count_at(bytes: &[u8], most: u64) -> Result<(u32, &[u8]), Fault>
    ensures { Gives (λ x. (x.0, x.1.now)) result (count_at most bytes.now) }
{
    if bytes.len() < 4 {
        return Err(Fault::Bad(bytes.len()));
    }
    let (front, rest) = bytes.split_at(4);
    let n = u32::from_be_bytes([front[0], front[1], front[2], front[3]]);
    if u64::from(n) <= most {
        Ok((n, rest))
    } else {
        Err(Fault::Bad(bytes.len()))
    }
}

/// Any number of four bytes.
#[tactic(auto, unfolding(crate::specs::Reading::unsigned_at))]
pub fn unsigned_at(bytes: &[u8]) -> Result<(u32, &[u8]), Fault>
    ensures { Gives (λ x. (x.0, x.1.now)) result (unsigned_at bytes.now) }
{
    if bytes.len() < 4 {
        return Err(Fault::Bad(bytes.len()));
    }
    let (b, rest) = bytes.split_at(4);
    Ok((u32::from_be_bytes([b[0], b[1], b[2], b[3]]), rest))
}

/// Any signed number of four bytes.
#[tactic(auto, unfolding(crate::specs::Reading::signed_at))]
pub fn signed_at(bytes: &[u8]) -> Result<(i32, &[u8]), Fault>
    ensures { Gives (λ x. (x.0, x.1.now)) result (signed_at bytes.now) }
{
    let (n, rest) = unsigned_at(bytes)?;
    Ok((n.cast_signed(), rest))
}

/// A bound: a signed number of four bytes, of at most 10^9 in absolute value.
#[tactic(auto, unfolding(crate::specs::Reading::bound_at))]
pub fn bound_at(bytes: &[u8]) -> Result<(i32, &[u8]), Fault>
    ensures { Gives (λ x. (x.0, x.1.now)) result (bound_at bytes.now) }
{
    if bytes.len() < 4 {
        return Err(Fault::Bad(bytes.len()));
    }
    let (front, rest) = bytes.split_at(4);
    let n = i32::from_be_bytes([front[0], front[1], front[2], front[3]]);
    if n.unsigned_abs() <= 1_000_000_000 {
        Ok((n, rest))
    } else {
        Err(Fault::Bad(bytes.len()))
    }
}

/// A number of at least so much, in eight bytes.
#[tactic(auto, unfolding(crate::specs::Reading::long_at))]
pub fn long_at(bytes: &[u8], least: u64) -> Result<(u64, &[u8]), Fault>
    ensures { Gives (λ x. (x.0, x.1.now)) result (long_at least bytes.now) }
{
    if bytes.len() < 8 {
        return Err(Fault::Bad(bytes.len()));
    }
    let (b, rest) = bytes.split_at(8);
    let n = u64::from_be_bytes([b[0], b[1], b[2], b[3], b[4], b[5], b[6], b[7]]);
    if least <= n {
        Ok((n, rest))
    } else {
        Err(Fault::Bad(bytes.len()))
    }
}

/// A signed number of at most so much in absolute value, in sixteen bytes.
#[tactic(auto, unfolding(crate::specs::Reading::number_at))]
pub fn number_at(bytes: &[u8], most: u128) -> Result<(i128, &[u8]), Fault>
    ensures { Gives (λ x. (x.0, x.1.now)) result (number_at most bytes.now) }
{
    if bytes.len() < 16 {
        return Err(Fault::Bad(bytes.len()));
    }
    let (front, rest) = bytes.split_at(16);
    let n = number_of(front);
    if n.unsigned_abs() <= most {
        Ok((n, rest))
    } else {
        Err(Fault::Bad(bytes.len()))
    }
}

#[tactic(auto, unfolding(crate::specs::Reading::number_of))]
fn number_of(b: &[u8]) -> i128
    requires { length b.now ≡ 16 }
    ensures { result ≡ number_of b.now }
{
    i128::from_be_bytes([
        b[0], b[1], b[2], b[3], b[4], b[5], b[6], b[7], b[8], b[9], b[10], b[11], b[12], b[13],
        b[14], b[15],
    ])
}

/// A number from 0 to so much, in sixteen bytes.
#[tactic(auto, unfolding(crate::specs::Reading::amount_at))]
pub fn amount_at(bytes: &[u8], most: u128) -> Result<(i128, &[u8]), Fault>
    ensures { Gives (λ x. (x.0, x.1.now)) result (amount_at most bytes.now) }
{
    let (n, rest) = number_at(bytes, most)?;
    if 0 <= n {
        Ok((n, rest))
    } else {
        Err(Fault::Bad(bytes.len()))
    }
}
