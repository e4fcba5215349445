ghost use Rattle.std.specs.Prelude.{◌≡◌, ◌≤◌, ◌^◌, All, IfSome, IfOk, unsigned_abs};
ghost use Rattle.std.specs.Option.{option_map};
ghost use Rattle.ug_problem.specs.Decimals.{IsDecimal, zero_decimal};
ghost use Rattle.ug_problem.specs.Fractions.{places_of, scaled};
ghost use Rattle.ug_drafts.specs.Made.{numbers_kept, HasDecimals, below, sides_if, terms_if};
ghost use Rattle.ug_drafts.specs.RowNumbers.{range_of, places_if, most_places, scale_of, size, is_above, low_side, high_side};

use crate::role::Role;
use crate::row::{Factor, RowDraft};
use std::alloc::{AllocError, Global};
use ug_lists::Items;
use ug_problem::{Decimal, MOST_FACTOR, MOST_SIDE};
use ug_rows::{Term, Terms};

/// The right-hand side of a row, and its sides.
#[derive(Clone, Copy)]
pub struct Sides {
    pub side: i128,
    pub low: Option<i128>,
    pub high: Option<i128>,
}

/// The right-hand side of a row: 0 where none was given.
pub fn side_of(draft: &RowDraft) -> Decimal
    ensures { result ≡ (numbers_kept draft.now).side }
{
    draft.side.unwrap_or(Decimal {
        negative: false,
        digits: 0,
        power: 0,
    })
}

/// The range of a row, which the objective has none of.
pub fn range_of(draft: &RowDraft) -> Option<Decimal>
    ensures { result ≡ (numbers_kept draft.now).range }
{
    match draft.role {
        Role::Objective => None,
        _ => draft.range,
    }
}

#[tactic(auto, using(crate::proofs::ScalingLemmas::most_more))]
// The most places behind the point that a coefficient has.
fn most_places(terms: &[Factor]) -> u32
    requires { All (λ (f : Factor). IsDecimal f.number) terms.now }
    ensures { result ≡ most_places terms.now }
{
    let mut most = 0;
    for term in terms {
        most = term.number.places().max(most);
    }
    most
}

// The places of the number, if there is one.
fn places_if(number: Option<Decimal>) -> u32
    requires { IfSome number IsDecimal }
    ensures { result ≡ places_if number }
{
    match number {
        Some(number) => number.places(),
        None => 0,
    }
}

/// The least power of ten that makes the numbers of a row whole.
pub fn scale_of(draft: &RowDraft) -> u32
    requires { HasDecimals draft.now }
    ensures { result ≡ scale_of (numbers_kept draft.now) }
{
    let terms = most_places(draft.terms.as_slice());
    let side = side_of(draft).places();
    terms.max(side.max(places_if(range_of(draft))))
}

// A coefficient times 10^scale, if it is at most 10^24.
fn scaled_factor(number: Decimal, scale: u32) -> Option<i128>
    requires decimal { IsDecimal number }
    requires whole { places_of number ≤ scale }
    requires near { scale ≤ 60 }
    ensures { result ≡ below (10 ^ 24) (scaled scale number) }
{
    let factor = number.scaled(scale)?;
    if factor.unsigned_abs() > MOST_FACTOR {
        return None;
    }
    Some(factor)
}

/// The terms of a row times 10^scale, if no coefficient is too wide.
pub fn scaled_terms(
    alloc: Global,
    terms: &[Factor],
    scale: u32,
) -> Result<Option<Terms>, AllocError>
    requires decimals { All (λ (f : Factor). IsDecimal f.number) terms.now }
    requires whole { most_places terms.now ≤ scale }
    requires near { scale ≤ 60 }
    ensures { IfOk result (λ made. made ≡ terms_if scale terms.now) }
{
    let mut made = Vec::with_capacity(alloc, terms.len())?;
    for term in terms {
        let Some(factor) = scaled_factor(term.number, scale) else {
            return Ok(None);
        };
        made.push(Term {
            column: term.column,
            factor,
        })?;
    }
    Ok(Some(Items::from_vec(made)))
}

// The absolute value.
fn size(number: i128) -> i128
    requires { unsigned_abs number ≤ 10 ^ 37 }
    ensures { result ≡ size number }
{
    number.unsigned_abs() as i128
}

// The low side of a row.
fn low_side(role: Role, side: i128, range: Option<i128>) -> Option<i128>
    requires side { unsigned_abs side ≤ 10 ^ 37 }
    requires range { IfSome range (λ range. unsigned_abs range ≤ 10 ^ 37) }
    ensures { result ≡ low_side role side range }
{
    match role {
        Role::AtMost => match range {
            Some(range) => Some(side - size(range)),
            None => None,
        },
        Role::AtLeast => Some(side),
        Role::Equal => match range {
            Some(range) if range < 0 => Some(side + range),
            _ => Some(side),
        },
        _ => None,
    }
}

// The high side of a row.
fn high_side(role: Role, side: i128, range: Option<i128>) -> Option<i128>
    requires side { unsigned_abs side ≤ 10 ^ 37 }
    requires range { IfSome range (λ range. unsigned_abs range ≤ 10 ^ 37) }
    ensures { result ≡ high_side role side range }
{
    match role {
        Role::AtMost => Some(side),
        Role::AtLeast => match range {
            Some(range) => Some(side + size(range)),
            None => None,
        },
        Role::Equal => match range {
            Some(range) if range >= 0 => Some(side + range),
            _ => Some(side),
        },
        _ => None,
    }
}

// Whether a side is too wide.
fn is_wide_side(side: Option<i128>) -> bool
    ensures { result ≡ is_above (10 ^ 37) side }
{
    match side {
        Some(side) => side.unsigned_abs() > MOST_SIDE,
        None => false,
    }
}

// The sides of a row with this right-hand side and this range, if they are not too wide.
fn sides_with(role: Role, side: i128, range: Option<i128>) -> Option<Sides>
    requires side { unsigned_abs side ≤ 10 ^ 37 }
    requires range { IfSome range (λ range. unsigned_abs range ≤ 10 ^ 37) }
    ensures { result ≡ sides_if role side range }
{
    let low = low_side(role, side, range);
    let high = high_side(role, side, range);
    if is_wide_side(low) || is_wide_side(high) {
        return None;
    }
    Some(Sides { side, low, high })
}

/// The sides of a row times 10^scale, if they are not too wide.
pub fn scaled_sides(draft: &RowDraft, scale: u32) -> Option<Sides>
    requires decimals { HasDecimals draft.now }
    requires whole { scale_of (numbers_kept draft.now) ≤ scale }
    requires near { scale ≤ 60 }
    ensures { let n = numbers_kept draft.now in
        result ≡ sides_if draft.now.role (scaled scale n.side) (option_map (scaled scale) n.range) }
{
    let side = side_of(draft).scaled(scale)?;
    match range_of(draft) {
        Some(range) => sides_with(draft.role, side, Some(range.scaled(scale)?)),
        None => sides_with(draft.role, side, None),
    }
}
