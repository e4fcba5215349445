ghost use Rattle.std.specs.Prelude.{◌≡◌, [], ◌∷◌, ◌++◌, IfOk, OnOk};
ghost use Rattle.ug_fields.specs.Reading.{Gives};
ghost use Rattle.ug_frames.specs.Reading.{values_at, point_at};

use std::alloc::{AllocError, Global};
use ug_fields::{Fault, bound_at, count_at};
use ug_lists::Items;
use ug_rows::Point;

/// How many bytes a value has.
const VALUE: usize = 4;

// Adds a value at the end.
fn push_value(values: &mut Items<i32>, value: i32) -> Result<(), AllocError>
    ensures { OnOk result (values.new ≡ values.old ++ value ∷ []) }
{
    values.push(value)
}

// No values yet, with room for as many as there may be: no more than the bytes have.
fn no_values(alloc: Global, bytes: &[u8], count: u32) -> Result<Items<i32>, AllocError>
    ensures { IfOk result (λ values. values ≡ []) }
{
    let room = (bytes.len() / VALUE).min(count as usize);
    Ok(Items::from_vec(Vec::with_capacity(alloc, room)?))
}

// This many values.
fn values_at(alloc: Global, bytes: &[u8], count: u32) -> Result<(Items<i32>, &[u8]), Fault>
    ensures { Gives (λ x. ((x.0, tt), x.1.now)) result (values_at count bytes.now) }
{
    let mut values = no_values(alloc, bytes, count)?;
    let mut rest = bytes;
    for _ in 0..count {
        let (value, after) = bound_at(rest)?;
        push_value(&mut values, value)?;
        rest = after;
    }
    Ok((values, rest))
}

/// A point: how many values it has, and each.
#[tactic(auto, unfolding(crate::specs::Reading::point_at))]
pub fn point_at(alloc: Global, bytes: &[u8]) -> Result<(Point, &[u8]), Fault>
    ensures { Gives (λ x. (x.0, x.1.now)) result (point_at bytes.now) }
{
    let (count, rest) = count_at(bytes, 10_000)?;
    let (values, rest) = values_at(alloc, rest, count)?;
    Ok((Point::from_vec(values.into_vec()), rest))
}
