ghost use Rattle.std.specs.Prelude.{◌≡◌, ◌+◌, []};
ghost use Rattle.ug_rows.specs.Boxes.{interval_at};
ghost use Rattle.ug_nodes.specs.Changes.{IsRising};
ghost use Rattle.ug_fields.specs.Reading.{Gives};
ghost use Rattle.ug_image.specs.Reading.{is_closed_within, is_whole, narrows, is_change, any_change_at, change_at, changes_from, changes_at};

use std::alloc::Global;
use ug_fields::{Fault, count_at, signed_at, unsigned_at};
use ug_lists::Items;
use ug_nodes::{Change, Changes};
use ug_rows::{IntBox, Interval};

// Whether the bounds are closed and within the side.
fn is_closed_within(side: Interval, low: i32, high: i32) -> bool
    ensures { result ≡ is_closed_within side low high }
{
    side.low <= low && low <= high && high <= side.high
}

// Whether all of the side is within the bounds.
fn is_whole(side: Interval, low: i32, high: i32) -> bool
    ensures { result ≡ is_whole side low high }
{
    low <= side.low && side.high <= high
}

// Whether the bounds are closed, within the side, and others than it has.
fn narrows(side: Interval, low: i32, high: i32) -> bool
    ensures { result ≡ narrows side low high }
{
    is_closed_within(side, low, high) && !is_whole(side, low, high)
}

// Whether the change is one of a box below the root, of a column from this one on.
#[tactic(auto, unfolding(crate::specs::Reading::is_change))]
fn is_change(root: &IntBox, least: u64, change: Change) -> bool
    ensures { result ≡ is_change root.now least change }
{
    match root.as_slice().get(change.column as usize) {
        None => false,
        Some(side) => {
            least <= u64::from(change.column) && narrows(*side, change.low, change.high)
        }
    }
}

// A change, whatever it says.
#[tactic(auto, unfolding(crate::specs::Reading::any_change_at))]
fn any_change_at(bytes: &[u8]) -> Result<(Change, &[u8]), Fault>
    ensures { Gives (λ x. (x.0, x.1.now)) result (any_change_at bytes.now) }
{
    let (column, rest) = unsigned_at(bytes)?;
    let (low, rest) = signed_at(rest)?;
    let (high, rest) = signed_at(rest)?;
    Ok((Change { column, low, high }, rest))
}

// A change of a box below the root, of a column from this one on.
#[tactic(auto, unfolding(crate::specs::Reading::change_at))]
fn change_at<'a>(bytes: &'a [u8], root: &IntBox, least: u64) -> Result<(Change, &'a [u8]), Fault>
    ensures { Gives (λ x. (x.0, x.1.now)) result (change_at root.now least bytes.now) }
{
    let (change, rest) = any_change_at(bytes)?;
    if is_change(root, least, change) {
        Ok((change, rest))
    } else {
        Err(Fault::Bad(bytes.len()))
    }
}

// This many changes, which are put into an empty list, and the least column of another.
fn changes_from<'a>(
    bytes: &'a [u8],
    root: &IntBox,
    count: u32,
    changes: &mut Items<Change>,
) -> Result<(u64, &'a [u8]), Fault>
    requires { changes.old ≡ [] }
    ensures { Gives (λ x. ((changes.new, x.0), x.1.now)) result
        (changes_from root.now count bytes.now) }
{
    let mut least = 0;
    let mut rest = bytes;
    for _ in 0..count {
        let (change, after) = change_at(rest, root, least)?;
        changes.push(change)?;
        least = u64::from(change.column) + 1;
        rest = after;
    }
    Ok((least, rest))
}

/// How many changes there are, and each.
#[tactic(auto, unfolding(crate::specs::Reading::changes_at))]
pub fn changes_at<'a>(
    alloc: Global,
    bytes: &'a [u8],
    root: &IntBox,
) -> Result<(Changes, &'a [u8]), Fault>
    ensures { Gives (λ x. (x.0, x.1.now)) result (changes_at root.now bytes.now) }
{
    let (count, rest) = count_at(bytes, 10_000)?;
    let mut changes = Items::new(alloc);
    match changes_from(rest, root, count, &mut changes) {
        Ok((_, rest)) => Ok((Changes::new(changes.into_vec()), rest)),
        Err(fault) => {
            drop(changes);
            Err(fault)
        }
    }
}
