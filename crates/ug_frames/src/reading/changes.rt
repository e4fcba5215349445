ghost use Rattle.std.specs.Prelude.{◌≡◌, ◌+◌, IfOk, []};
ghost use Rattle.ug_nodes.specs.Changes.{IsRising};
ghost use Rattle.ug_fields.specs.Reading.{Gives};
ghost use Rattle.ug_frames.specs.Reading.{is_change, any_change_at, change_at, changes_from, changes_at};

use std::alloc::{AllocError, Global};
use ug_fields::{Fault, bound_at, count_at};
use ug_lists::Items;
use ug_nodes::{Change, Changes};

/// How many bytes a change has.
const CHANGE: usize = 12;

// A change of one of the first 10,000 columns, whatever else it says.
#[tactic(auto, unfolding(crate::specs::Reading::any_change_at))]
fn any_change_at(bytes: &[u8]) -> Result<(Change, &[u8]), Fault>
    ensures { Gives (λ x. (x.0, x.1.now)) result (any_change_at bytes.now) }
{
    let (column, rest) = count_at(bytes, 9_999)?;
    let (low, rest) = bound_at(rest)?;
    let (high, rest) = bound_at(rest)?;
    Ok((Change { column, low, high }, rest))
}

// Whether the change has closed bounds and a column from this one on.
fn is_change(least: u64, change: Change) -> bool
    ensures { result ≡ is_change least change }
{
    least <= u64::from(change.column) && change.low <= change.high
}

// A change with closed bounds and a column from this one on.
#[tactic(auto, unfolding(crate::specs::Reading::change_at))]
fn change_at(bytes: &[u8], least: u64) -> Result<(Change, &[u8]), Fault>
    ensures { Gives (λ x. (x.0, x.1.now)) result (change_at least bytes.now) }
{
    let (change, rest) = any_change_at(bytes)?;
    if is_change(least, change) {
        Ok((change, rest))
    } else {
        Err(Fault::Bad(bytes.len()))
    }
}

// No changes yet, with room for as many as there may be: no more than the bytes have.
fn no_changes(alloc: Global, bytes: &[u8], count: u32) -> Result<Items<Change>, AllocError>
    ensures { IfOk result (λ changes. changes ≡ []) }
{
    let room = (bytes.len() / CHANGE).min(count as usize);
    Ok(Items::from_vec(Vec::with_capacity(alloc, room)?))
}

// This many changes, and the least column of another.
fn changes_from(
    alloc: Global,
    bytes: &[u8],
    count: u32,
) -> Result<((Items<Change>, u64), &[u8]), Fault>
    ensures { Gives (λ x. ((x.0.0, x.0.1), x.1.now)) result (changes_from count bytes.now) }
{
    let mut changes = no_changes(alloc, bytes, count)?;
    let mut least = 0;
    let mut rest = bytes;
    for _ in 0..count {
        let (change, after) = change_at(rest, least)?;
        changes.push(change)?;
        least = u64::from(change.column) + 1;
        rest = after;
    }
    Ok(((changes, least), rest))
}

/// How many changes there are, and each.
#[tactic(auto, unfolding(crate::specs::Reading::changes_at))]
pub fn changes_at(alloc: Global, bytes: &[u8]) -> Result<(Changes, &[u8]), Fault>
    ensures { Gives (λ x. (x.0, x.1.now)) result (changes_at bytes.now) }
{
    let (count, rest) = count_at(bytes, 10_000)?;
    let ((changes, _), rest) = changes_from(alloc, rest, count)?;
    Ok((Changes::new(changes.into_vec()), rest))
}
