ghost use Rattle.std.specs.Prelude.{◌≡◌};
ghost use Rattle.ug_nodes.specs.declared.name.Name.{Name};
ghost use Rattle.ug_fields.specs.Reading.{Gives};
ghost use Rattle.ug_image.specs.Reading.{is_behind, any_name_at, name_at, node_at, named_at, starting_at, bare_at, nodes_at};

use crate::changes::changes_at;
use crate::head::Head;
use crate::image::{Saved, SavedNode};
use std::alloc::Global;
use ug_fields::{Fault, long_at};
use ug_lists::Items;
use ug_nodes::{Name, Ticket};
use ug_rows::IntBox;

// Whether the name follows the one before it, where there is one.
fn is_behind(last: Option<Name>, name: Name) -> bool
    ensures { result ≡ is_behind last name }
{
    match last {
        None => true,
        Some(last) => {
            last.ticket.number < name.ticket.number
                || (last.ticket.number == name.ticket.number && last.hand < name.hand)
        }
    }
}

// A name of the run, whatever it is.
#[tactic(auto, unfolding(crate::specs::Reading::any_name_at))]
fn any_name_at(bytes: &[u8], run: u64) -> Result<(Name, &[u8]), Fault>
    ensures { Gives (λ x. (x.0, x.1.now)) result (any_name_at run bytes.now) }
{
    let (number, rest) = long_at(bytes, 0)?;
    let (hand, rest) = long_at(rest, 0)?;
    let ticket = Ticket { run, number };
    Ok((Name { ticket, hand }, rest))
}

// A name of the run, behind the one before it.
#[tactic(auto, unfolding(crate::specs::Reading::name_at))]
fn name_at(bytes: &[u8], run: u64, last: Option<Name>) -> Result<(Name, &[u8]), Fault>
    ensures { Gives (λ x. (x.0, x.1.now)) result (name_at run last bytes.now) }
{
    let (name, rest) = any_name_at(bytes, run)?;
    if is_behind(last, name) {
        Ok((name, rest))
    } else {
        Err(Fault::Bad(bytes.len()))
    }
}

// A node of the run, behind the one of this name.
#[tactic(auto, unfolding(crate::specs::Reading::node_at))]
fn node_at<'a>(
    alloc: Global,
    bytes: &'a [u8],
    run: u64,
    root: &IntBox,
    last: Option<Name>,
) -> Result<(SavedNode, &'a [u8]), Fault>
    ensures { Gives (λ x. (x.0, x.1.now)) result (node_at run root.now last bytes.now) }
{
    let (name, rest) = name_at(bytes, run, last)?;
    let (changes, rest) = changes_at(alloc, rest, root)?;
    Ok((SavedNode { name, changes }, rest))
}

// This many nodes, each behind the one before it, and the name of the last.
fn named_at<'a>(
    alloc: Global,
    bytes: &'a [u8],
    run: u64,
    root: &IntBox,
    count: u64,
) -> Result<((Saved, Option<Name>), &'a [u8]), Fault>
    ensures { Gives (λ x. ((x.0.0, x.0.1), x.1.now)) result
        (named_at run root.now count bytes.now) }
{
    let mut nodes = Items::new(alloc);
    let mut last = None;
    let mut rest = bytes;
    for _ in 0..count {
        let (node, after) = node_at(alloc, rest, run, root, last)?;
        last = Some(node.name);
        nodes.push(node)?;
        rest = after;
    }
    Ok(((nodes, last), rest))
}

// Starting node k of the run.
#[tactic(auto, unfolding(crate::specs::Reading::starting_at))]
fn starting_at<'a>(
    alloc: Global,
    bytes: &'a [u8],
    run: u64,
    root: &IntBox,
    k: u64,
) -> Result<(SavedNode, &'a [u8]), Fault>
    ensures { Gives (λ x. (x.0, x.1.now)) result (starting_at run root.now k bytes.now) }
{
    let (changes, rest) = changes_at(alloc, bytes, root)?;
    let ticket = Ticket { run, number: 0 };
    let name = Name { ticket, hand: k };
    Ok((SavedNode { name, changes }, rest))
}

// This many nodes without names.
fn bare_at<'a>(
    alloc: Global,
    bytes: &'a [u8],
    run: u64,
    root: &IntBox,
    count: u64,
) -> Result<((Saved, u64), &'a [u8]), Fault>
    ensures { Gives (λ x. ((x.0.0, x.0.1), x.1.now)) result (bare_at run root.now count bytes.now) }
{
    let mut nodes = Items::new(alloc);
    let mut rest = bytes;
    for k in 0..count {
        let (node, after) = starting_at(alloc, rest, run, root, k)?;
        nodes.push(node)?;
        rest = after;
    }
    Ok(((nodes, count), rest))
}

/// The nodes: from version 2 on they have names.
#[tactic(auto, unfolding(crate::specs::Reading::nodes_at))]
pub fn nodes_at<'a>(
    alloc: Global,
    bytes: &'a [u8],
    head: Head,
    root: &IntBox,
    count: u64,
) -> Result<(Saved, &'a [u8]), Fault>
    ensures { Gives (λ x. (x.0, x.1.now)) result
        (nodes_at head.version head.run root.now count bytes.now) }
{
    if head.version > 1 {
        let ((nodes, _), rest) = named_at(alloc, bytes, head.run, root, count)?;
        Ok((nodes, rest))
    } else {
        let ((nodes, _), rest) = bare_at(alloc, bytes, head.run, root, count)?;
        Ok((nodes, rest))
    }
}
