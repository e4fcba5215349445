ghost use Rattle.std.specs.Prelude.{◌≡◌, ◌++◌, ◌<◌, length, OnOk};
ghost use Rattle.ug_print.specs.Checkpoints.{change_words, all_change_words, column_at, node_line, node_lines, AreWithin, AreNodesWithin};

use crate::words::{push_number, push_signed, push_word};
use std::alloc::{AllocError, Global};
use ug_image::SavedNode;
use ug_nodes::Change;
use ug_problem::Column;

/// Adds a line for each node. After an error the output may have a part of them.
#[tactic(auto, using(crate::proofs::NodeLines::nodes_more))]
pub fn push_node_lines(
    text: &mut Vec<u8>,
    alloc: Global,
    columns: &[Column],
    nodes: &[SavedNode],
) -> Result<(), AllocError>
    requires { AreNodesWithin columns.now nodes.now }
    ensures { OnOk result (text.new.items ≡ text.old.items ++ node_lines columns.now 0 nodes.now) }
{
    for i in 0..nodes.len() {
        push_node_line(text, alloc, columns, i, &nodes[i])?;
    }
    Ok(())
}

// Adds the line of the node in this place.
fn push_node_line(
    text: &mut Vec<u8>,
    alloc: Global,
    columns: &[Column],
    place: usize,
    node: &SavedNode,
) -> Result<(), AllocError>
    requires { AreWithin columns.now node.now.changes }
    ensures { OnOk result (text.new.items
        ≡ text.old.items ++ node_line columns.now place node.now) }
{
    text.extend_from_slice(b"node")?;
    push_number(text, alloc, place as u64)?;
    push_number(text, alloc, node.name.ticket.number)?;
    push_number(text, alloc, node.name.hand)?;
    push_changes(text, alloc, columns, node.changes.as_slice())?;
    text.push(b'\n')?;
    Ok(())
}

// Adds the words of each change.
#[tactic(auto, using(crate::proofs::NodeLines::changes_more))]
fn push_changes(
    text: &mut Vec<u8>,
    alloc: Global,
    columns: &[Column],
    changes: &[Change],
) -> Result<(), AllocError>
    requires { AreWithin columns.now changes.now }
    ensures { OnOk result (text.new.items
        ≡ text.old.items ++ all_change_words columns.now changes.now) }
{
    for i in 0..changes.len() {
        let change = changes[i];
        push_change(text, alloc, column_of(columns, change.column), change)?;
    }
    Ok(())
}

fn column_of(columns: &[Column], place: u32) -> &Column
    requires { place < length columns.now }
    ensures { result.now ≡ column_at columns.now place }
{
    &columns[place as usize]
}

// Adds the column's name and the bounds of the change.
fn push_change(
    text: &mut Vec<u8>,
    alloc: Global,
    column: &Column,
    change: Change,
) -> Result<(), AllocError>
    ensures { OnOk result (text.new.items ≡ text.old.items ++ change_words column.now change) }
{
    push_word(text, column.name.as_slice())?;
    push_signed(text, alloc, i128::from(change.low))?;
    push_signed(text, alloc, i128::from(change.high))
}
