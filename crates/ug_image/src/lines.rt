ghost use Rattle.std.specs.Prelude.{◌≡◌, ◌<◌, ◌^◌, [], pos, length, slice_index_or, IfSome};
ghost use Rattle.ug_fields.specs.Spelling.{bound_field};
ghost use Rattle.ug_image.specs.Spelling.{change_fields};
ghost use Rattle.ug_image.specs.Rests.{front_line, heard_line, best_head, node_head};

use crate::image::SavedNode;
use ug_fields::Line;
use ug_nodes::Change;
use ug_rows::Point;

/// The version, the run, the sequence, and how long the record is.
#[tactic(auto, unfolding(crate::specs::Rests::front_line))]
pub fn put_front(line: &mut Line, run: u64, sequence: u64, bytes: u32)
    requires { line.old ≡ [] }
    ensures { line.new ≡ front_line run sequence bytes }
{
    line.put_byte(3);
    line.put_long(run);
    line.put_long(sequence);
    line.put_count(bytes);
}

/// The best point, up to its values.
#[tactic(auto, unfolding(crate::specs::Rests::best_head))]
pub fn put_best_head(line: &mut Line, best: &Option<Point>)
    requires fresh { line.old ≡ [] }
    requires short { IfSome best.now (λ x. length x < 2 ^ 32) }
    ensures { line.new ≡ best_head best.now }
{
    match best {
        None => line.put_byte(0),
        Some(point) => {
            line.put_byte(1);
            line.put_count(point.as_slice().len() as u32);
        }
    }
}

/// Value k of these.
pub fn put_value(line: &mut Line, values: &[i32], k: usize)
    requires fresh { line.old ≡ [] }
    requires there { k < length values.now }
    ensures { line.new ≡ bound_field (slice_index_or values.now k (pos 0)) }
{
    line.put_bound(values[k]);
}

/// How many reports were received, the gap, and how many nodes there are.
#[tactic(auto, unfolding(crate::specs::Rests::heard_line))]
pub fn put_heard(line: &mut Line, heard: u64, gap: i128, nodes: u64)
    requires { line.old ≡ [] }
    ensures { line.new ≡ heard_line heard gap nodes }
{
    line.put_long(heard);
    line.put_number(gap);
    line.put_long(nodes);
}

/// A node, up to its changes: its name, and how many there are.
#[tactic(auto, unfolding(crate::specs::Rests::node_head))]
pub fn put_node_head(line: &mut Line, node: &SavedNode)
    requires fresh { line.old ≡ [] }
    requires changes { length node.now.changes < 2 ^ 32 }
    ensures { line.new ≡ node_head node.now }
{
    line.put_long(node.name.ticket.number);
    line.put_long(node.name.hand);
    line.put_count(node.changes.as_slice().len() as u32);
}

/// A change.
pub fn put_change(line: &mut Line, change: &Change)
    requires { line.old ≡ [] }
    ensures { line.new ≡ change_fields change.now }
{
    line.put_count(change.column);
    line.put_bound(change.low);
    line.put_bound(change.high);
}
