ghost use Rattle.std.specs.Prelude.{◌≡◌, filter, not, IfOk};
ghost use Rattle.std.specs.List.Sorted.{IsPermutation, IsSortedByKey};
ghost use Rattle.ug_nodes.specs.Names.{name_cmp};
ghost use Rattle.ug_nodes.specs.SortedLines.{AreSorted, fronts, is_below_any, key_of};

use crate::name::Name;
use crate::node::Node;
use crate::sorted_lines::is_below_any;
use std::alloc::{AllocError, Global};

// The nodes in order of name.
pub fn by_name<'a>(alloc: Global, nodes: &[&'a Node]) -> Result<Vec<&'a Node>, AllocError>
    ensures same { IfOk result (λ held. IsPermutation nodes.now held.items) }
    ensures order { IfOk result (λ held. IsSortedByKey key_of name_cmp held.items) }
{
    let mut held = Vec::from_slice(alloc, nodes)?;
    held.sort_by_key(|node| node.line.name())?;
    Ok(held)
}

// Keeps the nodes that are below none of these lines.
pub fn keep_primitive(held: &mut Vec<&Node>, lines: &[&[Name]])
    requires { AreSorted lines.now }
    ensures { held.new.items
        ≡ filter (λ node. not (is_below_any (fronts lines.now) node.now.line)) held.old.items }
{
    held.retain(|node| !is_below_any(lines, node.line.as_slice()));
}
