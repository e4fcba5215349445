ghost use Rattle.std.specs.Prelude.{◌≡◌, ◌↔◌, Contains, IfOk};
ghost use Rattle.std.specs.List.{AllPairs};
ghost use Rattle.ug_nodes.specs.declared.node.Node.{Node};
ghost use Rattle.ug_nodes.specs.Primitive.{AreNamedOnce, IsNamedBefore, IsPrimitive, lent};

use crate::ahead::{by_name, keep_primitive};
use crate::node::Node;
use crate::sorted_lines::sorted_lines;
use std::alloc::{AllocError, Global};

/// The nodes that have no proper ancestor among them, in order of name.
pub fn primitive<'a>(alloc: Global, nodes: &[&'a Node]) -> Result<Vec<&'a Node>, AllocError>
    ensures each { IfOk result (λ made. (n : Node)
        → Contains (lent made.items) n ↔ IsPrimitive (lent nodes.now) n) }
    ensures order { IfOk result (λ made.
        AllPairs (λ a b. IsNamedBefore b a → ⊥) (lent made.items)) }
    ensures rising { AreNamedOnce (lent nodes.now)
        → IfOk result (λ made. AllPairs IsNamedBefore (lent made.items)) }
{
    let mut held = by_name(alloc, nodes)?;
    match sorted_lines(alloc, nodes) {
        Ok(lines) => {
            keep_primitive(&mut held, &lines);
            drop(lines);
            Ok(held)
        }
        Err(error) => {
            drop(held);
            Err(error)
        }
    }
}
