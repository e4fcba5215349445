ghost use Rattle.std.specs.Prelude.{◌≡◌, ◌≤◌, ◌∷◌, drop, length, IfOk, OnErr};
ghost use Rattle.ug_propagate.specs.Working.{undone};
ghost use Rattle.ug_base.specs.Chains.{area_of, narrowed};
ghost use Rattle.ug_base.specs.Hands.{IsMoved};

use crate::open_box::{Narrowing, OpenBox};
use crate::open_boxes::OpenBoxes;
use std::alloc::{AllocError, Global};
use ug_nodes::Hands;
use ug_propagate::{Trailed, Working};
use ug_rows::{IntBox, Interval};

// Puts back what columns were before these changes, the last first.
fn undo(sides: &mut [Interval], changes: &[Trailed])
    ensures { sides.new ≡ undone sides.old changes.now }
{
    for at in (0..changes.len()).rev() {
        let change = changes[at];
        let column = change.column as usize;
        if column < sides.len() {
            sides[column] = change.before;
        }
    }
}

// Narrows a column, if one is to be.
fn narrow(sides: &mut [Interval], cut: Option<Narrowing>)
    ensures { sides.new ≡ narrowed cut sides.old }
{
    if let Some(cut) = cut {
        let column = cut.column as usize;
        if column < sides.len() {
            sides[column] = cut.side;
        }
    }
}

/// The box of a part.
pub fn box_of(alloc: Global, work: &Working, open_box: OpenBox) -> Result<IntBox, AllocError>
    requires { open_box.depth ≤ length work.now.trail }
    ensures { IfOk result (λ area. area ≡ area_of work.now open_box) }
{
    let mut sides = Vec::from_slice(alloc, work.sides())?;
    undo(sides.as_mut_slice(), &work.trail()[open_box.depth..]);
    narrow(sides.as_mut_slice(), open_box.cut);
    Ok(IntBox::from_vec(sides))
}

/// Moves the box of the first part behind those handed, and gives it. After an error all are as
/// they were.
pub fn move_first(
    alloc: Global,
    work: &Working,
    first: OpenBox,
    open_boxes: &mut OpenBoxes,
    handed: &mut Hands,
) -> Result<IntBox, AllocError>
    requires first { open_boxes.old ≡ first ∷ drop 1 open_boxes.old }
    requires deep { first.depth ≤ length work.now.trail }
    ensures ok { IfOk result
        (IsMoved work.now open_boxes.old open_boxes.new handed.old handed.new) }
    ensures open_boxes { OnErr result (open_boxes.new ≡ open_boxes.old) }
    ensures handed { OnErr result (handed.new ≡ handed.old) }
{
    // All memory is taken before the part is dropped.
    let area = box_of(alloc, work, first)?;
    match handed.push(&area) {
        Ok(()) => {
            open_boxes.drop_first();
            Ok(area)
        }
        Err(error) => {
            drop(area);
            Err(error)
        }
    }
}
