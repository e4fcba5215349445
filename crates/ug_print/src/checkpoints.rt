ghost use Rattle.std.specs.Prelude.{◌≡◌, ◌++◌, IfOk, OnOk};
ghost use Rattle.ug_image.specs.Images.{IsImage};
ghost use Rattle.ug_print.specs.Checkpoints.{head_lines, node_lines, AreCheckpointLines, AreNodesWithin};
ghost use Rattle.ug_print.specs.Limited.{best_lines};

use crate::best::{best_lines, best_word};
use crate::nodes::push_node_lines;
use crate::words::{push_named, push_named_number, push_named_signed};
use std::alloc::{AllocError, Global};
use ug_image::Image;
use ug_problem::Column;

/// The lines of a checkpoint: what is said of the whole, and a line for each node.
pub fn checkpoint_lines(alloc: Global, image: &Image) -> Result<Vec<u8>, AllocError>
    requires { IsImage image.now }
    ensures { IfOk result (λ text. AreCheckpointLines image.now text.items) }
{
    let problem = image.problem.problem();
    let best = best_word(alloc, problem, image.best.as_ref())?;
    whole_lines(alloc, image, problem.columns(), best.as_slice())
}

/// The lines of the columns of its best point that are not 0; none where it has none.
pub fn checkpoint_point(alloc: Global, image: &Image) -> Result<Vec<u8>, AllocError>
    requires { IsImage image.now }
    ensures { IfOk result (λ text. text.items ≡ best_lines image.now.problem image.now.best) }
{
    best_lines(alloc, image.problem.problem(), image.best.as_ref())
}

// The lines with these columns and this best value.
fn whole_lines(
    alloc: Global,
    image: &Image,
    columns: &[Column],
    best: &[u8],
) -> Result<Vec<u8>, AllocError>
    requires { AreNodesWithin columns.now image.now.nodes }
    ensures { IfOk result (λ text. text.items
        ≡ head_lines image.now best.now ++ node_lines columns.now 0 image.now.nodes) }
{
    let mut text = Vec::new(alloc);
    push_head_lines(&mut text, alloc, image, best)?;
    push_node_lines(&mut text, alloc, columns, image.nodes.as_slice())?;
    Ok(text)
}

// Adds what is said of the whole.
fn push_head_lines(
    text: &mut Vec<u8>,
    alloc: Global,
    image: &Image,
    best: &[u8],
) -> Result<(), AllocError>
    ensures { OnOk result (text.new.items ≡ text.old.items ++ head_lines image.now best.now) }
{
    push_named_number(text, alloc, b"run", image.run)?;
    push_named_number(text, alloc, b"sequence", image.sequence)?;
    push_named(text, b"best", best)?;
    push_named_number(text, alloc, b"heard", image.heard)?;
    push_named_signed(text, alloc, b"gap", image.gap)?;
    push_named_number(text, alloc, b"nodes", image.nodes.len() as u64)
}
