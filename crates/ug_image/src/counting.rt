ghost use Rattle.std.specs.Prelude.{◌≡◌, ◌-◌, ◌^◌, min, length};
ghost use Rattle.std.specs.List.{flat_map};
ghost use Rattle.ug_records.specs.Lengths.{capped};
ghost use Rattle.ug_image.specs.Spelling.{node_fields, best_fields, spelled};

use crate::image::{Image, SavedNode};
use ug_records::record_length;
use ug_rows::Point;

/// How many bytes the image's spelling has, or 2^64 - 1 where it has more. It takes no memory.
#[tactic(auto, using(crate::proofs::Sizes::image_sum))]
pub fn length(image: &Image) -> u64
    ensures { result ≡ min (length (spelled image.now)) (2 ^ 64 - 1) }
{
    let front = record_length(image.problem.problem()).saturating_add(21);
    let best = best_length(&image.best).saturating_add(32);
    front
        .saturating_add(best)
        .saturating_add(nodes_length(image.nodes.as_slice()))
}

#[tactic(auto, using(crate::proofs::Sizes::some_best))]
fn best_length(best: &Option<Point>) -> u64
    ensures { result ≡ capped (length (best_fields best.now)) }
{
    match best {
        None => 1,
        Some(point) => (point.as_slice().len() as u64)
            .saturating_mul(4)
            .saturating_add(5),
    }
}

#[tactic(auto, using(crate::proofs::Sizes::node_sum))]
fn nodes_length(nodes: &[SavedNode]) -> u64
    ensures { result ≡ capped (length (flat_map node_fields nodes.now)) }
{
    let mut total = 0u64;
    for node in nodes {
        total = total.saturating_add(node_length(node));
    }
    total
}

#[tactic(auto, using(crate::proofs::Sizes::one_node))]
fn node_length(node: &SavedNode) -> u64
    ensures { result ≡ capped (length (node_fields node.now)) }
{
    let changes = node.changes.as_slice().len() as u64;
    changes.saturating_mul(12).saturating_add(20)
}
