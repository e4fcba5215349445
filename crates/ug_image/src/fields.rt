ghost use Rattle.std.specs.Prelude.{◌≡◌};
ghost use Rattle.ug_fields.specs.Reading.{Gives};
ghost use Rattle.ug_image.specs.Reading.{behind_problem, fields_at, image_at};

use crate::best::best_at;
use crate::counts::counts_at;
use crate::head::Head;
use crate::image::Image;
use crate::nodes::nodes_at;
use crate::record::problem_at;
use std::alloc::Global;
use ug_fields::{Fault, long_at, small_at};
use ug_problem::Shared;

// The fields of an image, and what follows them.
#[tactic(auto, unfolding(crate::specs::Reading::fields_at))]
fn fields_at(alloc: Global, bytes: &[u8]) -> Result<(Image, &[u8]), Fault>
    ensures { Gives (λ x. (x.0, x.1.now)) result (fields_at bytes.now) }
{
    let (version, rest) = small_at(bytes, 1, 3)?;
    let (run, rest) = long_at(rest, 1)?;
    let (sequence, rest) = long_at(rest, 1)?;
    let (problem, rest) = problem_at(alloc, rest)?;
    let head = Head {
        version,
        run,
        sequence,
    };
    behind_problem(alloc, rest, head, problem)
}

// The image of this head and this problem, by the fields behind them.
#[tactic(auto, unfolding(crate::specs::Reading::behind_problem))]
fn behind_problem(
    alloc: Global,
    bytes: &[u8],
    head: Head,
    problem: Shared,
) -> Result<(Image, &[u8]), Fault>
    ensures { Gives (λ x. (x.0, x.1.now)) result
        (behind_problem head.version head.run head.sequence problem bytes.now) }
{
    let (best, rest) = match best_at(alloc, bytes, problem.problem()) {
        Ok(found) => found,
        Err(fault) => {
            drop(problem);
            return Err(fault);
        }
    };
    let (counts, rest) = match counts_at(rest, head.version) {
        Ok(found) => found,
        Err(fault) => {
            drop(best);
            drop(problem);
            return Err(fault);
        }
    };
    let root = problem.problem().root();
    match nodes_at(alloc, rest, head, root, counts.nodes) {
        Ok((nodes, rest)) => {
            let image = Image {
                run: head.run,
                sequence: head.sequence,
                problem,
                best,
                heard: counts.heard,
                gap: counts.gap,
                nodes,
            };
            Ok((image, rest))
        }
        Err(fault) => {
            drop(best);
            drop(problem);
            Err(fault)
        }
    }
}

/// The image that the bytes spell.
#[tactic(auto, unfolding(crate::specs::Reading::image_at))]
pub fn whole_image(alloc: Global, bytes: &[u8]) -> Result<Image, Fault>
    ensures { Gives (λ x. x) result (image_at bytes.now) }
{
    let (image, rest) = fields_at(alloc, bytes)?;
    if !rest.is_empty() {
        drop(image);
        return Err(Fault::Bad(rest.len()));
    }
    Ok(image)
}
