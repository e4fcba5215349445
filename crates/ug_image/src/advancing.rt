ghost use Rattle.std.specs.Prelude.{◌≡◌, []};
ghost use Rattle.ug_fields.specs.Lines.{IsNextLine};
ghost use Rattle.ug_image.specs.Images.{IsImage};
ghost use Rattle.ug_image.specs.Rests.{values_of, rest_at, from_front, from_problem, from_best, from_value, from_heard, from_node, from_change};

use crate::image::Image;
use crate::lines::{put_best_head, put_change, put_front, put_heard, put_node_head, put_value};
use crate::stage::Stage;
use ug_fields::Line;
use ug_records::{RecordStage, record_length};
use ug_rows::Point;

/// Puts the next line of the image into the line, and says what comes then. The line stays empty
/// at the end alone.
pub fn advance(line: &mut Line, image: &Image, stage: Stage) -> Stage
    requires { IsImage image.now }
    ensures { IsNextLine (rest_at image.now stage) line.new (rest_at image.now result) }
{
    line.clear();
    match stage {
        Stage::Front => at_front(line, image),
        Stage::Problem(stage) => at_problem(line, image, stage),
        Stage::Value(k) => at_value(line, image, k),
        Stage::Node(j) => at_node(line, image, j),
        Stage::Change(j, k) => at_change(line, image, j, k),
    }
}

fn at_node(line: &mut Line, image: &Image, j: usize) -> Stage
    requires fresh { line.old ≡ [] }
    requires image { IsImage image.now }
    ensures { IsNextLine (from_node image.now j) line.new (rest_at image.now result) }
{
    let nodes = image.nodes.as_slice();
    if j >= nodes.len() {
        return Stage::Node(j);
    }
    put_node_head(line, &nodes[j]);
    Stage::Change(j, 0)
}

fn at_change(line: &mut Line, image: &Image, j: usize, k: usize) -> Stage
    requires fresh { line.old ≡ [] }
    requires image { IsImage image.now }
    ensures { IsNextLine (from_change image.now j k) line.new (rest_at image.now result) }
{
    let nodes = image.nodes.as_slice();
    if j >= nodes.len() {
        return Stage::Node(j);
    }
    let changes = nodes[j].changes.as_slice();
    if k >= changes.len() {
        return at_node(line, image, j + 1);
    }
    put_change(line, &changes[k]);
    Stage::Change(j, k + 1)
}

fn at_heard(line: &mut Line, image: &Image) -> Stage
    requires fresh { line.old ≡ [] }
    requires image { IsImage image.now }
    ensures { IsNextLine (from_heard image.now) line.new (rest_at image.now result) }
{
    put_heard(line, image.heard, image.gap, image.nodes.len() as u64);
    Stage::Node(0)
}

// The values of the best point, or none.
fn values(best: &Option<Point>) -> &[i32]
    ensures { result.now ≡ values_of best.now }
{
    match best {
        None => &[],
        Some(point) => point.as_slice(),
    }
}

fn at_value(line: &mut Line, image: &Image, k: usize) -> Stage
    requires fresh { line.old ≡ [] }
    requires image { IsImage image.now }
    ensures { IsNextLine (from_value image.now k) line.new (rest_at image.now result) }
{
    let values = values(&image.best);
    if k >= values.len() {
        return at_heard(line, image);
    }
    put_value(line, values, k);
    Stage::Value(k + 1)
}

fn at_best(line: &mut Line, image: &Image) -> Stage
    requires fresh { line.old ≡ [] }
    requires image { IsImage image.now }
    ensures { IsNextLine (from_best image.now) line.new (rest_at image.now result) }
{
    put_best_head(line, &image.best);
    Stage::Value(0)
}

fn at_problem(line: &mut Line, image: &Image, stage: RecordStage) -> Stage
    requires { IsImage image.now }
    ensures { IsNextLine (from_problem image.now stage) line.new (rest_at image.now result) }
{
    let next = ug_records::advance(line, image.problem.problem(), stage);
    if line.as_slice().is_empty() {
        return at_best(line, image);
    }
    Stage::Problem(next)
}

fn at_front(line: &mut Line, image: &Image) -> Stage
    requires fresh { line.old ≡ [] }
    requires image { IsImage image.now }
    ensures { IsNextLine (from_front image.now) line.new (rest_at image.now result) }
{
    let bytes = record_length(image.problem.problem()) as u32;
    put_front(line, image.run, image.sequence, bytes);
    Stage::Problem(RecordStage::Front)
}
