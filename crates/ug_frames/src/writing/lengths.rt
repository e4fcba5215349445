ghost use Rattle.std.specs.Prelude.{◌≡◌, ◌≤◌, ◌^◌, length};
ghost use Rattle.ug_fields.specs.Spelling.{optional_field};
ghost use Rattle.ug_frames.specs.Ranges.{AreChanges, IsPoint};
ghost use Rattle.ug_frames.specs.Spelling.{changes_fields, point_fields};

use ug_nodes::Changes;
use ug_rows::Point;

/// How many bytes a number or none has.
#[tactic(auto, using(ug_fields::proofs::Simple::number_long))]
pub fn optional_length(number: Option<i128>) -> u32
    ensures long { result ≡ length (optional_field number) }
    ensures short { result ≤ 17 }
{
    match number {
        None => 1,
        Some(_) => 17,
    }
}

/// How many bytes changes have.
#[tactic(auto, using(crate::proofs::Lengths::changes_long, crate::proofs::Lengths::few))]
pub fn changes_length(changes: &Changes) -> u32
    requires { AreChanges changes.now }
    ensures long { result ≡ length (changes_fields changes.now) }
    ensures short { result ≤ 120004 }
{
    4 + 12 * changes.as_slice().len() as u32
}

/// How many bytes a point has.
#[tactic(auto, using(crate::proofs::Lengths::point_long))]
pub fn point_length(point: &Point) -> u32
    requires { IsPoint point.now }
    ensures long { result ≡ length (point_fields point.now) }
    ensures short { result ≤ 40004 }
{
    4 + 4 * point.as_slice().len() as u32
}
