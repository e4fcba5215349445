ghost use Rattle.std.specs.Prelude.{◌≡◌, IfOk};
ghost use Rattle.ug_base.specs.Evaluations.{lows_of};

use std::alloc::{AllocError, Global};
use ug_rows::{Interval, Point};

/// The point with each column at its low.
pub fn lows(alloc: Global, sides: &[Interval]) -> Result<Point, AllocError>
    ensures { IfOk result (λ point. point ≡ lows_of sides.now) }
{
    Ok(Point::from_vec(low_values(alloc, sides)?))
}

// The low of each column.
fn low_values(alloc: Global, sides: &[Interval]) -> Result<Vec<i32>, AllocError>
    ensures { IfOk result (λ values. values.items ≡ lows_of sides.now) }
{
    sides.iter().map(|side| side.low).collect(alloc)
}
