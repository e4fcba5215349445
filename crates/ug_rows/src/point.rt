ghost use Rattle.std.specs.Prelude.{◌≡◌, ◌↔◌, IsTrue};
ghost use Rattle.ug_rows.specs.Boxes.{IsInside, IsWithin};

use crate::area::{IntBox, Interval};
use std::marker::Model;

/// A point: one value per column, in the order of the columns.
#[derive(Clone, Debug, Drop)]
pub struct Point {
    values: Vec<i32>,
}

impl Model for Point {
    ghost use Rattle.std.specs.Prelude.{List, ℤ};

    ghost Value = { List ℤ };

    ghost view = { λ point. point.values.items };
}

impl Point {
    /// The point with these values. It takes no memory.
    pub fn from_vec(values: Vec<i32>) -> Point
        ensures { result ≡ values.items }
    {
        Point { values }
    }

    pub fn as_slice(&self) -> &[i32]
        ensures { result.now ≡ self.now }
    {
        self.values.as_slice()
    }
}

/// Whether a point lies in a box.
pub fn inside(area: &IntBox, point: &Point) -> bool
    ensures { IsTrue result ↔ IsInside area.now point.now }
{
    all_within(area.as_slice(), point.as_slice())
}

fn all_within(sides: &[Interval], values: &[i32]) -> bool
    ensures { IsTrue result ↔ IsInside sides.now values.now }
{
    if values.len() != sides.len() {
        return false;
    }
    for j in 0..sides.len() {
        if !is_within(sides[j], values[j]) {
            return false;
        }
    }
    true
}

/// Whether a value is within an interval.
pub fn is_within(side: Interval, value: i32) -> bool
    ensures { IsTrue result ↔ IsWithin side value }
{
    side.low <= value && value <= side.high
}
