ghost use Rattle.std.specs.Prelude.{◌≡◌, ◌↔◌, IsTrue, MatchBool};
ghost use Rattle.ug_rows.specs.Boxes.{IsBelow, IsClosedWithin, IsCrossed, IsFixed, IsNarrower, IsNonEmpty};

use std::marker::Model;

/// The values that a column may take: from `low` to `high`, both included. With its low above its
/// high it has none.
#[derive(Clone, Copy, PartialEq, Eq)]
pub struct Interval {
    pub low: i32,
    pub high: i32,
}

/// A box: one interval per column, in the order of the columns.
#[derive(Clone, Drop)]
pub struct IntBox {
    sides: Vec<Interval>,
}

impl Model for IntBox {
    ghost use Rattle.std.specs.Prelude.{List};
    ghost use Rattle.ug_rows.specs.declared.area.Interval.{Interval};

    ghost Value = { List Interval };

    ghost view = { λ area. area.sides.items };
}

impl IntBox {
    /// The box with these intervals. It takes no memory.
    pub fn from_vec(sides: Vec<Interval>) -> IntBox
        ensures { result ≡ sides.items }
    {
        IntBox { sides }
    }

    pub fn as_slice(&self) -> &[Interval]
        ensures { result.now ≡ self.now }
    {
        self.sides.as_slice()
    }

    /// The intervals. It takes no memory.
    pub fn into_vec(self) -> Vec<Interval>
        ensures { result.items ≡ self }
    {
        self.sides
    }
}

/// Whether each interval of the inner box is within the one of the outer.
pub fn below(inner: &IntBox, outer: &IntBox) -> bool
    ensures { IsTrue result ↔ IsBelow inner.now outer.now }
{
    all_narrower(inner.as_slice(), outer.as_slice())
}

fn all_narrower(inner: &[Interval], outer: &[Interval]) -> bool
    ensures { IsTrue result ↔ IsBelow inner.now outer.now }
{
    if inner.len() != outer.len() {
        return false;
    }
    for j in 0..outer.len() {
        if !is_narrower(inner[j], outer[j]) {
            return false;
        }
    }
    true
}

// Whether an interval is within another, and has its low at most its high unless it is the other.
fn is_narrower(inner: Interval, outer: Interval) -> bool
    ensures { IsTrue result ↔ IsNarrower inner outer }
{
    inner == outer || is_closed_within(inner, outer)
}

/// Whether an interval is within another, and has its low at most its high.
pub fn is_closed_within(inner: Interval, outer: Interval) -> bool
    ensures { IsTrue result ↔ IsClosedWithin inner outer }
{
    outer.low <= inner.low && inner.high <= outer.high && inner.low <= inner.high
}

/// Whether a box has a point: no column has its low above its high.
pub fn has_point(sides: &[Interval]) -> bool
    ensures { MatchBool result (IsNonEmpty sides.now) (IsCrossed sides.now) }
{
    for j in 0..sides.len() {
        if sides[j].high < sides[j].low {
            return false;
        }
    }
    true
}

/// Whether each column of a box has one value.
pub fn is_fixed(sides: &[Interval]) -> bool
    ensures { IsTrue result ↔ IsFixed sides.now }
{
    for j in 0..sides.len() {
        if sides[j].low != sides[j].high {
            return false;
        }
    }
    true
}
