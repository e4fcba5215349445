ghost use Rattle.std.specs.Prelude.{◌≡◌, ◌↔◌, ◌<◌, ℕ, length, IsTrue};
ghost use Rattle.ug_surrogate.specs.Weights.{AreMultipliers, AreRising, HasSide, IsBefore, IsLower, multiplier_at, side_of};

use ug_lists::Items;
use ug_problem::Problem;
use ug_rows::Row;

/// A side of a row. The low side comes first.
#[derive(Clone, Copy, Debug, PartialEq, Eq)]
pub enum Side {
    Low,
    High,
}

/// The weight of one side of a row.
#[derive(Clone, Copy, Debug, PartialEq, Eq)]
pub struct Multiplier {
    /// The row, counted from 0.
    pub row: u32,
    pub side: Side,
    pub weight: u32,
}

/// Weights of the objective and of sides of rows, in rising order of rows and sides.
#[derive(Drop)]
pub struct Multipliers {
    /// The weight of the objective, at least 1.
    pub d: u32,
    pub list: Items<Multiplier>,
}

/// The row, or `None` for the objective, at which a weighted sum may pass 10^38.
#[derive(Clone, Copy, Debug, PartialEq, Eq)]
pub struct TooBig {
    pub row: Option<u32>,
}

// Whether one side is the low and the other the high one.
fn is_lower(first: Side, second: Side) -> bool
    ensures { IsTrue result ↔ IsLower first second }
{
    match first {
        Side::Low => second == Side::High,
        Side::High => false,
    }
}

// Whether one multiplier stands before another.
fn is_before(first: Multiplier, second: Multiplier) -> bool
    ensures { IsTrue result ↔ IsBefore first second }
{
    first.row < second.row || (first.row == second.row && is_lower(first.side, second.side))
}

// Whether rows and sides rise strictly.
fn rise(list: &[Multiplier]) -> bool
    ensures { IsTrue result ↔ AreRising list.now }
{
    for k in 1..list.len() {
        if !is_before(list[k - 1], list[k]) {
            return false;
        }
    }
    true
}

/// This side of a row, if it has it.
pub fn side_of(row: &Row, side: Side) -> Option<i128>
    ensures { result ≡ side_of side row.now }
{
    match side {
        Side::Low => row.low,
        Side::High => row.high,
    }
}

/// Whether the row is there and has the side.
pub fn has_side(problem: &Problem, multiplier: Multiplier) -> bool
    ensures { IsTrue result ↔ HasSide problem.now multiplier }
{
    match problem.rows().get(multiplier.row as usize) {
        Some(named) => side_of(&named.row, multiplier.side).is_some(),
        None => false,
    }
}

// Whether each row is there and has the side.
fn have_sides(problem: &Problem, list: &[Multiplier]) -> bool
    ensures { IsTrue result
        ↔ ((k : ℕ) → k < length list.now → HasSide problem.now (multiplier_at list.now k)) }
{
    for k in 0..list.len() {
        if !has_side(problem, list[k]) {
            return false;
        }
    }
    true
}

/// Whether these are multipliers of the problem: the objective has a weight, rows and sides rise
/// strictly, and each row has the side. It takes no memory.
pub fn are_of(problem: &Problem, m: &Multipliers) -> bool
    ensures { IsTrue result ↔ AreMultipliers problem.now m.now }
{
    m.d > 0 && rise(m.list.as_slice()) && have_sides(problem, m.list.as_slice())
}
