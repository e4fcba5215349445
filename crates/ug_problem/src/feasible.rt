ghost use Rattle.std.specs.Prelude.{◌≡◌, ◌≤◌, ◌^◌, ◌↔◌, length, IsTrue, IsNone, IfSome, unsigned_abs};
ghost use Rattle.ug_rows.specs.Boxes.{IsInside};
ghost use Rattle.ug_problem.specs.Instances.{root_of};
ghost use Rattle.ug_problem.specs.Feasible.{Feasible, IsFirstBroken, IsFirstColumn, IsFirstRow, KeepsBelow};

use crate::answer::Broken;
use crate::problem::Problem;
use ug_rows::{Point, holds, is_within};

// The first column whose value is outside its bounds.
fn first_column(problem: &Problem, point: &Point) -> Option<u32>
    requires { length point.now ≡ length problem.now.columns }
    ensures none { IsNone result → IsInside (root_of problem.now) point.now }
    ensures some { IfSome result (IsFirstColumn problem.now point.now) }
{
    let sides = problem.root().as_slice();
    let values = point.as_slice();
    for (c, side) in sides.iter().enumerate() {
        if !is_within(*side, values[c]) {
            return Some(c as u32);
        }
    }
    None
}

// Returns the first row that the point does not satisfy.
#[tactic(auto, using(crate::proofs::Linear::linear_row))]
fn first_row(problem: &Problem, point: &Point) -> Option<u32>
    requires { length point.now ≡ length problem.now.columns }
    ensures none { IsNone result → KeepsBelow problem.now (length problem.now.rows) point.now }
    ensures some { IsInside (root_of problem.now) point.now
        → IfSome result (IsFirstRow problem.now point.now) }
{
    let rows = problem.rows();
    for (r, named) in rows.iter().enumerate() {
        if !holds(&named.row, point) {
            return Some(r as u32);
        }
    }
    None
}

// The first way in which the point is not feasible.
pub fn find_broken(problem: &Problem, point: &Point) -> Option<Broken>
    ensures feasible { IsNone result ↔ Feasible problem.now point.now }
    ensures first { IfSome result (IsFirstBroken problem.now point.now) }
{
    let length = point.as_slice().len();
    if length != problem.columns().len() {
        return Some(Broken::Length(length));
    }
    if let Some(column) = first_column(problem, point) {
        return Some(Broken::Column(column));
    }
    let row = first_row(problem, point)?;
    Some(Broken::Row(row))
}
