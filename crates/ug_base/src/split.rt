ghost use Rattle.std.specs.Prelude.{◌≡◌, ◌<◌, ◌<ℤ◌, ◌+ℤ◌, ◌++◌, ◌∷◌, [], pos, length, slice_set, Some, OnOk, OnErr};
ghost use Rattle.ug_rows.specs.Boxes.{IsBelow, IsClosedWithin, IsNonEmpty, interval_at};
ghost use Rattle.ug_propagate.specs.Working.{AllAtFixpoint, IsWorking};
ghost use Rattle.ug_branch.specs.Choices.{AreClosed};
ghost use Rattle.ug_base.specs.Chains.{HasSplit, IsBase, IsChain, IsOpenBox, area_of, closed_of, first_side, other_side};
ghost use Rattle.ug_base.specs.Evaluations.{IsBranched};

use crate::branching::Branching;
use crate::formulation::Formulation;
use crate::open_box::{Narrowing, OpenBox};
use crate::open_boxes::OpenBoxes;
use crate::scores::BranchScores;
use std::alloc::AllocError;
use ug_branch::Half;
use ug_problem::Problem;
use ug_propagate::{Fixpoint, Working, fixpoint_after};
use ug_rows::{IntBox, Interval};

// The interval up to its middle.
fn below_middle(side: Interval, middle: i32) -> Interval
    ensures { result ≡ record { low = side.low; high = middle } }
{
    Interval {
        low: side.low,
        high: middle,
    }
}

// The interval from the value after its middle.
fn above_middle(side: Interval, middle: i32) -> Interval
    requires { middle <ℤ side.high }
    ensures { result ≡ record { low = middle +ℤ pos 1; high = side.high } }
{
    let high = side.high;
    Interval {
        low: next(middle, high),
        high,
    }
}

// The value after one that is less than another.
fn next(at: i32, high: i32) -> i32
    requires { at <ℤ high }
    ensures { result ≡ at +ℤ pos 1 }
{
    at + 1
}

// Returns the half of an interval that comes first.
fn first_of(half: Half, side: Interval, middle: i32) -> Interval
    requires { middle <ℤ side.high }
    ensures { result ≡ first_side half side middle }
{
    match half {
        Half::Lower => below_middle(side, middle),
        Half::Upper => above_middle(side, middle),
    }
}

// Returns the other half.
fn other_of(half: Half, side: Interval, middle: i32) -> Interval
    requires { middle <ℤ side.high }
    ensures { result ≡ other_side half side middle }
{
    match half {
        Half::Lower => above_middle(side, middle),
        Half::Upper => below_middle(side, middle),
    }
}

// The two branches of an interval: the one that comes first, and the other.
#[derive(Clone, Copy)]
struct Sides {
    first: Interval,
    second: Interval,
}

// Returns the branches of the range of the branching variable.
fn sides_at(work: &Working, scores: &BranchScores, branching: Branching) -> Sides
    requires { IsBranched scores.now work.now.sums.area branching }
    ensures first { result.first ≡ first_side branching.first
        (interval_at work.now.sums.area branching.branch.column) branching.branch.middle }
    ensures second { result.second ≡ other_side branching.first
        (interval_at work.now.sums.area branching.branch.column) branching.branch.middle }
{
    let side = work.sides()[branching.branch.column as usize];
    Sides {
        first: first_of(branching.first, side, branching.branch.middle),
        second: other_of(branching.first, side, branching.branch.middle),
    }
}

// Knowledge about a box that is branched, and then about its parts: which rows are at fixpoint, and
// how many of its first columns are closed.
#[derive(Clone, Copy)]
struct Known {
    fixpoint: Fixpoint,
    closed: usize,
}

// Returns how many of the first columns are closed, of which `known` are known to be.
#[tactic(auto, using(crate::proofs::Closed::closed_more))]
fn closed_from(sides: &[Interval], known: usize) -> usize
    requires { AreClosed known sides.now }
    ensures { AreClosed result sides.now }
{
    for c in known..sides.len() {
        if sides[c].low < sides[c].high {
            return c;
        }
    }
    known
}

fn open_box_of(depth: usize, column: u32, side: Interval, floor: i128, known: Known) -> OpenBox
    ensures { result ≡ record {
      depth = depth;
      cut = Some (record { column = column; side = side });
      floor = floor;
      fixpoint = known.fixpoint;
      closed = known.closed;
    } }
{
    OpenBox {
        depth,
        cut: Some(Narrowing { column, side }),
        floor,
        fixpoint: known.fixpoint,
        closed: known.closed,
    }
}

// The working box with a column narrowed, as a part.
fn open_box_with(
    work: &Working,
    problem: &Problem,
    whole: &IntBox,
    column: u32,
    side: Interval,
    known: Known,
) -> OpenBox
    requires there { column < length problem.now.columns }
    requires base { IsBase problem.now whole.now work.now }
    requires below { IsBelow work.now.sums.area whole.now }
    requires inner { IsClosedWithin side (interval_at work.now.sums.area column) }
    requires some { IsNonEmpty work.now.sums.area }
    requires fixpoint { AllAtFixpoint problem.now known.fixpoint work.now.sums.area }
    requires closed { AreClosed known.closed work.now.sums.area }
    ensures open_box { IsOpenBox problem.now whole.now work.now result }
    ensures area { area_of work.now result ≡ slice_set work.now.sums.area column side }
    ensures depth { result.depth ≡ length work.now.trail }
{
    let floor = work.floor_with(problem, column, side);
    open_box_of(work.trail_len(), column, side, floor, known)
}

/// Puts both parts of the working box in the last part's place, the one that comes first on top.
/// After an error the parts are unchanged.
pub fn split_last(
    work: &Working,
    formulation: &Formulation,
    whole: &IntBox,
    scores: &BranchScores,
    cutoff: Option<i128>,
    branching: Branching,
    open_boxes: &mut OpenBoxes,
) -> Result<(), AllocError>
    requires some { 0 < length open_boxes.old }
    requires chain { IsChain formulation.now.searched whole.now work.now open_boxes.old }
    requires below { IsBelow work.now.sums.area whole.now }
    requires working { IsWorking formulation.now.searched cutoff work.now }
    requires branched { IsBranched scores.now work.now.sums.area branching }
    requires closed { AreClosed (closed_of open_boxes.old) work.now.sums.area }
    ensures ok { OnOk result (HasSplit formulation.now.searched whole.now work.now branching.first
        branching.branch open_boxes.old open_boxes.new) }
    ensures err { OnErr result (open_boxes.new ≡ open_boxes.old) }
{
    let problem = formulation.searched();
    let known = Known {
        fixpoint: fixpoint_after(work, problem, cutoff),
        closed: closed_from(work.sides(), open_boxes.closed_last()),
    };
    let sides = sides_at(work, scores, branching);
    let column = branching.branch.column;
    let first = open_box_with(work, problem, whole, column, sides.first, known);
    let second = open_box_with(work, problem, whole, column, sides.second, known);
    open_boxes.replace_last(first, second)?;
    Ok(())
}
