ghost use Rattle.std.specs.Prelude.{◌≡◌, ◌++◌, ◌∷◌, [], ◌≤◌, ◌^◌, length, IfOk, IfSome, OnOk, MatchBool};
ghost use Rattle.ug_rows.specs.Boxes.{IsBelow, IsNonEmpty, IsCrossed};
ghost use Rattle.ug_branch.specs.Choices.{AreClosed};
ghost use Rattle.ug_problem.specs.Better.{IsSmallCutoff};
ghost use Rattle.ug_problem.specs.Instances.{root_of};
ghost use Rattle.ug_propagate.specs.Waiting.{WentOn};
ghost use Rattle.ug_propagate.specs.Working.{IsWorking};
ghost use Rattle.ug_base.specs.Chains.{IsBase, IsChain, IsCut, IsOpenBox, KeepsBases, area_of, areas_of, base_of, narrowed};
ghost use Rattle.ug_base.specs.Evaluations.{CanEvaluate, IsInSight, IsSeen};
ghost use Rattle.ug_base.specs.Fronts.{front_of};

use crate::branching::Branching;
use crate::formulation::Formulation;
use crate::lows::lows;
use crate::open_box::{Narrowing, OpenBox};
use crate::open_boxes::OpenBoxes;
use crate::scores::BranchScores;
use std::alloc::{AllocError, Global};
use ug_problem::Problem;
use ug_propagate::{Reason, Working, propagate};
use ug_rows::{IntBox, Interval, Point, has_point};

/// Result of evaluating a box.
#[derive(Drop)]
pub enum Seen {
    /// No good point, for this reason, unless the box had no point from the start.
    Hopeless(Option<Reason>),
    /// One good point.
    Solved(Point),
    /// The branching of what is left of it in the working box.
    Branched(Branching),
}

// What chooses the branching of a box, and how many of its first columns are known to be closed.
#[derive(Clone, Copy)]
struct Choosing<'a> {
    scores: &'a BranchScores,
    closed: usize,
}

/// Brings the working box to the one at which a part was split off, with the rows queued that may
/// not be at fixpoint.
pub fn begin(
    work: &mut Working,
    problem: &Problem,
    whole: &IntBox,
    open_box: OpenBox,
    cutoff: Option<i128>,
)
    requires whole { IsBelow whole.now (root_of problem.now) }
    requires base { IsBase problem.now whole.now work.old }
    requires open_box { IsOpenBox problem.now whole.now work.old open_box }
    ensures base { IsBase problem.now whole.now work.new }
    ensures kept { KeepsBases open_box.depth work.old work.new }
    ensures working { IsWorking problem.now cutoff work.new }
    ensures area { work.new.sums.area ≡ base_of work.old open_box }
{
    // The problem's type keeps that it is one.
    let _rows = problem.rows();
    work.go_back(problem, open_box.depth);
    work.wait(problem, open_box.fixpoint, cutoff);
}

// Narrows a column, if one is to be.
fn narrow(
    work: &mut Working,
    problem: &Problem,
    cutoff: Option<i128>,
    cut: Option<Narrowing>,
) -> Result<(), AllocError>
    requires working { IsWorking problem.now cutoff work.old }
    requires cut { IsCut problem.now work.old.sums.area cut }
    ensures went { WentOn problem.now cutoff work.old work.new }
    ensures area { OnOk result (work.new.sums.area ≡ narrowed cut work.old.sums.area) }
{
    match cut {
        Some(cut) => {
            work.cut(problem, cut.column, cut.side)?;
            Ok(())
        }
        None => Ok(()),
    }
}

// Whether the working box has a point, which is known where a column was narrowed.
fn has_some(work: &Working, cut: Option<Narrowing>) -> bool
    requires { IfSome cut (λ narrowing. IsNonEmpty work.now.sums.area) }
    ensures { MatchBool result (IsNonEmpty work.now.sums.area) (IsCrossed work.now.sums.area) }
{
    match cut {
        Some(_) => true,
        None => has_point(work.sides()),
    }
}

// Moves the working box to the box of a part, and returns whether that has a point.
fn enter(
    work: &mut Working,
    problem: &Problem,
    whole: &IntBox,
    open_box: OpenBox,
    cutoff: Option<i128>,
) -> Result<bool, AllocError>
    requires whole { IsBelow whole.now (root_of problem.now) }
    requires base { IsBase problem.now whole.now work.old }
    requires open_box { IsOpenBox problem.now whole.now work.old open_box }
    ensures base { IsBase problem.now whole.now work.new }
    ensures kept { KeepsBases open_box.depth work.old work.new }
    ensures working { IsWorking problem.now cutoff work.new }
    ensures area { OnOk result (work.new.sums.area ≡ area_of work.old open_box) }
    ensures some { IfOk result
        (λ some. MatchBool some (IsNonEmpty work.new.sums.area) (IsCrossed work.new.sums.area)) }
{
    begin(work, problem, whole, open_box, cutoff);
    narrow(work, problem, cutoff, open_box.cut)?;
    Ok(has_some(work, open_box.cut))
}

// Evaluates what is left of a box.
#[tactic(auto, using(crate::proofs::Sight::only_point))]
fn see(alloc: Global, choosing: Choosing, sides: &[Interval]) -> Result<Seen, AllocError>
    requires few { length sides.now ≤ 10 ^ 4 }
    requires some { IsNonEmpty sides.now }
    requires closed { AreClosed choosing.closed sides.now }
    ensures { IfOk result (IsInSight choosing.entry.scores.now sides.now) }
{
    match choosing.scores.branching(sides, choosing.closed) {
        Some(branching) => Ok(Seen::Branched(branching)),
        None => Ok(Seen::Solved(lows(alloc, sides)?)),
    }
}

// Evaluates what bound propagation leaves of the working box.
fn evaluate_inside(
    alloc: Global,
    work: &mut Working,
    problem: &Problem,
    choosing: Choosing,
    cutoff: Option<i128>,
) -> Result<Seen, AllocError>
    requires can { CanEvaluate problem.now cutoff work.old.sums.area }
    requires some { IsNonEmpty work.old.sums.area }
    requires closed { AreClosed choosing.closed work.old.sums.area }
    requires working { IsWorking problem.now cutoff work.old }
    ensures went { WentOn problem.now cutoff work.old work.new }
    ensures seen { IfOk result
        (IsSeen problem.now cutoff choosing.entry.scores.now work.old.sums.area work.new) }
{
    match propagate(work, problem, cutoff)? {
        Some(reason) => Ok(Seen::Hopeless(Some(reason))),
        None => {
            let seen = see(alloc, choosing, work.sides())?;
            Ok(seen)
        }
    }
}

/// Evaluates the box of a part. If it is branched, the working box is then what bound propagation
/// leaves of it. The boxes of the parts before it are unchanged.
pub fn evaluate(
    alloc: Global,
    work: &mut Working,
    problem: &Problem,
    whole: &IntBox,
    scores: &BranchScores,
    cutoff: Option<i128>,
    open_box: OpenBox,
) -> Result<Seen, AllocError>
    requires whole { IsBelow whole.now (root_of problem.now) }
    requires can { CanEvaluate problem.now cutoff (area_of work.old open_box) }
    requires base { IsBase problem.now whole.now work.old }
    requires open_box { IsOpenBox problem.now whole.now work.old open_box }
    ensures base { IsBase problem.now whole.now work.new }
    ensures kept { KeepsBases open_box.depth work.old work.new }
    ensures seen { IfOk result
        (IsSeen problem.now cutoff scores.now (area_of work.old open_box) work.new) }
{
    let closed = open_box.closed;
    if enter(work, problem, whole, open_box, cutoff)? {
        let choosing = Choosing { scores, closed };
        let seen = evaluate_inside(alloc, work, problem, choosing, cutoff)?;
        Ok(seen)
    } else {
        Ok(Seen::Hopeless(None))
    }
}

/// Evaluates the box of the last part. The boxes of the parts are as they were.
pub fn evaluate_last(
    alloc: Global,
    work: &mut Working,
    formulation: &Formulation,
    whole: &IntBox,
    scores: &BranchScores,
    cutoff: Option<i128>,
    open_boxes: &OpenBoxes,
    last: OpenBox,
) -> Result<Seen, AllocError>
    requires whole { IsBelow whole.now (root_of formulation.now.searched) }
    requires below { IsBelow (area_of work.old last) (root_of formulation.now.searched) }
    requires small { IsSmallCutoff cutoff }
    requires chain { IsChain formulation.now.searched whole.now work.old open_boxes.now }
    requires last { open_boxes.now ≡ front_of open_boxes.now ++ last ∷ [] }
    ensures chain { IsChain formulation.now.searched whole.now work.new open_boxes.now }
    ensures areas { areas_of work.new open_boxes.now ≡ areas_of work.old open_boxes.now }
    ensures seen { IfOk result
        (IsSeen formulation.now.searched cutoff scores.now (area_of work.old last) work.new) }
{
    let seen = evaluate(
        alloc,
        work,
        formulation.searched(),
        whole,
        scores,
        cutoff,
        last,
    )?;
    Ok(seen)
}
