//! Rounds over the rows of a working box that are queued.

ghost use Rattle.std.specs.Prelude.{◌≡◌, ◌≤◌, ◌<◌, ◌*◌, ◌^◌, ◌-ℤ◌, pos, length, slice_index_or, unsigned_abs, Some, None, IfOk, IsTrue};
ghost use Rattle.std.specs.Option.{option_map};
ghost use Rattle.ug_rows.specs.Boxes.{IsFixed};
ghost use Rattle.ug_problem.specs.Instances.{no_row};
ghost use Rattle.ug_problem.specs.Better.{IsSmallCutoff};
ghost use Rattle.ug_problem.specs.Limits.{IsProblem};
ghost use Rattle.ug_problem.specs.ColumnEntries.{terms_of};
ghost use Rattle.ug_propagate.specs.Rounds.{last_round, round, rounds_of};
ghost use Rattle.ug_propagate.specs.Steps.{IsPropagable, outcome_of};
ghost use Rattle.ug_propagate.specs.Waiting.{HasPropagated, IsRowFound, NoneQueuedFrom, WentOn, propagated_to};
ghost use Rattle.ug_propagate.specs.Working.{AllAtFixpoint, HasBits, HasOneSide, IsBox, IsStep, IsWorking, sides_for};
ghost use Rattle.ug_propagate.specs.declared.tight.Tight.TheVariants.{Kept};

use crate::fixpoint::Fixpoint;
use crate::row_sides::{Propagated, RowSides};
use crate::row64::propagate_short;
use crate::row128::propagate_row;
use crate::short_sides::short_sides;
use crate::sums::terms_at;
use crate::tight::Reason;
use crate::working::Working;
use std::alloc::AllocError;
use ug_problem::{NamedRow, Problem};
use ug_rows::{Objective, is_fixed};

// The sides of a row.
fn sides_of_row(rows: &[NamedRow], r: usize) -> RowSides
    requires there { r < length rows.now }
    requires few { length rows.now ≤ 10 ^ 4 }
    ensures { result ≡ record {
      row = Some r;
      low = (slice_index_or rows.now r no_row).row.low;
      high = (slice_index_or rows.now r no_row).row.high;
    } }
{
    let row = &rows[r].row;
    RowSides {
        row: Some(r as u32),
        low: row.low,
        high: row.high,
    }
}

// The sides of the objective: its value is below the cutoff, if there is one.
fn sides_of_objective(objective: &Objective, cutoff: Option<i128>) -> RowSides
    requires constant { unsigned_abs objective.now.constant ≤ 10 ^ 37 }
    requires cutoff { IsSmallCutoff cutoff }
    ensures { result ≡ record {
      row = None;
      low = None;
      high = option_map (λ c. c -ℤ pos 1 -ℤ objective.now.constant) cutoff;
    } }
{
    let high = match cutoff {
        Some(cutoff) => Some(cutoff - 1 - objective.constant),
        None => None,
    };
    RowSides {
        row: None,
        low: None,
        high,
    }
}

// The sides of row r under a cutoff.
fn sides_under(problem: &Problem, cutoff: Option<i128>, r: usize) -> RowSides
    requires there { r ≤ length problem.now.rows }
    requires cutoff { IsSmallCutoff cutoff }
    ensures value { result ≡ sides_for problem.now cutoff r }
    ensures problem { IsProblem problem.now }
{
    let rows = problem.rows();
    if r < rows.len() {
        sides_of_row(rows, r)
    } else {
        sides_of_objective(problem.objective(), cutoff)
    }
}

// The first row from this one on that is queued, where there is one.
fn next_row(work: &Working, problem: &Problem, from: usize) -> Option<usize>
    requires { HasBits problem.now work.now.queued }
    ensures found { IsRowFound problem.now work.now.queued from result }
    ensures problem { IsProblem problem.now }
{
    let rows = problem.rows().len();
    match work.next(from) {
        Some(r) if r <= rows => Some(r),
        _ => None,
    }
}

// Whether a row has one side alone, or none.
fn has_one_side(row_sides: RowSides) -> bool
    ensures { IsTrue result → HasOneSide row_sides }
{
    row_sides.low.is_none() || row_sides.high.is_none()
}

// The propagation of a row in 128 bits. It is a function of its own so that one in 64 bits keeps
// nothing ready for it.
#[cold]
#[inline(never)]
fn propagate_wide(
    work: &mut Working,
    problem: &Problem,
    cutoff: Option<i128>,
    r: usize,
) -> Result<Propagated, AllocError>
    requires there { r ≤ length problem.now.rows }
    requires cutoff { IsSmallCutoff cutoff }
    requires work { IsBox problem.now work.old }
    ensures row_sides { IfOk result (HasPropagated problem.now cutoff r work.old work.new) }
    ensures step { IsStep problem.now work.old work.new }
{
    let row_sides = sides_under(problem, cutoff, r);
    let propagated = propagate_row(work, problem, r, row_sides, terms_at(problem, r))?;
    Ok(propagated)
}

// The propagation of row r, in 64 bits where the sums and the sides fit.
fn propagate_fitting(
    work: &mut Working,
    problem: &Problem,
    cutoff: Option<i128>,
    r: usize,
    row_sides: RowSides,
) -> Result<Propagated, AllocError>
    requires there { r ≤ length problem.now.rows }
    requires cutoff { IsSmallCutoff cutoff }
    requires problem { IsProblem problem.now }
    requires row_sides { row_sides ≡ sides_for problem.now cutoff r }
    requires work { IsBox problem.now work.old }
    ensures row_sides { IfOk result (HasPropagated problem.now cutoff r work.old work.new) }
    ensures step { IsStep problem.now work.old work.new }
{
    if work.is_short() {
        if let Some(s) = short_sides(problem, r, row_sides) {
            let propagated = propagate_short(work, problem, s)?;
            return Ok(propagated);
        }
    }
    let propagated = propagate_wide(work, problem, cutoff, r)?;
    Ok(propagated)
}

// Propagates row r, which then rests where nothing was changed, or where it has one side alone: its
// terms then fit.
fn visit(
    work: &mut Working,
    problem: &Problem,
    cutoff: Option<i128>,
    r: usize,
) -> Result<Option<Reason>, AllocError>
    requires there { r ≤ length problem.now.rows }
    requires cutoff { IsSmallCutoff cutoff }
    requires work { IsWorking problem.now cutoff work.old }
    ensures went { WentOn problem.now cutoff work.old work.new }
    ensures value { IfOk result
        (λ told. outcome_of told work.new.sums.area
        ≡ propagated_to problem.now cutoff r work.old.sums.area) }
{
    let row_sides = sides_under(problem, cutoff, r);
    match propagate_fitting(work, problem, cutoff, r, row_sides)? {
        Propagated::Emptied(reason) => Ok(Some(reason)),
        Propagated::Changed => {
            if has_one_side(row_sides) {
                work.dequeue(r);
            }
            Ok(None)
        }
        Propagated::Same => {
            work.dequeue(r);
            Ok(None)
        }
    }
}

// One round: the rows that are queued, in order.
fn run_round(
    work: &mut Working,
    problem: &Problem,
    cutoff: Option<i128>,
) -> Result<Option<Reason>, AllocError>
    requires cutoff { IsSmallCutoff cutoff }
    requires work { IsWorking problem.now cutoff work.old }
    ensures went { WentOn problem.now cutoff work.old work.new }
    ensures value { IfOk result
        (λ told. outcome_of told work.new.sums.area
        ≡ round problem.now cutoff (Kept work.old.sums.area)) }
{
    let mut from = 0;
    loop {
        let Some(r) = next_row(work, problem, from) else {
            return Ok(None);
        };
        match visit(work, problem, cutoff, r)? {
            Some(reason) => return Ok(Some(reason)),
            None => from = r + 1,
        }
    }
}

// Whether a row is queued.
fn is_settled(work: &Working, problem: &Problem) -> bool
    requires { HasBits problem.now work.now.queued }
    ensures settled { IsTrue result → NoneQueuedFrom problem.now work.now.queued 0 }
    ensures problem { IsProblem problem.now }
{
    next_row(work, problem, 0).is_none()
}

const MOST_ROUNDS: u32 = 32;

// At most 32 rounds, until no row is queued.
fn run_rounds(
    work: &mut Working,
    problem: &Problem,
    cutoff: Option<i128>,
) -> Result<Option<Reason>, AllocError>
    requires cutoff { IsSmallCutoff cutoff }
    requires work { IsWorking problem.now cutoff work.old }
    ensures went { WentOn problem.now cutoff work.old work.new }
    ensures value { IfOk result
        (λ told. outcome_of told work.new.sums.area
        ≡ rounds_of 32 problem.now cutoff (Kept work.old.sums.area)) }
{
    for i in 0..MOST_ROUNDS {
        if is_settled(work, problem) {
            return Ok(None);
        }
        match run_round(work, problem, cutoff)? {
            Some(reason) => return Ok(Some(reason)),
            None => {}
        }
    }
    Ok(None)
}

// Whether each column has one value.
fn is_point(work: &Working) -> bool
    ensures fixed { IsTrue result → IsFixed work.now.sums.area }
    ensures open_ { IsFixed work.now.sums.area → IsTrue result }
{
    is_fixed(work.sides())
}

// One more round, where all columns are fixed and a row is queued.
fn run_last(
    work: &mut Working,
    problem: &Problem,
    cutoff: Option<i128>,
) -> Result<Option<Reason>, AllocError>
    requires cutoff { IsSmallCutoff cutoff }
    requires work { IsWorking problem.now cutoff work.old }
    ensures went { WentOn problem.now cutoff work.old work.new }
    ensures value { IfOk result
        (λ told. outcome_of told work.new.sums.area
        ≡ last_round problem.now cutoff (Kept work.old.sums.area)) }
{
    if is_settled(work, problem) {
        return Ok(None);
    }
    if is_point(work) {
        let told = run_round(work, problem, cutoff)?;
        return Ok(told);
    }
    Ok(None)
}

/// At most 32 rounds, and one more where all columns are fixed: what they leave of the working box,
/// or why nothing is left. After an error or where nothing is left the box is somewhere on the way.
pub fn propagate(
    work: &mut Working,
    problem: &Problem,
    cutoff: Option<i128>,
) -> Result<Option<Reason>, AllocError>
    requires cutoff { IsSmallCutoff cutoff }
    requires work { IsWorking problem.now cutoff work.old }
    ensures went { WentOn problem.now cutoff work.old work.new }
    ensures value { IfOk result
        (λ told. outcome_of told work.new.sums.area
        ≡ last_round problem.now cutoff
        (rounds_of 32 problem.now cutoff (Kept work.old.sums.area))) }
{
    match run_rounds(work, problem, cutoff)? {
        Some(reason) => Ok(Some(reason)),
        None => {
            let told = run_last(work, problem, cutoff)?;
            Ok(told)
        }
    }
}

/// How the rows of a box rest after its rounds.
pub fn fixpoint_after(work: &Working, problem: &Problem, cutoff: Option<i128>) -> Fixpoint
    requires { IsWorking problem.now cutoff work.now }
    ensures { AllAtFixpoint problem.now result work.now.sums.area }
{
    if is_settled(work, problem) {
        Fixpoint::Under(cutoff)
    } else {
        Fixpoint::Unknown
    }
}
