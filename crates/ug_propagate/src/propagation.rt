ghost use Rattle.std.specs.Prelude.{◌≡◌, IfOk};
ghost use Rattle.ug_problem.specs.Limits.{IsProblem};
ghost use Rattle.ug_propagate.specs.Claims.{CanTighten, IsTightened};
ghost use Rattle.ug_propagate.specs.Rounds.{crossed, last_round, rounds, rounds_of};
ghost use Rattle.ug_propagate.specs.declared.tight.Tight.TheVariants.{Kept};

use crate::settle::propagate;
use crate::tight::{Reason, Side, Tight};
use crate::working::Working;
use std::alloc::{AllocError, Global};
use ug_problem::{NamedRow, Problem};
use ug_rows::{IntBox, Interval, has_point};

/// The reason for a box without points: the row that is examined first, if there is one.
pub fn told_of_crossed(
    alloc: Global,
    rows: &[NamedRow],
    cutoff: Option<i128>,
    area: &[Interval],
) -> Result<Tight, AllocError>
    ensures { IfOk result (λ t. t ≡ crossed rows.now cutoff area.now) }
{
    let row = match (rows.is_empty(), cutoff) {
        (true, None) => return Ok(Tight::Kept(IntBox::from_vec(Vec::from_slice(alloc, area)?))),
        (true, Some(_)) => None,
        (false, _) => Some(0),
    };
    Ok(Tight::Empty(Reason {
        row,
        side: Side::High,
    }))
}

// The rounds of a box that has a point.
fn tighten_sides(
    alloc: Global,
    problem: &Problem,
    cutoff: Option<i128>,
    area: &IntBox,
) -> Result<Tight, AllocError>
    requires { CanTighten problem.now cutoff area.now }
    ensures { IfOk result (λ t. t
        ≡ last_round problem.now cutoff (rounds_of 32 problem.now cutoff (Kept area.now))) }
{
    let mut work = Working::new(alloc, problem, area)?;
    match propagate(&mut work, problem, cutoff) {
        Ok(None) => Ok(Tight::Kept(IntBox::from_vec(work.into_sides()))),
        Ok(Some(reason)) => {
            drop(work);
            Ok(Tight::Empty(reason))
        }
        Err(error) => {
            drop(work);
            Err(error)
        }
    }
}

#[tactic(auto, using(crate::proofs::Bodies::rounds_some, crate::proofs::Bodies::rounds_none))]
fn tighten_area(
    alloc: Global,
    problem: &Problem,
    cutoff: Option<i128>,
    area: &IntBox,
) -> Result<Tight, AllocError>
    requires { CanTighten problem.now cutoff area.now }
    ensures problem { IsProblem problem.now }
    ensures value { IfOk result (λ t. t ≡ rounds problem.now cutoff area.now) }
{
    let rows = problem.rows();
    if has_point(area.as_slice()) {
        tighten_sides(alloc, problem, cutoff, area)
    } else {
        told_of_crossed(alloc, rows, cutoff, area.as_slice())
    }
}

/// What bound propagation makes of a box, for points with a value below the cutoff.
pub fn tighten(
    alloc: Global,
    problem: &Problem,
    cutoff: Option<i128>,
    area: &IntBox,
) -> Result<Tight, AllocError>
    requires { CanTighten problem.now cutoff area.now }
    ensures { IfOk result (IsTightened problem.now cutoff area.now) }
{
    tighten_area(alloc, problem, cutoff, area)
}
