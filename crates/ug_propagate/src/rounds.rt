//! The rounds as they are defined: each propagates all rows. They are there to be compared with.

ghost use Rattle.std.specs.Prelude.{◌≡◌, ◌≤◌, ◌*◌, ◌^◌, ◌↔◌, length, unsigned_abs, IfSome, IsTrue};
ghost use Rattle.ug_propagate.specs.Rounds.{last_round, over_objective, over_rows, round, rounds_of};
ghost use Rattle.ug_propagate.specs.Claims.{CanTighten};
ghost use Rattle.ug_propagate.specs.Steps.{IsStill, propagated_of, outcome_of};
ghost use Rattle.ug_propagate.specs.declared.tight.Tight.TheVariants.{Kept};

use crate::row_sides::{Propagated, RowSides};
use crate::row_spec::propagate_plain;
use crate::tight::Reason;
use ug_problem::Problem;
use ug_rows::{Interval, is_fixed};

const MOST_ROUNDS: u32 = 32;

// The rows in order.
#[tactic(auto, using(crate::proofs::Bodies::ready_row, crate::proofs::Fixed::empty_rows))]
fn tighten_rows(problem: &Problem, area: &mut [Interval]) -> Propagated
    requires { length area.old ≡ length problem.now.columns }
    ensures value { propagated_of result area.new ≡ over_rows 0 problem.now.rows (Kept area.old) }
    ensures still { IsStill result area.old area.new }
{
    let rows = problem.rows();
    let mut changed = false;
    for (r, named) in rows.iter().enumerate() {
        let row_sides = RowSides {
            row: Some(r as u32),
            low: named.row.low,
            high: named.row.high,
        };
        match propagate_plain(row_sides, named.row.terms.as_slice(), area) {
            Propagated::Emptied(reason) => return Propagated::Emptied(reason),
            Propagated::Changed => changed = true,
            Propagated::Same => {}
        }
    }
    if changed {
        Propagated::Changed
    } else {
        Propagated::Same
    }
}

// The objective, where there is a cutoff.
fn tighten_objective(problem: &Problem, cutoff: Option<i128>, area: &mut [Interval]) -> Propagated
    requires { CanTighten problem.now cutoff area.old }
    ensures value { propagated_of result area.new
        ≡ over_objective problem.now.objective cutoff (Kept area.old) }
    ensures still { IsStill result area.old area.new }
{
    let Some(cutoff) = cutoff else {
        return Propagated::Same;
    };
    let objective = problem.objective();
    let row_sides = RowSides {
        row: None,
        low: None,
        high: Some(cutoff - 1 - objective.constant),
    };
    propagate_plain(row_sides, objective.terms.as_slice(), area)
}

// One round: the rows, then the objective.
#[tactic(auto, using(crate::proofs::Bodies::round_empty, crate::proofs::Bodies::round_kept))]
fn run_round(problem: &Problem, cutoff: Option<i128>, area: &mut [Interval]) -> Propagated
    requires { CanTighten problem.now cutoff area.old }
    ensures value { propagated_of result area.new ≡ round problem.now cutoff (Kept area.old) }
    ensures still { IsStill result area.old area.new }
{
    match tighten_rows(problem, area) {
        Propagated::Emptied(reason) => Propagated::Emptied(reason),
        Propagated::Same => tighten_objective(problem, cutoff, area),
        Propagated::Changed => match tighten_objective(problem, cutoff, area) {
            Propagated::Emptied(reason) => Propagated::Emptied(reason),
            _ => Propagated::Changed,
        },
    }
}

// At most 32 rounds, until one changes nothing.
fn run_rounds(problem: &Problem, cutoff: Option<i128>, area: &mut [Interval]) -> Option<Reason>
    requires { CanTighten problem.now cutoff area.old }
    ensures { outcome_of result area.new ≡ rounds_of 32 problem.now cutoff (Kept area.old) }
{
    for i in 0..MOST_ROUNDS {
        match run_round(problem, cutoff, area) {
            Propagated::Emptied(reason) => return Some(reason),
            Propagated::Same => return None,
            Propagated::Changed => {}
        }
    }
    None
}

// One more round, where all columns are fixed.
#[tactic(auto, using(crate::proofs::Bodies::last_fixed, crate::proofs::Bodies::last_open))]
fn run_last(problem: &Problem, cutoff: Option<i128>, area: &mut [Interval]) -> Option<Reason>
    requires { CanTighten problem.now cutoff area.old }
    ensures { outcome_of result area.new ≡ last_round problem.now cutoff (Kept area.old) }
{
    if is_fixed(area) {
        match run_round(problem, cutoff, area) {
            Propagated::Emptied(reason) => Some(reason),
            _ => None,
        }
    } else {
        None
    }
}

/// At most 32 rounds, and one more where all columns are fixed.
pub fn run_all(problem: &Problem, cutoff: Option<i128>, area: &mut [Interval]) -> Option<Reason>
    requires { CanTighten problem.now cutoff area.old }
    ensures { outcome_of result area.new
        ≡ last_round problem.now cutoff (rounds_of 32 problem.now cutoff (Kept area.old)) }
{
    if let Some(reason) = run_rounds(problem, cutoff, area) {
        return Some(reason);
    }
    run_last(problem, cutoff, area)
}
