ghost use Rattle.std.specs.Prelude.{◌≡◌, ◌<◌, ◌≤◌, ◌*◌, ◌^◌, ◌-ℤ◌, length, unsigned_abs, IfOk};
ghost use Rattle.ug_rows.specs.Rows.{IsLinear};
ghost use Rattle.ug_propagate.specs.Cuts.{cut_of};
ghost use Rattle.ug_propagate.specs.Claims.{CanTighten};
ghost use Rattle.ug_propagate.specs.Rounds.{end_of_others, exceeds, falls_short, last_round, over_low, over_terms, rounds, rounds_of, row_step, term_step, under_high};
ghost use Rattle.ug_propagate.specs.Steps.{IsPropagable, IsStill, IsTermOf, propagated_of, outcome_of, row_of};
ghost use Rattle.ug_propagate.specs.declared.tight.Tight.TheVariants.{Kept};

use crate::cut::{Cut, cut_at_least, cut_at_most};
use crate::propagation::told_of_crossed;
use crate::rounds::run_all;
use crate::row_sides::{Propagated, RowSides};
use crate::tight::{Reason, Side, Tight};
use std::alloc::{AllocError, Global};
use ug_problem::Problem;
use ug_rows::{Extreme, IntBox, Interval, Term, add_end, has_point, sum_of_ends};

// The least or the greatest sum of the other terms.
fn ends_of_others(extreme: Extreme, terms: &[Term], term: Term, sides: &[Interval]) -> i128
    requires terms { IsLinear (length sides.now) terms.now }
    requires term { IsTermOf (length sides.now) term }
    ensures value { result ≡ end_of_others extreme terms.now term sides.now }
    ensures small { unsigned_abs result ≤ 4 * 10 ^ 37 }
{
    let product = add_end(extreme, 0, term, sides[term.column as usize]);
    sum_of_ends(extreme, terms, sides) - product
}

// A side of a row less the least or the greatest sum of the other terms.
fn less_others(extreme: Extreme, side: i128, terms: &[Term], term: Term, sides: &[Interval]) -> i128
    requires terms { IsLinear (length sides.now) terms.now }
    requires term { IsTermOf (length sides.now) term }
    requires side { unsigned_abs side ≤ 4 * 10 ^ 37 }
    ensures value { result ≡ side -ℤ end_of_others extreme terms.now term sides.now }
    ensures small { unsigned_abs result ≤ 10 ^ 38 }
{
    side - ends_of_others(extreme, terms, term, sides)
}

// The box with this left of a column.
fn put(reason: Reason, column: usize, cut: Cut, area: &mut [Interval]) -> Option<Reason>
    requires { column < length area.old }
    ensures { outcome_of result area.new ≡ cut_of reason column area.old cut }
{
    match cut {
        Cut::Whole => None,
        Cut::Nothing => Some(reason),
        Cut::To(side) => {
            area[column] = side;
            None
        }
    }
}

fn tighten_under_high(
    row_sides: RowSides,
    terms: &[Term],
    term: Term,
    area: &mut [Interval],
) -> Option<Reason>
    requires row { IsPropagable (length area.old) row_sides terms.now }
    requires term { IsTermOf (length area.old) term }
    ensures { outcome_of result area.new
        ≡ under_high row_sides.row terms.now row_sides.high term area.old }
{
    let Some(high) = row_sides.high else {
        return None;
    };
    let most = less_others(Extreme::Least, high, terms, term, area);
    let reason = Reason {
        row: row_sides.row,
        side: Side::High,
    };
    let cut = cut_at_most(reason, term, most, area);
    put(reason, term.column as usize, cut, area)
}

fn tighten_over_low(
    row_sides: RowSides,
    terms: &[Term],
    term: Term,
    area: &mut [Interval],
) -> Option<Reason>
    requires row { IsPropagable (length area.old) row_sides terms.now }
    requires term { IsTermOf (length area.old) term }
    ensures { outcome_of result area.new
        ≡ over_low row_sides.row terms.now row_sides.low term area.old }
{
    let Some(low) = row_sides.low else {
        return None;
    };
    let least = less_others(Extreme::Greatest, low, terms, term, area);
    let reason = Reason {
        row: row_sides.row,
        side: Side::Low,
    };
    let cut = cut_at_least(reason, term, least, area);
    put(reason, term.column as usize, cut, area)
}

// One term: its column is tightened under the high side, then under the low side.
fn tighten_term(
    row_sides: RowSides,
    terms: &[Term],
    term: Term,
    area: &mut [Interval],
) -> Option<Reason>
    requires row { IsPropagable (length area.old) row_sides terms.now }
    requires term { IsTermOf (length area.old) term }
    ensures { outcome_of result area.new
        ≡ term_step row_sides.row (row_of row_sides terms.now) term (Kept area.old) }
{
    if let Some(reason) = tighten_under_high(row_sides, terms, term, area) {
        return Some(reason);
    }
    tighten_over_low(row_sides, terms, term, area)
}

fn tighten_terms(row_sides: RowSides, terms: &[Term], area: &mut [Interval]) -> Option<Reason>
    requires { IsPropagable (length area.old) row_sides terms.now }
    ensures { outcome_of result area.new
        ≡ over_terms row_sides.row (row_of row_sides terms.now) terms.now (Kept area.old) }
{
    for term in terms {
        if let Some(reason) = tighten_term(row_sides, terms, *term, area) {
            return Some(reason);
        }
    }
    None
}

fn is_above(sum: i128, high: Option<i128>) -> bool
    ensures { result ≡ exceeds high sum }
{
    match high {
        Some(high) => high < sum,
        None => false,
    }
}

fn is_below(sum: i128, low: Option<i128>) -> bool
    ensures { result ≡ falls_short low sum }
{
    match low {
        Some(low) => sum < low,
        None => false,
    }
}

// One row: its least against the high side, its greatest against the low side, then its terms.
fn tighten_row(row_sides: RowSides, terms: &[Term], area: &mut [Interval]) -> Option<Reason>
    requires { IsPropagable (length area.old) row_sides terms.now }
    ensures { outcome_of result area.new
        ≡ row_step row_sides.row (row_of row_sides terms.now) area.old }
{
    if is_above(sum_of_ends(Extreme::Least, terms, area), row_sides.high) {
        return Some(Reason {
            row: row_sides.row,
            side: Side::High,
        });
    }
    if is_below(sum_of_ends(Extreme::Greatest, terms, area), row_sides.low) {
        return Some(Reason {
            row: row_sides.row,
            side: Side::Low,
        });
    }
    tighten_terms(row_sides, terms, area)
}

/// The propagation of a row as it is defined: each sum is taken anew for each term, and none ends
/// early.
pub fn propagate_plain(row_sides: RowSides, terms: &[Term], area: &mut [Interval]) -> Propagated
    requires { IsPropagable (length area.old) row_sides terms.now }
    ensures value { propagated_of result area.new
        ≡ row_step row_sides.row (row_of row_sides terms.now) area.old }
    ensures still { IsStill result area.old area.new }
{
    match tighten_row(row_sides, terms, area) {
        Some(reason) => Propagated::Emptied(reason),
        None => Propagated::Changed,
    }
}

// The rounds of a box that has a point.
fn tighten_sides(
    alloc: Global,
    problem: &Problem,
    cutoff: Option<i128>,
    area: &[Interval],
) -> Result<Tight, AllocError>
    requires { CanTighten problem.now cutoff area.now }
    ensures { IfOk result (λ t. t
        ≡ last_round problem.now cutoff (rounds_of 32 problem.now cutoff (Kept area.now))) }
{
    let mut sides = Vec::from_slice(alloc, area)?;
    match run_all(problem, cutoff, sides.as_mut_slice()) {
        Some(reason) => Ok(Tight::Empty(reason)),
        None => Ok(Tight::Kept(IntBox::from_vec(sides))),
    }
}

/// What bound propagation makes of a box, by the slow program that the definition is: `tighten` is
/// compared with it.
#[tactic(auto, using(crate::proofs::Bodies::rounds_some, crate::proofs::Bodies::rounds_none))]
pub fn tighten_plain(
    alloc: Global,
    problem: &Problem,
    cutoff: Option<i128>,
    area: &IntBox,
) -> Result<Tight, AllocError>
    requires { CanTighten problem.now cutoff area.now }
    ensures { IfOk result (λ t. t ≡ rounds problem.now cutoff area.now) }
{
    let sides = area.as_slice();
    if has_point(sides) {
        tighten_sides(alloc, problem, cutoff, sides)
    } else {
        told_of_crossed(alloc, problem.rows(), cutoff, sides)
    }
}
