//! Propagates a row of a working box in 64 bits: the same steps as in 128, where the problem's sums
//! and the sides of the row fit.

ghost use Rattle.std.specs.Prelude.{◌≡◌, ◌≤◌, ◌^◌, ◌*ℤ◌, ◌-ℤ◌, ◌≤ℤ◌, pos, length, unsigned_abs, IfOk, IsTrue};
ghost use Rattle.ug_rows.specs.Boxes.{interval_at};
ghost use Rattle.ug_problem.specs.ColumnEntries.{terms_of};
ghost use Rattle.ug_propagate.specs.Cuts.{IsInnerCut, cut_of};
ghost use Rattle.ug_propagate.specs.Rounds.{over_low, over_terms, reason_of, row_step, term_step, under_high};
ghost use Rattle.ug_propagate.specs.Shorts.{AreNearSlacks, IsNearSlack, IsShortSides, IsShortTerm};
ghost use Rattle.ug_propagate.specs.Steps.{HaveSmallColumns, IsPropagable, propagated_of, outcome_of, slack_over, row_of, span_of};
ghost use Rattle.ug_propagate.specs.Working.{FitWhereSame, FitsWhereSame, IsBox, IsSame, IsStep, AtFixpointWhereChanged, AtFixpointWhereSame};
ghost use Rattle.ug_propagate.specs.declared.row_sides.Propagated.TheVariants.{Same};
ghost use Rattle.ug_propagate.specs.declared.tight.Side.TheVariants.{High, Low};
ghost use Rattle.ug_propagate.specs.declared.tight.Tight.TheVariants.{Kept};

use crate::cut::{Cut, cut_down, cut_up};
use crate::measure::apart;
use crate::row_sides::Propagated;
use crate::short::small_product;
use crate::short_sides::{ShortSides, ShortSlack, short_slack};
use crate::sums::terms_at;
use crate::tight::{Reason, Side};
use crate::working::Working;
use std::alloc::AllocError;
use ug_problem::Problem;
use ug_rows::{Extreme, Interval, Term, end_at};

// How the product of a coefficient changes from one end to another.
fn small_change(factor: i64, before: i32, after: i32) -> i64
    requires { unsigned_abs factor ≤ 2 ^ 29 }
    ensures value { result ≡ (factor *ℤ after) -ℤ (factor *ℤ before) }
    ensures small { unsigned_abs result ≤ 2 ^ 61 }
{
    small_product(factor, apart(before, after))
}

// How far the product of the term goes over the box.
#[tactic(auto, using(crate::proofs::Shorts::no_span))]
fn small_span(term: Term, area: &[Interval]) -> i64
    requires { IsShortTerm (length area.now) term }
    ensures value { result ≡ span_of term area.now }
    ensures small { unsigned_abs result ≤ 2 ^ 61 }
{
    let side = area[term.column as usize];
    if side.low == side.high {
        return 0;
    }
    let near = end_at(Extreme::Least, term.factor, side);
    let far = end_at(Extreme::Greatest, term.factor, side);
    small_change(term.factor as i64, near, far)
}

// What the high side leaves of the term's column.
fn cut_under_high(
    s: ShortSides,
    terms: &[Term],
    term: Term,
    slack: ShortSlack,
    area: &[Interval],
) -> Cut
    requires row { IsPropagable (length area.now) s.row_sides terms.now }
    requires term { IsShortTerm (length area.now) term }
    requires slack { AreNearSlacks s terms.now area.now slack }
    ensures value { cut_of (reason_of s.row_sides.row High) term.column area.now result
        ≡ under_high s.row_sides.row terms.now s.row_sides.high term area.now }
    ensures inner { IsInnerCut (interval_at area.now term.column) result }
{
    if small_span(term, area) <= slack.high {
        return Cut::Whole;
    }
    let reason = Reason {
        row: s.row_sides.row,
        side: Side::High,
    };
    cut_up(reason, term, i128::from(slack.high), area)
}

// What the low side leaves of it.
fn cut_over_low(
    s: ShortSides,
    terms: &[Term],
    term: Term,
    slack: ShortSlack,
    area: &[Interval],
) -> Cut
    requires row { IsPropagable (length area.now) s.row_sides terms.now }
    requires term { IsShortTerm (length area.now) term }
    requires slack { AreNearSlacks s terms.now area.now slack }
    ensures value { cut_of (reason_of s.row_sides.row Low) term.column area.now result
        ≡ over_low s.row_sides.row terms.now s.row_sides.low term area.now }
    ensures inner { IsInnerCut (interval_at area.now term.column) result }
{
    if small_span(term, area) <= slack.low {
        return Cut::Whole;
    }
    let reason = Reason {
        row: s.row_sides.row,
        side: Side::Low,
    };
    cut_down(reason, term, i128::from(slack.low), area)
}

// The term under the high side.
fn tighten_under_high(
    work: &mut Working,
    problem: &Problem,
    s: ShortSides,
    terms: &[Term],
    term: Term,
    slack: ShortSlack,
) -> Result<Option<Reason>, AllocError>
    requires work { IsBox problem.now work.old }
    requires row { IsPropagable (length work.old.sums.area) s.row_sides terms.now }
    requires term { IsShortTerm (length work.old.sums.area) term }
    requires slack { AreNearSlacks s terms.now work.old.sums.area slack }
    ensures step { IsStep problem.now work.old work.new }
    ensures value { IfOk result
        (λ told. outcome_of told work.new.sums.area
        ≡ under_high s.row_sides.row terms.now s.row_sides.high term work.old.sums.area) }
{
    let cut = cut_under_high(s, terms, term, slack, work.sides());
    let reason = Reason {
        row: s.row_sides.row,
        side: Side::High,
    };
    let told = work.take(problem, reason, term.column, cut)?;
    Ok(told)
}

// The term over the low side.
fn tighten_over_low(
    work: &mut Working,
    problem: &Problem,
    s: ShortSides,
    terms: &[Term],
    term: Term,
    slack: ShortSlack,
) -> Result<Option<Reason>, AllocError>
    requires work { IsBox problem.now work.old }
    requires row { IsPropagable (length work.old.sums.area) s.row_sides terms.now }
    requires term { IsShortTerm (length work.old.sums.area) term }
    requires slack { AreNearSlacks s terms.now work.old.sums.area slack }
    ensures step { IsStep problem.now work.old work.new }
    ensures value { IfOk result
        (λ told. outcome_of told work.new.sums.area
        ≡ over_low s.row_sides.row terms.now s.row_sides.low term work.old.sums.area) }
{
    let cut = cut_over_low(s, terms, term, slack, work.sides());
    let reason = Reason {
        row: s.row_sides.row,
        side: Side::Low,
    };
    let told = work.take(problem, reason, term.column, cut)?;
    Ok(told)
}

// One term that may tighten: under the high side, then over the low side.
fn tighten_both(
    work: &mut Working,
    problem: &Problem,
    s: ShortSides,
    terms: &[Term],
    term: Term,
    slack: ShortSlack,
) -> Result<Option<Reason>, AllocError>
    requires work { IsBox problem.now work.old }
    requires row_sides { IsShortSides problem.now s }
    requires terms { terms.now ≡ terms_of problem.now s.r }
    requires term { IsShortTerm (length work.old.sums.area) term }
    requires slack { AreNearSlacks s terms.now work.old.sums.area slack }
    ensures step { IsStep problem.now work.old work.new }
    ensures value { IfOk result
        (λ told. outcome_of told work.new.sums.area
        ≡ term_step s.row_sides.row (row_of s.row_sides terms.now) term (Kept work.old.sums.area)) }
{
    if let Some(reason) = tighten_under_high(work, problem, s, terms, term, slack)? {
        return Ok(Some(reason));
    }
    let slack = short_slack(work, problem, s);
    let told = tighten_over_low(work, problem, s, terms, term, slack)?;
    Ok(told)
}

// Whether the span of the term is within the slack of both sides.
fn fits(s: ShortSides, terms: &[Term], term: Term, slack: ShortSlack, area: &[Interval]) -> bool
    requires term { IsShortTerm (length area.now) term }
    requires slack { AreNearSlacks s terms.now area.now slack }
    ensures { IsTrue result
        → FitsWhereSame Same term area.now (slack_over s.row_sides terms.now area.now) }
{
    let span = small_span(term, area);
    span <= slack.high && span <= slack.low
}

// One term: if its span is within the slack of both sides, neither can tighten it.
fn tighten_term(
    work: &mut Working,
    problem: &Problem,
    s: ShortSides,
    terms: &[Term],
    term: Term,
    slack: ShortSlack,
) -> Result<Propagated, AllocError>
    requires work { IsBox problem.now work.old }
    requires row_sides { IsShortSides problem.now s }
    requires terms { terms.now ≡ terms_of problem.now s.r }
    requires term { IsShortTerm (length work.old.sums.area) term }
    requires slack { AreNearSlacks s terms.now work.old.sums.area slack }
    ensures step { IsStep problem.now work.old work.new }
    ensures value { IfOk result
        (λ propagated. propagated_of propagated work.new.sums.area
        ≡ term_step s.row_sides.row (row_of s.row_sides terms.now) term (Kept work.old.sums.area)) }
    ensures same { IfOk result (λ propagated. IsSame propagated work.old work.new) }
    ensures fits { IfOk result (λ propagated. FitsWhereSame propagated term work.old.sums.area
        (slack_over s.row_sides terms.now work.old.sums.area)) }
{
    if fits(s, terms, term, slack, work.sides()) {
        return Ok(Propagated::Same);
    }
    match tighten_both(work, problem, s, terms, term, slack)? {
        Some(reason) => Ok(Propagated::Emptied(reason)),
        None => Ok(Propagated::Changed),
    }
}

// The terms in order.
fn tighten_terms(
    work: &mut Working,
    problem: &Problem,
    s: ShortSides,
    terms: &[Term],
    slack: ShortSlack,
) -> Result<Propagated, AllocError>
    requires work { IsBox problem.now work.old }
    requires row_sides { IsShortSides problem.now s }
    requires terms { terms.now ≡ terms_of problem.now s.r }
    requires slack { AreNearSlacks s terms.now work.old.sums.area slack }
    requires high { pos 0 ≤ℤ slack.high }
    requires low { pos 0 ≤ℤ slack.low }
    ensures step { IsStep problem.now work.old work.new }
    ensures value { IfOk result
        (λ propagated. propagated_of propagated work.new.sums.area
        ≡ over_terms s.row_sides.row (row_of s.row_sides terms.now) terms.now
        (Kept work.old.sums.area)) }
    ensures same { IfOk result (λ propagated. IsSame propagated work.old work.new) }
    ensures fit { IfOk result (λ propagated. FitWhereSame propagated terms.now work.old.sums.area
        (slack_over s.row_sides terms.now work.old.sums.area)) }
    ensures snug { IfOk result
        (λ propagated. AtFixpointWhereChanged propagated s.row_sides terms.now work.new.sums.area) }
{
    let mut now = slack;
    let mut changed = false;
    for term in terms {
        match tighten_term(work, problem, s, terms, *term, now)? {
            Propagated::Emptied(reason) => return Ok(Propagated::Emptied(reason)),
            Propagated::Changed => {
                changed = true;
                now = short_slack(work, problem, s);
            }
            Propagated::Same => {}
        }
    }
    Ok(if changed {
        Propagated::Changed
    } else {
        Propagated::Same
    })
}

/// The propagation of a row. If no span of a term is above the slack of either side, as mostly, no
/// term is examined.
pub fn propagate_short(
    work: &mut Working,
    problem: &Problem,
    s: ShortSides,
) -> Result<Propagated, AllocError>
    requires work { IsBox problem.now work.old }
    requires row_sides { IsShortSides problem.now s }
    ensures step { IsStep problem.now work.old work.new }
    ensures value { IfOk result
        (λ propagated. propagated_of propagated work.new.sums.area
        ≡ row_step s.row_sides.row
        (row_of s.row_sides (terms_of problem.now s.r)) work.old.sums.area) }
    ensures same { IfOk result (λ propagated. IsSame propagated work.old work.new) }
    ensures rest { IfOk result
        (λ propagated. AtFixpointWhereSame propagated s.row_sides (terms_of problem.now s.r)
        work.old.sums.area) }
    ensures snug { IfOk result (λ propagated. AtFixpointWhereChanged propagated s.row_sides
        (terms_of problem.now s.r) work.new.sums.area) }
{
    let slack = short_slack(work, problem, s);
    if slack.high < 0 {
        return Ok(Propagated::Emptied(Reason {
            row: s.row_sides.row,
            side: Side::High,
        }));
    }
    if slack.low < 0 {
        return Ok(Propagated::Emptied(Reason {
            row: s.row_sides.row,
            side: Side::Low,
        }));
    }
    let max_span = work.max_span(s.r);
    if max_span <= i128::from(slack.high) && max_span <= i128::from(slack.low) {
        return Ok(Propagated::Same);
    }
    let propagated = tighten_terms(work, problem, s, terms_at(problem, s.r), slack)?;
    Ok(propagated)
}
