//! Propagates a row of a working box.

ghost use Rattle.std.specs.Prelude.{◌≡◌, ◌≤◌, ◌<◌, ◌*◌, ◌^◌, ◌≤ℤ◌, pos, length, unsigned_abs, IfOk, IsTrue};
ghost use Rattle.ug_rows.specs.Boxes.{interval_at};
ghost use Rattle.ug_rows.specs.Rows.{IsAmong};
ghost use Rattle.ug_problem.specs.ColumnEntries.{terms_of};
ghost use Rattle.ug_propagate.specs.Cuts.{IsInnerCut, cut_of};
ghost use Rattle.ug_propagate.specs.Rounds.{over_low, over_terms, reason_of, row_step, term_step, under_high};
ghost use Rattle.ug_propagate.specs.Shorts.{IsShortSlack};
ghost use Rattle.ug_propagate.specs.Steps.{IsPropagable, IsSlackOf, IsTermOf, propagated_of, outcome_of, row_of, span_of};
ghost use Rattle.ug_propagate.specs.Working.{FitWhereSame, FitsWhereSame, IsBox, IsSame, IsStep, AtFixpointWhereChanged, AtFixpointWhereSame};
ghost use Rattle.ug_propagate.specs.declared.row_sides.Propagated.TheVariants.{Same};
ghost use Rattle.ug_propagate.specs.declared.tight.Side.TheVariants.{High, Low};
ghost use Rattle.ug_propagate.specs.declared.tight.Tight.TheVariants.{Kept};

use crate::cut::{Cut, cut_down, cut_up};
use crate::measure::{Slack, short_slack, short_span, slack_between, span};
use crate::row_sides::{Propagated, RowSides};
use crate::tight::{Reason, Side};
use crate::working::Working;
use std::alloc::AllocError;
use ug_problem::Problem;
use ug_rows::{Interval, Term};

// The slack that the sums of row r leave within its sides.
fn slack_of(
    work: &Working,
    problem: &Problem,
    r: usize,
    row_sides: RowSides,
    terms: &[Term],
) -> Slack
    requires there { r ≤ length problem.now.rows }
    requires work { IsBox problem.now work.now }
    requires row { IsPropagable (length work.now.sums.area) row_sides terms.now }
    requires terms { terms.now ≡ terms_of problem.now r }
    ensures { IsSlackOf row_sides terms.now work.now.sums.area result }
{
    slack_between(row_sides, terms, work.ends(r), work.sides())
}

// What the high side leaves of the term's column: its greatest product goes down, its least stays.
fn cut_under_high(
    row_sides: RowSides,
    terms: &[Term],
    term: Term,
    slack: Slack,
    area: &[Interval],
) -> Cut
    requires row { IsPropagable (length area.now) row_sides terms.now }
    requires term { IsTermOf (length area.now) term }
    requires slack { IsSlackOf row_sides terms.now area.now slack }
    ensures value { cut_of (reason_of row_sides.row High) term.column area.now result
        ≡ under_high row_sides.row terms.now row_sides.high term area.now }
    ensures inner { IsInnerCut (interval_at area.now term.column) result }
{
    if span(term, area) <= slack.high {
        return Cut::Whole;
    }
    let reason = Reason {
        row: row_sides.row,
        side: Side::High,
    };
    cut_up(reason, term, slack.high, area)
}

// What the low side leaves of it: its least product goes up, its greatest stays.
fn cut_over_low(
    row_sides: RowSides,
    terms: &[Term],
    term: Term,
    slack: Slack,
    area: &[Interval],
) -> Cut
    requires row { IsPropagable (length area.now) row_sides terms.now }
    requires term { IsTermOf (length area.now) term }
    requires slack { IsSlackOf row_sides terms.now area.now slack }
    ensures value { cut_of (reason_of row_sides.row Low) term.column area.now result
        ≡ over_low row_sides.row terms.now row_sides.low term area.now }
    ensures inner { IsInnerCut (interval_at area.now term.column) result }
{
    if span(term, area) <= slack.low {
        return Cut::Whole;
    }
    let reason = Reason {
        row: row_sides.row,
        side: Side::Low,
    };
    cut_down(reason, term, slack.low, area)
}

// The term under the high side.
fn tighten_under_high(
    work: &mut Working,
    problem: &Problem,
    row_sides: RowSides,
    terms: &[Term],
    term: Term,
    slack: Slack,
) -> Result<Option<Reason>, AllocError>
    requires work { IsBox problem.now work.old }
    requires row { IsPropagable (length work.old.sums.area) row_sides terms.now }
    requires term { IsTermOf (length work.old.sums.area) term }
    requires slack { IsSlackOf row_sides terms.now work.old.sums.area slack }
    ensures step { IsStep problem.now work.old work.new }
    ensures value { IfOk result
        (λ told. outcome_of told work.new.sums.area
        ≡ under_high row_sides.row terms.now row_sides.high term work.old.sums.area) }
{
    let cut = cut_under_high(row_sides, terms, term, slack, work.sides());
    let reason = Reason {
        row: row_sides.row,
        side: Side::High,
    };
    let told = work.take(problem, reason, term.column, cut)?;
    Ok(told)
}

// The term over the low side.
fn tighten_over_low(
    work: &mut Working,
    problem: &Problem,
    row_sides: RowSides,
    terms: &[Term],
    term: Term,
    slack: Slack,
) -> Result<Option<Reason>, AllocError>
    requires work { IsBox problem.now work.old }
    requires row { IsPropagable (length work.old.sums.area) row_sides terms.now }
    requires term { IsTermOf (length work.old.sums.area) term }
    requires slack { IsSlackOf row_sides terms.now work.old.sums.area slack }
    ensures step { IsStep problem.now work.old work.new }
    ensures value { IfOk result
        (λ told. outcome_of told work.new.sums.area
        ≡ over_low row_sides.row terms.now row_sides.low term work.old.sums.area) }
{
    let cut = cut_over_low(row_sides, terms, term, slack, work.sides());
    let reason = Reason {
        row: row_sides.row,
        side: Side::Low,
    };
    let told = work.take(problem, reason, term.column, cut)?;
    Ok(told)
}

// One term that may tighten: under the high side, then over the low side.
fn tighten_both(
    work: &mut Working,
    problem: &Problem,
    r: usize,
    row_sides: RowSides,
    terms: &[Term],
    term: Term,
    slack: Slack,
) -> Result<Option<Reason>, AllocError>
    requires there { r ≤ length problem.now.rows }
    requires work { IsBox problem.now work.old }
    requires row { IsPropagable (length work.old.sums.area) row_sides terms.now }
    requires terms { terms.now ≡ terms_of problem.now r }
    requires term { IsTermOf (length work.old.sums.area) term }
    requires slack { IsSlackOf row_sides terms.now work.old.sums.area slack }
    ensures step { IsStep problem.now work.old work.new }
    ensures value { IfOk result
        (λ told. outcome_of told work.new.sums.area
        ≡ term_step row_sides.row (row_of row_sides terms.now) term (Kept work.old.sums.area)) }
{
    if let Some(reason) = tighten_under_high(work, problem, row_sides, terms, term, slack)? {
        return Ok(Some(reason));
    }
    let slack = slack_of(work, problem, r, row_sides, terms);
    let told = tighten_over_low(work, problem, row_sides, terms, term, slack)?;
    Ok(told)
}

// Whether the span of the term is within the slack of both sides, in 128 bits.
fn fits_wide(term: Term, slack: Slack, area: &[Interval]) -> bool
    requires { IsTermOf (length area.now) term }
    ensures { IsTrue result → FitsWhereSame Same term area.now slack }
{
    let span = span(term, area);
    span <= slack.high && span <= slack.low
}

// The same in 64 bits, where the span is of 64 bits.
fn fits(term: Term, slack: Slack, most: i64, area: &[Interval]) -> bool
    requires term { IsTermOf (length area.now) term }
    requires most { IsShortSlack slack most }
    ensures { IsTrue result → FitsWhereSame Same term area.now slack }
{
    match short_span(term, area) {
        Some(span) => span <= most,
        None => fits_wide(term, slack, area),
    }
}

// One term: if its span is within the slack of both sides, neither can tighten it.
fn tighten_term(
    work: &mut Working,
    problem: &Problem,
    r: usize,
    row_sides: RowSides,
    terms: &[Term],
    term: Term,
    slack: Slack,
    most: i64,
) -> Result<Propagated, AllocError>
    requires there { r ≤ length problem.now.rows }
    requires work { IsBox problem.now work.old }
    requires row { IsPropagable (length work.old.sums.area) row_sides terms.now }
    requires terms { terms.now ≡ terms_of problem.now r }
    requires term { IsTermOf (length work.old.sums.area) term }
    requires slack { IsSlackOf row_sides terms.now work.old.sums.area slack }
    requires most { IsShortSlack slack most }
    ensures step { IsStep problem.now work.old work.new }
    ensures value { IfOk result
        (λ propagated. propagated_of propagated work.new.sums.area
        ≡ term_step row_sides.row (row_of row_sides terms.now) term (Kept work.old.sums.area)) }
    ensures same { IfOk result (λ propagated. IsSame propagated work.old work.new) }
    ensures fits { IfOk result
        (λ propagated. FitsWhereSame propagated term work.old.sums.area slack) }
{
    if fits(term, slack, most, work.sides()) {
        return Ok(Propagated::Same);
    }
    match tighten_both(work, problem, r, row_sides, terms, term, slack)? {
        Some(reason) => Ok(Propagated::Emptied(reason)),
        None => Ok(Propagated::Changed),
    }
}

// The terms in order.
fn tighten_terms(
    work: &mut Working,
    problem: &Problem,
    r: usize,
    row_sides: RowSides,
    terms: &[Term],
    slack: Slack,
) -> Result<Propagated, AllocError>
    requires there { r ≤ length problem.now.rows }
    requires work { IsBox problem.now work.old }
    requires row { IsPropagable (length work.old.sums.area) row_sides terms.now }
    requires terms { terms.now ≡ terms_of problem.now r }
    requires slack { IsSlackOf row_sides terms.now work.old.sums.area slack }
    requires high { pos 0 ≤ℤ slack.high }
    requires low { pos 0 ≤ℤ slack.low }
    ensures step { IsStep problem.now work.old work.new }
    ensures value { IfOk result
        (λ propagated. propagated_of propagated work.new.sums.area
        ≡ over_terms row_sides.row (row_of row_sides terms.now) terms.now
        (Kept work.old.sums.area)) }
    ensures same { IfOk result (λ propagated. IsSame propagated work.old work.new) }
    ensures fit { IfOk result
        (λ propagated. FitWhereSame propagated terms.now work.old.sums.area slack) }
    ensures snug { IfOk result
        (λ propagated. AtFixpointWhereChanged propagated row_sides terms.now work.new.sums.area) }
{
    let mut now = slack;
    let mut most = short_slack(slack);
    let mut changed = false;
    for term in terms {
        match tighten_term(work, problem, r, row_sides, terms, *term, now, most)? {
            Propagated::Emptied(reason) => return Ok(Propagated::Emptied(reason)),
            Propagated::Changed => {
                changed = true;
                now = slack_of(work, problem, r, row_sides, terms);
                most = short_slack(now);
            }
            Propagated::Same => {}
        }
    }
    Ok(if changed {
        Propagated::Changed
    } else {
        Propagated::Same
    })
}

/// The propagation of row r. If no span of a term is above the slack of either side, as mostly, no
/// term is examined.
pub fn propagate_row(
    work: &mut Working,
    problem: &Problem,
    r: usize,
    row_sides: RowSides,
    terms: &[Term],
) -> Result<Propagated, AllocError>
    requires there { r ≤ length problem.now.rows }
    requires work { IsBox problem.now work.old }
    requires row { IsPropagable (length work.old.sums.area) row_sides terms.now }
    requires terms { terms.now ≡ terms_of problem.now r }
    ensures step { IsStep problem.now work.old work.new }
    ensures value { IfOk result
        (λ propagated. propagated_of propagated work.new.sums.area
        ≡ row_step row_sides.row (row_of row_sides terms.now) work.old.sums.area) }
    ensures same { IfOk result (λ propagated. IsSame propagated work.old work.new) }
    ensures rest { IfOk result
        (λ propagated. AtFixpointWhereSame propagated row_sides terms.now work.old.sums.area) }
    ensures snug { IfOk result
        (λ propagated. AtFixpointWhereChanged propagated row_sides terms.now work.new.sums.area) }
{
    let slack = slack_of(work, problem, r, row_sides, terms);
    if slack.high < 0 {
        return Ok(Propagated::Emptied(Reason {
            row: row_sides.row,
            side: Side::High,
        }));
    }
    if slack.low < 0 {
        return Ok(Propagated::Emptied(Reason {
            row: row_sides.row,
            side: Side::Low,
        }));
    }
    let max_span = work.max_span(r);
    if max_span <= slack.high && max_span <= slack.low {
        return Ok(Propagated::Same);
    }
    tighten_terms(work, problem, r, row_sides, terms, slack)
}
