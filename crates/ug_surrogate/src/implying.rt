//! The row that each feasible point with a value below a cutoff satisfies.

ghost use Rattle.std.specs.Prelude.{◌≡◌, ◌≤◌, ◌<◌, ◌+◌, ◌*◌, ◌^◌, ◌-ℤ◌, ◌*ℤ◌, pos, length, unsigned_abs, [], ◌∷◌, ◌++◌, IsNone, IfSome, IfOk, OnOk, IfErr};
ghost use Rattle.ug_problem.specs.Limits.{IsProblem};
ghost use Rattle.ug_surrogate.specs.Columns.{IsSomewhereSmall};
ghost use Rattle.ug_surrogate.specs.Implied.{AreColumnsBelow, HasWideColumn, IsColumnError, IsImplied, IsNotImplied, implied_high, most_under};
ghost use Rattle.ug_surrogate.specs.Weights.{AreMultipliers};
ghost use Rattle.ug_surrogate.specs.declared.implying.ImpliedError.TheVariants.{Memory};

use crate::columns::{constant, factor};
use crate::magnitude::check_size;
use crate::multipliers::{Multipliers, TooBig};
use std::alloc::{AllocError, AllocFailed, Global};
use ug_lists::Items;
use ug_problem::{MOST_FACTOR, MOST_SIDE, Problem};
use ug_rows::{Row, Term};

/// Why there is no row.
#[derive(Clone, Copy, Debug, PartialEq, Eq)]
pub enum ImpliedError {
    /// Memory ran out.
    Memory,
    /// The weighted sum may be too large over the box of all bounds.
    TooBig(TooBig),
    /// A coefficient or the side would be above the limits of a row.
    TooWide,
}

impl From<AllocError> for ImpliedError {
    ghost from_gives = { λ _ e. e ≡ Memory };

    fn from(_e: AllocError) -> ImpliedError {
        ImpliedError::Memory
    }
}

impl<T: Drop> From<AllocFailed<T>> for ImpliedError {
    ghost from_gives = { λ _ e. e ≡ Memory };

    fn from(_e: AllocFailed<T>) -> ImpliedError {
        ImpliedError::Memory
    }
}

// The weight of the objective times the greatest value below the cutoff, where that fits.
#[tactic(auto, using(crate::proofs::Combined::too_long))]
fn most_value(d: u32, cutoff: i128) -> Option<i128>
    requires { unsigned_abs cutoff ≤ 2 * 10 ^ 37 }
    ensures some { IfSome result (λ most. most ≡ most_under d cutoff) }
    ensures none { IsNone result → 2 ^ 127 ≤ unsigned_abs (most_under d cutoff) }
{
    i128::from(d).checked_mul(cutoff - 1)
}

// A difference, where it is within the limit of a side.
#[tactic(auto, using(crate::proofs::Combined::too_long))]
fn side_less(most: i128, constant: i128) -> Option<i128>
    requires { unsigned_abs constant ≤ 10 ^ 38 }
    ensures some { IfSome result
        (λ high. (high ≡ most -ℤ constant) × (unsigned_abs high ≤ 10 ^ 37)) }
    ensures none { IsNone result → 10 ^ 37 < unsigned_abs (most -ℤ constant) }
{
    let high = most.checked_sub(constant)?;
    if high.unsigned_abs() <= MOST_SIDE {
        Some(high)
    } else {
        None
    }
}

// The greatest sum of the columns under the cutoff, where it is within the limit of a side.
#[tactic(auto, using(crate::proofs::Combined::far_below))]
fn high_under(problem: &Problem, m: &Multipliers, cutoff: i128) -> Option<i128>
    requires multipliers { AreMultipliers problem.now m.now }
    requires small { IsSomewhereSmall problem.now m.now }
    requires cutoff { unsigned_abs cutoff ≤ 2 * 10 ^ 37 }
    ensures some { IfSome result (λ high. (high ≡ implied_high problem.now m.now cutoff)
        × (unsigned_abs high ≤ 10 ^ 37)) }
    ensures none { IsNone result → 10 ^ 37 < unsigned_abs (implied_high problem.now m.now cutoff) }
{
    let constant = constant(problem, m);
    let most = most_value(m.d, cutoff)?;
    side_less(most, constant)
}

// Adds a term.
fn push_term(terms: &mut Vec<Term>, column: u32, factor: i128) -> Result<(), ImpliedError>
    ensures ok { OnOk result (terms.new.items
        ≡ terms.old.items ++ record { column = column; factor = factor } ∷ []) }
    ensures err { IfErr result (λ e. e ≡ Memory) }
{
    terms.push(Term { column, factor })?;
    Ok(())
}

// Adds the term of a column, if it has a coefficient.
#[tactic(auto, using(crate::proofs::Combined::without_factor, crate::proofs::Combined::with_factor))]
fn push_column(
    terms: &mut Vec<Term>,
    problem: &Problem,
    m: &Multipliers,
    column: usize,
) -> Result<(), ImpliedError>
    requires multipliers { AreMultipliers problem.now m.now }
    requires there { column < length problem.now.columns }
    requires so_far { AreColumnsBelow problem.now m.now column terms.old.items }
    ensures ok { OnOk result (AreColumnsBelow problem.now m.now (column + 1) terms.new.items) }
    ensures err { IfErr result (IsColumnError problem.now m.now column) }
{
    let factor = factor(problem, m, column);
    if factor == 0 {
        return Ok(());
    }
    if factor.unsigned_abs() > MOST_FACTOR {
        return Err(ImpliedError::TooWide);
    }
    push_term(terms, column as u32, factor)
}

// The terms of all columns that have a coefficient.
#[tactic(auto, using(crate::proofs::Combined::nothing_below))]
fn terms_of(alloc: Global, problem: &Problem, m: &Multipliers) -> Result<Vec<Term>, ImpliedError>
    requires { AreMultipliers problem.now m.now }
    ensures ok { IfOk result (λ terms. AreColumnsBelow problem.now m.now
        (length problem.now.columns) terms.items) }
    ensures err { IfErr result (HasWideColumn problem.now m.now) }
{
    let mut terms = Vec::new(alloc);
    for column in 0..problem.columns().len() {
        push_column(&mut terms, problem, m, column)?;
    }
    Ok(terms)
}

/// The row that each feasible point with a value below the cutoff satisfies: the weighted sum is at
/// most the greatest value below the cutoff times the weight of the objective. Its one side, the
/// high one, moves with the cutoff.
///
/// # Errors
///
/// `TooBig` where the weighted sum may pass 10^38 over the box of all bounds, and `TooWide` where a
/// coefficient of the row or its side would be above the limits of a problem's rows.
pub fn implied(
    alloc: Global,
    problem: &Problem,
    m: &Multipliers,
    cutoff: i128,
) -> Result<Row, ImpliedError>
    requires multipliers { AreMultipliers problem.now m.now }
    requires cutoff { unsigned_abs cutoff ≤ 2 * 10 ^ 37 }
    ensures ok { IfOk result (IsImplied problem.now m.now cutoff) }
    ensures err { IfErr result (IsNotImplied problem.now m.now cutoff) }
{
    if let Err(told) = check_size(problem, problem.root().as_slice(), m) {
        return Err(ImpliedError::TooBig(told));
    }
    let Some(high) = high_under(problem, m, cutoff) else {
        return Err(ImpliedError::TooWide);
    };
    let terms = terms_of(alloc, problem, m)?;
    Ok(Row {
        terms: Items::from_vec(terms),
        low: None,
        high: Some(high),
    })
}
