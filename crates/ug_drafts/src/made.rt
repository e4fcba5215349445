ghost use Rattle.std.specs.Prelude.{◌≡◌, ◌≤◌, ◌^◌, true, IfOk, unsigned_abs};
ghost use Rattle.ug_problem.specs.Limits.{AreSmall};
ghost use Rattle.ug_drafts.specs.Made.{numbers_kept, HasDecimals, made_if, row_with, objective_with};
ghost use Rattle.ug_drafts.specs.RowNumbers.{signed, signed_terms};

use crate::row::RowDraft;
use crate::scaling::{Sides, scale_of, scaled_sides, scaled_terms};
use std::alloc::{AllocError, Global};
use ug_lists::{Items, Text};
use ug_problem::NamedRow;
use ug_rows::{Objective, Row, Term, Terms};

/// The most digits that may follow the point.
const MOST_SCALE: u32 = 60;

/// The numbers of a row times 10^`scale`, which are whole.
#[derive(Drop)]
pub struct Made {
    pub terms: Terms,
    pub sides: Sides,
    pub scale: u8,
}

/// Returns the row made from a draft, or `None` if its numbers are too wide.
pub fn make(alloc: Global, draft: &RowDraft) -> Result<Option<Made>, AllocError>
    requires { HasDecimals draft.now }
    ensures { IfOk result (λ made. made ≡ made_if draft.now.role (numbers_kept draft.now)) }
{
    let scale = scale_of(draft);
    if scale > MOST_SCALE {
        return Ok(None);
    }
    let Some(sides) = scaled_sides(draft, scale) else {
        return Ok(None);
    };
    let Some(terms) = scaled_terms(alloc, draft.terms.as_slice(), scale)? else {
        return Ok(None);
    };
    Ok(Some(Made {
        terms,
        sides,
        scale: scale as u8,
    }))
}

// Negates the coefficients.
fn negate(terms: &mut [Term])
    requires { AreSmall terms.old }
    ensures { terms.new ≡ signed_terms true terms.old }
{
    for term in terms.iter_mut() {
        term.factor = -term.factor;
    }
}

// The number with the sign that minimising wants.
fn signed(maximise: bool, number: i128) -> i128
    requires { unsigned_abs number ≤ 10 ^ 37 }
    ensures { result ≡ signed maximise number }
{
    if maximise { -number } else { number }
}

#[tactic(auto, using(crate::proofs::MadeLemmas::signed_not))]
// The terms with the sign that minimising wants.
fn signed_terms(maximise: bool, terms: Terms) -> Terms
    requires { AreSmall terms }
    ensures { result ≡ signed_terms maximise terms }
{
    if !maximise {
        return terms;
    }
    let mut terms = terms.into_vec();
    negate(&mut terms);
    Items::from_vec(terms)
}

impl Made {
    /// The row of these numbers.
    pub fn into_row(self, name: Text) -> NamedRow
        ensures { result ≡ row_with name self }
    {
        NamedRow {
            name,
            row: Row {
                terms: self.terms,
                low: self.sides.low,
                high: self.sides.high,
            },
        }
    }

    /// The objective of these numbers.
    pub fn into_objective(self, maximise: bool) -> Objective
        requires factors { AreSmall self.terms }
        requires side { unsigned_abs self.sides.side ≤ 10 ^ 37 }
        ensures { result ≡ objective_with maximise self }
    {
        Objective {
            terms: signed_terms(maximise, self.terms),
            constant: signed(maximise, -self.sides.side),
            maximise,
            scale: self.scale,
        }
    }
}
