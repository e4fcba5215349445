//! Branching: by the parameters, and in a search with surrogate constraints by the list of
//! multipliers that was kept last, or, while there is none, by the weights of the columns from
//! conflicts. In the row that the list implies, a column with a large
//! coefficient costs most if it leaves the end at which its product is least: branched on first,
//! its other part soon has no good point. What is searched for does not depend on it.

ghost use Rattle.std.specs.Prelude.{◌≡◌, ◌↔◌, ◌≤◌, ◌^◌, length, IfSome, IsNone};
ghost use Rattle.ug_branch.specs.Choices.{AreClosed, AreHalves, HasNoneOpen};
ghost use Rattle.ug_base.specs.Branchings.{IsByParams, IsMidway, MayBranch};

use crate::branching::Branching;
use crate::conflicts::{Conflict, Conflicts};
use std::alloc::{AllocError, Global};
use std::marker::Model;
use std::mem;
use ug_branch::{Base, Branch, End, Half, Params, Pick, branch_from, branch_of};
use ug_problem::Problem;
use ug_rows::{Interval, Row};
use ug_surrogate::{ImpliedError, Multipliers, are_of, implied};

// A column as a list weighs it: the size of its coefficient, and the half at which its product is
// least, if it has a coefficient.
#[derive(Clone, Copy)]
struct ColumnScore {
    column: usize,
    size: u128,
    half: Option<Half>,
}

/// The parameters; the columns in branching order, those with large coefficients first; and the
/// weights of the columns from conflicts.
#[derive(Drop)]
pub struct BranchScores {
    params: Params,
    column_scores: Vec<ColumnScore>,
    conflicts: Conflicts,
}

impl Model for BranchScores {
    ghost use Rattle.ug_branch.specs.declared.params.Params.{Params};

    ghost Value = { Params };

    ghost view = { λ scores. scores.params };
}

// Returns the half at which the product of a coefficient is least.
fn half_of(factor: i128) -> Option<Half> {
    if factor == 0 {
        None
    } else if factor > 0 {
        Some(Half::Lower)
    } else {
        Some(Half::Upper)
    }
}

// The columns in their own order.
fn in_order(alloc: Global, row: &Row, columns: usize) -> Result<Vec<ColumnScore>, AllocError> {
    let none = ColumnScore {
        column: 0,
        size: 0,
        half: None,
    };
    let mut column_scores = vec![in alloc; none; columns]?;
    for column in 0..column_scores.len() {
        column_scores[column].column = column;
    }
    for term in row.terms.as_slice() {
        let column = term.column as usize;
        if column < column_scores.len() {
            column_scores[column].size = term.factor.unsigned_abs();
            column_scores[column].half = half_of(term.factor);
        }
    }
    Ok(column_scores)
}

// The row that multipliers imply, if they are the problem's and it is within the limits.
fn row_of(alloc: Global, problem: &Problem, m: &Multipliers) -> Result<Option<Row>, AllocError> {
    if !are_of(problem, m) {
        return Ok(None);
    }
    match implied(alloc, problem, m, 0) {
        Ok(row) => Ok(Some(row)),
        Err(ImpliedError::Memory) => Err(AllocError),
        Err(_) => Ok(None),
    }
}

// Returns the scores of the columns under multipliers, largest coefficients first, or none if the
// row that they imply is beyond the limits.
fn column_scores_of(
    alloc: Global,
    problem: &Problem,
    m: &Multipliers,
) -> Result<Vec<ColumnScore>, AllocError> {
    let Some(row) = row_of(alloc, problem, m)? else {
        return Ok(Vec::new(alloc));
    };
    let column_scores = in_order(alloc, &row, problem.columns().len());
    drop(row);
    let mut column_scores = column_scores?;
    match column_scores.sort_by_key(|column_score| u128::MAX - column_score.size) {
        Ok(()) => Ok(column_scores),
        Err(error) => {
            drop(column_scores);
            Err(error)
        }
    }
}

// The branch on a column, if it is open.
fn branch_on(params: Params, sides: &[Interval], column: usize) -> Option<Branch>
    requires { length sides.now ≤ 10 ^ 4 }
    ensures { IfSome result (IsMidway sides.now) }
{
    if column >= sides.len() {
        return None;
    }
    let side = [sides[column]];
    match branch_of(params, &side) {
        Some(branch) => Some(Branch {
            column: column as u32,
            middle: branch.middle,
        }),
        None => None,
    }
}

// Whether the params follow scores and weights to a column. The others stay as different as they
// are, for a race.
fn do_follow(params: Params) -> bool {
    params.pick == Pick::Place && params.end == End::Lowest
}

// Returns the half that comes first: the upper one if the parameters ask for it, and otherwise the
// one to which the column leans.
fn first_of(params: Params, half: Option<Half>) -> Half {
    match params.half {
        Half::Lower => half.unwrap_or(Half::Lower),
        Half::Upper => Half::Upper,
    }
}

// Returns the branching that the parameters choose.
fn by_params(params: Params, branch: Branch) -> Branching
    ensures branch { result.branch ≡ branch }
    ensures first { result.first ≡ params.half }
{
    Branching {
        branch,
        first: params.half,
    }
}

impl BranchScores {
    /// The params alone. It takes no memory.
    pub fn plain(alloc: Global, params: Params) -> BranchScores
        ensures { result ≡ params }
    {
        BranchScores {
            params,
            column_scores: Vec::new(alloc),
            conflicts: Conflicts::new(alloc),
        }
    }

    /// The params.
    pub fn params(&self) -> Params
        ensures { result ≡ self.now }
    {
        self.params
    }

    /// Branches by these multipliers from now on, if the parameters allow it. After an error
    /// nothing has changed.
    pub fn follow(
        &mut self,
        alloc: Global,
        problem: &Problem,
        m: &Multipliers,
    ) -> Result<(), AllocError>
        ensures { self.new ≡ self.old }
    {
        let column_scores = column_scores_of(alloc, problem, m)?;
        drop(mem::replace(&mut self.column_scores, column_scores));
        Ok(())
    }

    /// Takes note of a box that was emptied in a search of the problem, if the parameters follow
    /// weights. If memory runs out it is not noted.
    pub fn learn(&mut self, alloc: Global, problem: &Problem, conflict: Conflict)
        ensures { self.new ≡ self.old }
    {
        if do_follow(self.params) && self.column_scores.is_empty() {
            self.conflicts.note(alloc, problem, conflict);
        }
    }

    // Returns the branching at the open column with the largest weight from conflicts, if the
    // parameters follow weights.
    fn by_weights(&self, sides: &[Interval]) -> Option<Branching>
        requires { length sides.now ≤ 10 ^ 4 }
        ensures { IfSome result (λ branching. IsMidway sides.now branching.branch) }
    {
        if !do_follow(self.params) {
            return None;
        }
        let column = self.conflicts.heaviest(sides)?;
        match branch_on(self.params, sides, column) {
            Some(branch) => Some(by_params(self.params, branch)),
            None => None,
        }
    }

    // Returns the branching at the open column with the largest coefficient, if the parameters
    // follow leanings.
    fn by_column_scores(&self, sides: &[Interval]) -> Option<Branching>
        requires { length sides.now ≤ 10 ^ 4 }
        ensures { IfSome result (λ branching. IsMidway sides.now branching.branch) }
    {
        if !do_follow(self.params) {
            return None;
        }
        for column_score in self.column_scores.as_slice() {
            if let Some(branch) = branch_on(self.params, sides, column_score.column) {
                return Some(Branching {
                    branch,
                    first: first_of(self.params, column_score.half),
                });
            }
        }
        None
    }

    /// Returns the branching of the box with these intervals, or `None` if no column is open. Skips
    /// the first `closed` columns, which are known to be closed.
    pub fn branching(&self, sides: &[Interval], closed: usize) -> Option<Branching>
        requires few { length sides.now ≤ 10 ^ 4 }
        requires closed { AreClosed closed sides.now }
        ensures none { IsNone result ↔ HasNoneOpen sides.now }
        ensures may { IfSome result (MayBranch self.now.base self.now sides.now) }
        ensures midway { IfSome result (λ branching. IsMidway sides.now branching.branch) }
        ensures halves { IfSome result (λ branching. AreHalves sides.now branching.branch) }
    {
        let branch = branch_from(self.params, sides, closed)?;
        match self.params.base {
            Base::Bound => Some(by_params(self.params, branch)),
            Base::Surrogate => match self.by_column_scores(sides) {
                Some(branching) => Some(branching),
                None => match self.by_weights(sides) {
                    Some(branching) => Some(branching),
                    None => Some(by_params(self.params, branch)),
                },
            },
        }
    }
}
