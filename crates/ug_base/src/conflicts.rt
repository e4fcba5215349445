//! Conflict weights: which columns have taken part in emptying boxes, the later ones more. In a
//! search without an objective to guide it, a box branched on the heaviest open column is emptied
//! sooner. The rule is that of weighted degrees with growing weights, as solvers of constraints and
//! of clauses use it. What is searched for does not depend on it.

use std::alloc::Global;
use ug_problem::Problem;
use ug_propagate::Reason;
use ug_rows::{Interval, Row};

// How much the first conflict adds to a weight.
const FIRST_AMOUNT: u64 = 1 << 20;

// Each conflict adds more than the one before, by this part of it.
const GROWTH: u64 = 50;

// Above this amount all weights are scaled down, by 2 to the number of bits.
const MOST: u64 = 1 << 44;

const SCALE: u32 = 24;

/// A box that was emptied: the row or the objective at fault, if it is known, and the column on
/// which its parent was branched, if it had one.
#[derive(Clone, Copy)]
pub struct Conflict {
    pub reason: Option<Reason>,
    pub column: Option<u32>,
}

/// The weight of each column, and how much the next conflict adds.
#[derive(Drop)]
pub struct Conflicts {
    // None before the first conflict.
    weights: Vec<u64>,
    amount: u64,
}

// Returns the row that the reason names.
fn row_of(problem: &Problem, reason: Reason) -> Option<&Row> {
    let Some(row) = reason.row else {
        return None;
    };
    let rows = problem.rows();
    let at = row as usize;
    if at < rows.len() {
        Some(&rows[at].row)
    } else {
        None
    }
}

impl Conflicts {
    /// No conflict yet. It takes no memory.
    pub fn new(alloc: Global) -> Conflicts {
        Conflicts {
            weights: Vec::new(alloc),
            amount: FIRST_AMOUNT,
        }
    }

    // Makes room for a weight of each column. Returns whether it is there.
    fn has_room(&mut self, alloc: Global, columns: usize) -> bool {
        if self.weights.len() == columns {
            return true;
        }
        match vec![in alloc; 0u64; columns] {
            Ok(weights) => {
                self.weights = weights;
                true
            }
            Err(_) => false,
        }
    }

    // Adds to the weight of a column.
    fn add(&mut self, column: usize) {
        if column < self.weights.len() {
            self.weights[column] = self.weights[column].saturating_add(self.amount);
        }
    }

    // Adds to the weight of each column of the row or the objective at fault.
    fn add_terms(&mut self, problem: &Problem, reason: Reason) {
        let terms = match row_of(problem, reason) {
            Some(row) => row.terms.as_slice(),
            None => problem.objective().terms.as_slice(),
        };
        for term in terms {
            self.add(term.column as usize);
        }
    }

    // Lets the next conflict add more.
    fn grow(&mut self) {
        self.amount = self.amount.saturating_add(self.amount / GROWTH);
        if self.amount > MOST {
            self.amount >>= SCALE;
            for k in 0..self.weights.len() {
                self.weights[k] >>= SCALE;
            }
        }
    }

    /// Takes note of a conflict in a search of the problem. If memory runs out it is not noted.
    pub fn note(&mut self, alloc: Global, problem: &Problem, conflict: Conflict) {
        if !self.has_room(alloc, problem.columns().len()) {
            return;
        }
        if let Some(reason) = conflict.reason {
            self.add_terms(problem, reason);
        }
        if let Some(column) = conflict.column {
            self.add(column as usize);
        }
        self.grow();
    }

    /// Returns the open column with the largest weight, the first such one, if there was a conflict
    /// with an open column.
    pub fn heaviest(&self, sides: &[Interval]) -> Option<usize> {
        let mut most = 0;
        let mut heaviest = None;
        for column in 0..self.weights.len().min(sides.len()) {
            if self.weights[column] > most && sides[column].low < sides[column].high {
                most = self.weights[column];
                heaviest = Some(column);
            }
        }
        heaviest
    }
}
