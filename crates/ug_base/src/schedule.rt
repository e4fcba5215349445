//! When a task takes rows that follow from its problem's, and from which lists of multipliers they
//! follow. The numbers were measured: docs/benchmarks.md. What is searched for does not depend on
//! any of this.

ghost use Rattle.std.specs.Prelude.{◌≡◌, length, IfOk, IfSome};
ghost use Rattle.ug_problem.specs.Better.{IsSmallCutoff};
ghost use Rattle.ug_surrogate.specs.Stronger.{Follows};

use std::alloc::{AllocError, Global};
use ug_problem::Problem;
use ug_rows::{IntBox, has_point};
use ug_surrogate::{Multipliers, are_of, bound, stronger, subgradient_multipliers};

// How many steps are made before the first guess, over the box of all bounds and over another: one
// that was handed over, as most are that end after few steps.
const STEPS_BEFORE_FIRST_AT_ROOT: u64 = 8;

const STEPS_BEFORE_FIRST_BELOW_ROOT: u64 = 128;

// How many steps at least lie between two guesses, and later on between rows for two cutoffs.
const LEAST_STEPS_BETWEEN: u64 = 16;

// A guess is due again when the steps are more by this part of them.
const DIVISOR_OF_STEPS_BETWEEN: u64 = 2;

// Number of steps during which rows are rebuilt at each new cutoff.
const STEPS_WITH_EACH_CUTOFF: u64 = 512;

// At how many times the steps the first guess is judged again that was not good yet.
const STEPS_FACTOR_OF_SECOND_TRY: u64 = 4;

// How many lists are kept at most.
const LISTS: usize = 8;

// How many steps a guess has at most, and at least where a step looks at many pairs.
const MOST_STEPS: u64 = 64;

const FEWEST_STEPS: u64 = 20;

// How many pairs a guess looks at, where that is not less than the fewest steps.
const NONZEROS_OF_SUBGRADIENT: u64 = 1_000_000;

/// Lists of multipliers that were guessed, and when another is due.
#[derive(Drop)]
pub struct SurrogateSchedule {
    lists: Vec<Multipliers>,
    // The first guess, while it is not good. Another over the same box would be the same.
    first: Option<Multipliers>,
    // How many steps were made, and after how many the next guess is due.
    steps: u64,
    due: u64,
    // The cutoff under which the rows were made.
    under: Option<i128>,
}

// How many steps a guess has.
fn steps_of(problem: &Problem) -> u32 {
    let mut pairs = 1u64;
    for named in problem.rows() {
        pairs = pairs.saturating_add(named.row.terms.len() as u64);
    }
    let steps = NONZEROS_OF_SUBGRADIENT
        .checked_div(pairs)
        .unwrap_or(FEWEST_STEPS);
    u32::try_from(steps.max(FEWEST_STEPS).min(MOST_STEPS)).unwrap_or(0)
}

// Whether multipliers give a bound over a box that is above the floor of the objective.
fn is_good(problem: &Problem, area: &IntBox, m: &Multipliers) -> bool {
    if m.list.is_empty() || !are_of(problem, m) {
        return false;
    }
    if area.as_slice().len() != problem.columns().len() {
        return false;
    }
    if !has_point(area.as_slice()) {
        return false;
    }
    match bound(problem, area, m) {
        Ok(least) => least > problem.floor(area),
        Err(_) => false,
    }
}

// Whether the multipliers are the same.
fn is_same(first: &Multipliers, second: &Multipliers) -> bool {
    first.d == second.d && first.list.as_slice() == second.list.as_slice()
}

// Whether the multipliers are among these.
fn is_among(lists: &[Multipliers], m: &Multipliers) -> bool {
    for other in lists {
        if is_same(other, m) {
            return true;
        }
    }
    false
}

impl SurrogateSchedule {
    /// No lists yet, for the search of a box. It takes no memory.
    pub fn new(alloc: Global, problem: &Problem, whole: &IntBox) -> SurrogateSchedule {
        let is_root = problem.root().as_slice() == whole.as_slice();
        SurrogateSchedule {
            lists: Vec::new(alloc),
            first: None,
            steps: 0,
            due: if is_root {
                STEPS_BEFORE_FIRST_AT_ROOT
            } else {
                STEPS_BEFORE_FIRST_BELOW_ROOT
            },
            under: None,
        }
    }

    // Whether rows may be made anew for another cutoff: that costs as much as many steps, and some
    // searches find better points at each.
    fn may_renew(&self) -> bool {
        self.steps <= STEPS_WITH_EACH_CUTOFF || self.steps % LEAST_STEPS_BETWEEN == 0
    }

    /// Counts a step, and returns whether rows are to be rebuilt before it: a guess is due, or the
    /// cutoff has changed.
    pub fn is_due(&mut self, cutoff: Option<i128>) -> bool {
        self.steps = self.steps.saturating_add(1);
        let is_other = !self.lists.is_empty() && self.under != cutoff;
        self.steps > self.due || (is_other && self.may_renew())
    }

    // Keeps multipliers, unless they are kept already. If the list is full, the oldest but the
    // first is dropped.
    fn keep(&mut self, m: Multipliers) -> Result<(), AllocError> {
        if is_among(self.lists.as_slice(), &m) {
            drop(m);
            return Ok(());
        }
        if self.lists.len() >= LISTS {
            drop(self.lists.remove(1));
        }
        self.lists.push(m)?;
        Ok(())
    }

    // Multipliers to judge: the first guess, which is over the whole box, until some are kept, and
    // then one over the area.
    fn subgradient_multipliers(
        &mut self,
        alloc: Global,
        problem: &Problem,
        whole: &IntBox,
        area: &IntBox,
    ) -> Result<Multipliers, AllocError> {
        if !self.lists.is_empty() {
            return subgradient_multipliers(alloc, problem, area, steps_of(problem));
        }
        match self.first.take() {
            Some(first) => Ok(first),
            None => subgradient_multipliers(alloc, problem, whole, steps_of(problem)),
        }
    }

    // Guesses multipliers, which are kept where they are good over the area.
    fn run_subgradient(
        &mut self,
        alloc: Global,
        problem: &Problem,
        whole: &IntBox,
        area: &IntBox,
    ) -> Result<(), AllocError> {
        let m = self.subgradient_multipliers(alloc, problem, whole, area)?;
        if is_good(problem, area, &m) {
            self.keep(m)?;
        } else if self.lists.is_empty() {
            self.first = Some(m);
        } else {
            drop(m);
        }
        self.due = if self.lists.is_empty() {
            self.steps.saturating_mul(STEPS_FACTOR_OF_SECOND_TRY)
        } else {
            self.steps.saturating_add(
                (self.steps / DIVISOR_OF_STEPS_BETWEEN).max(LEAST_STEPS_BETWEEN),
            )
        };
        Ok(())
    }

    /// The list that was kept last.
    pub fn latest(&self) -> Option<&Multipliers> {
        self.lists.as_slice().last()
    }

    /// Returns the problem with the rows that follow over the whole box under a cutoff, if there
    /// are any. Makes a guess if one is due, and judges it by the area.
    pub fn stronger(
        &mut self,
        alloc: Global,
        problem: &Problem,
        whole: &IntBox,
        area: &IntBox,
        cutoff: Option<i128>,
    ) -> Result<Option<Problem>, AllocError>
        requires width { length whole.now ≡ length problem.now.columns }
        requires cutoff { IsSmallCutoff cutoff }
        ensures { IfOk result (λ made. IfSome made (Follows problem.now whole.now cutoff)) }
    {
        // Rounded rows depend on the box alone.
        let is_rounded = self.first.is_some();
        if self.steps > self.due {
            self.run_subgradient(alloc, problem, whole, area)?;
        }
        self.under = cutoff;
        if is_rounded && self.lists.is_empty() {
            return Ok(None);
        }
        stronger(alloc, problem, whole, cutoff, self.lists.as_slice())
    }
}
