//! A working box.

ghost use Rattle.std.specs.Prelude.{◌≡◌, ℕ, [], ◌∷◌, ◌++◌, ◌+◌, ◌*◌, ◌^◌, ◌<◌, ◌≤◌, length, slice_set, OnOk, OnErr, IfOk};
ghost use Rattle.ug_problem.specs.Locks.{listed_at};
ghost use Rattle.ug_rows.specs.Boxes.{IsClosedWithin, interval_at};
ghost use Rattle.ug_rows.specs.Sums.{box_floor};
ghost use Rattle.ug_propagate.specs.Queued.{HasBit, IsFound};
ghost use Rattle.ug_propagate.specs.Cuts.{IsInnerCut, cut_of};
ghost use Rattle.ug_propagate.specs.Steps.{outcome_of};
ghost use Rattle.ug_propagate.specs.Running.{IsRunning, extremes_at};
ghost use Rattle.ug_propagate.specs.Working.{AllAtFixpoint, AreQueued, AreAtFixpoint, EnqueuesOthers, AreTrailed, AreFirstMaxSpans, AreOnes, AreMaxSpans, AreEnqueued, HasBits, HasChanged, HasUndone, WentBack, IsBox, IsOver, IsStep, EnqueuedColumn, EnqueuedEnd, max_span_at};

use crate::cut::Cut;
use crate::fixpoint::{Fixpoint, is_same};
use crate::measure::plus;
use crate::queued::{dequeue, enqueue, fill, next};
use crate::rows::all_rows;
use crate::sums::{Extremes, Sums, measured};
use crate::tight::Reason;
use std::alloc::{AllocError, Global};
use std::marker::Model;
use ug_problem::{Inward, Problem};
use ug_rows::{IntBox, Interval};

/// A column that was changed, and what its interval was before.
#[derive(Clone, Copy)]
pub struct Trailed {
    pub column: u32,
    pub before: Interval,
}

/// A box that is tightened in place, with its running sums, the rows that are queued, and what was
/// changed.
#[derive(Drop)]
pub struct Working {
    sums: Sums,
    max_span: Vec<i128>,
    queued: Vec<u64>,
    trail: Vec<Trailed>,
}

impl Model for Working {
    ghost use Rattle.ug_propagate.specs.Working.{WorkState};

    ghost Value = { WorkState };

    ghost view = { λ w. record {
      sums = w.sums;
      max_span = w.max_span.items;
      queued = w.queued.items;
      trail = w.trail.items;
    } };
}

// Enqueues these rows.
fn enqueue_rows(rows: &[u32], queued: &mut [u64])
    requires { (k : ℕ) → k < length rows.now → listed_at rows.now k < 64 * length queued.old }
    ensures { AreEnqueued rows.now queued.old queued.new }
{
    for row in rows {
        enqueue(queued, *row as usize);
    }
}

// Puts what a column was on the trail. After an error the trail is as it was.
fn note(trail: &mut Vec<Trailed>, column: u32, before: Interval) -> Result<(), AllocError>
    ensures ok { OnOk result
        (trail.new.items ≡ trail.old.items ++ record { column = column; before = before } ∷ []) }
    ensures err { OnErr result (trail.new.items ≡ trail.old.items) }
{
    trail.push(Trailed { column, before })?;
    Ok(())
}

// Enqueues the rows that lose slack where this end of a column goes inwards, if it moved.
fn enqueue_end(problem: &Problem, column: usize, inward: Inward, moved: bool, queued: &mut Vec<u64>)
    requires there { column < length problem.now.columns }
    requires bits { HasBits problem.now queued.old.items }
    ensures { EnqueuedEnd moved problem.now column inward queued.old.items queued.new.items }
{
    let rows = problem.locks(inward, column);
    if moved {
        enqueue_rows(rows, queued.as_mut_slice());
    }
}

// Enqueues the rows that lose slack where a column goes from one interval to another.
fn enqueue_column(
    problem: &Problem,
    column: usize,
    before: Interval,
    after: Interval,
    queued: &mut Vec<u64>,
)
    requires there { column < length problem.now.columns }
    requires bits { HasBits problem.now queued.old.items }
    ensures { EnqueuedColumn problem.now column before after queued.old.items queued.new.items }
{
    enqueue_end(problem, column, Inward::Up, before.low != after.low, queued);
    enqueue_end(
        problem,
        column,
        Inward::Down,
        before.high != after.high,
        queued,
    );
}

// This many words in which each bit is 1.
fn ones(alloc: Global, words: usize) -> Result<Vec<u64>, AllocError>
    ensures { IfOk result (λ queued. AreOnes words queued.items) }
{
    let mut queued = Vec::with_capacity(alloc, words)?;
    for _ in 0..words {
        queued.push(u64::MAX)?;
    }
    Ok(queued)
}

// The widest spans of the first rows, and that of one row more.
#[tactic(auto, using(crate::proofs::Fresh::max_spans_push))]
fn add_max_span(
    problem: &Problem,
    area: &[Interval],
    max_span: &mut Vec<i128>,
    r: usize,
) -> Result<(), AllocError>
    requires there { r ≤ length problem.now.rows }
    requires width { length area.now ≡ length problem.now.columns }
    requires so_far { AreFirstMaxSpans problem.now area.now r max_span.old.items }
    ensures { OnOk result (AreFirstMaxSpans problem.now area.now (r + 1) max_span.new.items) }
{
    let ends = measured(problem, r, area);
    max_span.push(ends.widest)?;
    Ok(())
}

// The widest span of each row and of the objective over a box.
#[tactic(auto, using(crate::proofs::Fresh::max_spans_whole))]
fn all_max_spans(
    alloc: Global,
    problem: &Problem,
    area: &[Interval],
) -> Result<Vec<i128>, AllocError>
    requires { length area.now ≡ length problem.now.columns }
    ensures { IfOk result (λ max_span. AreMaxSpans problem.now area.now max_span.items) }
{
    let count = problem.rows().len() + 1;
    let mut max_span = Vec::with_capacity(alloc, count)?;
    for r in 0..count {
        add_max_span(problem, area, &mut max_span, r)?;
    }
    Ok(max_span)
}

// A bit for each row and for the objective, all of them 1.
#[tactic(auto, using(crate::proofs::Fresh::ones_enough))]
fn all_queued(alloc: Global, problem: &Problem) -> Result<Vec<u64>, AllocError>
    ensures bits { IfOk result (λ queued. HasBits problem.now queued.items) }
    ensures queued { IfOk result (λ queued. AreQueued problem.now queued.items) }
{
    ones(alloc, problem.rows().len() / 64 + 1)
}

// Takes all rows that are at fixpoint out of the queue, and enqueues the others.
fn enqueue_others(problem: &Problem, fixpoint: Fixpoint, cutoff: Option<i128>, queued: &mut [u64])
    requires { HasBits problem.now queued.old }
    ensures { EnqueuesOthers problem.now fixpoint cutoff queued.new }
{
    match fixpoint {
        Fixpoint::Unknown => fill(queued, u64::MAX),
        Fixpoint::Under(under) => {
            fill(queued, 0);
            if !is_same(under, cutoff) {
                enqueue(queued, problem.rows().len());
            }
        }
    }
}

impl Working {
    /// The working box of this box, with nothing changed and each row queued.
    pub fn new(alloc: Global, problem: &Problem, area: &IntBox) -> Result<Working, AllocError>
        requires { length area.now ≡ length problem.now.columns }
        ensures area { IfOk result (λ w. w.sums.area ≡ area.now) }
        ensures work { IfOk result (IsBox problem.now) }
        ensures queued { IfOk result (λ w. AreQueued problem.now w.queued) }
        ensures trail { IfOk result (λ w. w.trail ≡ []) }
    {
        let sides = Vec::from_slice(alloc, area.as_slice())?;
        let rows = match all_rows(alloc, problem, sides.as_slice()) {
            Ok(rows) => rows,
            Err(error) => {
                drop(sides);
                return Err(error);
            }
        };
        match all_queued(alloc, problem) {
            Ok(queued) => Ok(Working {
                sums: Sums::of(sides, rows.sums),
                max_span: rows.max_span,
                queued,
                trail: Vec::new(alloc),
            }),
            Err(error) => {
                drop(sides);
                drop(rows);
                Err(error)
            }
        }
    }

    /// Goes over to the rows of another problem of the same columns: its sums are taken over the
    /// box, how far its rows reach over the whole box, and each row is queued. After an error
    /// nothing was changed.
    pub fn over(
        &mut self,
        alloc: Global,
        problem: &Problem,
        whole: &IntBox,
    ) -> Result<(), AllocError>
        requires area { length self.old.sums.area ≡ length problem.now.columns }
        requires whole { length whole.now ≡ length problem.now.columns }
        ensures ok { OnOk result (IsOver problem.now whole.now self.old self.new) }
        ensures err { OnErr result (self.new ≡ self.old) }
    {
        let max_span = all_max_spans(alloc, problem, whole.as_slice())?;
        let queued = match all_queued(alloc, problem) {
            Ok(queued) => queued,
            Err(error) => {
                drop(max_span);
                return Err(error);
            }
        };
        match self.sums.over(alloc, problem) {
            Ok(()) => {
                self.max_span = max_span;
                self.queued = queued;
                Ok(())
            }
            Err(error) => {
                drop(max_span);
                drop(queued);
                Err(error)
            }
        }
    }

    /// The first row from this one on that is queued.
    pub fn next(&self, from: usize) -> Option<usize>
        requires { length self.now.queued ≤ 10 ^ 6 }
        ensures { IsFound self.now.queued from result }
    {
        next(self.queued.as_slice(), from)
    }

    /// Takes a row out of the queue.
    pub fn dequeue(&mut self, r: usize)
        requires { r < 64 * length self.old.queued }
        ensures bit { HasBit r 0 self.old.queued self.new.queued }
        ensures others { self.new ≡ record self.old { queued = self.new.queued } }
        ensures width { length self.new.queued ≡ length self.old.queued }
    {
        dequeue(self.queued.as_mut_slice(), r);
    }

    /// The intervals of the box. It takes no memory.
    pub fn into_sides(self) -> Vec<Interval>
        ensures { result.items ≡ self.sums.area }
    {
        self.sums.into_sides()
    }

    /// The box.
    pub fn sides(&self) -> &[Interval]
        ensures { result.now ≡ self.now.sums.area }
    {
        self.sums.sides()
    }

    /// Whether the sums are kept in 64 bits.
    pub fn is_short(&self) -> bool
        ensures { result ≡ self.now.sums.short }
    {
        self.sums.is_short()
    }

    /// The sums of row r.
    pub fn ends(&self, r: usize) -> Extremes
        requires { r < length self.now.sums.sums }
        ensures { result ≡ extremes_at self.now.sums.sums r }
    {
        self.sums.ends(r)
    }

    /// The number that no span of a term of row r is above.
    pub fn max_span(&self, r: usize) -> i128
        requires { r < length self.now.max_span }
        ensures { result ≡ max_span_at self.now.max_span r }
    {
        self.max_span[r]
    }

    /// Gives a column another interval, and enqueues the rows that lose slack by it. After an error
    /// nothing was changed.
    pub fn change(
        &mut self,
        problem: &Problem,
        column: u32,
        side: Interval,
    ) -> Result<(), AllocError>
        requires there { column < length problem.now.columns }
        requires sums { IsRunning problem.now self.old.sums }
        requires bits { HasBits problem.now self.old.queued }
        ensures ok { OnOk result (HasChanged problem.now column side self.old self.new) }
        ensures err { OnErr result (self.new ≡ self.old) }
    {
        let at = column as usize;
        let before = self.sums.side(at);
        note(&mut self.trail, column, before)?;
        self.sums.put(problem, at, side);
        enqueue_column(problem, at, before, side, &mut self.queued);
        Ok(())
    }

    /// The box with this left of a column.
    #[tactic(auto, using(crate::proofs::Stepping::step_same, crate::proofs::Changing::step_change))]
    pub fn take(
        &mut self,
        problem: &Problem,
        reason: Reason,
        column: u32,
        cut: Cut,
    ) -> Result<Option<Reason>, AllocError>
        requires there { column < length problem.now.columns }
        requires work { IsBox problem.now self.old }
        requires inner { IsInnerCut (interval_at self.old.sums.area column) cut }
        ensures step { IsStep problem.now self.old self.new }
        ensures value { IfOk result
            (λ told. outcome_of told self.new.sums.area
            ≡ cut_of reason column self.old.sums.area cut) }
    {
        match cut {
            Cut::Whole => Ok(None),
            Cut::Nothing => Ok(Some(reason)),
            Cut::To(side) => {
                self.change(problem, column, side)?;
                Ok(None)
            }
        }
    }

    // Undoes the last change.
    fn undo(&mut self, problem: &Problem)
        requires some { 0 < length self.old.trail }
        requires trail { AreTrailed (length problem.now.columns) self.old.trail }
        requires sums { IsRunning problem.now self.old.sums }
        ensures undone { HasUndone self.old self.new }
        ensures trail { AreTrailed (length problem.now.columns) self.new.trail }
        ensures sums { IsRunning problem.now self.new.sums }
    {
        if let Some(change) = self.trail.pop() {
            self.sums
                .put(problem, change.column as usize, change.before);
        }
    }

    /// Undoes the changes behind the first `depth`. The rows stay as queued as they were.
    pub fn go_back(&mut self, problem: &Problem, depth: usize)
        requires depth { depth ≤ length self.old.trail }
        requires trail { AreTrailed (length problem.now.columns) self.old.trail }
        requires sums { IsRunning problem.now self.old.sums }
        ensures back { WentBack depth self.old self.new }
        ensures sums { IsRunning problem.now self.new.sums }
    {
        while self.trail_len() > depth {
            self.undo(problem);
        }
    }

    /// The changes that were made and not undone.
    pub fn trail(&self) -> &[Trailed]
        ensures { result.now ≡ self.now.trail }
    {
        self.trail.as_slice()
    }

    /// How many changes were made and not undone.
    pub fn trail_len(&self) -> usize
        ensures { result ≡ length self.now.trail }
    {
        self.trail.len()
    }

    /// Narrows a column, and enqueues the rows that lose slack by it. After an error nothing was
    /// changed.
    #[tactic(auto, using(crate::proofs::Changing::step_change, crate::proofs::Stepping::step_same))]
    pub fn cut(&mut self, problem: &Problem, column: u32, side: Interval) -> Result<(), AllocError>
        requires there { column < length problem.now.columns }
        requires work { IsBox problem.now self.old }
        requires inner { IsClosedWithin side (interval_at self.old.sums.area column) }
        ensures step { IsStep problem.now self.old self.new }
        ensures area { OnOk result (self.new.sums.area ≡ slice_set self.old.sums.area column side) }
    {
        self.change(problem, column, side)?;
        Ok(())
    }

    /// Lets the rows wait that are at fixpoint so, and enqueues the others: the objective alone
    /// where the cutoff is another.
    pub fn wait(&mut self, problem: &Problem, fixpoint: Fixpoint, cutoff: Option<i128>)
        requires bits { HasBits problem.now self.old.queued }
        requires fixpoint { AllAtFixpoint problem.now fixpoint self.old.sums.area }
        ensures at_fixpoint { AreAtFixpoint problem.now cutoff self.new.sums.area self.new.queued }
        ensures others { self.new ≡ record self.old { queued = self.new.queued } }
        ensures width { length self.new.queued ≡ length self.old.queued }
    {
        enqueue_others(problem, fixpoint, cutoff, self.queued.as_mut_slice());
    }

    /// The floor of the box.
    pub fn floor(&self, problem: &Problem) -> i128
        requires { IsRunning problem.now self.now.sums }
        ensures { result ≡ box_floor problem.now.objective self.now.sums.area }
    {
        plus(self.sums.least(problem, None), problem.objective().constant)
    }

    /// The floor of the box where a column had another interval. It looks at that column alone.
    pub fn floor_with(&self, problem: &Problem, column: u32, side: Interval) -> i128
        requires there { column < length problem.now.columns }
        requires sums { IsRunning problem.now self.now.sums }
        ensures { result ≡ box_floor problem.now.objective
            (slice_set self.now.sums.area column side) }
    {
        let least = self.sums.least_with(problem, column as usize, side);
        plus(least, problem.objective().constant)
    }
}
