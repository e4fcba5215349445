ghost use Rattle.std.specs.Prelude.{◌≡◌, ◌↔◌, ◌<◌, ◌≤◌, ◌*◌, ◌^◌, [], ◌∷◌, length, Some, None, IfOk, OnErr, IfSome, IsNone, unsigned_abs};
ghost use Rattle.ug_rows.specs.Boxes.{IsBelow};
ghost use Rattle.ug_problem.specs.Instances.{root_of};
ghost use Rattle.ug_problem.specs.Limits.{IsProblem};
ghost use Rattle.ug_base.specs.declared.step.Step.TheVariants.{Empty};
ghost use Rattle.ug_rows.specs.Sums.{box_floor};
ghost use Rattle.ug_propagate.specs.Working.{IsBox};
ghost use Rattle.ug_propagate.specs.declared.fixpoint.Fixpoint.TheVariants.{Unknown};
ghost use Rattle.ug_branch.specs.declared.params.Base.TheVariants.{Surrogate};
ghost use Rattle.ug_surrogate.specs.Stronger.{Follows};
ghost use Rattle.ug_base.specs.Covers.{AreCovered};
ghost use Rattle.ug_base.specs.Hands.{DidGive, DidHand, HandsLess};
ghost use Rattle.ug_base.specs.Steps.{LeavesLess, TookStep};
ghost use Rattle.ug_base.specs.Tasks.{AreBelow, BoundsTheRest, IsLeastFloor, lesser_of};
ghost use Rattle.ug_problem.specs.Better.{AreAllHanded, HasNoGood, IsGap, IsSmallCutoff, cutoff_of};

use crate::conflicts::Conflict;
use crate::evaluation::{Seen, begin, evaluate_last};
use crate::formulation::Formulation;
use crate::handed::Handed;
use crate::lesser::lesser;
use crate::moving::{box_of, move_first};
use crate::open_box::{Narrowing, OpenBox};
use crate::open_boxes::OpenBoxes;
use crate::schedule::SurrogateSchedule;
use crate::scores::BranchScores;
use crate::split::split_last;
use crate::step::Step;
use std::alloc::{AllocError, Global};
use std::marker::Model;
use ug_branch::{Base, Params};
use ug_nodes::{Hands, Ticket};
use ug_problem::{Problem, Shared};
use ug_propagate::{Fixpoint, Working};
use ug_rows::{IntBox, Point};

/// The depth-first search of one box for feasible points with a value below the cutoff.
#[derive(Drop)]
pub struct Task {
    alloc: Global,
    formulation: Formulation,
    ticket: Ticket,
    scores: BranchScores,
    whole: IntBox,
    cutoff: Option<i128>,
    gap: i128,
    work: Working,
    open_boxes: OpenBoxes,
    handed: Hands,
    schedule: SurrogateSchedule,
    // The last box that was emptied, until the guide has updated its weights by it.
    conflict: Option<Conflict>,
}

impl Model for Task {
    ghost use Rattle.ug_base.specs.Tasks.{TaskState};

    ghost Value = { TaskState };

    ghost use Rattle.ug_base.specs.Views.{state_of, AreOfTask};

    ghost view = { state_of };

    ghost invariant = { AreOfTask };
}

// Returns the whole box as the one box left.
fn only_open_box(work: &Working, problem: &Problem) -> OpenBox
    requires { IsBox problem.now work.now }
    ensures { result ≡ record {
      depth = 0;
      cut = None;
      floor = box_floor problem.now.objective work.now.sums.area;
      fixpoint = Unknown;
      closed = 0;
    } }
{
    let floor = work.floor(problem);
    OpenBox {
        depth: 0,
        cut: None,
        floor,
        fixpoint: Fixpoint::Unknown,
        closed: 0,
    }
}

// Returns the boxes left of a new task: the whole box.
fn only_left(alloc: Global, work: &Working, problem: &Problem) -> Result<OpenBoxes, AllocError>
    requires { IsBox problem.now work.now }
    ensures { IfOk result (λ open_boxes. open_boxes
        ≡ record {
          depth = 0;
          cut = None;
          floor = box_floor problem.now.objective work.now.sums.area;
          fixpoint = Unknown;
          closed = 0;
        } ∷ []) }
{
    OpenBoxes::of(alloc, only_open_box(work, problem))
}

// The state with which a search begins.
#[derive(Drop)]
struct Beginning {
    work: Working,
    open_boxes: OpenBoxes,
}

// Returns the working box of the whole box, and the whole box as the one box left.
fn begun(alloc: Global, problem: &Problem, whole: &IntBox) -> Result<Beginning, AllocError>
    requires { length whole.now ≡ length problem.now.columns }
    ensures area { IfOk result (λ b. b.work.sums.area ≡ whole.now) }
    ensures work { IfOk result (λ b. IsBox problem.now b.work) }
    ensures trail { IfOk result (λ b. b.work.trail ≡ []) }
    ensures open_boxes { IfOk result (λ b. b.open_boxes
        ≡ record {
          depth = 0;
          cut = None;
          floor = box_floor problem.now.objective b.work.sums.area;
          fixpoint = Unknown;
          closed = 0;
        } ∷ []) }
{
    let work = Working::new(alloc, problem, whole)?;
    match only_left(alloc, &work, problem) {
        Ok(open_boxes) => Ok(Beginning { work, open_boxes }),
        Err(error) => {
            drop(work);
            Err(error)
        }
    }
}

// Returns the cutoff of a point under a gap.
fn cutoff_at(problem: &Problem, gap: i128, point: &Point) -> Option<i128>
    requires width { length point.now ≡ length problem.now.columns }
    requires gap { IsGap gap }
    ensures { result ≡ Some (cutoff_of problem.now gap point.now) }
{
    Some(problem.cutoff(gap, point))
}

// Returns the column on which the parent of a part was branched.
fn column_of(cut: Option<Narrowing>) -> Option<u32> {
    match cut {
        Some(cut) => Some(cut.column),
        None => None,
    }
}

impl Task {
    /// Returns a task with the whole box left and none handed. It copies the box and computes the
    /// sums of all rows over it.
    pub fn new(
        alloc: Global,
        problem: Shared,
        ticket: Ticket,
        params: Params,
        whole: IntBox,
        cutoff: Option<i128>,
        gap: i128,
    ) -> Result<Task, AllocError>
        requires below { IsBelow whole (root_of problem) }
        requires cutoff { IsSmallCutoff cutoff }
        requires gap { IsGap gap }
        ensures { IfOk result (λ t. t ≡ record {
          problem = problem;
          ticket = ticket;
          params = params;
          whole = whole;
          cutoff = cutoff;
          gap = gap;
          boxes = whole ∷ [];
          handed = [];
        }) }
    {
        // Shows that it is a problem: its type guarantees it.
        let _columns = problem.problem().columns();
        let schedule = SurrogateSchedule::new(alloc, problem.problem(), &whole);
        match begun(alloc, problem.problem(), &whole) {
            Ok(begun) => Ok(Task {
                alloc,
                formulation: Formulation::own(problem),
                ticket,
                scores: BranchScores::plain(alloc, params),
                whole,
                cutoff,
                gap,
                work: begun.work,
                open_boxes: begun.open_boxes,
                handed: Hands::new(alloc),
                schedule,
                conflict: None,
            }),
            Err(error) => {
                drop(problem);
                drop(whole);
                drop(schedule);
                Err(error)
            }
        }
    }

    /// Takes the last box left and prunes it, returns its one point, or branches, putting both
    /// parts in its place. After an error the task is unchanged.
    pub fn step(&mut self) -> Result<Step, AllocError>
        ensures took { IfOk result (TookStep self.old self.new) }
        ensures empty { IfOk result (λ step. (step ≡ Empty) ↔ (self.old.boxes ≡ [])) }
        // A loop over steps ends.
        ensures less { IfOk result (LeavesLess self.old self.new) }
        ensures err { OnErr result (self.new ≡ self.old) }
    {
        self.strengthen()?;
        self.evaluate_next()
    }

    // Makes a step over the current formulation, as `step` does.
    fn evaluate_next(&mut self) -> Result<Step, AllocError>
        ensures took { IfOk result (TookStep self.old self.new) }
        ensures empty { IfOk result (λ step. (step ≡ Empty) ↔ (self.old.boxes ≡ [])) }
        ensures less { IfOk result (LeavesLess self.old self.new) }
        ensures err { OnErr result (self.new ≡ self.old) }
    {
        let Some(last) = self.open_boxes.last() else {
            return Ok(Step::Empty);
        };
        match evaluate_last(
            self.alloc,
            &mut self.work,
            &self.formulation,
            &self.whole,
            &self.scores,
            self.cutoff,
            &self.open_boxes,
            last,
        )? {
            Seen::Hopeless(reason) => {
                self.conflict = Some(Conflict {
                    reason,
                    column: column_of(last.cut),
                });
                self.open_boxes.drop_last();
                Ok(Step::Pruned)
            }
            Seen::Solved(point) => {
                let cutoff = cutoff_at(self.formulation.problem(), self.gap, &point);
                self.cutoff = cutoff;
                self.open_boxes.drop_last();
                Ok(Step::Found(point))
            }
            Seen::Branched(branching) => {
                split_last(
                    &self.work,
                    &self.formulation,
                    &self.whole,
                    &self.scores,
                    self.cutoff,
                    branching,
                    &mut self.open_boxes,
                )?;
                Ok(Step::Split)
            }
        }
    }

    /// Hands over the first box left, unless fewer than two are left. After an error the task is
    /// unchanged.
    pub fn hand(&mut self) -> Result<Option<Handed>, AllocError>
        ensures handed { IfOk result (DidHand self.old self.new) }
        ensures none { IfOk result (λ given. IsNone given ↔ (length self.old.boxes < 2)) }
        ensures less { IfOk result (HandsLess self.old self.new) }
        ensures err { OnErr result (self.new ≡ self.old) }
    {
        if self.open_boxes.len() < 2 {
            return Ok(None);
        }
        self.give()
    }

    /// Hands over the first box left, the last one too, so that a task may end before all of it is
    /// searched. Returns `None` exactly if no box is left. After an error the task is unchanged.
    pub fn give(&mut self) -> Result<Option<Handed>, AllocError>
        ensures given { IfOk result (DidGive self.old self.new) }
        ensures none { IfOk result (λ given. IsNone given ↔ (self.old.boxes ≡ [])) }
        ensures less { IfOk result (HandsLess self.old self.new) }
        ensures err { OnErr result (self.new ≡ self.old) }
    {
        let Some(first) = self.open_boxes.first() else {
            return Ok(None);
        };
        let number = self.handed.len() as u64;
        let area = move_first(
            self.alloc,
            &self.work,
            first,
            &mut self.open_boxes,
            &mut self.handed,
        )?;
        Ok(Some(Handed { number, area }))
    }

    // Updates the weights of the guide by the last box that was emptied.
    fn learn(&mut self)
        ensures { self.new ≡ self.old }
    {
        if let Some(conflict) = self.conflict.take() {
            self.scores
                .learn(self.alloc, self.formulation.searched(), conflict);
        }
    }

    // Counts a step, and switches to a stronger formulation if that is due and the parameters ask
    // for it.
    fn strengthen(&mut self) -> Result<(), AllocError>
        ensures { self.new ≡ self.old }
    {
        match self.scores.params().base {
            Base::Bound => Ok(()),
            Base::Surrogate => {
                self.learn();
                if self.schedule.is_due(self.cutoff) {
                    self.take_stronger()
                } else {
                    Ok(())
                }
            }
        }
    }

    // Switches to the formulation with the surrogate constraints that follow from the box of the
    // last part. After an error the task is unchanged.
    fn take_stronger(&mut self) -> Result<(), AllocError>
        requires base { self.old.params.base ≡ Surrogate }
        ensures same { self.new ≡ self.old }
    {
        let Some(last) = self.open_boxes.last() else {
            return Ok(());
        };
        let area = box_of(self.alloc, &self.work, last)?;
        let made = self.schedule.stronger(
            self.alloc,
            self.formulation.problem(),
            &self.whole,
            &area,
            self.cutoff,
        );
        drop(area);
        match made? {
            Some(stronger) => match self.follow() {
                Ok(()) => self.go_over(stronger),
                Err(error) => {
                    drop(stronger);
                    Err(error)
                }
            },
            None => Ok(()),
        }
    }

    // Makes the guide branch by the list of multipliers that was kept last.
    fn follow(&mut self) -> Result<(), AllocError>
        ensures { self.new ≡ self.old }
    {
        match self.schedule.latest() {
            Some(m) => self
                .scores
                .follow(self.alloc, self.formulation.problem(), m),
            None => Ok(()),
        }
    }

    // Switches to a stronger formulation of the problem. The points searched for stay the same.
    // After an error the task is unchanged.
    fn go_over(&mut self, stronger: Problem) -> Result<(), AllocError>
        requires base { self.old.params.base ≡ Surrogate }
        requires follows { Follows self.old.problem self.old.whole self.old.cutoff stronger }
        ensures same { self.new ≡ self.old }
    {
        let Some(last) = self.open_boxes.last() else {
            drop(stronger);
            return Ok(());
        };
        // Shows that it is a problem: its type guarantees it.
        let _columns = stronger.columns();
        begin(
            &mut self.work,
            self.formulation.searched(),
            &self.whole,
            last,
            self.cutoff,
        );
        match self.work.over(self.alloc, &stronger, &self.whole) {
            Ok(()) => {
                self.open_boxes.unsettle();
                self.formulation.take(stronger);
                Ok(())
            }
            Err(error) => {
                drop(stronger);
                Err(error)
            }
        }
    }

    /// Lowers the cutoff to the given one, unless it is below that already. Takes no memory.
    pub fn lower(&mut self, cutoff: i128)
        requires { unsigned_abs cutoff ≤ 2 * 10 ^ 37 }
        ensures { self.new ≡ record self.old { cutoff = Some (lesser_of self.old.cutoff cutoff) } }
    {
        self.cutoff = Some(lesser(self.cutoff, cutoff));
    }

    /// Returns the number of boxes left. Takes no memory.
    pub fn left(&self) -> u64
        ensures count { result ≡ length self.now.boxes }
        ensures below { AreBelow self.now.whole self.now.boxes }
        ensures covered { AreCovered self.now.problem self.now.cutoff self.now.whole self.now.boxes
            self.now.handed }
        ensures ended { result ≡ 0
            → AreAllHanded self.now.problem self.now.cutoff self.now.whole self.now.handed }
        ensures alone { result ≡ 0 → self.now.handed ≡ []
            → HasNoGood self.now.problem self.now.cutoff self.now.whole }
    {
        self.open_boxes.len() as u64
    }

    /// Returns the least floor of the boxes left. Takes no memory: the least floor of the boxes up
    /// to each is stored with it, and computed anew after boxes were handed.
    pub fn lowest(&mut self) -> Option<i128>
        ensures same { self.new ≡ self.old }
        ensures none { IsNone result ↔ (self.old.boxes ≡ []) }
        ensures some { IfSome result (IsLeastFloor self.old.problem self.old.boxes) }
        ensures bound { IfSome result (BoundsTheRest self.old) }
        ensures small { IfSome result (λ low. unsigned_abs low ≤ 2 * 10 ^ 37) }
    {
        self.open_boxes.lowest()
    }

    /// Returns the boxes handed, in order. Takes no memory.
    pub fn handed(&self) -> &Hands
        ensures value { result.now ≡ self.now.handed }
        ensures below { AreBelow self.now.whole self.now.handed }
    {
        &self.handed
    }

    /// Returns the problem.
    pub fn problem(&self) -> &Problem
        ensures value { result.now ≡ self.now.problem }
        ensures problem { IsProblem self.now.problem }
    {
        self.formulation.problem()
    }

    /// Returns the ticket of the assignment.
    pub fn ticket(&self) -> Ticket
        ensures { result ≡ self.now.ticket }
    {
        self.ticket
    }

    /// Returns the box that is searched.
    pub fn whole(&self) -> &IntBox
        ensures value { result.now ≡ self.now.whole }
        ensures below { IsBelow self.now.whole (root_of self.now.problem) }
    {
        &self.whole
    }

    /// Returns the gap, multiplied by ten to the objective's scale: a point must be better by more
    /// than this.
    pub fn gap(&self) -> i128
        ensures value { result ≡ self.now.gap }
        ensures gap { IsGap self.now.gap }
    {
        self.gap
    }

    /// Returns the parameters, which choose how boxes are branched.
    pub fn params(&self) -> Params
        ensures { result ≡ self.now.params }
    {
        self.scores.params()
    }

    /// Returns the cutoff, the value below which points are searched for, if there is one.
    pub fn cutoff(&self) -> Option<i128>
        ensures value { result ≡ self.now.cutoff }
        ensures small { IsSmallCutoff self.now.cutoff }
    {
        self.cutoff
    }
}
