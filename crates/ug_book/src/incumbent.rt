ghost use Rattle.std.specs.Prelude.{◌≡◌, IfSome};
ghost use Rattle.ug_problem.specs.Better.{IsGap, IsSmallCutoff, best_cutoff};
ghost use Rattle.ug_problem.specs.Feasible.{Feasible};
ghost use Rattle.ug_frames.specs.declared.report.Report.TheVariants.{Solution};
ghost use Rattle.ug_rules.specs.State.{BookState};
ghost use Rattle.ug_rules.specs.Hearing.{IsDueUnder};
ghost use Rattle.ug_book.specs.Heard.{CanCompare, best_under};

use crate::best::Best;
use crate::solution::hear_solution;
use ug_nodes::Ticket;
use ug_ranks::State;
use ug_rows::Point;
use ug_rules::Heard;
use ug_stock::Run;

/// The incumbent of a run, and its cutoff, which is computed once for each incumbent.
#[derive(Drop)]
pub struct Incumbent {
    pub best: Best,
    pub cutoff: Option<i128>,
}

// The cutoff of the incumbent of a run, if there is an incumbent.
fn cutoff_of(run: &Run, best: &Best) -> Option<i128>
    requires incumbent { IfSome best.now (Feasible run.now.problem) }
    requires gap { IsGap run.now.settings.gap }
    ensures value { result ≡ best_cutoff run.now.problem run.now.settings.gap best.now }
    ensures small { IsSmallCutoff result }
{
    best.cutoff(run.problem.problem(), run.settings.gap)
}

impl Incumbent {
    /// This incumbent of the run.
    pub fn new(run: &Run, best: Best) -> Incumbent
        requires incumbent { IfSome best (Feasible run.now.problem) }
        requires gap { IsGap run.now.settings.gap }
        ensures best { result.best ≡ best }
        ensures cutoff { result.cutoff
            ≡ best_cutoff run.now.problem run.now.settings.gap result.best }
        ensures small { IsSmallCutoff result.cutoff }
    {
        let cutoff = cutoff_of(run, &best);
        Incumbent { best, cutoff }
    }

    /// Receives a point of a rank in this state, under a ticket.
    pub fn hear(&mut self, run: &Run, state: &State, ticket: Ticket, point: Point) -> Heard
        requires compares { CanCompare run.now self.old }
        ensures due { (b : BookState) → b.problem ≡ run.now.problem → b.best ≡ self.old.best
            → IsDueUnder b state.now ticket (Solution ticket point) result }
        ensures best { self.new.best ≡ best_under result point self.old.best }
        ensures compares { CanCompare run.now self.new }
    {
        let answer = hear_solution(run.problem.problem(), &mut self.best, state, ticket, point);
        if answer == Heard::Kept {
            self.cutoff = cutoff_of(run, &self.best);
        }
        answer
    }
}
