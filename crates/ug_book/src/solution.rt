ghost use Rattle.std.specs.Prelude.{◌≡◌, IfSome};
ghost use Rattle.ug_problem.specs.Feasible.{Feasible};
ghost use Rattle.ug_frames.specs.declared.report.Report.TheVariants.{Solution};
ghost use Rattle.ug_rules.specs.State.{BookState};
ghost use Rattle.ug_rules.specs.Hearing.{IsDueUnder, IsSolutionDue};
ghost use Rattle.ug_book.specs.Heard.{best_under};

use crate::best::Best;
use ug_nodes::Ticket;
use ug_problem::{Offered, Problem};
use ug_ranks::State;
use ug_rows::Point;
use ug_rules::Heard;

// A point of a rank in this state, under a ticket.
pub fn hear_solution(
    problem: &Problem,
    best: &mut Best,
    state: &State,
    ticket: Ticket,
    point: Point,
) -> Heard
    requires { IfSome best.old (Feasible problem.now) }
    ensures due { (b : BookState) → b.problem ≡ problem.now → b.best ≡ best.old
        → IsDueUnder b state.now ticket (Solution ticket point) result }
    ensures best { best.new ≡ best_under result point best.old }
    ensures feasible { IfSome best.new (Feasible problem.now) }
{
    if !state.has_ticket(ticket) {
        return Heard::Stale;
    }
    offer(problem, best, point)
}

// A point under the current ticket of a rank.
fn offer(problem: &Problem, best: &mut Best, point: Point) -> Heard
    requires { IfSome best.old (Feasible problem.now) }
    ensures due { (b : BookState) → b.problem ≡ problem.now → b.best ≡ best.old
        → IsSolutionDue b point result }
    ensures best { best.new ≡ best_under result point best.old }
    ensures feasible { IfSome best.new (Feasible problem.now) }
{
    match best.offer(problem, point) {
        Offered::Taken => Heard::Kept,
        Offered::NotBetter { kept, given } => Heard::NotBetter { kept, given },
        Offered::Broken(broken) => Heard::Broken(broken),
    }
}
