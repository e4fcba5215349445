ghost use Rattle.std.specs.Prelude.{◌≡◌, ◌<◌, length, MatchOption};
ghost use Rattle.ug_problem.specs.Instances.{root_of};
ghost use Rattle.ug_nodes.specs.Changes.{IsRising};
ghost use Rattle.ug_frames.specs.declared.report.Report.TheVariants.{Hand};
ghost use Rattle.ug_ranks.specs.States.{state_at};
ghost use Rattle.ug_stock.specs.Runs.{KnowsFloor};
ghost use Rattle.ug_stock.specs.Frontiers.{HasRoom, with_frontier};
ghost use Rattle.ug_rules.specs.State.{BookState};
ghost use Rattle.ug_rules.specs.Books.{KeepsItsFloor};
ghost use Rattle.ug_rules.specs.Hearing.{IsDueUnder, taken_up};
ghost use Rattle.ug_book.specs.Heard.{CanHear};
ghost use Rattle.ug_book.specs.Hands.{IsNotTaken, IsToBeTaken};

use crate::origin::Origin;
use ug_nodes::Changes;
use ug_problem::Problem;
use ug_ranks::State;
use ug_rules::Heard;
use ug_stock::{Frontier, Run, judge};

// A hand of a rank, under a ticket.
pub fn hear_hand(
    run: &Run,
    frontier: &mut Frontier,
    from: Origin,
    number: u64,
    changes: Changes,
) -> Heard
    requires can { CanHear run.now from.rank frontier.old }
    ensures due { (b : BookState) → b.problem ≡ run.now.problem
        → IsDueUnder b (state_at frontier.old.ranks from.rank) from.ticket
        (Hand from.ticket number changes) result }
    ensures taken { (b : BookState) → b.problem ≡ run.now.problem
        → with_frontier b frontier.new ≡ taken_up result from.rank (Hand from.ticket number changes)
        (with_frontier b frontier.old) }
    ensures rising { IsRising changes }
    ensures room { HasRoom frontier.new }
{
    let state = frontier.ranks.state(from.rank);
    if !state.has_ticket(from.ticket) {
        return Heard::Stale;
    }
    if let Some(answer) = judge_hand(run.problem.problem(), state, number, &changes) {
        return answer;
    }
    match frontier.take_hand(run, from.rank, changes) {
        Ok(()) => Heard::Kept,
        Err(_) => Heard::Memory,
    }
}

// The answer to a hand under the current ticket of a rank in this state, where it is not to be
// taken.
fn judge_hand(problem: &Problem, state: &State, number: u64, changes: &Changes) -> Option<Heard>
    requires { KeepsItsFloor problem.now state.now }
    ensures { MatchOption result
        (IsToBeTaken (root_of problem.now) state.now number changes.now)
        (IsNotTaken (root_of problem.now) state.now number changes.now) }
{
    match state {
        State::Active(work) => judge(problem.root(), work, number, changes),
        State::Absent | State::Idle | State::Racing(_) | State::Dead(_) => Some(Heard::InRace),
    }
}
