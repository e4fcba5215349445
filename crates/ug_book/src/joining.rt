ghost use Rattle.std.specs.Prelude.{◌≡◌, ◌<◌, length, IsTrue, ◌↔◌, Some};
ghost use Rattle.ug_ranks.specs.States.{state_at};
ghost use Rattle.ug_frames.specs.declared.report.Report.TheVariants.{Ready};
ghost use Rattle.ug_rules.specs.State.{BookState};
ghost use Rattle.ug_rules.specs.Hearing.{ended_answer, ready_answer, taken_up};

use ug_nodes::Ticket;
use ug_ranks::{Ranks, State};
use ug_rules::Heard;

// A rank says that it is ready.
pub fn hear_ready(ranks: &mut Ranks, rank: u32) -> Heard
    requires { rank < length ranks.old }
    ensures answer { result ≡ ready_answer (state_at ranks.old rank) }
    ensures ranks { (b : BookState) → record b { ranks = ranks.new }
        ≡ taken_up result rank Ready (record b { ranks = ranks.old }) }
{
    let answer = ready_answer(ranks.state(rank));
    if answer == Heard::Kept {
        ranks.idle(rank);
    }
    answer
}

fn ready_answer(state: &State) -> Heard
    ensures { result ≡ ready_answer state.now }
{
    match state {
        State::Absent => Heard::Kept,
        State::Idle | State::Racing(_) | State::Active(_) => Heard::Early,
        State::Dead(_) => Heard::Stale,
    }
}

// A rank in this state says that it has ended.
pub fn hear_ended(state: &State) -> Heard
    ensures { result ≡ ended_answer state.now }
{
    match state {
        State::Absent | State::Idle | State::Racing(_) | State::Active(_) => Heard::Early,
        State::Dead(_) => Heard::Stale,
    }
}
