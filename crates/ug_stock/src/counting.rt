ghost use Rattle.std.specs.Prelude.{◌≡◌, ◌<◌, ◌+◌, ◌^◌, length};
ghost use Rattle.ug_rules.specs.State.{node_at};
ghost use Rattle.ug_rules.specs.Ranks.{rank_if};
ghost use Rattle.ug_ranks.specs.Looks.{is_absent, is_idle};
ghost use Rattle.ug_stock.specs.Counting.{AreCounted};

use ug_ranks::{Ranks, State};

/// How many ranks are absent, idle, and at work.
#[derive(Clone, Copy)]
pub struct Counts {
    pub absent: usize,
    pub idle: usize,
    pub working: usize,
}

/// How many ranks are absent, idle, and at work.
pub fn count(ranks: &Ranks) -> Counts
    ensures counted { AreCounted ranks.now result }
    ensures idle { result.idle < 2 ^ 32 }
    ensures working { result.working < 2 ^ 32 }
{
    let mut counts = Counts {
        absent: 0,
        idle: 0,
        working: 0,
    };
    for state in ranks.as_slice() {
        counts = with_one(counts, state);
    }
    counts
}

// One rank more, which is in this state.
fn with_one(counts: Counts, state: &State) -> Counts
    requires absent { counts.absent + 1 < 2 ^ 64 }
    requires idle { counts.idle + 1 < 2 ^ 64 }
    requires working { counts.working + 1 < 2 ^ 64 }
    ensures absent { result.absent ≡ counts.absent + length (rank_if is_absent 0 state.now) }
    ensures idle { result.idle ≡ counts.idle + length (rank_if is_idle 0 state.now) }
    ensures working { result.working ≡ counts.working + length (node_at state.now) }
{
    let mut counts = counts;
    match state {
        State::Absent => counts.absent += 1,
        State::Idle => counts.idle += 1,
        State::Active(_) => counts.working += 1,
        State::Racing(_) | State::Dead(_) => {}
    }
    counts
}
