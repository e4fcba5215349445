ghost use Rattle.std.specs.Prelude.{◌≡◌, ◌≤◌, ◌+◌, ℕ, length};
ghost use Rattle.ug_rules.specs.State.{node_at, nodes_of};
ghost use Rattle.ug_rules.specs.Ranks.{rank_if, ranks_that};
ghost use Rattle.ug_ranks.specs.Looks.{is_joined};

use ug_ranks::{Ranks, State};

/// Returns the number of places for an order to each rank that has joined, and for the Stop of each
/// active rank.
pub fn places(ranks: &Ranks) -> usize
    ensures { result ≡ length (ranks_that is_joined ranks.now) + length (nodes_of ranks.now) }
{
    let mut places = 0;
    for state in ranks.as_slice() {
        places += places_for(state);
    }
    places
}

fn places_for(state: &State) -> usize
    ensures value { (r : ℕ) → result ≡ length (rank_if is_joined r state.now)
        + length (node_at state.now) }
    ensures few { result ≤ 2 }
{
    match state {
        State::Active(_) => 2,
        State::Idle | State::Racing(_) => 1,
        State::Absent | State::Dead(_) => 0,
    }
}
