use ug_pool::Entry;
use ug_ranks::{Racer, State, Work};
use ug_stock::Frontier;

// Returns the floor that a rank reported last, or before its first report the floor of its node.
fn floor_of_work(work: &Work) -> i128 {
    if work.open == 0 {
        return work.floor;
    }
    work.reported
}

// Each racer has all of the raced node, so the largest floor that one reported is a bound.
fn floor_with_racer(floor: i128, racer: &Racer) -> i128 {
    if racer.open == 0 {
        return floor;
    }
    racer.floor.max(floor)
}

// Returns the floor of the raced node, by the last reports of the racers.
fn floor_of_race(raced: &Entry, states: &[State]) -> i128 {
    let mut floor = raced.floor;
    for state in states {
        if let State::Racing(racer) = state {
            floor = floor_with_racer(floor, racer);
        }
    }
    floor
}

/// The least floor of what is held: in the pool, whose first node has the least, with ranks, and in
/// a race. The greatest number of all where nothing is held.
pub fn least_floor(frontier: &Frontier) -> i128 {
    let states = frontier.ranks.as_slice();
    let mut least = match &frontier.raced {
        Some(raced) => floor_of_race(raced, states),
        None => i128::MAX,
    };
    if let Some(first) = frontier.pool.first() {
        least = first.floor.min(least);
    }
    for state in states {
        if let State::Active(work) = state {
            least = floor_of_work(work).min(least);
        }
    }
    least
}
