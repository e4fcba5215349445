ghost use Rattle.std.specs.Prelude.{◌≡◌, ◌<◌, length, slice_set, if◌then◌else◌};
ghost use Rattle.ug_ranks.specs.States.{state_at};
ghost use Rattle.ug_ranks.specs.declared.state.State.TheVariants.{Idle};
ghost use Rattle.ug_rules.specs.Ranks.{racers_freed};
ghost use Rattle.ug_ranks.specs.Looks.{is_racing};

use ug_ranks::Ranks;

/// Each racer is idle.
pub fn free_racers(ranks: &mut Ranks)
    ensures { ranks.new ≡ racers_freed ranks.old }
{
    for rank in 0..ranks.as_slice().len() as u32 {
        free_one(ranks, rank);
    }
}

// A racer is idle.
#[tactic(auto, using(crate::proofs::Freed::kept_one))]
fn free_one(ranks: &mut Ranks, rank: u32)
    requires { rank < length ranks.old }
    ensures { ranks.new ≡ slice_set ranks.old rank
        (if is_racing (state_at ranks.old rank) then Idle else state_at ranks.old rank) }
{
    if ranks.state(rank).is_racing() {
        let _ = ranks.free(rank);
    }
}
