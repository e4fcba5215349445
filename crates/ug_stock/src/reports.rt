ghost use Rattle.std.specs.Prelude.{◌≡◌, ◌++◌, ℕ, All, IfOk, OnOk, IfSome, IsNone, MatchBool};
ghost use Rattle.ug_rules.specs.Deciding.{HasReported};
ghost use Rattle.ug_rules.specs.Ranks.{racer_at, racers_in};
ghost use Rattle.ug_stock.specs.Races.{IsWonAmong};

use crate::choosing::winner;
use std::alloc::{AllocError, Global};
use ug_ranks::{Ranks, State};
use ug_rules::Contender;

/// The racers with their last reports, rising in rank.
pub fn racers_of(alloc: Global, ranks: &Ranks) -> Result<Vec<Contender>, AllocError>
    ensures { IfOk result (λ racers. racers.items ≡ racers_in ranks.now) }
{
    let mut racers = Vec::new(alloc);
    for rank in 0..ranks.as_slice().len() as u32 {
        add_racer(&mut racers, rank, ranks.state(rank))?;
    }
    Ok(racers)
}

// The rank is one of the racers, if it races.
fn add_racer(racers: &mut Vec<Contender>, rank: u32, state: &State) -> Result<(), AllocError>
    ensures { OnOk result (racers.new.items ≡ racers.old.items ++ racer_at rank state.now) }
{
    if let State::Racing(racer) = state {
        racers.push(Contender {
            rank,
            open: racer.open,
            floor: racer.floor,
        })?;
    }
    Ok(())
}

/// The rank that wins, where each racer has reported and one of them has enough open nodes.
#[tactic(auto, using(crate::proofs::Won::not_won))]
pub fn winner_of(racers: &[Contender], enough: u64) -> Option<u32>
    ensures none { IsNone result → (rank : ℕ) → IsWonAmong enough racers.now rank → ⊥ }
    ensures some { IfSome result (IsWonAmong enough racers.now) }
{
    if !have_reported(racers) {
        return None;
    }
    winner(racers, enough)
}

fn have_reported(racers: &[Contender]) -> bool
    ensures { MatchBool result
        (All HasReported racers.now)
        (All HasReported racers.now → ⊥) }
{
    racers.iter().all(|racer| racer.open != 0)
}
