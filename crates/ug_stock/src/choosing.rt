ghost use Rattle.std.specs.Prelude.{◌≡◌, ◌↔◌, ◌<◌, ◌++◌, [], ◌∷◌, ℕ, Option, List, All, IsNone, IfSome, MatchBool};
ghost use Rattle.ug_rules.specs.declared.contender.Contender.{Contender};
ghost use Rattle.ug_rules.specs.Winning.{HasEnough, HasMore, IsShort, LeadsOver, IsLeader, IsWinner, IsLeaderIfAny};

use ug_rules::Contender;

/// The rank that wins the race: of the racers with at least `w` open nodes the one with the
/// greatest floor, of those the one with the most open nodes, and of those the lowest rank. None if
/// no racer has `w`.
#[tactic(auto, using(crate::proofs::Winners::one_winner, crate::proofs::Winners::not_all_short, crate::proofs::Winners::no_winner))]
pub fn winner(racers: &[Contender], w: u64) -> Option<u32>
    ensures none { IsNone result ↔ All (IsShort w) racers.now }
    ensures some { IfSome result (IsWinner w racers.now) }
    ensures only { (rank : ℕ) → IsWinner w racers.now rank → result ≡ Some rank }
{
    match first(racers, w) {
        Some(racer) => Some(racer.rank),
        None => None,
    }
}

// The racer that no other with enough open nodes is ahead of.
fn first(racers: &[Contender], w: u64) -> Option<Contender>
    ensures { IsLeaderIfAny w racers.now result }
{
    let mut best = None;
    for racer in racers {
        best = first_of(best, *racer, w);
    }
    best
}

// The first of some racers and one more.
#[tactic(auto, using(crate::proofs::Winners::winner_stays_short, crate::proofs::Winners::winner_alone))]
fn first_of(best: Option<Contender>, racer: Contender, w: u64) -> Option<Contender>
    ensures { (racers : List Contender) → IsLeaderIfAny w racers best
        → IsLeaderIfAny w (racers ++ racer ∷ []) result }
{
    if racer.open < w {
        return best;
    }
    match best {
        Some(before) => Some(first_of_two(before, racer)),
        None => Some(racer),
    }
}

// The first of some racers and one more that has enough open nodes.
#[tactic(auto, using(crate::proofs::Winners::winner_stays, crate::proofs::Winners::winner_changes))]
fn first_of_two(before: Contender, racer: Contender) -> Contender
    ensures { (w : ℕ) (racers : List Contender) → IsLeader w racers before → HasEnough w racer
        → IsLeader w (racers ++ racer ∷ []) result }
{
    if is_ahead(racer, before) {
        racer
    } else {
        before
    }
}

fn is_ahead(one: Contender, other: Contender) -> bool
    ensures { MatchBool result (LeadsOver one other) (LeadsOver one other → ⊥) }
{
    if one.floor == other.floor {
        return has_more(one, other);
    }
    one.floor > other.floor
}

fn has_more(one: Contender, other: Contender) -> bool
    ensures { MatchBool result (HasMore one other) (HasMore one other → ⊥) }
{
    if one.open == other.open {
        return one.rank < other.rank;
    }
    one.open > other.open
}
