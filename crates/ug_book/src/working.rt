ghost use Rattle.std.specs.Prelude.{◌≡◌, ◌≢◌, [], MatchBool};
ghost use Rattle.ug_rules.specs.State.{nodes_of};
ghost use Rattle.ug_ranks.specs.Looks.{is_working};

use ug_ranks::State;

/// Whether a rank in one of these states works on a node of its own.
#[tactic(auto, using(crate::proofs::WhoWorks::none_work, crate::proofs::WhoWorks::some_work))]
pub fn is_any_working(states: &[State]) -> bool
    ensures { MatchBool result (nodes_of states.now ≢ []) (nodes_of states.now ≡ []) }
{
    states.iter().any(State::is_working)
}
