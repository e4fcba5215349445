ghost use Rattle.std.specs.Prelude.{◌≢◌, ◌↔◌, [], IsTrue};
ghost use Rattle.ug_rules.specs.Ranks.{ranks_that};
ghost use Rattle.ug_ranks.specs.Looks.{is_racing};

use ug_ranks::Ranks;

/// Whether some rank races.
pub fn has_racer(ranks: &Ranks) -> bool
    ensures { IsTrue result ↔ (ranks_that is_racing ranks.now ≢ []) }
{
    for state in ranks.as_slice() {
        if state.is_racing() {
            return true;
        }
    }
    false
}
