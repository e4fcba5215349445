ghost use Rattle.std.specs.Prelude.{◌≡◌, ◌<◌, length};
ghost use Rattle.ug_problem.specs.Better.{best_cutoff};
ghost use Rattle.ug_frames.specs.declared.report.Ending.{Ending};
ghost use Rattle.ug_frames.specs.declared.report.Report.TheVariants.{Done};
ghost use Rattle.ug_ranks.specs.States.{state_at};
ghost use Rattle.ug_rules.specs.State.{BookState};
ghost use Rattle.ug_rules.specs.Hearing.{IsDoneDue, IsDueUnder, done_at, taken_up};
ghost use Rattle.ug_stock.specs.Frontiers.{with_frontier};
ghost use Rattle.ug_book.specs.Dones.{is_backed};

use crate::origin::Origin;
use ug_pool::Entry;
use ug_ranks::Ranks;
use ug_rules::Heard;
use ug_stock::{Frontier, free_racers};

// A Done of a rank, under a ticket; however it ended, the same is asked of it.
pub fn hear_done(
    frontier: &mut Frontier,
    from: Origin,
    incumbent: Option<i128>,
    cutoff: Option<i128>,
    count: u64,
) -> Heard
    requires { from.rank < length frontier.old.ranks }
    ensures due { (b : BookState) (ending : Ending)
        → best_cutoff b.problem b.settings.gap b.best ≡ incumbent
        → IsDueUnder b (state_at frontier.old.ranks from.rank) from.ticket
        (Done from.ticket cutoff count ending) result }
    ensures taken { (b : BookState) (ending : Ending) → with_frontier b frontier.new
        ≡ taken_up result from.rank (Done from.ticket cutoff count ending)
        (with_frontier b frontier.old) }
    ensures pool { frontier.new.pool ≡ frontier.old.pool }
    ensures orders { frontier.new.orders ≡ frontier.old.orders }
{
    let state = frontier.ranks.state(from.rank);
    if !state.has_ticket(from.ticket) {
        return Heard::Stale;
    }
    let answer = judge_done(incumbent, state.hands_taken(), cutoff, count);
    if answer == Heard::Kept {
        finish(&mut frontier.ranks, &mut frontier.raced, from.rank);
    }
    answer
}

// Returns the answer to a Done under the current ticket of a rank, of which `taken` hands were
// received.
fn judge_done(incumbent: Option<i128>, taken: u64, cutoff: Option<i128>, count: u64) -> Heard
    ensures { (b : BookState) → best_cutoff b.problem b.settings.gap b.best ≡ incumbent
        → IsDoneDue b taken cutoff count result }
{
    if let Some(least) = cutoff {
        if !is_backed(least, incumbent) {
            return Heard::Unbacked {
                cutoff: least,
                incumbent,
            };
        }
    }
    if count != taken {
        return Heard::Short { told: count, taken };
    }
    Heard::Kept
}

// Whether there is an incumbent, and its cutoff is at most this one.
fn is_backed(cutoff: i128, incumbent: Option<i128>) -> bool
    ensures { result ≡ is_backed cutoff incumbent }
{
    match incumbent {
        Some(least) => least <= cutoff,
        None => false,
    }
}

// The rank's node is worked off; in a race that is the raced node, and the race is over.
fn finish(ranks: &mut Ranks, raced: &mut Option<Entry>, rank: u32)
    requires { rank < length ranks.old }
    ensures { (b : BookState) → record b { ranks = ranks.new; raced = raced.new }
        ≡ done_at (state_at ranks.old rank) rank
        (record b { ranks = ranks.old; raced = raced.old }) }
{
    if ranks.state(rank).is_racing() {
        free_racers(ranks);
        *raced = None;
    } else if ranks.state(rank).is_working() {
        let _ = ranks.free(rank);
    }
}
