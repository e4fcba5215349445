ghost use Rattle.std.specs.Prelude.{◌≡◌, ◌<◌, length};
ghost use Rattle.ug_ranks.specs.States.{state_at};
ghost use Rattle.ug_frames.specs.declared.report.Report.TheVariants.{State};
ghost use Rattle.ug_rules.specs.State.{BookState};
ghost use Rattle.ug_rules.specs.Hearing.{IsDueUnder, taken_up};

use ug_nodes::Ticket;
use ug_ranks::Ranks;
use ug_rules::Heard;

// Records what a rank reports of its open nodes, under a ticket.
pub fn hear_state(ranks: &mut Ranks, rank: u32, ticket: Ticket, open: u64, floor: i128) -> Heard
    requires { rank < length ranks.old }
    ensures due { (b : BookState)
        → IsDueUnder b (state_at ranks.old rank) ticket (State ticket «open» floor) result }
    ensures taken { (b : BookState) → record b { ranks = ranks.new }
        ≡ taken_up result rank (State ticket «open» floor) (record b { ranks = ranks.old }) }
{
    if !ranks.state(rank).has_ticket(ticket) {
        return Heard::Stale;
    }
    ranks.note(rank, open, floor);
    Heard::Kept
}
