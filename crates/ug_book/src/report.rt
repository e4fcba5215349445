ghost use Rattle.std.specs.Prelude.{◌≡◌};
ghost use Rattle.ug_rules.specs.State.{BookState};
ghost use Rattle.ug_rules.specs.HearingLaws.{HasRisingChanges};
ghost use Rattle.ug_stock.specs.Frontiers.{HasRoom};
ghost use Rattle.ug_book.specs.Heard.{CanCompare, CanHear, IsAnswered, IsOfRun, with_held};

use crate::done::hear_done;
use crate::hand::hear_hand;
use crate::incumbent::Incumbent;
use crate::joining::{hear_ended, hear_ready};
use crate::note::hear_state;
use crate::origin::Origin;
use ug_frames::Report;
use ug_rules::Heard;
use ug_stock::{Frontier, Run};

// What a report is answered; one that is kept is taken up, and after any other answer nothing has
// changed.
pub fn take_report(
    run: &Run,
    incumbent: &mut Incumbent,
    frontier: &mut Frontier,
    rank: u32,
    report: Report,
) -> Heard
    requires can { CanHear run.now rank frontier.old }
    requires compares { CanCompare run.now incumbent.old }
    ensures answered { (b : BookState) → IsOfRun b run.now → IsAnswered rank report result
        (with_held b incumbent.old.best frontier.old)
        (with_held b incumbent.new.best frontier.new) }
    ensures rising { HasRisingChanges report }
    ensures room { BookState → HasRoom frontier.new }
    ensures compares { CanCompare run.now incumbent.new }
{
    match report {
        Report::Ready => hear_ready(&mut frontier.ranks, rank),
        Report::Ended => hear_ended(frontier.ranks.state(rank)),
        Report::Solution { ticket, point } => {
            let state = frontier.ranks.state(rank);
            incumbent.hear(run, state, ticket, point)
        }
        Report::Hand {
            ticket,
            number,
            changes,
        } => hear_hand(run, frontier, Origin { rank, ticket }, number, changes),
        Report::State {
            ticket,
            open,
            floor,
        } => hear_state(&mut frontier.ranks, rank, ticket, open, floor),
        Report::Done {
            ticket,
            cutoff,
            count,
            end: _end,
        } => hear_done(
            frontier,
            Origin { rank, ticket },
            incumbent.cutoff,
            cutoff,
            count,
        ),
    }
}
