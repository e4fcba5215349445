ghost use Rattle.std.specs.Prelude.{◌≡◌, MatchOption};
ghost use Rattle.ug_nodes.specs.Changes.{AreChangesOf};
ghost use Rattle.ug_stock.specs.Hands.{IsNext, IsRefused};

use ug_nodes::{Changes, first_outside};
use ug_ranks::Work;
use ug_rows::IntBox;
use ug_rules::Heard;

/// Returns the answer to a hand of this number and these changes, if it is not the next or its box
/// is not below that of the assigned node; `None` if the hand is to be taken.
pub fn judge(root: &IntBox, work: &Work, number: u64, changes: &Changes) -> Option<Heard>
    requires { AreChangesOf root.now work.now.node.changes }
    ensures { MatchOption result
        (IsNext root.now work.now number changes.now)
        (IsRefused root.now work.now number changes.now) }
{
    let want = work.taken.len() as u64;
    if number < want {
        return Some(Heard::Again);
    }
    if want < number {
        return Some(Heard::Gap { want, got: number });
    }
    let column = first_outside(root, &work.node.changes, changes)?;
    Some(Heard::Outside { column })
}
