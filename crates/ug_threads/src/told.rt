ghost use Rattle.std.specs.Prelude.{◌≡◌, ◌≢◌, Ok, IsErr, IfOk, OnErr, MatchBool, MatchResult};
ghost use Rattle.ug_desk.specs.Backing.{IsWellOffered};
ghost use Rattle.ug_rules.specs.declared.heard.Heard.TheVariants.{Memory};

use std::alloc::AllocError;
use ug_book::Unfinished;
use ug_rules::Heard;
use ug_worker::Reply;

/// Returns the answer to a box that a worker handed: only out of memory ends its work.
pub fn told(heard: Heard) -> Result<(), AllocError>
    ensures { MatchResult result (λ u. heard ≢ Memory) (λ e. heard ≡ Memory) }
{
    if heard == Heard::Memory {
        return Err(AllocError);
    }
    Ok(())
}

/// Returns the answer to a report of what is left, unless memory ran out.
pub fn answered(reply: Result<Reply, Unfinished>) -> Result<Reply, AllocError>
    ensures ok { IfOk reply (λ own. result ≡ Ok own) }
    ensures err { OnErr reply (IsErr result) }
{
    match reply {
        Ok(reply) => Ok(reply),
        Err(_) => Err(AllocError),
    }
}

/// Does a task continue after the answer to its point? If not, its ticket has ended.
pub fn goes_on(heard: Heard) -> bool
    ensures { MatchBool result (IsWellOffered heard) (¬ IsWellOffered heard) }
{
    matches!(heard, Heard::Kept | Heard::NotBetter { .. })
}
