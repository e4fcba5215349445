ghost use Rattle.std.specs.Prelude.{◌≤◌, ◌^◌, IfSome, IfOk, IfErr, OnOk};
ghost use Rattle.ug_io.specs.Outside.{IsCountedBy};
ghost use Rattle.ug_mps.specs.Reads.{Reads};
ghost use Rattle.ug_mps.specs.Enough.{StopsAtEnd};
ghost use Rattle.ug_top.specs.Lines.{States};
ghost use Rattle.ug_top.specs.Unread.{HasStopped, IsTextUnread, IsUnread, unread_cause};

use crate::boxes::{Stated, ends_for};
use crate::ended::Ended;
use crate::ran::Refusal;
use std::alloc::{AllocError, Global};
use ug_drafts::MpsError;
use ug_io::Source;
use ug_mps::{GatherError, cause_of, gather, read};
use ug_print::refusal;
use ug_problem::{Problem, Shared};

/// The problem that the source states under the box; or how the command ends that read no problem.
#[tactic(auto, using(crate::proofs::Texts::told_problem, crate::proofs::Texts::told_unread, crate::proofs::Gathered::has_stopped, crate::proofs::Accounts::unread_calm))]
pub fn read_problem<S: Source>(
    alloc: Global,
    boxed: Option<u32>,
    input: &mut S,
) -> Result<Stated, Ended>
    requires { IfSome boxed (λ u. u ≤ 10 ^ 9) }
    ensures states { IfOk result (λ stated.
        States (S.seen input.old).left boxed stated.problem) }
    ensures unread { IfErr result (IsUnread boxed (S.seen input.old).left) }
    ensures stops { OnOk result (StopsAtEnd (S.seen input.old).left (S.seen input.new).left) }
    ensures stopped { IfErr result
        (HasStopped (S.seen input.old).left (S.seen input.new).left) }
    ensures cause { IsCountedBy unread_cause result
        (S.seen input.old).faults (S.seen input.new).faults }
{
    match gather(alloc, input) {
        Ok(text) => match problem_of(alloc, &text, boxed) {
            Ok(problem) => Ok(Stated {
                problem: Shared::own(problem),
                ends: ends_for(alloc, &text, boxed),
            }),
            Err(ended) => Err(ended),
        },
        Err(GatherError::Memory) => Err(Ended::Memory),
        Err(GatherError::Fault) => Err(Ended::ReadFault),
    }
}

// The problem that the file states under the box.
fn problem_of(alloc: Global, text: &[u8], boxed: Option<u32>) -> Result<Problem, Ended>
    requires { IfSome boxed (λ u. u ≤ 10 ^ 9) }
    ensures reads { IfOk result (Reads text.now boxed) }
    ensures unread { IfErr result (IsTextUnread boxed text.now) }
{
    match read(alloc, text, boxed) {
        Ok(problem) => Ok(problem),
        Err(MpsError::Memory) => Err(Ended::Memory),
        Err(MpsError::Fault(fault)) => match refusal(alloc, &fault) {
            Ok(line) => Err(Ended::Refused {
                refusal: Refusal {
                    line: fault.line,
                    cause: cause_of(alloc, text, boxed, &fault),
                },
                text: line,
            }),
            Err(AllocError) => Err(Ended::Memory),
        },
    }
}
