ghost use Rattle.std.specs.Prelude.{◌≤◌, ◌^◌, IfSome, IfOk, IfErr};
ghost use Rattle.ug_mps.specs.Reading.{IsReading};
ghost use Rattle.ug_mps.specs.Reads.{Reads, IsRefusal};

use crate::draft::Draft;
use crate::error::bare_fault;
use crate::line::take_line;
use std::alloc::Global;
use ug_drafts::{Kind, MpsError};
use ug_lines::{content, cut};
use ug_problem::Problem;

/// The problem that the file states, or its first fault. `boxed` is the bound that infinite bounds
/// of columns have: without it a column with one is refused.
pub fn read(alloc: Global, text: &[u8], boxed: Option<u32>) -> Result<Problem, MpsError>
    requires { IfSome boxed (λ u. u ≤ 10 ^ 9) }
    ensures read { IfOk result (Reads text.now boxed) }
    ensures refused { IfErr result (IsRefusal text.now boxed) }
{
    let mut draft = Draft::new(alloc);
    let mut rest = text;
    let mut lines = 0u64;
    while !rest.is_empty() {
        let (piece, after) = cut(rest);
        let through = text.len() - after.len();
        lines += 1;
        match take_line(alloc, &mut draft, lines, content(piece), through) {
            Ok(()) => {}
            Err(error) => {
                drop(draft);
                return Err(error);
            }
        }
        if draft.is_ended() {
            return draft.finish(boxed);
        }
        rest = after;
    }
    drop(draft);
    Err(bare_fault(lines, Kind::NoEnd))
}
