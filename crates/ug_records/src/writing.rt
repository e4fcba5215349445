ghost use Rattle.std.specs.Prelude.{◌≡◌, IfOk};
ghost use Rattle.ug_records.specs.Spelling.{record_of};

use crate::advancing::advance;
use crate::stage::RecordStage;
use std::alloc::{AllocError, Global};
use ug_fields::Line;
use ug_lists::Bytes;
use ug_problem::Problem;

/// The record of the problem: the one that its fields spell.
pub fn to_record(alloc: Global, problem: &Problem) -> Result<Bytes, AllocError>
    ensures { IfOk result (λ bytes. bytes ≡ record_of problem.now) }
{
    let mut out = Vec::new(alloc);
    let mut line = Line::new(alloc)?;
    let mut stage = advance(&mut line, problem, RecordStage::Front);
    while !line.as_slice().is_empty() {
        out.extend_from_slice(line.as_slice())?;
        stage = advance(&mut line, problem, stage);
    }
    Ok(Bytes::from_vec(out))
}
