ghost use Rattle.std.specs.Prelude.{◌≡◌};
ghost use Rattle.ug_fields.specs.Reading.{Gives};
ghost use Rattle.ug_image.specs.Reading.{record_in, problem_at};

use std::alloc::Global;
use ug_fields::{Fault, count_at};
use ug_problem::Shared;
use ug_records::{RecordError, from_record};

// The problem whose record the next bytes are, this many; if they are not there, this many bytes
// are left from the bad field on.
#[tactic(auto, unfolding(crate::specs::Reading::record_in, crate::specs::Reading::within_record))]
fn record_in(alloc: Global, bytes: &[u8], left: usize, count: u32) -> Result<(Shared, &[u8]), Fault>
    ensures { Gives (λ x. (x.0, x.1.now)) result (record_in left count bytes.now) }
{
    let count = count as usize;
    if bytes.len() < count {
        return Err(Fault::Bad(left));
    }
    let (record, rest) = bytes.split_at(count);
    match from_record(alloc, record) {
        Ok(problem) => Ok((Shared::own(problem), rest)),
        Err(RecordError::Memory) => Err(Fault::Memory),
        Err(RecordError::BadRecord { at }) => Err(Fault::Bad(record.len() - at + rest.len())),
    }
}

/// A problem: how long its record is, and the record.
#[tactic(auto, unfolding(crate::specs::Reading::problem_at))]
pub fn problem_at(alloc: Global, bytes: &[u8]) -> Result<(Shared, &[u8]), Fault>
    ensures { Gives (λ x. (x.0, x.1.now)) result (problem_at bytes.now) }
{
    let (count, rest) = count_at(bytes, 1 << 32)?;
    record_in(alloc, rest, bytes.len(), count)
}
