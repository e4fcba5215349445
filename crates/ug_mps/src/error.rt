ghost use Rattle.std.specs.Prelude.{◌≡◌, Some, None};
ghost use Rattle.ug_mps.specs.Drafts.{IsFaultOf};

use std::alloc::Global;
use ug_drafts::{Kind, MpsError, MpsFault};
use ug_lists::Text;

/// The fault of a word at a line, or lack of memory.
pub fn fault_of(alloc: Global, line: u64, kind: Kind, word: &[u8]) -> MpsError
    ensures { IsFaultOf line (Some (record { kind = kind; word = Some word.now })) result }
{
    match Text::from_slice(alloc, word) {
        Ok(word) => MpsError::Fault(MpsFault {
            line,
            kind,
            word: Some(word),
        }),
        Err(_) => MpsError::Memory,
    }
}

/// The fault of a line, without a word.
pub fn bare_fault(line: u64, kind: Kind) -> MpsError
    ensures { IsFaultOf line (Some (record { kind = kind; word = None })) result }
{
    MpsError::Fault(MpsFault {
        line,
        kind,
        word: None,
    })
}
