ghost use Rattle.std.specs.Prelude.{◌≡◌, ◌++◌, OnOk};
ghost use Rattle.ug_print.specs.Limited.{count_lines, count_part};

use crate::words::push_named_number;
use std::alloc::{AllocError, Global};

/// Adds how many saves the disk failed, and how many were refused for memory, where there are any.
/// After an error the output may have a part of these lines.
pub fn push_counts(
    text: &mut Vec<u8>,
    alloc: Global,
    missed: u64,
    unsaved: u64,
) -> Result<(), AllocError>
    ensures { OnOk result (text.new.items ≡ text.old.items ++ count_lines missed unsaved) }
{
    push_count(text, alloc, b"missed", missed)?;
    push_count(text, alloc, b"unsaved", unsaved)
}

// Adds the line of a count that is not 0.
fn push_count(text: &mut Vec<u8>, alloc: Global, name: &[u8], count: u64) -> Result<(), AllocError>
    ensures { OnOk result (text.new.items ≡ text.old.items ++ count_part name.now count) }
{
    if count == 0 {
        return Ok(());
    }
    push_named_number(text, alloc, name, count)
}
