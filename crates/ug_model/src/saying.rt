//! Records of the bytes that go over a link.

ghost use Rattle.std.specs.Prelude.{◌≡◌, ◌++◌, OnOk, OnErr};
ghost use Rattle.ug_io.specs.Links.{told};

use std::alloc::{AllocError, Global};
use ug_io::{Said, keep_told};

/// Keeps these bytes as sent, and behind all that were sent before.
pub fn keep_both(
    alloc: Global,
    said: &mut Vec<Said>,
    all: &mut Vec<u8>,
    bytes: &[u8],
) -> Result<(), AllocError>
    ensures ok { OnOk result (said.new.items ≡ said.old.items ++ told bytes.now) }
    ensures all { OnOk result (all.new.items ≡ all.old.items ++ bytes.now) }
    ensures err { OnErr result (said.new.items ≡ said.old.items) }
    ensures none { OnErr result (all.new.items ≡ all.old.items) }
{
    let before = all.len();
    all.extend_from_slice(bytes)?;
    match keep_told(alloc, said, bytes) {
        Ok(()) => Ok(()),
        Err(error) => {
            all.truncate(before);
            Err(error)
        }
    }
}
