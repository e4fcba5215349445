//! Records of the bytes that went over a link, or between a coordinator and its crew.

ghost use Rattle.std.specs.Prelude.{◌≡◌, ◌++◌, IfOk, OnOk, OnErr};
ghost use Rattle.ug_io.specs.Crews.{heard_from, told_to};
ghost use Rattle.ug_io.specs.Links.{heard, told};

use crate::crew::Exchange;
use crate::link::Said;
use std::alloc::{AllocError, Global};

// The bytes as received over a link.
fn as_heard(alloc: Global, bytes: &[u8]) -> Result<Vec<Said>, AllocError>
    ensures { IfOk result (λ said. said.items ≡ heard bytes.now) }
{
    bytes.iter().map(|byte| Said::Heard(*byte)).collect(alloc)
}

// The bytes as sent over a link.
fn as_told(alloc: Global, bytes: &[u8]) -> Result<Vec<Said>, AllocError>
    ensures { IfOk result (λ said. said.items ≡ told bytes.now) }
{
    bytes.iter().map(|byte| Said::Told(*byte)).collect(alloc)
}

/// Appends the bytes as received over a link. After an error the record is unchanged.
pub fn keep_heard(alloc: Global, said: &mut Vec<Said>, bytes: &[u8]) -> Result<(), AllocError>
    ensures ok { OnOk result (said.new.items ≡ said.old.items ++ heard bytes.now) }
    ensures err { OnErr result (said.new.items ≡ said.old.items) }
{
    let more = as_heard(alloc, bytes)?;
    said.extend_from_slice(&more)
}

/// Appends the bytes as sent over a link. After an error the record is unchanged.
pub fn keep_told(alloc: Global, said: &mut Vec<Said>, bytes: &[u8]) -> Result<(), AllocError>
    ensures ok { OnOk result (said.new.items ≡ said.old.items ++ told bytes.now) }
    ensures err { OnErr result (said.new.items ≡ said.old.items) }
{
    let more = as_told(alloc, bytes)?;
    said.extend_from_slice(&more)
}

// The bytes as received from the rank.
fn as_from(alloc: Global, rank: u32, bytes: &[u8]) -> Result<Vec<Exchange>, AllocError>
    ensures { IfOk result (λ said. said.items ≡ heard_from rank bytes.now) }
{
    bytes
        .iter()
        .map(|byte| Exchange::Heard { rank, byte: *byte })
        .collect(alloc)
}

// The bytes as sent to the rank.
fn as_to(alloc: Global, rank: u32, bytes: &[u8]) -> Result<Vec<Exchange>, AllocError>
    ensures { IfOk result (λ said. said.items ≡ told_to rank bytes.now) }
{
    bytes
        .iter()
        .map(|byte| Exchange::Told { rank, byte: *byte })
        .collect(alloc)
}

/// Appends the bytes as received from the rank. After an error the record is unchanged.
pub fn keep_from(
    alloc: Global,
    exchanged: &mut Vec<Exchange>,
    rank: u32,
    bytes: &[u8],
) -> Result<(), AllocError>
    ensures ok { OnOk result (exchanged.new.items ≡ exchanged.old.items ++ heard_from rank bytes.now) }
    ensures err { OnErr result (exchanged.new.items ≡ exchanged.old.items) }
{
    let more = as_from(alloc, rank, bytes)?;
    exchanged.extend_from_slice(&more)
}

/// Appends the bytes as sent to the rank. After an error the record is unchanged.
pub fn keep_to(
    alloc: Global,
    exchanged: &mut Vec<Exchange>,
    rank: u32,
    bytes: &[u8],
) -> Result<(), AllocError>
    ensures ok { OnOk result (exchanged.new.items ≡ exchanged.old.items ++ told_to rank bytes.now) }
    ensures err { OnErr result (exchanged.new.items ≡ exchanged.old.items) }
{
    let more = as_to(alloc, rank, bytes)?;
    exchanged.extend_from_slice(&more)
}
