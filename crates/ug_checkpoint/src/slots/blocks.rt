ghost use Rattle.std.specs.Prelude.{◌<◌, ◌+◌, ◌^◌, length, OnOk};
ghost use Rattle.ug_io.specs.Outside.{IsCounted};
ghost use Rattle.ug_disk.specs.Crashes.{Leaves};
ghost use Rattle.ug_checkpoint.specs.Gates.{IsSynced, IsShut, HasBehind};
ghost use Rattle.ug_checkpoint.specs.Runs.{Stands, Becomes, OnlyOpens};

use crate::slots::pieces::Pieces;
use ug_disk::{Disk, Slot};
use ug_io::Failed;

/// Writes a body behind a shut gate, and syncs the slot.
pub fn write_body<D: Disk, P: Pieces>(
    disk: &mut D,
    slot: Slot,
    pieces: &mut P,
    buffer: &mut [u8],
) -> Result<(), Failed>
    requires shut { Stands (D.seen disk.old).told slot IsShut }
    requires room { 0 < length buffer.old }
    requires fits { length (P.rest pieces.old) + 1 < 2 ^ 64 }
    ensures ok { OnOk result (Becomes (D.seen disk.old).told (D.seen disk.new).told slot
        (λ before after. IsSynced after × HasBehind (P.rest pieces.old) after.bytes)) }
    ensures now { Becomes (D.seen disk.old).told (D.seen disk.new).told slot
        (λ before after. IsShut after) }
    ensures any_moment { Leaves (OnlyOpens (D.seen disk.old).told slot (λ before image. ⊥))
        (D.seen disk.old).told (D.seen disk.new).told }
    ensures cause { IsCounted result (D.seen disk.old).faults (D.seen disk.new).faults }
{
    write_blocks(disk, slot, pieces, buffer)?;
    disk.sync(slot)?;
    Ok(())
}

// Writes the blocks of a body, one after another: each as long as the buffer, but for the last.
fn write_blocks<D: Disk, P: Pieces>(
    disk: &mut D,
    slot: Slot,
    pieces: &mut P,
    buffer: &mut [u8],
) -> Result<(), Failed>
    requires shut { Stands (D.seen disk.old).told slot IsShut }
    requires room { 0 < length buffer.old }
    requires fits { length (P.rest pieces.old) + 1 < 2 ^ 64 }
    ensures ok { OnOk result (Becomes (D.seen disk.old).told (D.seen disk.new).told slot
        (λ before after. IsShut after × HasBehind (P.rest pieces.old) after.bytes)) }
    ensures now { Becomes (D.seen disk.old).told (D.seen disk.new).told slot
        (λ before after. IsShut after) }
    ensures any_moment { Leaves (OnlyOpens (D.seen disk.old).told slot (λ before image. ⊥))
        (D.seen disk.old).told (D.seen disk.new).told }
    ensures cause { IsCounted result (D.seen disk.old).faults (D.seen disk.new).faults }
{
    let mut written = 0u64;
    loop {
        let n = pieces.next(buffer);
        if n == 0 {
            return Ok(());
        }
        disk.write_at(slot, written + 1, &buffer[..n])?;
        written += n as u64;
    }
}
