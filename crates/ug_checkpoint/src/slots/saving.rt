ghost use Rattle.std.specs.Prelude.{◌<◌, ◌+◌, ◌^◌, length, drop, OnOk};
ghost use Rattle.ug_io.specs.Outside.{IsCounted};
ghost use Rattle.ug_disk.specs.Crashes.{Leaves};
ghost use Rattle.ug_checkpoint.specs.Gates.{Opens, IsGate, IsSynced, IsShut, HasBody};
ghost use Rattle.ug_checkpoint.specs.Runs.{Stands, Becomes, OnlyOpens, IsOldOrNew, MaySave, HasSaved};

use crate::slots::blocks::write_body;
use crate::slots::closing::close_gate;
use crate::slots::gate::{Gate, write_gate};
use crate::slots::pieces::Pieces;
use ug_disk::{Disk, Slot};
use ug_io::Failed;

/// Saves a body into a slot, of whose gate this is known: shuts it, writes the body, and opens it.
pub fn save_into<D: Disk, P: Pieces>(
    disk: &mut D,
    slot: Slot,
    gate: &mut Gate,
    pieces: &mut P,
    buffer: &mut [u8],
) -> Result<(), Failed>
    requires knows { Stands (D.seen disk.old).told slot (IsGate gate.old) }
    requires room { 0 < length buffer.old }
    requires fits { length (P.rest pieces.old) + 1 < 2 ^ 64 }
    ensures ok { OnOk result (Becomes (D.seen disk.old).told (D.seen disk.new).told slot
        (HasSaved (P.rest pieces.old))) }
    ensures now { Becomes (D.seen disk.old).told (D.seen disk.new).told slot (λ before after.
        MaySave (P.rest pieces.old) before after × IsGate gate.new after) }
    ensures any_moment { Leaves
        (OnlyOpens (D.seen disk.old).told slot (IsOldOrNew (P.rest pieces.old)))
        (D.seen disk.old).told (D.seen disk.new).told }
    ensures cause { IsCounted result (D.seen disk.old).faults (D.seen disk.new).faults }
{
    close_gate(disk, slot, gate)?;
    write_body(disk, slot, pieces, buffer)?;
    open_gate(disk, slot, gate)
}

// Opens a gate that is shut. If that fails, the gate may be either.
fn open_gate<D: Disk>(disk: &mut D, slot: Slot, gate: &mut Gate) -> Result<(), Failed>
    requires { Stands (D.seen disk.old).told slot (λ state. IsShut state × IsSynced state) }
    ensures ok { OnOk result (Becomes (D.seen disk.old).told (D.seen disk.new).told slot (λ before.
        HasSaved (drop 1 before.bytes) before)) }
    ensures now { Becomes (D.seen disk.old).told (D.seen disk.new).told slot (λ before after.
        Opens (HasBody (drop 1 before.bytes)) after × IsGate gate.new after) }
    ensures any_moment { Leaves (OnlyOpens (D.seen disk.old).told slot (λ before.
        HasBody (drop 1 before.bytes))) (D.seen disk.old).told (D.seen disk.new).told }
    ensures cause { IsCounted result (D.seen disk.old).faults (D.seen disk.new).faults }
{
    *gate = Gate::Torn;
    write_gate(disk, slot, true)?;
    *gate = Gate::Open;
    Ok(())
}
