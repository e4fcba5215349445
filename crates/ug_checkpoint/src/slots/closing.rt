ghost use Rattle.std.specs.Prelude.{◌≡◌, IfOk, OnOk, OnErr, MatchBool};
ghost use Rattle.ug_io.specs.Outside.{IsCounted};
ghost use Rattle.ug_disk.specs.Slots.{MayLeave};
ghost use Rattle.ug_disk.specs.Crashes.{Leaves};
ghost use Rattle.ug_checkpoint.specs.Gates.{Opens, IsGate, IsShut, MayBeShut};
ghost use Rattle.ug_checkpoint.specs.Runs.{Stands, Becomes, OnlyOpens};

use crate::slots::gate::{Gate, is_shut, write_gate};
use ug_disk::{Disk, Slot};
use ug_io::Failed;

/// Shuts the gate of a slot. If it is known to be shut nothing is written, since what stands
/// behind it may be anything, and a crash during a write may leave any byte.
pub fn close_gate<D: Disk>(disk: &mut D, slot: Slot, gate: &mut Gate) -> Result<(), Failed>
    requires { Stands (D.seen disk.old).told slot (IsGate gate.old) }
    ensures shut { OnOk result (gate.new ≡ Gate.Shut) }
    ensures now { Becomes (D.seen disk.old).told (D.seen disk.new).told slot (λ before after.
        Opens (MayLeave before) after × IsGate gate.new after) }
    ensures any_moment { Leaves (OnlyOpens (D.seen disk.old).told slot MayLeave)
        (D.seen disk.old).told (D.seen disk.new).told }
    ensures cause { IsCounted result (D.seen disk.old).faults (D.seen disk.new).faults }
{
    if !look(disk, slot, *gate)? {
        *gate = Gate::Open;
        write_gate(disk, slot, false)?;
    }
    *gate = Gate::Shut;
    Ok(())
}

// Whether the gate is shut. One that may be either is synced first.
fn look<D: Disk>(disk: &mut D, slot: Slot, gate: Gate) -> Result<bool, Failed>
    requires { Stands (D.seen disk.old).told slot (IsGate gate) }
    ensures ok { IfOk result (λ shut. Becomes (D.seen disk.old).told (D.seen disk.new).told slot
        (λ before after. Opens (MayLeave before) after
        × MatchBool shut (IsShut after) (MayBeShut after))) }
    ensures err { OnErr result (Becomes (D.seen disk.old).told (D.seen disk.new).told slot
        (λ before after. Opens (MayLeave before) after × IsGate gate after)) }
    ensures any_moment { Leaves (OnlyOpens (D.seen disk.old).told slot MayLeave)
        (D.seen disk.old).told (D.seen disk.new).told }
    ensures cause { IsCounted result (D.seen disk.old).faults (D.seen disk.new).faults }
{
    match gate {
        Gate::Shut => Ok(true),
        Gate::Open => Ok(false),
        Gate::Unread => is_shut(disk, slot),
        Gate::Torn => {
            disk.sync(slot)?;
            is_shut(disk, slot)
        }
    }
}
