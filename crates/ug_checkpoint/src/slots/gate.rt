ghost use Rattle.std.specs.Prelude.{◌≡◌, ◌∷◌, [], IfOk, OnOk, OnErr, MatchBool};
ghost use Rattle.ug_io.specs.Outside.{IsCounted};
ghost use Rattle.ug_disk.specs.Slots.{synced, put_at};
ghost use Rattle.ug_disk.specs.Crashes.{Leaves, MayLeaveWriting};
ghost use Rattle.ug_checkpoint.specs.Gates.{IsSynced, IsShut, MayBeShut, MayBeLoose, gate_byte};
ghost use Rattle.ug_checkpoint.specs.Runs.{Stands, Becomes};

use ug_disk::{Disk, Slot};
use ug_io::Failed;

/// The known state of the gate of a slot.
#[derive(Clone, Copy, PartialEq, Eq)]
pub enum Gate {
    /// Nothing is pending in the slot, and its gate was not examined.
    Unread,
    /// It is there, on the disk, and not 1.
    Shut,
    /// What follows it may be examined, so it may be written.
    Open,
    /// To open it failed: nothing is known.
    Torn,
}

/// Whether the gate of a slot in which nothing is pending is shut.
pub fn is_shut<D: Disk>(disk: &mut D, slot: Slot) -> Result<bool, Failed>
    requires { Stands (D.seen disk.old).told slot IsSynced }
    ensures ok { IfOk result (λ shut. Stands (D.seen disk.old).told slot (λ state.
        MatchBool shut (IsShut state) (MayBeShut state))) }
    ensures same { (D.seen disk.new).told ≡ (D.seen disk.old).told }
    ensures cause { IsCounted result (D.seen disk.old).faults (D.seen disk.new).faults }
{
    let mut first = [1u8; 1];
    let n = disk.read_at(slot, 0, &mut first)?;
    Ok(n > 0 && first[0] != 1)
}

// The byte that opens a gate, or shuts it.
fn byte_of(is_open: bool) -> u8
    ensures { result ≡ gate_byte is_open }
{
    if is_open { 1 } else { 0 }
}

/// Opens the gate or shuts it, and syncs the slot. If it fails, nothing was done, or a crash may
/// leave any byte in its place.
pub fn write_gate<D: Disk>(disk: &mut D, slot: Slot, is_open: bool) -> Result<(), Failed>
    ensures ok { OnOk result (Becomes (D.seen disk.old).told (D.seen disk.new).told slot
        (λ before after. after ≡ synced (put_at 0 (gate_byte is_open ∷ []) before.bytes))) }
    ensures err { OnErr result
        (Becomes (D.seen disk.old).told (D.seen disk.new).told slot MayBeLoose) }
    ensures any_moment { Leaves (MayLeaveWriting (D.seen disk.old).told slot 0 1)
        (D.seen disk.old).told (D.seen disk.new).told }
    ensures cause { IsCounted result (D.seen disk.old).faults (D.seen disk.new).faults }
{
    disk.write_at(slot, 0, &[byte_of(is_open)])?;
    disk.sync(slot)?;
    Ok(())
}
