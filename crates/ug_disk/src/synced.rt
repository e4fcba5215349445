ghost use Rattle.std.specs.Prelude.{◌≤◌, length, OnOk};
ghost use Rattle.ug_io.specs.Outside.{IsCounted};
ghost use Rattle.ug_disk.specs.Slots.{synced, put_at};
ghost use Rattle.ug_disk.specs.Histories.{Reads};
ghost use Rattle.ug_disk.specs.Crashes.{Leaves, MayLeaveWriting, IsNow};

use crate::disk::Disk;
use crate::slot::Slot;
use ug_io::Failed;

/// Overwrites the slot's bytes from a place on, extends them, and syncs. At each moment of the
/// call, also if it fails, a crash leaves what it may leave while the bytes are being written;
/// after it, what a read returns.
pub fn write_synced<D: Disk>(disk: &mut D, slot: Slot, at: u64, bytes: &[u8]) -> Result<(), Failed>
    requires { Reads (D.seen disk.old).told slot (λ there. at ≤ length there) }
    ensures ok { OnOk result (IsNow (D.seen disk.old).told (D.seen disk.new).told slot
        (λ state. synced (put_at at bytes.now state.bytes))) }
    ensures any_moment { Leaves (MayLeaveWriting (D.seen disk.old).told slot at (length bytes.now))
        (D.seen disk.old).told (D.seen disk.new).told }
    ensures cause { IsCounted result (D.seen disk.old).faults (D.seen disk.new).faults }
{
    disk.write_at(slot, at, bytes)?;
    disk.sync(slot)?;
    Ok(())
}
