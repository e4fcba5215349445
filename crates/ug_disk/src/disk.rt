ghost use Rattle.std.specs.Prelude.{◌≡◌, ◌<◌, ◌≤◌, length, take, drop, IfOk, OnOk, OnErr};
ghost use Rattle.ug_io.specs.Outside.{IsCounted};
ghost use Rattle.ug_disk.specs.Slots.{synced, written, loosened};
ghost use Rattle.ug_disk.specs.Histories.{AreReal, DiskSeen, Fails, Reads, Steps};

use crate::slot::Slot;
use ug_io::Failed;

/// Two slots of bytes that outlast the program: files in a folder, or vectors in memory. Nobody
/// else writes them.
pub trait Disk {
    /// The history of the slots, if the disk shows it, and the number of failed calls.
    ghost seen: { Self → DiskSeen };

    /// Returns the length of the slot in bytes.
    fn len(&mut self, slot: Slot) -> Result<u64, Failed>
        ensures len { IfOk result (λ n. Reads (seen self.old).told slot
            (λ bytes. n ≡ length bytes)) }
        ensures same { (seen self.new).told ≡ (seen self.old).told }
        ensures real { AreReal (seen self.old).told }
        ensures cause { IsCounted result (seen self.old).faults (seen self.new).faults };

    /// Reads some of the slot's bytes from a place on into the buffer and returns their number. For
    /// a buffer that is not empty, 0 is the end.
    fn read_at(&mut self, slot: Slot, at: u64, buffer: &mut [u8]) -> Result<usize, Failed>
        ensures within { IfOk result (λ n. n ≤ length buffer.new) }
        ensures bytes { IfOk result (λ n. Reads (seen self.old).told slot (λ bytes.
            take n buffer.new ≡ take n (drop at bytes))) }
        ensures end { IfOk result (λ n. n ≡ 0 → 0 < length buffer.old
            → Reads (seen self.old).told slot (λ bytes. length bytes ≤ at)) }
        ensures same { (seen self.new).told ≡ (seen self.old).told }
        ensures real { AreReal (seen self.old).told }
        ensures cause { IsCounted result (seen self.old).faults (seen self.new).faults };

    /// Overwrites the slot's bytes from a place on, and extends them. Until a sync succeeds, a
    /// crash may leave any bytes there, even if the write failed.
    fn write_at(&mut self, slot: Slot, at: u64, bytes: &[u8]) -> Result<(), Failed>
        requires { Reads (seen self.old).told slot (λ bytes. at ≤ length bytes) }
        ensures ok { OnOk result (Steps (seen self.old).told (seen self.new).told slot
            (written at bytes.now)) }
        ensures err { OnErr result (Fails (seen self.old).told (seen self.new).told slot
            (loosened at (length bytes.now))) }
        ensures real { AreReal (seen self.old).told }
        ensures cause { IsCounted result (seen self.old).faults (seen self.new).faults };

    /// Syncs the slot: from then on a crash leaves what a read returns. If it fails, a crash may
    /// leave what it could leave before.
    fn sync(&mut self, slot: Slot) -> Result<(), Failed>
        ensures ok { OnOk result (Steps (seen self.old).told (seen self.new).told slot
            (λ state. synced state.bytes)) }
        ensures err { OnErr result (Fails (seen self.old).told (seen self.new).told slot
            (λ state. state)) }
        ensures real { AreReal (seen self.old).told }
        ensures cause { IsCounted result (seen self.old).faults (seen self.new).faults };
}
