ghost use Rattle.std.specs.Prelude.{◌≡◌, ◌<◌, ◌≤◌, length, take, drop, IfOk, OnOk, OnErr};
ghost use Rattle.ug_disk.specs.Slots.{synced, written, loosened};
ghost use Rattle.ug_disk.specs.Histories.{AreReal, Fails, Reads, Steps};
ghost use Rattle.ug_disk.specs.declared.slot.Slot.{Slot};
ghost use Rattle.ug_real.specs.Folders.{FolderSeen, IsSettled};

use std::io;
use ug_disk::Slot;

/// The files of both slots in a folder, by the calls of the operating system. A disk is built on
/// it. A file and its name in the folder each reach the disk by a sync of their own.
pub trait Folder {
    /// The history of the slots so far, and the slot whose file was synced and not written since;
    /// both only if the folder shows them.
    ghost seen: { Self → FolderSeen };

    /// Returns the length of the slot's file in bytes.
    fn len(&mut self, slot: Slot) -> io::Result<u64>
        ensures len { IfOk result (λ n. Reads (seen self.old).told slot
            (λ bytes. n ≡ length bytes)) }
        ensures same { (seen self.new).told ≡ (seen self.old).told }
        ensures real { AreReal (seen self.old).told };

    /// Reads some of the file's bytes from a place on into the buffer and returns their number. For
    /// a buffer that is not empty, 0 is the end.
    fn read_at(&mut self, slot: Slot, at: u64, buffer: &mut [u8]) -> io::Result<usize>
        ensures within { IfOk result (λ n. n ≤ length buffer.new) }
        ensures bytes { IfOk result (λ n. Reads (seen self.old).told slot (λ bytes.
            take n buffer.new ≡ take n (drop at bytes))) }
        ensures end { IfOk result (λ n. n ≡ 0 → 0 < length buffer.old
            → Reads (seen self.old).told slot (λ bytes. length bytes ≤ at)) }
        ensures same { (seen self.new).told ≡ (seen self.old).told }
        ensures real { AreReal (seen self.old).told };

    /// Overwrites the file's bytes from a place on, and extends them.
    fn write_at(&mut self, slot: Slot, at: u64, bytes: &[u8]) -> io::Result<()>
        requires { Reads (seen self.old).told slot (λ bytes. at ≤ length bytes) }
        ensures ok { OnOk result (Steps (seen self.old).told (seen self.new).told slot
            (written at bytes.now)) }
        ensures err { OnErr result (Fails (seen self.old).told (seen self.new).told slot
            (loosened at (length bytes.now))) }
        ensures real { AreReal (seen self.old).told };

    /// Waits until the bytes of the slot's file are on the disk. A crash may still leave what it
    /// could leave before, since the file's name in the folder may not be on the disk.
    fn sync_file(&mut self, slot: Slot) -> io::Result<()>
        ensures ok { OnOk result (IsSettled (seen self.new) slot) }
        ensures same { OnOk result ((seen self.new).told ≡ (seen self.old).told) }
        ensures err { OnErr result (Fails (seen self.old).told (seen self.new).told slot
            (λ state. state)) }
        ensures real { AreReal (seen self.old).told };

    /// Waits until the names in the folder are on the disk. After it, a crash leaves what a read
    /// returns of the slot whose file is synced.
    fn sync_folder(&mut self) -> io::Result<()>
        ensures ok { OnOk result ((slot : Slot) → IsSettled (seen self.old) slot
            → Steps (seen self.old).told (seen self.new).told slot (λ state. synced state.bytes)) }
        ensures err { OnErr result ((slot : Slot) → IsSettled (seen self.old) slot
            → Fails (seen self.old).told (seen self.new).told slot (λ state. state)) };
}
