ghost use Rattle.std.specs.Prelude.{◌≡◌, ◌<◌, length, IfOk};
ghost use Rattle.ug_io.specs.Outside.{IsCountedBy};
ghost use Rattle.ug_disk.specs.Causes.{read_cause};
ghost use Rattle.ug_disk.specs.Histories.{Reads};

use crate::disk::Disk;
use crate::slot::Slot;
use std::alloc::Global;
use ug_io::zeros;

/// The number of bytes read at once.
const PIECE: usize = 65_536;

/// Why a slot could not be read.
#[derive(Clone, Copy, Debug, PartialEq, Eq)]
pub enum ReadError {
    Memory,
    /// The disk failed: its count of faults has risen.
    Fault,
}

/// Reads all bytes of the slot. It allocates for the bytes that are there and one piece more,
/// whatever length the slot reports.
pub fn read_all<D: Disk>(alloc: Global, disk: &mut D, slot: Slot) -> Result<Vec<u8>, ReadError>
    ensures bytes { IfOk result (λ bytes. Reads (D.seen disk.old).told slot
        (λ there. bytes.items ≡ there)) }
    ensures same { (D.seen disk.new).told ≡ (D.seen disk.old).told }
    ensures cause { IsCountedBy read_cause result
        (D.seen disk.old).faults (D.seen disk.new).faults }
{
    let Ok(mut buffer) = zeros(alloc, PIECE) else {
        return Err(ReadError::Memory);
    };
    let read = read_by(alloc, disk, slot, &mut buffer);
    drop(buffer);
    read
}

// The same, in pieces of the buffer's length.
fn read_by<D: Disk>(
    alloc: Global,
    disk: &mut D,
    slot: Slot,
    buffer: &mut [u8],
) -> Result<Vec<u8>, ReadError>
    requires { 0 < length buffer.old }
    ensures bytes { IfOk result (λ bytes. Reads (D.seen disk.old).told slot
        (λ there. bytes.items ≡ there)) }
    ensures same { (D.seen disk.new).told ≡ (D.seen disk.old).told }
    ensures cause { IsCountedBy read_cause result
        (D.seen disk.old).faults (D.seen disk.new).faults }
{
    let mut bytes = Vec::new(alloc);
    loop {
        let Ok(n) = disk.read_at(slot, bytes.len() as u64, buffer) else {
            drop(bytes);
            return Err(ReadError::Fault);
        };
        if n == 0 {
            return Ok(bytes);
        }
        if let Err(_) = bytes.extend_from_slice(&buffer[..n]) {
            drop(bytes);
            return Err(ReadError::Memory);
        }
    }
}
