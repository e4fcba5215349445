ghost use Rattle.std.specs.Prelude.{◌≡◌, ◌≤◌, length, IfOk, IfSome, IsErr, IsNone};
ghost use Rattle.std.specs.Io.KnownBytes.{WriteAppends};

use crate::cause::failed_by;
use std::fs::File;
use std::io;
use std::io::{ErrorKind, Read, Write};
use std::os::unix::fs::FileExt;

// Returns the result of a call, or `None` if a signal interrupted it before it did anything.
fn unless_interrupted(got: io::Result<usize>) -> Option<io::Result<usize>>
    ensures given { IfSome result (λ given. given ≡ got) }
    ensures interrupted { IsNone result → IsErr got }
{
    if failed_by(&got, ErrorKind::Interrupted) {
        drop(got);
        return None;
    }
    Some(got)
}

// Returns the error of a call that a signal interrupted at each try.
fn interrupted() -> io::Error {
    io::Error::from(ErrorKind::Interrupted)
}

/// Reads some bytes and returns their number. Repeats the call if a signal interrupts it.
pub fn read<F: Read>(from: &mut F, buffer: &mut [u8]) -> io::Result<usize>
    ensures { IfOk result (λ n. n ≤ length buffer.new) }
{
    for _ in 0..u64::MAX {
        if let Some(got) = unless_interrupted(from.read(buffer)) {
            return got;
        }
    }
    Err(interrupted())
}

/// Reads some bytes of the file from a place on and returns their number. Repeats the call if a
/// signal interrupts it.
pub fn read_at(file: &File, buffer: &mut [u8], at: u64) -> io::Result<usize>
    ensures { IfOk result (λ n. n ≤ length buffer.new) }
{
    for _ in 0..u64::MAX {
        if let Some(got) = unless_interrupted(file.read_at(buffer, at)) {
            return got;
        }
    }
    Err(interrupted())
}

/// Writes some of the bytes and returns their number. Repeats the call if a signal interrupts it.
pub fn write<W: Write>(to: &mut W, bytes: &[u8]) -> io::Result<usize>
    ensures within { IfOk result (λ n. n ≤ length bytes.now) }
    ensures written { WriteAppends (W.contents to.old) (W.contents to.new) result bytes.now }
{
    for _ in 0..u64::MAX {
        if let Some(got) = unless_interrupted(to.write(bytes)) {
            return got;
        }
    }
    Err(interrupted())
}
