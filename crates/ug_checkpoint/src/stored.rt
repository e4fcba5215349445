ghost use Rattle.std.specs.Prelude.{◌≡◌, ◌↔◌, length, IsTrue, IfOk, IfErr, MatchOption};
ghost use Rattle.std.specs.Int.{w64, from_be_bytes};
ghost use Rattle.ug_checkpoint.specs.Gates.{IsOpen};
ghost use Rattle.ug_checkpoint.specs.Bodies.{IsWhole, Stores, stored};
ghost use Rattle.ug_checkpoint.specs.Recovery.{IsCauseIn};

use crate::error::LoadError;
use std::alloc::Global;
use ug_disk::Slot;
use ug_image::{Image, ImageError, decode};

/// The image that a slot of these bytes has, if it is open.
pub fn image_in(alloc: Global, slot: Slot, bytes: &[u8]) -> Result<Option<Image>, LoadError>
    ensures ok { IfOk result (Stores bytes.now) }
    ensures err { IfErr result (IsCauseIn slot bytes.now) }
{
    if !is_open(bytes) {
        return Ok(None);
    }
    let Some(spelling) = stored_in(bytes) else {
        return Err(LoadError::BadImage { slot, at: 1 });
    };
    match decode(alloc, spelling) {
        Ok(image) => Ok(Some(image)),
        Err(ImageError::Memory) => Err(LoadError::Memory),
        Err(ImageError::BadAt { at }) => Err(LoadError::BadImage { slot, at: at + 9 }),
    }
}

// Whether the gate is open.
fn is_open(bytes: &[u8]) -> bool
    ensures { IsTrue result ↔ IsOpen bytes.now }
{
    bytes.len() >= 2 && bytes[0] == 1
}

// The bytes of the image, if the field that counts them is there, and they are.
fn stored_in(bytes: &[u8]) -> Option<&[u8]>
    ensures { MatchOption result (¬ IsWhole bytes.now) (λ spelling.
        IsWhole bytes.now × (spelling.now ≡ stored bytes.now)) }
{
    if bytes.len() < 9 {
        return None;
    }
    let (front, rest) = bytes.split_at(9);
    let n = count_of(&front[1..]) as usize;
    if n <= rest.len() {
        Some(&rest[..n])
    } else {
        None
    }
}

// The number in eight bytes.
fn count_of(b: &[u8]) -> u64
    requires { length b.now ≡ 8 }
    ensures { result ≡ from_be_bytes w64 b.now }
{
    u64::from_be_bytes([b[0], b[1], b[2], b[3], b[4], b[5], b[6], b[7]])
}
