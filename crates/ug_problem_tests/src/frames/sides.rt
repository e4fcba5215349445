use crate::expect::holds_at;
use crate::frames::bytes::spell;
use std::alloc::{AllocError, Global};
use std::process::Abort;
use ug_frames::Decoded;

/// Orders, or reports.
pub trait Side: Drop {
    /// Returns the message at the front of the bytes.
    fn decode(alloc: Global, bytes: &[u8]) -> Result<Decoded<Self>, AllocError>
    where
        Self: Sized;

    /// Puts the frame of the message that the bytes are at the end of the buffer. Whether there was
    /// memory for it.
    fn copy(buffer: &mut Vec<u8>, alloc: Global, bytes: &[u8]) -> bool;
}

// The result of reading the front of some bytes: a frame of this length, for example.
#[derive(Clone, Copy, PartialEq)]
enum Front {
    Whole { used: usize },
    NeedMore,
    Bad,
    NoMemory,
}

fn front_at<M: Side>(alloc: Global, bytes: &[u8]) -> Front {
    let answer = M::decode(alloc, bytes);
    let front = match &answer {
        Ok(Decoded::Whole { used, .. }) => Front::Whole { used: *used },
        Ok(Decoded::NeedMore) => Front::NeedMore,
        Ok(Decoded::Bad) => Front::Bad,
        Err(_) => Front::NoMemory,
    };
    drop(answer);
    front
}

// Whether the frame needs more, cut before any of its bytes.
fn needs_all<M: Side>(alloc: Global, bytes: &[u8]) -> bool {
    for left in 0..bytes.len() {
        if front_at::<M>(alloc, &bytes[..left]) != Front::NeedMore {
            return false;
        }
    }
    true
}

// Whether the frame is what is written of its message, also behind what the buffer has, which
// stays.
fn is_written<M: Side>(alloc: Global, frame: &[u8]) -> bool {
    let mut buffer = Vec::new(alloc);
    let is_first = M::copy(&mut buffer, alloc, frame) && buffer.as_slice() == frame;
    let is_second = M::copy(&mut buffer, alloc, frame) && buffer.strip_prefix(frame) == Some(frame);
    drop(buffer);
    is_first && is_second
}

// Whether the bytes are the frame of a message, with or without others behind them, and are what is
// written of it.
fn is_whole<M: Side>(alloc: Global, bytes: &mut Vec<u8>) -> bool {
    let whole = Front::Whole { used: bytes.len() };
    front_at::<M>(alloc, bytes) == whole
        && is_written::<M>(alloc, bytes)
        && spell(bytes, "000000")
        && front_at::<M>(alloc, bytes) == whole
}

// Are the bytes the frame of a message, or not, and no frame before their last byte?
fn is_so<M: Side>(alloc: Global, text: &str, is_message: bool) -> bool {
    let mut bytes = Vec::new(alloc);
    let is_spelled = spell(&mut bytes, text) && needs_all::<M>(alloc, &bytes);
    let is_so = if is_message {
        is_whole::<M>(alloc, &mut bytes)
    } else {
        front_at::<M>(alloc, &bytes) == Front::Bad
    };
    drop(bytes);
    is_spelled && is_so
}

// What follows the first colon.
fn text_of(line: &str) -> &str {
    match line.split_once(": ") {
        Some((_, text)) => text,
        None => "",
    }
}

/// Expects each line to have the frame of a message, behind what it is; or of no message, behind
/// what is wrong with it.
pub fn each_is_so<M: Side>(rt: &impl Abort, alloc: Global, lines: &str, is_message: bool) {
    for line in lines.lines() {
        holds_at(rt, is_so::<M>(alloc, text_of(line), is_message), &line);
    }
}
