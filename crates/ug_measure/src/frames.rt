ghost use Rattle.ug_frames.specs.Orders.{IsOrder};

use std::alloc::{AllocError, Global};
use ug_frames::{Decoded, Order, decode_order, encode_order};

/// The use of a frame.
#[derive(Clone, Copy)]
pub enum Way {
    Encode,
    Decode,
}

// The ticket (1, 1), params 0, no race and no cutoff.
const HEAD: &[u8] = &[0, 0, 0, 0, 0, 0, 0, 1, 0, 0, 0, 0, 0, 0, 0, 1, 0, 0, 0];

// The frame of an order to work with this many changes, from column 0 on, each to 0..1.
fn put_work(bytes: &mut Vec<u8>, changes: u16) -> Result<(), AllocError> {
    let count = u32::from(changes);
    bytes.extend_from_slice(&(24 + 12 * count).to_be_bytes())?;
    bytes.push(2)?;
    bytes.extend_from_slice(HEAD)?;
    bytes.extend_from_slice(&count.to_be_bytes())?;
    for column in 0..count {
        bytes.extend_from_slice(&column.to_be_bytes())?;
        bytes.extend_from_slice(&[0, 0, 0, 0, 0, 0, 0, 1])?;
    }
    Ok(())
}

// How many changes the order has that is read.
fn changes_read(alloc: Global, bytes: &[u8]) -> Result<u64, AllocError> {
    let Ok(Decoded::Whole { message, .. }) = decode_order(alloc, bytes) else {
        return Err(AllocError);
    };
    let count = match &message {
        Order::Work { changes, .. } => changes.as_slice().len() as u64,
        _ => 0,
    };
    drop(message);
    Ok(count)
}

// Reads the frame so often, and says how many changes were read.
fn decode_often(alloc: Global, bytes: &[u8], times: u64) -> Result<u64, AllocError> {
    let mut read = 0u64;
    for _ in 0..times {
        read = read.saturating_add(changes_read(alloc, bytes)?);
    }
    Ok(read)
}

// Writes the frame of the order so often, and says how many bytes were written.
fn write_often(buffer: &mut Vec<u8>, order: &Order, times: u64) -> Result<u64, AllocError>
    requires { IsOrder order.now }
{
    let mut written = 0u64;
    for _ in 0..times {
        buffer.clear();
        encode_order(buffer, order)?;
        written = written.saturating_add(buffer.len() as u64);
    }
    Ok(written)
}

// Writes the frame so often, and says how many bytes were written.
fn encode_often(alloc: Global, bytes: &[u8], times: u64) -> Result<u64, AllocError> {
    let Ok(Decoded::Whole { message, .. }) = decode_order(alloc, bytes) else {
        return Err(AllocError);
    };
    let mut buffer = Vec::new(alloc);
    let written = write_often(&mut buffer, &message, times);
    drop(buffer);
    drop(message);
    written
}

fn repeat(alloc: Global, bytes: &[u8], way: Way, times: u64) -> Result<u64, AllocError> {
    match way {
        Way::Encode => encode_often(alloc, bytes, times),
        Way::Decode => decode_often(alloc, bytes, times),
    }
}

/// Encodes an order to work with this many changes `times` times and returns the number of bytes
/// written, or decodes it and returns the number of changes read. More than 10,000 changes are
/// refused.
pub fn frame_often(alloc: Global, changes: u16, way: Way, times: u64) -> Result<u64, AllocError> {
    let mut bytes = Vec::new(alloc);
    let done = match put_work(&mut bytes, changes) {
        Ok(()) => repeat(alloc, &bytes, way, times),
        Err(error) => Err(error),
    };
    drop(bytes);
    done
}
