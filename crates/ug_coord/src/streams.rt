//! What came from each rank, put together to reports.

ghost use Rattle.std.specs.Prelude.{◌≡◌, ◌<◌, length, slice_index_or, slice_set, IfOk, OnOk, OnErr};
ghost use Rattle.ug_stream.specs.Streams.{fed, first, shut};
ghost use Rattle.ug_coord.specs.Reading.{HasRead, HasTaken};

use std::alloc::{AllocError, Global};
use ug_frames::Report;
use ug_io::{Came, Crew};
use ug_stream::{Assembler, Next};

/// Result of a turn of a crew.
#[derive(Clone, Copy)]
pub enum Turn {
    /// Bytes came from the rank, and wait in its stream.
    Fed { rank: u32 },
    /// The rank is lost.
    Gone { rank: u32 },
    /// The turn failed.
    Failed,
    /// Memory ran out for what came from the rank.
    Wanting { rank: u32 },
}

/// Waits until something comes from the crew, by way of the buffer.
pub fn take_turn<C: Crew>(crew: &mut C, streams: &mut [Assembler], buffer: &mut [u8]) -> Turn
    requires room { 0 < length buffer.old }
    requires fit { length (C.seen crew.old).lives ≡ length streams.old }
    ensures { HasTaken (C.seen crew.old) (C.seen crew.new) streams.old streams.new result }
{
    match crew.turn(buffer) {
        Ok(Came::Bytes { rank, count }) => match feed(streams, rank, &buffer[..count]) {
            Ok(()) => Turn::Fed { rank },
            Err(_) => Turn::Wanting { rank },
        },
        Ok(Came::Gone { rank }) => Turn::Gone { rank },
        Err(_) => Turn::Failed,
    }
}

// Appends the next bytes of the rank. If there is no memory for them, nothing more is read of the
// rank: what comes behind them would not be what the rank sent.
fn feed(streams: &mut [Assembler], rank: u32, piece: &[u8]) -> Result<(), AllocError>
    requires { rank < length streams.old }
    ensures ok { OnOk result (streams.new
        ≡ slice_set streams.old rank (fed (slice_index_or streams.old rank first) piece.now)) }
    ensures err { OnErr result (streams.new
        ≡ slice_set streams.old rank (shut (slice_index_or streams.old rank first))) }
{
    let stream = &mut streams[rank as usize];
    match stream.feed(piece) {
        Ok(()) => Ok(()),
        Err(error) => {
            stream.shut();
            Err(error)
        }
    }
}

/// What comes next of the rank.
pub fn next_of(
    alloc: Global,
    streams: &mut [Assembler],
    rank: u32,
) -> Result<Next<Report>, AllocError>
    requires { rank < length streams.old }
    ensures ok { IfOk result (HasRead streams.old streams.new rank) }
    ensures err { OnErr result (streams.new ≡ streams.old) }
{
    streams[rank as usize].next::<Report>(alloc)
}
