//! The place of a rank, at which a worker is or none yet.

ghost use Rattle.std.specs.Prelude.{◌≡◌, ◌<◌, ◌≤◌, ◌++◌, ℕ, List, length, take, IfOk, OnOk, OnErr};
ghost use Rattle.ug_io.specs.declared.crew.Exchange.{Exchange};
ghost use Rattle.ug_io.specs.Crews.{heard_from, told_to};
ghost use Rattle.ug_model.specs.SimWorkers.{IsPlace, IsSteady};

use crate::held::step_queue;
use crate::queue_link::QueueLink;
use std::alloc::{AllocError, Global};
use ug_io::{Exchange, keep_to};
use ug_serve::{Moved, Progress, Server};

/// Places a worker, where there is none. It reads into this buffer.
pub fn start(alloc: Global, place: &mut Option<Server<QueueLink>>, input: Vec<u8>) -> bool
    requires { 0 < length input.items }
    ensures { (said : List Exchange) (rank : ℕ) → IsPlace said rank place.old
        → IsPlace said rank place.new }
{
    if place.is_some() {
        drop(input);
        return false;
    }
    let server = Server::new(alloc, QueueLink::new(alloc), input);
    server.wire.link.is_queue();
    drop(place.replace(server));
    true
}

/// Sends the bytes to the worker of the rank.
pub fn tell(
    alloc: Global,
    place: &mut Option<Server<QueueLink>>,
    exchanged: &mut Vec<Exchange>,
    rank: u32,
    bytes: &[u8],
) -> Result<(), AllocError>
    ensures ok { OnOk result (exchanged.new.items ≡ exchanged.old.items ++ told_to rank bytes.now) }
    ensures err { OnErr result (exchanged.new.items ≡ exchanged.old.items) }
    ensures place { IsPlace exchanged.old.items rank place.old
        → IsPlace exchanged.new.items rank place.new }
{
    let Some(server) = place else {
        return Err(AllocError);
    };
    let before = exchanged.len();
    keep_to(alloc, exchanged, rank, bytes)?;
    match server.wire.link.put(bytes) {
        Ok(()) => {
            server.wire.link.is_queue();
            Ok(())
        }
        Err(error) => {
            exchanged.truncate(before);
            Err(error)
        }
    }
}

/// Lets the worker receive this many more of its bytes, or all, and make a step.
pub fn step(place: &mut Option<Server<QueueLink>>, most: usize) -> Progress
    requires { IsSteady place.old }
    ensures { (said : List Exchange) (rank : ℕ) → IsPlace said rank place.old
        → IsPlace said rank place.new }
{
    let Some(mut server) = place.take() else {
        return Progress::Waits;
    };
    server.wire.link.give(most);
    let Moved { server, progress } = step_queue(server);
    server.wire.link.is_queue();
    drop(place.replace(server));
    progress
}

/// Lets the worker's service end for lack of memory, where there is one.
pub fn inject_out_of_memory(place: &mut Option<Server<QueueLink>>)
    requires { IsSteady place.old }
    ensures { (said : List Exchange) (rank : ℕ) → IsPlace said rank place.old
        → IsPlace said rank place.new }
{
    match place {
        Some(server) => server.inject_out_of_memory(),
        None => {}
    }
}

/// Receives some bytes of the worker of the rank.
pub fn hear(
    place: &mut Option<Server<QueueLink>>,
    exchanged: &mut Vec<Exchange>,
    rank: u32,
    most: usize,
    buffer: &mut [u8],
) -> Result<usize, AllocError>
    ensures within { IfOk result (λ count. count ≤ length buffer.new) }
    ensures heard { IfOk result (λ count. exchanged.new.items
        ≡ exchanged.old.items ++ heard_from rank (take count buffer.new)) }
    ensures err { OnErr result (exchanged.new.items ≡ exchanged.old.items) }
    ensures place { IsPlace exchanged.old.items rank place.old
        → IsPlace exchanged.new.items rank place.new }
{
    match place {
        Some(server) => {
            let heard = server.wire.link.take(rank, most, exchanged, buffer);
            server.wire.link.is_queue();
            heard
        }
        None => Ok(0),
    }
}

/// Whether bytes of the worker wait to be received.
pub fn is_full(place: &Option<Server<QueueLink>>) -> bool {
    match place {
        Some(server) => server.wire.link.is_full(),
        None => false,
    }
}
