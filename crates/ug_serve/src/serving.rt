//! A worker that serves a link to its end.

ghost use Rattle.std.specs.Prelude.{◌≡◌, IfErr, IfOk};
ghost use Rattle.ug_serve.specs.Traces.{IsFresh};
ghost use Rattle.ug_serve.specs.Serving.{HasServed};
ghost use Rattle.ug_serve.specs.Servers.{IsServer};

use crate::served::Served;
use crate::server::{Progress, Server};
use std::alloc::Global;
use std::sync::Wait;
use ug_io::{Link, zeros};

/// How many bytes are read at once.
const READ: usize = 65_536;

/// The link after its service, and how this ended.
#[derive(Drop)]
pub struct Service<L> {
    pub end: Served,
    pub link: L,
}

/// Serves a link over which nothing was said yet: receives the problem, then searches each box that
/// is ordered, until the end is ordered.
pub fn serve<R: Wait, L: Link + Drop>(rt: &R, alloc: Global, link: L) -> Service<L>
    requires { IsFresh (L.seen link) }
    ensures { HasServed (L.seen result.link) result.end }
{
    let Ok(input) = zeros(alloc, READ) else {
        return Service {
            link,
            end: Served::Memory,
        };
    };
    let mut server = Server::new(alloc, link, input);
    for _ in rt.forever() {
        match go_on(server) {
            Ok(on) => server = on,
            Err(service) => return service,
        }
    }
    unreachable!()
}

// Makes a step, and waits where there is nothing to do; or the link again, where its service has
// ended.
fn go_on<L: Link + Drop>(server: Server<L>) -> Result<Server<L>, Service<L>>
    requires { IsServer L.seen server }
    ensures ok { IfOk result (λ on. IsServer L.seen on) }
    ensures err { IfErr result (λ service. HasServed (L.seen service.link) service.end) }
{
    let moved = server.step();
    let mut server = moved.server;
    match moved.progress {
        Progress::GoesOn => Ok(server),
        Progress::Waits => {
            server.rest();
            Ok(server)
        }
        Progress::Ended(end) => Err(Service {
            link: server.into_link(),
            end,
        }),
    }
}
