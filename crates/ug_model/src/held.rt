//! A step of a worker at a link in memory, while nothing is put in or taken out.

ghost use Rattle.std.specs.Prelude.{◌≡◌};
ghost use Rattle.ug_model.specs.Queues.{IsUntouched, queue_seen};
ghost use Rattle.ug_serve.specs.Servers.{HasMoved, IsServer};

use crate::holding::{Ends, hold, release};
use crate::queue_link::QueueLink;
use std::marker::Brand;
use ug_serve::{Moved, Server};

/// Makes a step. Nothing is put into the link or taken out meanwhile.
pub fn step_queue(server: Server<QueueLink>) -> Moved<QueueLink>
    requires { IsServer queue_seen server }
    ensures moved { HasMoved queue_seen result }
    ensures still { IsUntouched server.wire.link result.server.wire.link }
{
    step_held::<Brand>(server)
}

// Makes a step, at a link whose ends are these.
fn step_held<K: Ends>(server: Server<QueueLink>) -> Moved<QueueLink>
    requires server { IsServer queue_seen server }
    requires put { server.wire.link.put ≡ K.put }
    requires taken { server.wire.link.taken ≡ K.taken }
    ensures moved { HasMoved queue_seen result }
    ensures put { result.server.wire.link.put ≡ K.put }
    ensures taken { result.server.wire.link.taken ≡ K.taken }
{
    let Moved { server, progress } = hold::<K>(server).step();
    Moved {
        server: release::<K>(server),
        progress,
    }
}
