//! A link in memory into which nothing is put, and out of which nothing is taken.

ghost use Rattle.std.specs.Prelude.{◌≡◌, []};
ghost use Rattle.ug_model.specs.Queues.{queue_seen};
ghost use Rattle.ug_serve.specs.Servers.{IsAlike};

use crate::queue_link::QueueLink;
use std::marker::{Brand, PhantomData};
use ug_io::{Failed, Got, Link};
use ug_serve::{Server, Wire};

/// All that was put into a link and taken out of it.
pub trait Ends {
    ghost use Rattle.std.specs.Prelude.{List, ℕ};

    ghost put: { List ℕ };

    ghost taken: { List ℕ };
}

impl Ends for Brand {
    ghost put = { [] };

    ghost taken = { [] };
}

/// The link, as long as its ends are these.
#[derive(Drop)]
pub struct Held<K: Ends> {
    pub link: QueueLink,
    pub of: PhantomData<K>,
    pub ghost put: { link.put ≡ K.put },
    pub ghost taken: { link.taken ≡ K.taken },
}

impl<K: Ends> Link for Held<K> {
    ghost use Rattle.ug_model.specs.Queues.{queue_seen};

    ghost seen = { λ held. queue_seen held.link };

    fn read(&mut self, buffer: &mut [u8], wait: bool) -> Result<Got, Failed> {
        self.link.read_some(buffer, wait)
    }

    fn write(&mut self, bytes: &[u8]) -> Result<usize, Failed> {
        self.link.write_all(bytes)
    }
}

/// The worker at its link, whose ends are these.
pub fn hold<K: Ends>(server: Server<QueueLink>) -> Server<Held<K>>
    requires put { server.wire.link.put ≡ K.put }
    requires taken { server.wire.link.taken ≡ K.taken }
    ensures { IsAlike queue_seen (λ held. queue_seen held.link) server result }
{
    let Server { alloc, wire, post } = server;
    let Wire {
        alloc: by,
        link,
        orders,
        input,
        frame,
        at,
        end,
    } = wire;
    let wire = Wire {
        alloc: by,
        link: Held {
            link,
            of: PhantomData,
        },
        orders,
        input,
        frame,
        at,
        end,
    };
    Server { alloc, wire, post }
}

/// The worker at the link alone.
pub fn release<K: Ends>(server: Server<Held<K>>) -> Server<QueueLink>
    ensures alike { IsAlike (λ held. queue_seen held.link) queue_seen server result }
    ensures put { result.wire.link.put ≡ K.put }
    ensures taken { result.wire.link.taken ≡ K.taken }
{
    let Server { alloc, wire, post } = server;
    let Wire {
        alloc: by,
        link,
        orders,
        input,
        frame,
        at,
        end,
    } = wire;
    let Held { link, .. } = link;
    let wire = Wire {
        alloc: by,
        link,
        orders,
        input,
        frame,
        at,
        end,
    };
    Server { alloc, wire, post }
}
