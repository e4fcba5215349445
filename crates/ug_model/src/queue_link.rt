//! A link in memory between a worker and a coordinator that are moved by turns.

ghost use Rattle.std.specs.Prelude.{◌≡◌, ◌<◌, ◌≤◌, ◌++◌, [], length, take, IfOk, OnOk, OnErr};
ghost use Rattle.ug_io.specs.Outside.{IsCounted, Rose};
ghost use Rattle.ug_io.specs.Crews.{heard_from};
ghost use Rattle.ug_io.specs.Links.{HasRead, HasTold, IsSilent, heard, told};
ghost use Rattle.ug_model.specs.Queues.{IsQueue, IsUntouched, queue_seen};

use crate::parts::{copy_part, least, part};
use crate::saying::keep_both;
use std::alloc::{AllocError, Global};
use std::marker::Model;
use ug_io::{Exchange, Failed, Got, Link, Said, keep_from, keep_heard};

/// Bytes that were put in wait to be received, and bytes that were sent wait to be taken out. It
/// never ends. A read where none waits finds nothing; one that is to wait for a byte fails, since
/// none comes before it is over. A call fails too where memory runs out.
#[derive(Drop)]
pub struct QueueLink {
    alloc: Global,
    // All that was put in.
    put: Vec<u8>,
    // How many of these bytes were received, and how many may be.
    heard: usize,
    given: usize,
    // All that was received and sent.
    said: Vec<Said>,
    // All that was sent, and how many of these bytes were taken out.
    told: Vec<u8>,
    taken: usize,
    faults: u64,
}

impl Model for QueueLink {
    ghost use Rattle.std.specs.Prelude.{take};
    ghost use Rattle.ug_model.specs.Queues.{IsKept, Queue, queue_of};

    ghost Value = { Queue };

    ghost view = { λ q. queue_of q.said.items q.put.items (take q.taken q.told.items) q.faults };

    ghost invariant = { λ q.
        IsKept q.said.items q.put.items q.told.items q.heard q.given q.taken };
}

impl QueueLink {
    /// One over which nothing was said, with nothing in it.
    pub fn new(alloc: Global) -> QueueLink
        ensures { result ≡ record { said = []; put = []; taken = []; faults = 0 } }
    {
        QueueLink {
            alloc,
            put: Vec::new(alloc),
            heard: 0,
            given: 0,
            said: Vec::new(alloc),
            told: Vec::new(alloc),
            taken: 0,
            faults: 0,
        }
    }

    /// What was received is a prefix of what was put in, and what was taken out one of what was
    /// sent.
    pub fn is_queue(&self)
        ensures { IsQueue self.now }
    {
        let _heard = self.heard;
    }

    /// Puts bytes in, which may not be received yet.
    #[tactic(auto, using(crate::proofs::Queues::kept_put))]
    pub fn put(&mut self, bytes: &[u8]) -> Result<(), AllocError>
        ensures ok { OnOk result (self.new ≡ record self.old { put = self.old.put ++ bytes.now }) }
        ensures err { OnErr result (self.new ≡ self.old) }
    {
        self.put.extend_from_slice(bytes)
    }

    /// Lets this many more of the bytes be received, or all.
    #[tactic(auto, using(crate::proofs::Queues::kept_given))]
    pub fn give(&mut self, most: usize)
        ensures { self.new ≡ self.old }
    {
        self.given += most.min(self.put.len() - self.given);
    }

    /// Whether bytes that were sent wait to be taken out.
    pub fn is_full(&self) -> bool {
        self.taken < self.told.len()
    }

    /// Takes out as many bytes as there are, at most this many and no more than the buffer holds,
    /// and keeps that they were received from the rank.
    #[tactic(auto, using(crate::proofs::Queues::kept_taken))]
    pub fn take(
        &mut self,
        rank: u32,
        most: usize,
        exchanged: &mut Vec<Exchange>,
        buffer: &mut [u8],
    ) -> Result<usize, AllocError>
        ensures within { IfOk result (λ count. count ≤ length buffer.new) }
        ensures taken { IfOk result (λ count. self.new
            ≡ record self.old { taken = self.old.taken ++ take count buffer.new }) }
        ensures kept { IfOk result (λ count. exchanged.new.items
            ≡ exchanged.old.items ++ heard_from rank (take count buffer.new)) }
        ensures err { OnErr result (self.new ≡ self.old) }
        ensures lost { OnErr result (exchanged.new.items ≡ exchanged.old.items) }
    {
        let most = least(most, buffer.len());
        let count = least(most, self.told.len() - self.taken);
        let front = part(&self.told, self.taken, count);
        keep_from(self.alloc, exchanged, rank, front)?;
        copy_part(&self.told, self.taken, count, buffer);
        self.taken += count;
        Ok(count)
    }

    // One fault more.
    fn fail(&mut self)
        ensures faults { Rose self.old.faults self.new.faults }
        ensures rest { self.new ≡ record self.old { faults = self.new.faults } }
    {
        self.faults = self.faults.saturating_add(1);
    }

    // Receives some of the bytes, as many as the buffer holds.
    fn hear(&mut self, buffer: &mut [u8]) -> Result<usize, AllocError>
        ensures within { IfOk result (λ count. count ≤ length buffer.new) }
        ensures said { IfOk result (λ count. self.new
            ≡ record self.old { said = self.old.said ++ heard (take count buffer.new) }) }
        ensures err { OnErr result (self.new ≡ self.old) }
    {
        let count = least(buffer.len(), self.given - self.heard);
        let front = part(&self.put, self.heard, count);
        keep_heard(self.alloc, &mut self.said, front)?;
        copy_part(&self.put, self.heard, count, buffer);
        self.heard += count;
        Ok(count)
    }

    // Sends all of the bytes.
    fn tell(&mut self, bytes: &[u8]) -> Result<(), AllocError>
        ensures ok { OnOk result (self.new ≡ record self.old { said = self.old.said ++ told bytes.now }) }
        ensures err { OnErr result (self.new ≡ self.old) }
    {
        keep_both(self.alloc, &mut self.said, &mut self.told, bytes)?;
        Ok(())
    }

    /// Reads as a link does.
    pub fn read_some(&mut self, buffer: &mut [u8], wait: bool) -> Result<Got, Failed>
        requires { 0 < length buffer.old }
        ensures got { IfOk result (HasRead wait (queue_seen self.old) (queue_seen self.new) buffer.new) }
        ensures kept { OnErr result (IsSilent (queue_seen self.old) (queue_seen self.new)) }
        ensures cause { IsCounted result self.old.faults self.new.faults }
        ensures still { IsUntouched self.old self.new }
    {
        match self.hear(buffer) {
            Ok(0) if wait => {
                self.fail();
                Err(Failed)
            }
            Ok(0) => Ok(Got::Nothing),
            Ok(count) => Ok(Got::Bytes(count)),
            Err(_) => {
                self.fail();
                Err(Failed)
            }
        }
    }

    /// Writes as a link does.
    pub fn write_all(&mut self, bytes: &[u8]) -> Result<usize, Failed>
        ensures told { IfOk result (HasTold (queue_seen self.old) (queue_seen self.new) bytes.now) }
        ensures kept { OnErr result (IsSilent (queue_seen self.old) (queue_seen self.new)) }
        ensures cause { IsCounted result self.old.faults self.new.faults }
        ensures still { IsUntouched self.old self.new }
    {
        match self.tell(bytes) {
            Ok(()) => Ok(bytes.len()),
            Err(_) => {
                self.fail();
                Err(Failed)
            }
        }
    }
}

impl Link for QueueLink {
    ghost use Rattle.ug_model.specs.Queues.{queue_seen};

    ghost seen = { queue_seen };

    fn read(&mut self, buffer: &mut [u8], wait: bool) -> Result<Got, Failed> {
        self.read_some(buffer, wait)
    }

    fn write(&mut self, bytes: &[u8]) -> Result<usize, Failed> {
        self.write_all(bytes)
    }
}
