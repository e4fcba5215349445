//! Workers at links in memory, each a rank.

ghost use Rattle.std.specs.Prelude.{◌≡◌, ◌<◌, ◌≤◌, ◌++◌, ◌∷◌, [], length, take, IfOk, OnOk, OnErr};
ghost use Rattle.ug_io.specs.declared.crew.Exchange.TheVariants.{Gone};
ghost use Rattle.ug_io.specs.Crews.{heard_from, told_to};
ghost use Rattle.ug_serve.specs.Worked.{AreAlwaysWorked};
ghost use Rattle.ug_model.specs.SimWorkers.{AreEmpty};

use crate::queue_link::QueueLink;
use crate::slots::{hear, inject_out_of_memory, is_full, start, step, tell};
use std::alloc::{AllocError, Global};
use std::marker::Model;
use ug_io::Exchange;
use ug_serve::{Progress, Server};

/// Workers at links in memory, each a rank, and all that went between them and their coordinator.
#[derive(Drop)]
pub struct SimWorkers {
    alloc: Global,
    slots: Vec<Option<Server<QueueLink>>>,
    exchanged: Vec<Exchange>,
}

impl Model for SimWorkers {
    ghost use Rattle.std.specs.Prelude.{List};
    ghost use Rattle.ug_io.specs.declared.crew.Exchange.{Exchange};
    ghost use Rattle.ug_model.specs.SimWorkers.{AreSimWorkers};

    ghost Value = { List Exchange };

    ghost view = { λ s. s.exchanged.items };

    ghost invariant = { λ s. AreSimWorkers s.exchanged.items s.slots.items };
}

impl SimWorkers {
    /// Places for this many ranks, none of which has a worker yet.
    #[tactic(auto, using(crate::proofs::SimWorkers::sim_workers_empty))]
    pub fn new(alloc: Global, ranks: u32) -> Result<SimWorkers, AllocError>
        ensures { IfOk result (λ sim_workers. sim_workers ≡ []) }
    {
        let slots = empty(alloc, ranks)?;
        Ok(SimWorkers {
            alloc,
            slots,
            exchanged: Vec::new(alloc),
        })
    }

    /// All that went between, and who is lost.
    pub fn exchanged(&self) -> &[Exchange]
        ensures { result.now ≡ self.now }
    {
        self.exchanged.as_slice()
    }

    /// At each moment what was received from each rank was what a worker says that receives what
    /// was sent to it by then.
    pub fn is_worked(&self)
        ensures { AreAlwaysWorked self.now }
    {
        let _slots = &self.slots;
    }

    /// Places a worker at the rank, where there is a place and none has it. It reads into this
    /// buffer.
    pub fn start(&mut self, rank: u32, input: Vec<u8>) -> bool
        requires { 0 < length input.items }
        ensures { self.new ≡ self.old }
    {
        let at = rank as usize;
        if self.slots.len() <= at {
            return false;
        }
        start(self.alloc, &mut self.slots[at], input)
    }

    /// Sends all of the bytes to the rank's worker, which may not receive them yet.
    pub fn tell(&mut self, rank: u32, bytes: &[u8]) -> Result<(), AllocError>
        ensures ok { OnOk result (self.new ≡ self.old ++ told_to rank bytes.now) }
        ensures err { OnErr result (self.new ≡ self.old) }
    {
        let at = rank as usize;
        if self.slots.len() <= at {
            return Err(AllocError);
        }
        tell(
            self.alloc,
            &mut self.slots[at],
            &mut self.exchanged,
            rank,
            bytes,
        )
    }

    /// Lets the rank's worker receive this many more of its bytes, or all, and make a step.
    pub fn step(&mut self, rank: u32, most: usize) -> Progress
        ensures { self.new ≡ self.old }
    {
        let at = rank as usize;
        if self.slots.len() <= at {
            return Progress::Waits;
        }
        step(&mut self.slots[at], most)
    }

    /// Lets the service of the rank's worker end for lack of memory.
    pub fn inject_out_of_memory(&mut self, rank: u32)
        ensures { self.new ≡ self.old }
    {
        let at = rank as usize;
        if at < self.slots.len() {
            inject_out_of_memory(&mut self.slots[at]);
        }
    }

    /// Receives some bytes of the rank's worker, at most this many and as many as the buffer holds.
    pub fn hear(&mut self, rank: u32, most: usize, buffer: &mut [u8]) -> Result<usize, AllocError>
        ensures within { IfOk result (λ count. count ≤ length buffer.new) }
        ensures heard { IfOk result (λ count.
            self.new ≡ self.old ++ heard_from rank (take count buffer.new)) }
        ensures err { OnErr result (self.new ≡ self.old) }
    {
        let at = rank as usize;
        if self.slots.len() <= at {
            return Ok(0);
        }
        hear(&mut self.slots[at], &mut self.exchanged, rank, most, buffer)
    }

    /// Whether bytes of the rank's worker wait to be received.
    pub fn is_full(&self, rank: u32) -> bool {
        let at = rank as usize;
        at < self.slots.len() && is_full(&self.slots[at])
    }

    /// Keeps that the rank is lost.
    pub fn lose(&mut self, rank: u32) -> Result<(), AllocError>
        ensures ok { OnOk result (self.new ≡ self.old ++ Gone rank ∷ []) }
        ensures err { OnErr result (self.new ≡ self.old) }
    {
        match self.exchanged.push(Exchange::Gone { rank }) {
            Ok(()) => Ok(()),
            Err(_) => Err(AllocError),
        }
    }
}

// This many places with no worker.
fn empty(alloc: Global, ranks: u32) -> Result<Vec<Option<Server<QueueLink>>>, AllocError>
    ensures { IfOk result (λ slots. AreEmpty slots.items) }
{
    let mut slots = Vec::new(alloc);
    for _ in 0..ranks {
        slots.push(None)?;
    }
    Ok(slots)
}
