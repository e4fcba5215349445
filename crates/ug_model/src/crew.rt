//! A crew in memory that is made of workers.

ghost use Rattle.std.specs.Prelude.{◌≡◌, ◌<◌, ℕ, List, [], Some, false, replicate, IfOk, OnErr};
ghost use Rattle.ug_io.specs.Outside.{Rose};
ghost use Rattle.ug_io.specs.Crews.{HasTurned, IsAlive, IsSilent};
ghost use Rattle.ug_io.specs.declared.crew.Came.TheVariants.{Bytes};

use crate::sim_workers::SimWorkers;
use std::alloc::{AllocError, Global};
use ug_io::{Came, Crew, Exchange, Failed, zeros};
use ug_serve::Progress;

/// How many bytes a worker reads at once.
const READ: usize = 4_096;

/// A rank that is visited: its worker receives this many more bytes of its orders at most, makes a
/// step, and this many bytes of its reports are received at most.
#[derive(Clone, Copy, PartialEq, Eq)]
pub struct Visit {
    pub rank: u32,
    pub orders: usize,
    pub reports: usize,
}

/// The result of a visit.
#[derive(Clone, Copy)]
pub enum Visited {
    /// Something came, or the rank is lost.
    Came(Came),
    /// Nothing did, but its worker has something to do.
    Moved,
    /// Nothing did, nor will before something is sent to it.
    Still,
}

/// Workers as a crew, which are visited as a schedule says, and where it is over each in its turn,
/// with all that there is. A rank is lost where its worker has ended, in whatever way. A turn fails
/// where each worker waits and nothing is on its way, a launch where the rank was launched before,
/// and each call where memory runs out.
#[derive(Drop)]
pub struct WorkerCrew<'a> {
    alloc: Global,
    faults: u64,
    // Whose turn it is behind the schedule.
    next: u32,
    lives: Vec<bool>,
    sim_workers: SimWorkers,
    // The rest of the schedule.
    schedule: &'a [Visit],
    is_finished: bool,
}

impl<'a> WorkerCrew<'a> {
    ghost use Rattle.ug_serve.specs.Worked.{AreAlwaysWorked};
    ghost use Rattle.ug_model.specs.WorkerCrews.{HasVisited, crew_seen, exchanged_of};

    /// A crew of this many ranks, none of which lives yet.
    pub fn new(
        alloc: Global,
        ranks: u32,
        schedule: &'a [Visit],
    ) -> Result<WorkerCrew<'a>, AllocError>
        ensures { IfOk result (λ crew. crew_seen crew
            ≡ record { said = Some []; lives = replicate ranks false; faults = 0 }) }
    {
        let lives = vec![in alloc; false; ranks as usize]?;
        let sim_workers = match SimWorkers::new(alloc, ranks) {
            Ok(sim_workers) => sim_workers,
            Err(error) => {
                drop(lives);
                return Err(error);
            }
        };
        Ok(WorkerCrew {
            alloc,
            sim_workers,
            lives,
            schedule,
            next: 0,
            faults: 0,
            is_finished: false,
        })
    }

    /// What was received and sent, and who is lost.
    pub fn exchanged(&self) -> &[Exchange]
        ensures { result.now ≡ exchanged_of self.now }
    {
        self.sim_workers.exchanged()
    }

    /// How often a call failed, up to the end of the count.
    pub fn faults(&self) -> u64
        ensures { result ≡ (crew_seen self.now).faults }
    {
        self.faults
    }

    /// At each moment what was received from each rank was what a worker says that receives what
    /// was sent to it by then.
    pub fn is_worked(&self)
        ensures { AreAlwaysWorked (exchanged_of self.now) }
    {
        self.sim_workers.is_worked();
    }

    /// Lets the rank's worker want memory: its service ends, and the rank is lost once all that it
    /// sent before was received.
    pub fn inject_out_of_memory(&mut self, rank: u32)
        ensures { crew_seen self.new ≡ crew_seen self.old }
    {
        self.sim_workers.inject_out_of_memory(rank);
    }

    // One fault more.
    fn fail(&mut self)
        ensures faults { Rose (crew_seen self.old).faults (crew_seen self.new).faults }
        ensures silent { IsSilent (crew_seen self.old) (crew_seen self.new) }
    {
        self.faults = self.faults.saturating_add(1);
    }

    // Visits a rank.
    fn visit(&mut self, visit: Visit, buffer: &mut [u8]) -> Result<Visited, Failed>
        ensures visited { IfOk result
            (HasVisited (crew_seen self.old) (crew_seen self.new) buffer.new) }
        ensures kept { OnErr result (IsSilent (crew_seen self.old) (crew_seen self.new)) }
        ensures cause { OnErr result (Rose (crew_seen self.old).faults (crew_seen self.new).faults) }
    {
        let rank = visit.rank;
        if !self.is_alive(rank) {
            return Ok(Visited::Still);
        }
        let progress = self.sim_workers.step(rank, visit.orders);
        match self.hear(rank, visit.reports, buffer)? {
            0 => self.leave(rank, progress),
            count => Ok(Visited::Came(Came::Bytes { rank, count })),
        }
    }

    // Receives the rank.
    #[tactic(auto, using(crate::proofs::SimWorkers::heard_none))]
    fn hear(&mut self, rank: u32, most: usize, buffer: &mut [u8]) -> Result<usize, Failed>
        requires { IsAlive (crew_seen self.old) rank }
        ensures came { IfOk result (λ count. 0 < count
            → HasTurned (crew_seen self.old) (crew_seen self.new) buffer.new (Bytes rank count)) }
        ensures none { IfOk result (λ count. count ≡ 0
            → crew_seen self.new ≡ crew_seen self.old) }
        ensures kept { OnErr result (IsSilent (crew_seen self.old) (crew_seen self.new)) }
        ensures cause { OnErr result (Rose (crew_seen self.old).faults (crew_seen self.new).faults) }
    {
        match self.sim_workers.hear(rank, most, buffer) {
            Ok(count) => Ok(count),
            Err(_) => {
                self.fail();
                Err(Failed)
            }
        }
    }

    // Leaves a rank from which nothing came.
    fn leave(&mut self, rank: u32, progress: Progress) -> Result<Visited, Failed>
        requires { IsAlive (crew_seen self.old) rank }
        ensures visited { (buffer : List ℕ) → IfOk result
            (HasVisited (crew_seen self.old) (crew_seen self.new) buffer) }
        ensures kept { OnErr result (IsSilent (crew_seen self.old) (crew_seen self.new)) }
        ensures cause { OnErr result (Rose (crew_seen self.old).faults (crew_seen self.new).faults) }
    {
        match progress {
            Progress::GoesOn => Ok(Visited::Moved),
            Progress::Waits => Ok(Visited::Still),
            Progress::Ended(_) => {
                if self.sim_workers.is_full(rank) {
                    return Ok(Visited::Moved);
                }
                self.lose(rank)
            }
        }
    }

    // Loses a rank.
    fn lose(&mut self, rank: u32) -> Result<Visited, Failed>
        requires { IsAlive (crew_seen self.old) rank }
        ensures visited { (buffer : List ℕ) → IfOk result
            (HasVisited (crew_seen self.old) (crew_seen self.new) buffer) }
        ensures kept { OnErr result (IsSilent (crew_seen self.old) (crew_seen self.new)) }
        ensures cause { OnErr result (Rose (crew_seen self.old).faults (crew_seen self.new).faults) }
    {
        self.fail();
        if self.sim_workers.lose(rank).is_err() {
            return Err(Failed);
        }
        self.lives[rank as usize] = false;
        Ok(Visited::Came(Came::Gone { rank }))
    }

    // Visits ranks as the schedule says, until something comes or it is over.
    fn follow(&mut self, buffer: &mut [u8]) -> Result<Visited, Failed>
        ensures visited { IfOk result
            (HasVisited (crew_seen self.old) (crew_seen self.new) buffer.new) }
        ensures kept { OnErr result (IsSilent (crew_seen self.old) (crew_seen self.new)) }
        ensures cause { OnErr result (Rose (crew_seen self.old).faults (crew_seen self.new).faults) }
    {
        for _ in 0..self.schedule.len() {
            let Some(visit) = self.scheduled() else {
                return Ok(Visited::Moved);
            };
            if let Visited::Came(came) = self.visit(visit, buffer)? {
                return Ok(Visited::Came(came));
            }
        }
        Ok(Visited::Moved)
    }

    // The next visit of the schedule, unless it is over.
    fn scheduled(&mut self) -> Option<Visit>
        ensures { crew_seen self.new ≡ crew_seen self.old }
    {
        let (visit, rest) = self.schedule.split_first()?;
        self.schedule = rest;
        Some(*visit)
    }

    // Visits each rank once, with all that there is, until something comes.
    fn go_round(&mut self, buffer: &mut [u8]) -> Result<Visited, Failed>
        ensures visited { IfOk result
            (HasVisited (crew_seen self.old) (crew_seen self.new) buffer.new) }
        ensures kept { OnErr result (IsSilent (crew_seen self.old) (crew_seen self.new)) }
        ensures cause { OnErr result (Rose (crew_seen self.old).faults (crew_seen self.new).faults) }
    {
        let mut moved = false;
        for _ in 0..self.lives.len() {
            let visit = self.next_visit();
            match self.visit(visit, buffer)? {
                Visited::Came(came) => return Ok(Visited::Came(came)),
                Visited::Moved => moved = true,
                Visited::Still => {}
            }
        }
        if moved {
            return Ok(Visited::Moved);
        }
        Ok(Visited::Still)
    }

    // The rank whose turn it is, with all that there is.
    fn next_visit(&mut self) -> Visit
        ensures { crew_seen self.new ≡ crew_seen self.old }
    {
        let rank = self.next;
        let after = rank.saturating_add(1);
        self.next = if (after as usize) < self.lives.len() {
            after
        } else {
            0
        };
        Visit {
            rank,
            orders: usize::MAX,
            reports: usize::MAX,
        }
    }
}

impl Crew for WorkerCrew<'_> {
    ghost use Rattle.ug_model.specs.WorkerCrews.{crew_seen};

    ghost seen = { crew_seen };

    ghost finished = { λ c. c.is_finished };

    fn is_alive(&self, rank: u32) -> bool {
        let at = rank as usize;
        at < self.lives.len() && self.lives[at]
    }

    fn launch(&mut self, rank: u32) -> Result<(), Failed> {
        let Ok(input) = zeros(self.alloc, READ) else {
            self.fail();
            return Err(Failed);
        };
        if !self.sim_workers.start(rank, input) {
            self.fail();
            return Err(Failed);
        }
        self.lives[rank as usize] = true;
        Ok(())
    }

    fn turn(&mut self, buffer: &mut [u8]) -> Result<Came, Failed> {
        if let Visited::Came(came) = self.follow(buffer)? {
            return Ok(came);
        }
        for _ in 0..u64::MAX {
            match self.go_round(buffer)? {
                Visited::Came(came) => return Ok(came),
                Visited::Moved => {}
                Visited::Still => break,
            }
        }
        self.fail();
        Err(Failed)
    }

    fn send(&mut self, rank: u32, bytes: &[u8]) -> Result<(), Failed> {
        if self.sim_workers.tell(rank, bytes).is_err() {
            self.fail();
            return Err(Failed);
        }
        Ok(())
    }

    fn shut(&mut self, rank: u32) {
        self.lives[rank as usize] = false;
    }

    // There is nobody to wait for.
    fn finish(&mut self) {
        self.is_finished = true;
    }
}
