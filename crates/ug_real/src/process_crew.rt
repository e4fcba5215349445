ghost use Rattle.std.specs.Prelude.{◌≡◌, ◌≤◌, None, false, length, replicate, IfOk, OnErr};
ghost use Rattle.ug_io.specs.Crews.{HasTurned, IsAlive};
ghost use Rattle.ug_io.specs.Outside.{Rose};

use crate::child_crew::{ChildCommand, ChildCrew};
use crate::children::Heard;
use crate::departure::{Departure, Watcher};
use crate::faults::Faults;
use std::alloc::{AllocError, Global};
use std::fs::File;
use std::io;
use std::io::ErrorKind;
use std::net::Net;
use std::process::{Processes, SystemProcess};
use std::rt::Files;
use std::time::Clock;
use ug_io::{Came, Crew, Failed};

/// Child programs as a crew, each at the other end of a Unix socket. Bytes that a child does not
/// read yet wait in memory; a child that reads nothing delays no other. The crew shows no bytes.
/// When it is dropped no child and no socket file is left.
#[derive(Drop)]
pub struct ProcessCrew<'a, R: Files<File = File>, W: Drop> {
    lives: Vec<bool>,
    faults: Faults,
    is_finished: bool,
    child_crew: ChildCrew<'a, R, W>,
}

// Returns the error of a turn of a crew in which no rank is alive.
fn nobody() -> io::Error {
    io::Error::new(ErrorKind::NotFound, "no rank lives")
}

// Counts and returns the result of a turn. A lost rank is not alive any more and counts as a fault.
// Bytes from a rank that is not alive are a fault. The buffer is only needed by the contract.
fn came(
    lives: &mut Vec<bool>,
    faults: &mut Faults,
    buffer: &[u8],
    got: io::Result<Heard>,
) -> Result<Came, Failed>
    requires { IfOk got (λ heard. heard.count ≤ length buffer.now) }
    ensures came { IfOk result (HasTurned
        (record { said = None; lives = lives.old.items; faults = faults.old.count })
        (record { said = None; lives = lives.new.items; faults = faults.new.count })
        buffer.now) }
    ensures kept { OnErr result (lives.new ≡ lives.old) }
    ensures cause { OnErr result (Rose faults.old.count faults.new.count) }
{
    match got {
        Ok(Heard { rank, count, .. }) => {
            let at = rank as usize;
            if at >= lives.len() || !lives[at] {
                return Err(faults.add(nobody()));
            }
            if count > 0 {
                return Ok(Came::Bytes { rank, count });
            }
            lives[at] = false;
            faults.rise();
            Ok(Came::Gone { rank })
        }
        Err(error) => Err(faults.add(error)),
    }
}

impl<'a, R, W> ProcessCrew<'a, R, W>
where
    R: Files<File = File> + Net + Processes<Started = SystemProcess> + Clock,
    W: Watcher + Drop,
{
    /// Returns a crew of this number of ranks, none of them alive yet, with no call failed. The
    /// watcher is called once for each rank that is lost, unless it was shut.
    pub fn new(
        rt: &'a R,
        alloc: Global,
        ranks: u32,
        command: ChildCommand<'a>,
        watcher: W,
    ) -> Result<ProcessCrew<'a, R, W>, AllocError>
        ensures lives { IfOk result (λ crew. crew.lives.items ≡ replicate ranks false) }
        ensures faults { IfOk result (λ crew. crew.faults.count ≡ 0) }
    {
        match vec![in alloc; false; ranks as usize] {
            Ok(lives) => Ok(ProcessCrew {
                child_crew: ChildCrew::new(rt, alloc, command, watcher),
                lives,
                faults: Faults::new(),
                is_finished: false,
            }),
            Err(error) => {
                drop(watcher);
                Err(error)
            }
        }
    }

    /// Returns the system's error of the last failed call whose error was recorded. The causes of
    /// lost ranks, of failed starts and of failed sends go to the watcher only.
    pub fn error(&self) -> Option<&io::Error> {
        self.faults.last.as_ref()
    }
}

impl<R, W> Crew for ProcessCrew<'_, R, W>
where
    R: Files<File = File> + Net + Processes<Started = SystemProcess> + Clock,
    W: Watcher + Drop,
{
    ghost seen = { λ c. record { said = None; lives = c.lives.items; faults = c.faults.count } };

    ghost finished = { λ c. c.is_finished };

    fn is_alive(&self, rank: u32) -> bool {
        let at = rank as usize;
        at < self.lives.len() && self.lives[at]
    }

    fn launch(&mut self, rank: u32) -> Result<(), Failed> {
        match self.child_crew.launch(rank) {
            Ok(()) => {
                self.lives[rank as usize] = true;
                Ok(())
            }
            Err(error) => {
                let why = Departure::Unstarted(error);
                self.child_crew.watcher.gone(rank, &why);
                drop(why);
                Err(self.faults.rise())
            }
        }
    }

    fn turn(&mut self, buffer: &mut [u8]) -> Result<Came, Failed> {
        if !self.lives.contains(&true) {
            return Err(self.faults.add(nobody()));
        }
        let got = self.child_crew.turn(buffer);
        came(&mut self.lives, &mut self.faults, buffer, got)
    }

    fn send(&mut self, rank: u32, bytes: &[u8]) -> Result<(), Failed> {
        match self.child_crew.children.send(rank, bytes) {
            Ok(()) => Ok(()),
            Err(error) => {
                let why = Departure::Untold(error);
                self.child_crew.watcher.gone(rank, &why);
                drop(why);
                Err(self.faults.rise())
            }
        }
    }

    fn shut(&mut self, rank: u32) {
        self.child_crew.children.shut(rank);
        self.lives[rank as usize] = false;
    }

    fn finish(&mut self) {
        self.child_crew.finish();
        self.is_finished = true;
    }
}
