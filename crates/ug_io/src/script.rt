ghost use Rattle.std.specs.Prelude.{◌≡◌, ◌<◌, ◌≤◌};
ghost use Rattle.ug_io.specs.Outside.{IsCounted, Rose};

use crate::outside::Failed;

/// Says which calls of a form in memory fail, and how many bytes a call moves at most.
#[derive(Drop)]
pub struct Script {
    /// The calls that fail, counted from 1.
    failing: Vec<u64>,
    /// Largest number of bytes that a call moves; 0 counts as 1.
    most: usize,
    calls: u64,
    faults: u64,
}

impl Script {
    ghost use Rattle.ug_io.specs.Scripted.{faults_of};

    /// Returns a script in which these calls fail.
    pub fn new(failing: Vec<u64>, most: usize) -> Script
        ensures { faults_of result ≡ 0 }
    {
        Script {
            failing,
            most,
            calls: 0,
            faults: 0,
        }
    }

    // Counts the next call. Fails if the script says so.
    pub(crate) fn step(&mut self) -> Result<(), Failed>
        ensures { IsCounted result (faults_of self.old) (faults_of self.new) }
    {
        self.calls = self.calls.saturating_add(1);
        if self.failing.contains(&self.calls) {
            self.fail();
            return Err(Failed);
        }
        Ok(())
    }

    // Counts a fault.
    pub(crate) fn fail(&mut self)
        ensures { Rose (faults_of self.old) (faults_of self.new) }
    {
        self.faults = self.faults.saturating_add(1);
    }

    // Returns how many of `len` bytes a call moves.
    pub(crate) fn portion(&self, len: usize) -> usize
        ensures within { result ≤ len }
        ensures some { 0 < len → 0 < result }
    {
        len.min(self.most.max(1))
    }
}
