//! Sources and sinks in memory, for tests and for input that is already there.

ghost use Rattle.std.specs.Prelude.{◌≡◌, ◌<◌, ◌≤◌, ◌++◌, [], length, take, Some};

use crate::outside::{Failed, Sink, Source};
use crate::script::Script;
use std::alloc::Global;

/// A source in memory that never fails.
#[derive(Drop)]
pub struct MemorySource<'a> {
    /// The bytes left.
    pub rest: &'a [u8],
}

impl Source for MemorySource<'_> {
    ghost seen = { λ s. record { left = Some s.rest.now; faults = 0 } };

    fn read(&mut self, buffer: &mut [u8]) -> Result<usize, Failed> {
        Ok(move_front(&mut self.rest, buffer))
    }
}

// Moves a prefix of the bytes into the buffer, as much as fits, and returns its length.
fn move_front(rest: &mut &[u8], buffer: &mut [u8]) -> usize
    ensures within { result ≤ length buffer.new }
    ensures bytes { rest.old.now ≡ take result buffer.new ++ rest.new.now }
    ensures end { result ≡ 0 → 0 < length buffer.old → rest.old.now ≡ [] }
{
    let n = buffer.len().min(rest.len());
    let (front, after) = rest.split_at(n);
    buffer[..n].copy_from_slice(front);
    *rest = after;
    n
}

/// A source in memory that fails where its script says.
#[derive(Drop)]
pub struct ScriptedSource<'a> {
    /// The bytes left.
    pub rest: &'a [u8],
    /// The calls that fail.
    pub script: Script,
}

impl Source for ScriptedSource<'_> {
    ghost use Rattle.ug_io.specs.Scripted.{faults_of};

    ghost seen = { λ s. record { left = Some s.rest.now; faults = faults_of s.script } };

    fn read(&mut self, buffer: &mut [u8]) -> Result<usize, Failed> {
        self.script.step()?;
        let n = self.script.portion(buffer.len());
        Ok(move_front(&mut self.rest, &mut buffer[..n]))
    }
}

/// A sink that stores what is written in a vector. A call fails if its script says so, or if it
/// runs out of memory.
#[derive(Drop)]
pub struct MemorySink {
    written: Vec<u8>,
    script: Script,
}

impl MemorySink {
    ghost use Rattle.ug_io.specs.Scripted.{bytes_of};

    /// Returns an empty sink.
    pub fn new(alloc: Global, script: Script) -> MemorySink
        ensures { bytes_of result ≡ [] }
    {
        MemorySink {
            written: Vec::new(alloc),
            script,
        }
    }

    /// Returns the bytes written so far.
    pub fn bytes(&self) -> &[u8]
        ensures { result.now ≡ bytes_of self.now }
    {
        self.written.as_slice()
    }
}

impl Sink for MemorySink {
    ghost use Rattle.ug_io.specs.Scripted.{faults_of, bytes_of};

    ghost seen = { λ s. record { written = Some (bytes_of s); faults = faults_of s.script } };

    fn write(&mut self, bytes: &[u8]) -> Result<usize, Failed> {
        self.script.step()?;
        let n = self.script.portion(bytes.len());
        let (front, _) = bytes.split_at(n);
        if self.written.extend_from_slice(front).is_err() {
            self.script.fail();
            return Err(Failed);
        }
        Ok(n)
    }
}
