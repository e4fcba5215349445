//! A link in memory, for tests and for input that is already there.

ghost use Rattle.std.specs.Prelude.{◌≡◌, ◌<◌, [], Some, true, false, length, IsTrue, IfOk, OnErr};
ghost use Rattle.ug_io.specs.Outside.{IsCounted};
ghost use Rattle.ug_io.specs.Links.{HasRead, IsSilent};

use crate::keeping::{keep_heard, keep_told};
use crate::link::{Got, Link, Said};
use crate::outside::Failed;
use crate::script::Script;
use std::alloc::{AllocError, Global};

/// A link in memory that plays a list of pieces and records every byte. A call fails if its script
/// says so, or if it runs out of memory.
#[derive(Drop)]
pub struct MemoryLink<'a> {
    alloc: Global,
    // The rest of the current piece.
    piece: &'a [u8],
    // The pieces after it.
    rest: &'a [&'a [u8]],
    said: Vec<Said>,
    ended: bool,
    script: Script,
}

impl<'a> MemoryLink<'a> {
    ghost use Rattle.ug_io.specs.Scripted.{faults_of};
    ghost use Rattle.ug_io.specs.LinkMemories.{left_of, said_of, seen_of};

    /// Returns a link that plays these pieces and then ends. An empty piece is a gap: a read that
    /// does not wait finds nothing there, once.
    pub fn new(alloc: Global, pieces: &'a [&'a [u8]], script: Script) -> MemoryLink<'a>
        ensures { seen_of result
            ≡ record { said = Some []; ended = false; faults = faults_of script } }
    {
        MemoryLink {
            alloc,
            piece: &[],
            rest: pieces,
            said: Vec::new(alloc),
            ended: false,
            script,
        }
    }

    /// Returns the bytes received and sent so far.
    pub fn said(&self) -> &[Said]
        ensures { result.now ≡ said_of self.now }
    {
        self.said.as_slice()
    }

    // Skips a gap. Returns whether there was one.
    fn pass_gap(&mut self) -> bool
        ensures { seen_of self.new ≡ seen_of self.old }
    {
        if self.ended || !self.piece.is_empty() {
            return false;
        }
        if self.rest.is_empty() || !self.rest[0].is_empty() {
            return false;
        }
        self.rest = &self.rest[1..];
        true
    }

    // Moves to a piece that is not empty. Returns whether there is one.
    fn go_on(&mut self) -> bool
        ensures seen { seen_of self.new ≡ seen_of self.old }
        ensures some { IsTrue result → 0 < left_of self.new }
    {
        if !self.piece.is_empty() {
            return true;
        }
        let Some(at) = self.rest.iter().position(|piece| !piece.is_empty()) else {
            return false;
        };
        self.piece = self.rest[at];
        self.rest = &self.rest[at + 1..];
        true
    }

    // Receives a prefix of the current piece.
    fn hear(&mut self, buffer: &mut [u8]) -> Result<Got, Failed>
        requires some { 0 < left_of self.old }
        requires room { 0 < length buffer.old }
        ensures got { IfOk result (HasRead true (seen_of self.old) (seen_of self.new) buffer.new) }
        ensures kept { OnErr result (IsSilent (seen_of self.old) (seen_of self.new)) }
        ensures cause { IsCounted result (seen_of self.old).faults (seen_of self.new).faults }
    {
        let n = self.script.portion(buffer.len().min(self.piece.len()));
        let (front, after) = self.piece.split_at(n);
        if keep_heard(self.alloc, &mut self.said, front).is_err() {
            self.script.fail();
            return Err(Failed);
        }
        buffer[..n].copy_from_slice(front);
        self.piece = after;
        Ok(Got::Bytes(n))
    }

    // Receives some of the bytes that are left, or the end.
    fn wait(&mut self, buffer: &mut [u8]) -> Result<Got, Failed>
        requires room { 0 < length buffer.old }
        ensures got { IfOk result (HasRead true (seen_of self.old) (seen_of self.new) buffer.new) }
        ensures kept { OnErr result (IsSilent (seen_of self.old) (seen_of self.new)) }
        ensures cause { IsCounted result (seen_of self.old).faults (seen_of self.new).faults }
    {
        if self.go_on() {
            return self.hear(buffer);
        }
        self.ended = true;
        Ok(Got::End)
    }

    // The same, but nothing at a gap.
    fn look(&mut self, buffer: &mut [u8]) -> Result<Got, Failed>
        requires room { 0 < length buffer.old }
        ensures got { IfOk result (HasRead false (seen_of self.old) (seen_of self.new) buffer.new) }
        ensures kept { OnErr result (IsSilent (seen_of self.old) (seen_of self.new)) }
        ensures cause { IsCounted result (seen_of self.old).faults (seen_of self.new).faults }
    {
        if self.pass_gap() {
            return Ok(Got::Nothing);
        }
        self.wait(buffer)
    }
}

impl Link for MemoryLink<'_> {
    ghost use Rattle.ug_io.specs.LinkMemories.{seen_of};

    ghost seen = { seen_of };

    fn read(&mut self, buffer: &mut [u8], wait: bool) -> Result<Got, Failed> {
        self.script.step()?;
        if wait {
            self.wait(buffer)
        } else {
            self.look(buffer)
        }
    }

    fn write(&mut self, bytes: &[u8]) -> Result<usize, Failed> {
        self.script.step()?;
        let n = self.script.portion(bytes.len());
        let (front, _) = bytes.split_at(n);
        if keep_told(self.alloc, &mut self.said, front).is_err() {
            self.script.fail();
            return Err(Failed);
        }
        Ok(n)
    }
}
