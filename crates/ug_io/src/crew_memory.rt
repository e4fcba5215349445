//! A crew in memory, for tests.

ghost use Rattle.std.specs.Prelude.{◌≡◌, ◌<◌, [], ℕ, List, Some, true, false, length, replicate, IfOk, IfSome, OnErr};
ghost use Rattle.ug_io.specs.Outside.{Rose};
ghost use Rattle.ug_io.specs.Crews.{HasTurned, IsAlive, IsSilent};

use crate::crew::{Came, Crew, Exchange};
use crate::keeping::{keep_from, keep_to};
use crate::outside::Failed;
use crate::script::Script;
use std::alloc::{AllocError, Global};

/// Next input from a rank of a crew in memory: these bytes, or, if there are none, the loss of the
/// rank.
#[derive(Clone, Copy)]
pub struct Piece<'a> {
    /// The rank.
    pub rank: u32,
    /// The bytes; none for a loss.
    pub bytes: &'a [u8],
}

/// A crew in memory that plays a list of pieces and records every event. Pieces of ranks that are
/// not alive are skipped. A turn fails when no piece is left. Every call fails if its script says
/// so, or if it runs out of memory.
#[derive(Drop)]
pub struct MemoryCrew<'a> {
    alloc: Global,
    // The rest of the current piece.
    piece: Piece<'a>,
    // The pieces after it.
    rest: &'a [Piece<'a>],
    exchanged: Vec<Exchange>,
    lives: Vec<bool>,
    script: Script,
    is_finished: bool,
}

impl<'a> MemoryCrew<'a> {
    ghost use Rattle.ug_io.specs.Scripted.{faults_of};
    ghost use Rattle.ug_io.specs.CrewMemories.{IsNext, crew_seen, exchanged_of, left_in, next_rank};

    /// Returns a crew of `ranks` ranks, none of them alive yet, that plays these pieces.
    pub fn new(
        alloc: Global,
        ranks: u32,
        pieces: &'a [Piece<'a>],
        script: Script,
    ) -> Result<MemoryCrew<'a>, AllocError>
        ensures { IfOk result (λ crew. crew_seen crew
            ≡ record { said = Some []; lives = replicate ranks false; faults = faults_of script }) }
    {
        let lives = match vec![in alloc; false; ranks as usize] {
            Ok(lives) => lives,
            Err(error) => {
                drop(script);
                return Err(error);
            }
        };
        Ok(MemoryCrew {
            alloc,
            piece: Piece {
                rank: 0,
                bytes: &[],
            },
            rest: pieces,
            exchanged: Vec::new(alloc),
            lives,
            script,
            is_finished: false,
        })
    }

    /// Returns the events so far.
    pub fn exchanged(&self) -> &[Exchange]
        ensures { result.now ≡ exchanged_of self.now }
    {
        self.exchanged.as_slice()
    }

    // Returns the place of the first piece of a live rank, if there is one.
    fn first(&self) -> Option<usize>
        ensures { IfSome result (λ at. IsNext self.now at) }
    {
        let rest = self.rest;
        for at in 0..rest.len() {
            if self.is_alive(rest[at].rank) {
                return Some(at);
            }
        }
        None
    }

    // Moves to that piece. Returns whether there is one.
    fn go_on(&mut self) -> bool
        ensures seen { crew_seen self.new ≡ crew_seen self.old }
        ensures next { result ≡ true → IsAlive (crew_seen self.new) (next_rank self.new) }
    {
        match self.first() {
            Some(at) => {
                self.piece = self.rest[at];
                self.rest = &self.rest[at + 1..];
                true
            }
            None => false,
        }
    }

    // Receives a prefix of the current piece.
    fn hear(&mut self, buffer: &mut [u8]) -> Result<Came, Failed>
        requires alive { IsAlive (crew_seen self.old) (next_rank self.old) }
        requires some { 0 < left_in self.old }
        requires room { 0 < length buffer.old }
        ensures came { IfOk result (HasTurned (crew_seen self.old) (crew_seen self.new) buffer.new) }
        ensures kept { OnErr result (IsSilent (crew_seen self.old) (crew_seen self.new)) }
        ensures cause { OnErr result (Rose (crew_seen self.old).faults (crew_seen self.new).faults) }
    {
        let rank = self.piece.rank;
        let count = self
            .script
            .portion(buffer.len().min(self.piece.bytes.len()));
        let (front, after) = self.piece.bytes.split_at(count);
        if keep_from(self.alloc, &mut self.exchanged, rank, front).is_err() {
            self.script.fail();
            return Err(Failed);
        }
        buffer[..count].copy_from_slice(front);
        self.piece = Piece { rank, bytes: after };
        Ok(Came::Bytes { rank, count })
    }

    // Loses the rank of the current piece.
    fn lose(&mut self) -> Result<Came, Failed>
        requires { IsAlive (crew_seen self.old) (next_rank self.old) }
        ensures came { IfOk result (λ came. (buffer : List ℕ)
            → HasTurned (crew_seen self.old) (crew_seen self.new) buffer came) }
        ensures kept { OnErr result (IsSilent (crew_seen self.old) (crew_seen self.new)) }
        ensures cause { OnErr result (Rose (crew_seen self.old).faults (crew_seen self.new).faults) }
    {
        let rank = self.piece.rank;
        self.script.fail();
        if self.exchanged.push(Exchange::Gone { rank }).is_err() {
            return Err(Failed);
        }
        self.lives[rank as usize] = false;
        Ok(Came::Gone { rank })
    }

    // Receives from the next piece.
    fn next(&mut self, buffer: &mut [u8]) -> Result<Came, Failed>
        requires room { 0 < length buffer.old }
        ensures came { IfOk result (HasTurned (crew_seen self.old) (crew_seen self.new) buffer.new) }
        ensures kept { OnErr result (IsSilent (crew_seen self.old) (crew_seen self.new)) }
        ensures cause { OnErr result (Rose (crew_seen self.old).faults (crew_seen self.new).faults) }
    {
        if !self.go_on() {
            self.script.fail();
            return Err(Failed);
        }
        if self.piece.bytes.is_empty() {
            return self.lose();
        }
        self.hear(buffer)
    }
}

impl Crew for MemoryCrew<'_> {
    ghost use Rattle.ug_io.specs.CrewMemories.{crew_seen};

    ghost seen = { crew_seen };

    ghost finished = { λ c. c.is_finished };

    fn is_alive(&self, rank: u32) -> bool {
        let at = rank as usize;
        at < self.lives.len() && self.lives[at]
    }

    fn launch(&mut self, rank: u32) -> Result<(), Failed> {
        self.script.step()?;
        self.lives[rank as usize] = true;
        Ok(())
    }

    fn turn(&mut self, buffer: &mut [u8]) -> Result<Came, Failed> {
        self.script.step()?;
        let rank = self.piece.rank;
        if !self.piece.bytes.is_empty() && self.is_alive(rank) {
            return self.hear(buffer);
        }
        self.next(buffer)
    }

    fn send(&mut self, rank: u32, bytes: &[u8]) -> Result<(), Failed> {
        self.script.step()?;
        if keep_to(self.alloc, &mut self.exchanged, rank, bytes).is_err() {
            self.script.fail();
            return Err(Failed);
        }
        Ok(())
    }

    fn shut(&mut self, rank: u32) {
        self.lives[rank as usize] = false;
    }

    fn finish(&mut self) {
        self.is_finished = true;
    }
}
