ghost use Rattle.std.specs.Prelude.{◌≡◌, ◌≤◌, ◌+◌, [], drop, length, vec_len, IfOk, OnOk, OnErr};
ghost use Rattle.ug_stream.specs.Streams.{IsNext, fed, first, passed, shut};

use crate::framed::Framed;
use crate::next::Next;
use std::alloc::{AllocError, Global};
use std::marker::Model;
use ug_frames::Decoded;

/// How many bytes of memory are kept where no byte waits.
const KEPT: usize = 65_536;

/// The bytes of a stream that came and of which no message was given yet.
#[derive(Drop)]
pub struct Assembler {
    bytes: Vec<u8>,
    // How many of these bytes were given in messages.
    given: usize,
    // The place in the stream of the first byte that waits.
    at: u64,
    bad: bool,
}

impl Model for Assembler {
    ghost use Rattle.std.specs.Prelude.{◌≤◌, vec_len};
    ghost use Rattle.ug_stream.specs.Streams.{Waiting};
    ghost use Rattle.ug_stream.specs.Views.{waiting_of};

    ghost Value = { Waiting };

    ghost view = { waiting_of };

    ghost invariant = { λ a. a.given ≤ vec_len a.bytes };
}

impl Assembler {
    /// At the begin of a stream. It takes no memory.
    pub fn new(alloc: Global) -> Assembler
        ensures { result ≡ first }
    {
        Assembler {
            bytes: Vec::new(alloc),
            given: 0,
            at: 0,
            bad: false,
        }
    }

    /// The next bytes of the stream. Behind bad ones none is kept.
    pub fn feed(&mut self, piece: &[u8]) -> Result<(), AllocError>
        ensures ok { OnOk result (self.new ≡ fed self.old piece.now) }
        ensures err { OnErr result (self.new ≡ self.old) }
    {
        if self.bad {
            return Ok(());
        }
        self.settle();
        self.bytes.extend_from_slice(piece)
    }

    /// Lets the bytes that wait go for good, as behind bad ones.
    pub fn shut(&mut self)
        ensures { self.new ≡ shut self.old }
    {
        self.empty();
        self.bad = true;
    }

    /// Returns the place in the stream of the first byte that waits, up to the largest number.
    pub fn place(&self) -> u64
        ensures { result ≡ self.now.at }
    {
        self.at
    }

    /// What comes next. A message leaves with its bytes, and bad bytes leave for good. Memory is
    /// taken for a message alone.
    #[tactic(auto, using(crate::proofs::Reading::given_is, crate::proofs::Reading::used_fits))]
    pub fn next<M: Framed + Drop>(&mut self, alloc: Global) -> Result<Next<M>, AllocError>
        ensures ok { IfOk result (IsNext M.carried M.spelled self.old self.new) }
        ensures err { OnErr result (self.new ≡ self.old) }
    {
        let at = self.at;
        if self.bad {
            return Ok(Next::BadFrame { at });
        }
        match M::decode(alloc, self.waiting()) {
            Ok(Decoded::NeedMore) => Ok(Next::NeedMore),
            Ok(Decoded::Bad) => {
                self.shut();
                Ok(Next::BadFrame { at })
            }
            Ok(Decoded::Whole { message, used }) => {
                self.pass(used);
                Ok(Next::Message(message))
            }
            Err(error) => Err(error),
        }
    }

    // The bytes that wait.
    fn waiting(&self) -> &[u8]
        ensures { result.now ≡ self.now.bytes }
    {
        &self.bytes[self.given..]
    }

    // Passes over this many of the bytes that wait.
    fn pass(&mut self, used: usize)
        requires { used ≤ length self.old.bytes }
        ensures { self.new ≡ passed used self.old }
    {
        self.given += used;
        self.at = self.at.saturating_add(used as u64);
    }

    // Keeps no byte, and of their memory not more than a little.
    fn empty(&mut self)
        ensures { self.new ≡ record self.old { bytes = [] } }
    {
        self.given = 0;
        self.bytes.clear();
        if KEPT < self.bytes.capacity() {
            self.bytes.shrink_to_fit();
        }
    }

    // Drops of the bytes that were given, where none waits, or no more than were given and there
    // is memory for these apart. So a byte is copied but once for one that was given.
    fn settle(&mut self)
        ensures { self.new ≡ self.old }
    {
        let waiting = self.bytes.len() - self.given;
        if waiting == 0 {
            self.empty();
        } else if waiting <= self.given {
            self.move_to_front();
        }
    }

    // The bytes that wait in memory of their own, if there is some.
    fn move_to_front(&mut self)
        ensures { self.new ≡ self.old }
    {
        let alloc = *self.bytes.allocator();
        if let Ok(rest) = Vec::from_slice(alloc, self.waiting()) {
            self.bytes = rest;
            self.given = 0;
        }
    }
}
