ghost use Rattle.std.specs.Prelude.{◌≡◌, ◌≤◌, ◌++◌, [], true, false, None, drop, length, take, IfErr, IfOk, IsTrue, MatchBool, OnOk, OnErr};
ghost use Rattle.std.specs.Option.{ForSome};
ghost use Rattle.std.specs.Io.KnownBytes.{Appends};

use crate::again;
use crate::shared_bytes::SharedBytes;
use std::alloc::Global;
use std::io::{ErrorKind, Write};
use std::{io, mem};

/// Capacity, in bytes, that an empty send queue keeps.
const KEPT: usize = 1 << 16;

/// Bytes that are to go to a connection, and did not go yet.
#[derive(Drop)]
pub struct SendQueue {
    alloc: Global,
    // Bytes that go before the others, in memory that other send queues share.
    ahead: Option<SharedBytes>,
    // The number of those that are written.
    gone: usize,
    bytes: Vec<u8>,
    // The number of these that are written.
    sent: usize,
    // The other end accepts nothing any more.
    is_closed: bool,
    ghost within: { sent ≤ length bytes.items },
    ghost gone_within: { ForSome ahead (λ all. gone ≤ length all) },
}

/// Why bytes were neither written nor queued.
#[derive(Drop)]
pub enum Unsent {
    /// Out of memory for the bytes that must wait.
    Memory,
    /// A write failed.
    Cut(io::Error),
}

/// Writes a prefix of the bytes, until all went or no more can go for now, and returns its length.
pub fn write_out<W: Write>(to: &mut W, bytes: &[u8]) -> io::Result<usize>
    ensures within { IfOk result (λ n. n ≤ length bytes.now) }
    ensures written { IfOk result (λ n.
        Appends (W.contents to.old) (W.contents to.new) (take n bytes.now)) }
{
    let mut sent = 0usize;
    for _ in 0..u64::MAX {
        let rest = &bytes[sent..];
        if rest.is_empty() {
            break;
        }
        match again::write(to, rest) {
            Ok(0) => return Err(io::Error::from(ErrorKind::WriteZero)),
            Ok(n) => sent += n,
            Err(error) if error.kind() == ErrorKind::WouldBlock => break,
            Err(error) => return Err(error),
        }
    }
    Ok(sent)
}

impl SendQueue {
    ghost use Rattle.ug_real.specs.SendQueues.{HasWritten, IsUnsent, own_waiting, rest_of, waiting};

    /// Returns an empty send queue.
    pub fn new(alloc: Global) -> SendQueue
        ensures { waiting result ≡ [] }
    {
        SendQueue {
            alloc,
            ahead: None,
            gone: 0,
            bytes: Vec::new(alloc),
            sent: 0,
            is_closed: false,
        }
    }

    // Returns the bytes not written yet, but for the shared ones.
    fn rest(&self) -> &[u8]
        ensures { result.now ≡ own_waiting self.now }
    {
        self.bytes.get(self.sent..).unwrap_or(&[])
    }

    // Removes the written bytes, but for the shared ones. It moves the rest only if at least as
    // many bytes were written.
    fn forget(&mut self)
        ensures waiting { own_waiting self.new ≡ own_waiting self.old }
        ensures ahead { self.new.ahead ≡ self.old.ahead }
        ensures gone { self.new.gone ≡ self.old.gone }
        ensures closed { self.new.is_closed ≡ self.old.is_closed }
    {
        let rest = self.rest().len();
        if rest == 0 {
            self.empty();
        } else if rest <= self.sent {
            let sent = self.sent.min(self.bytes.len());
            drop(self.bytes.drain(..sent));
            self.sent = 0;
        }
    }

    // Drops all bytes but the shared ones, and the buffer if it is large.
    fn empty(&mut self)
        ensures waiting { own_waiting self.new ≡ [] }
        ensures ahead { self.new.ahead ≡ self.old.ahead }
        ensures gone { self.new.gone ≡ self.old.gone }
        ensures closed { self.new.is_closed ≡ self.old.is_closed }
    {
        if self.bytes.capacity() > KEPT {
            drop(mem::replace(&mut self.bytes, Vec::new(self.alloc)));
        } else {
            self.bytes.clear();
        }
        self.sent = 0;
    }

    /// Drops all bytes, and accepts no more.
    pub fn close(&mut self)
        ensures waiting { waiting self.new ≡ [] }
        ensures closed { self.new.is_closed ≡ true }
    {
        drop(self.ahead.take());
        self.gone = 0;
        self.empty();
        self.is_closed = true;
    }

    /// Queues the bytes behind the others. A closed send queue drops them. If memory runs out
    /// nothing is queued.
    pub fn push(&mut self, bytes: &[u8]) -> Result<(), Unsent>
        ensures ok { OnOk result (self.old.is_closed ≡ false
            → waiting self.new ≡ waiting self.old ++ bytes.now) }
        ensures closed { self.old.is_closed ≡ true → waiting self.new ≡ waiting self.old }
        ensures err { IfErr result (IsUnsent self.old self.new) }
    {
        if self.is_closed {
            return Ok(());
        }
        self.forget();
        match self.bytes.extend_from_slice(bytes) {
            Ok(()) => Ok(()),
            Err(_) => Err(Unsent::Memory),
        }
    }

    /// Queues shared bytes behind the others. Copies them if bytes wait already. A closed send
    /// queue drops them. If memory runs out nothing is queued.
    pub fn push_shared(&mut self, bytes: SharedBytes) -> Result<(), Unsent>
        ensures ok { OnOk result (self.old.is_closed ≡ false
            → waiting self.new ≡ waiting self.old ++ bytes) }
        ensures closed { self.old.is_closed ≡ true → waiting self.new ≡ waiting self.old }
        ensures err { IfErr result (IsUnsent self.old self.new) }
    {
        if self.is_closed {
            drop(bytes);
            return Ok(());
        }
        if self.waits() {
            let pushed = self.push(bytes.bytes());
            drop(bytes);
            return pushed;
        }
        drop(self.ahead.replace(bytes));
        self.gone = 0;
        Ok(())
    }

    // Does anything wait?
    fn waits(&self) -> bool
        ensures { MatchBool result (Unit {0})
            ((self.now.ahead ≡ None) × (own_waiting self.now ≡ [])) }
    {
        self.ahead.is_some() || !self.rest().is_empty()
    }

    /// Writes as many bytes as can be written now. Closes the send queue if a write fails.
    pub fn flush<W: Write>(&mut self, to: &mut W) -> io::Result<()>
        ensures ok { OnOk result (HasWritten (W.contents to.old) (W.contents to.new)
            (waiting self.old) (waiting self.new)) }
        ensures err { OnErr result (self.new.is_closed ≡ true) }
    {
        match self.flush_all(to) {
            Ok(()) => Ok(()),
            Err(error) => {
                self.close();
                Err(error)
            }
        }
    }

    // Writes as many bytes as can be written now.
    fn flush_all<W: Write>(&mut self, to: &mut W) -> io::Result<()>
        ensures ok { OnOk result (HasWritten (W.contents to.old) (W.contents to.new)
            (waiting self.old) (waiting self.new)) }
    {
        match self.flush_ahead(to) {
            Ok(true) => self.flush_own(to),
            Ok(false) => Ok(()),
            Err(error) => Err(error),
        }
    }

    // Returns the shared bytes not written yet.
    fn rest_ahead(&self) -> &[u8]
        ensures { result.now ≡ rest_of self.now.ahead self.now.gone }
    {
        match &self.ahead {
            Some(ahead) => ahead.bytes().get(self.gone..).unwrap_or(&[]),
            None => &[],
        }
    }

    // Removes this number of shared bytes, which are written. Returns true if none of them is left.
    #[tactic(auto, using(crate::proofs::Writing::rest_dropped, crate::proofs::Writing::none_left))]
    fn forget_ahead(&mut self, count: usize) -> bool
        requires { count ≤ length (rest_of self.old.ahead self.old.gone) }
        ensures rest { rest_of self.new.ahead self.new.gone
            ≡ drop count (rest_of self.old.ahead self.old.gone) }
        ensures own { own_waiting self.new ≡ own_waiting self.old }
        ensures none { IsTrue result → self.new.ahead ≡ None }
    {
        if let Some(ahead) = &self.ahead {
            let all = ahead.bytes().len();
            if count < all - self.gone {
                self.gone += count;
                return false;
            }
        }
        drop(self.ahead.take());
        self.gone = 0;
        true
    }

    // Writes as many shared bytes as can be written now. Returns true if none of them is left.
    fn flush_ahead<W: Write>(&mut self, to: &mut W) -> io::Result<bool>
        ensures ok { OnOk result (HasWritten (W.contents to.old) (W.contents to.new)
            (waiting self.old) (waiting self.new)) }
        ensures none { IfOk result (λ all. IsTrue all → self.new.ahead ≡ None) }
    {
        match write_out(to, self.rest_ahead()) {
            Ok(n) => Ok(self.forget_ahead(n)),
            Err(error) => Err(error),
        }
    }

    // Writes as many of the others as can be written now.
    fn flush_own<W: Write>(&mut self, to: &mut W) -> io::Result<()>
        requires { self.old.ahead ≡ None }
        ensures ok { OnOk result (HasWritten (W.contents to.old) (W.contents to.new)
            (waiting self.old) (waiting self.new)) }
    {
        match write_out(to, self.rest()) {
            Ok(n) => {
                self.sent += n;
                self.forget();
                Ok(())
            }
            Err(error) => Err(error),
        }
    }

    /// Writes as many of the bytes as can be written now, behind the queued ones, and queues the
    /// rest. A closed send queue drops them. Closes the send queue if a write fails.
    pub fn send<W: Write>(&mut self, to: &mut W, bytes: &[u8]) -> Result<(), Unsent>
        ensures ok { OnOk result (self.old.is_closed ≡ false
            → HasWritten (W.contents to.old) (W.contents to.new)
            (waiting self.old ++ bytes.now) (waiting self.new)) }
        ensures err { IfErr result (IsUnsent self.old self.new) }
    {
        if self.is_closed {
            return Ok(());
        }
        if self.waits() {
            return self.push(bytes);
        }
        match write_out(to, bytes) {
            Ok(n) => self.push(bytes.get(n..).unwrap_or(&[])),
            Err(error) => {
                self.close();
                Err(Unsent::Cut(error))
            }
        }
    }
}
