ghost use Rattle.std.specs.Prelude.{◌≤◌, length, IfSome};

use crate::again;
use crate::cause::failed_by;
use crate::child_process::ChildProcess;
use crate::departure::{Departure, Watcher};
use crate::send_queue::{SendQueue, Unsent};
use crate::shared_bytes::SharedFrame;
use crate::sockets::Listener;
use mio::net::UnixStream;
use mio::{Interest, Registry, Token};
use std::alloc::{AllocError, Global};
use std::fs::File;
use std::io::ErrorKind;
use std::rt::Files;
use std::time::{Duration, Instant};
use std::{io, mem};

/// The number of milliseconds that a child has to end after it closed its connection or its
/// standard input.
const GRACE_MILLISECONDS: u64 = 1000;

/// A child of a crew, and the connection to it. The file of its socket exists until it connects.
#[derive(Drop)]
pub struct Child<F: Drop> {
    rank: u32,
    // It may have something to read, or be lost.
    is_stirred: bool,
    // It closed its standard input or a write to it failed, so it most likely ends.
    is_ending: bool,
    // The coordinator receives nothing of it any more.
    is_shut: bool,
    // Why it is lost, if its exit status does not say it.
    why: Option<Departure>,
    // Why its connection accepts nothing any more.
    cut: Option<io::Error>,
    // Since when its end is awaited.
    since: Option<Instant>,
    // Bytes came from it since the last test of its silence.
    has_spoken: bool,
    // The time of the first test since which nothing came from it.
    quiet: Option<Instant>,
    // It was reported as stopped.
    is_reported: bool,
    send_queue: SendQueue,
    // Declared before `connection`: it is killed before the file of its socket is removed, which it
    // may need.
    child: ChildProcess,
    connection: Connection<F>,
}

// The connection to a child.
#[derive(Drop)]
enum Connection<F: Drop> {
    // It has not connected yet.
    Awaited(Listener<F>),
    Open(UnixStream),
    Closed,
}

/// A condition on a child.
#[derive(Clone, Copy)]
pub enum Sought {
    /// It has this rank and is not shut.
    Rank(u32),
    /// It may have something to read, or be lost.
    Stirred,
    /// It should end soon, and no event may report that.
    Leaving,
    /// It has not connected.
    Awaited,
}

impl<F: Drop> Child<F> {
    /// Returns a child that connects to this listener.
    pub fn new(alloc: Global, rank: u32, listener: Listener<F>, child: ChildProcess) -> Child<F> {
        Child {
            rank,
            connection: Connection::Awaited(listener),
            child,
            send_queue: SendQueue::new(alloc),
            is_stirred: false,
            is_ending: false,
            is_shut: false,
            why: None,
            cut: None,
            has_spoken: false,
            quiet: None,
            is_reported: false,
            since: None,
        }
    }

    /// Returns its rank.
    pub fn rank(&self) -> u32 {
        self.rank
    }

    /// Was it shut?
    pub fn is_shut(&self) -> bool {
        self.is_shut
    }

    /// Has it not connected yet?
    pub fn is_awaited(&self) -> bool {
        match &self.connection {
            Connection::Awaited(_) => true,
            Connection::Open(_) | Connection::Closed => false,
        }
    }

    // Should it end soon, perhaps without an event?
    fn is_leaving(&self) -> bool {
        match &self.connection {
            Connection::Closed => !self.child.has_ended(),
            Connection::Awaited(_) | Connection::Open(_) => self.is_ending
                && !self.child.has_ended(),
        }
    }

    /// Does it satisfy the condition?
    pub fn is(&self, sought: Sought) -> bool {
        match sought {
            Sought::Rank(rank) => self.rank == rank && !self.is_shut,
            Sought::Stirred => self.is_stirred,
            Sought::Leaving => self.is_leaving(),
            Sought::Awaited => self.is_awaited(),
        }
    }

    /// Registers its socket, until it connects, and its standard input under this token.
    pub fn register(&mut self, registry: &Registry, token: Token) -> io::Result<()> {
        if let Connection::Awaited(listener) = &mut self.connection {
            registry.register(&mut listener.listener, token, Interest::READABLE)?;
        }
        self.child.register(registry, token)
    }

    // Accepts its connection, if there is one.
    fn answer(&mut self, registry: &Registry, token: Token) {
        let Connection::Awaited(listener) = &mut self.connection else {
            return;
        };
        match listener.listener.accept() {
            Ok((stream, address)) => {
                drop(address);
                self.open(registry, token, stream);
            }
            Err(error) => match error.kind() {
                // The connection was closed again, or there is none yet.
                ErrorKind::WouldBlock | ErrorKind::Interrupted | ErrorKind::ConnectionAborted => {}
                _ => self.give_up(Departure::Unstarted(error)),
            },
        }
    }

    // Registers the connection, removes the socket that it was made to, and writes the queued
    // bytes.
    fn open(&mut self, registry: &Registry, token: Token, mut stream: UnixStream) {
        let both = Interest::READABLE | Interest::WRITABLE;
        match registry.register(&mut stream, token, both) {
            Ok(()) => {
                drop(mem::replace(&mut self.connection, Connection::Open(stream)));
                self.is_stirred = true;
                self.flush();
            }
            Err(error) => {
                drop(stream);
                self.give_up(Departure::Unstarted(error));
            }
        }
    }

    // Closes its connection and kills it.
    fn give_up(&mut self, why: Departure) {
        self.child.kill();
        self.close();
        self.why.get_or_insert(why);
    }

    // Writes as many queued bytes as can be written now.
    fn flush(&mut self) {
        let flushed = match &mut self.connection {
            Connection::Open(stream) => self.send_queue.flush(stream),
            Connection::Awaited(_) | Connection::Closed => Ok(()),
        };
        if let Err(error) = flushed {
            self.lose(error);
        }
    }

    // A write failed: sends it nothing more. Reading continues until its end, which is most likely
    // the cause of the failure. If it does not end soon it is killed.
    fn lose(&mut self, error: io::Error) {
        drop(self.cut.replace(error));
        self.is_ending = true;
        self.is_stirred = true;
        self.child.look();
    }

    // Closes its connection and drops the queued bytes.
    fn close(&mut self) {
        drop(mem::replace(&mut self.connection, Connection::Closed));
        self.send_queue.close();
    }

    /// Follows an event of the poll: accepts its connection, writes queued bytes, and tests whether
    /// it has ended if `is_ending` is set. Afterwards it may have something to read.
    pub fn on_event(&mut self, registry: &Registry, token: Token, is_ending: bool) {
        if is_ending {
            self.is_ending = true;
            self.child.look();
        }
        self.answer(registry, token);
        if self.is_awaited() && self.child.has_ended() {
            self.close();
        }
        self.flush();
        self.is_stirred = true;
    }

    // Has its end been awaited long enough? Without a clock it has.
    fn has_waited(&self, now: Option<Instant>) -> bool {
        match (now, self.since) {
            (Some(now), Some(since)) => now.duration_since(since)
                >= Duration::from_millis(GRACE_MILLISECONDS),
            (Some(_), None) => false,
            (None, _) => true,
        }
    }

    /// Continues to wait for its end at this time, or kills it if that took too long. A child that
    /// has only closed its standard input may stay.
    pub fn check_deadline(&mut self, now: Option<Instant>) {
        if self.child.has_ended() {
            return;
        }
        if !self.has_waited(now) {
            self.since = self.since.or(now);
            return;
        }
        match (&self.connection, mem::take(&mut self.cut)) {
            (Connection::Open(_), Some(error)) => self.give_up(Departure::Cut(error)),
            (Connection::Open(_), None) => {
                self.is_ending = false;
                self.since = None;
            }
            (Connection::Awaited(_) | Connection::Closed, cut) => {
                drop(cut);
                self.give_up(Departure::HungUp);
            }
        }
    }

    // Reads some bytes and returns their number. Closes the connection if no more will come.
    fn take(&mut self, buffer: &mut [u8]) -> Option<usize>
        ensures { IfSome result (λ n. n ≤ length buffer.new) }
    {
        let Connection::Open(stream) = &mut self.connection else {
            return None;
        };
        let got = again::read(stream, buffer);
        if failed_by(&got, ErrorKind::WouldBlock) && !self.child.has_ended() {
            return None;
        }
        match got {
            Ok(0) | Err(_) => {
                self.close();
                self.child.look();
                None
            }
            Ok(n) => {
                self.has_spoken = true;
                Some(n)
            }
        }
    }

    /// Has nothing come from it for this number of seconds, and was it not reported as stopped? The
    /// seconds count from the first call since the last byte.
    pub fn is_silent(&mut self, now: Instant, seconds: u64) -> bool {
        if mem::replace(&mut self.has_spoken, false) {
            self.quiet = Some(now);
            return false;
        }
        match self.quiet {
            Some(quiet) => {
                !self.is_reported && now.duration_since(quiet) >= Duration::from_secs(seconds)
            }
            None => {
                self.quiet = Some(now);
                false
            }
        }
    }

    /// Reports to the watcher that it is stopped, if it is.
    pub fn report_stopped<R, W>(&mut self, rt: &R, alloc: Global, watcher: &mut W, seconds: u64)
    where
        R: Files<File = File>,
        W: Watcher,
    {
        if !self.is_shut && self.child.is_stopped(rt, alloc) {
            self.is_reported = true;
            watcher.silent(self.rank, seconds);
        }
    }

    /// Reads some bytes and returns their number, or `None` if there are none now. Returns 0 if it
    /// is lost, once all that it sent is read.
    pub fn hear(&mut self, buffer: &mut [u8]) -> Option<usize>
        ensures { IfSome result (λ n. n ≤ length buffer.new) }
    {
        if !self.is_stirred {
            return None;
        }
        if let Some(count) = self.take(buffer) {
            return Some(count);
        }
        match &self.connection {
            Connection::Closed if self.child.has_ended() => Some(0),
            _ => {
                self.is_stirred = false;
                None
            }
        }
    }

    /// Sends it bytes, and queues those that it cannot take now. Fails only if memory runs out. If
    /// its connection is closed or fails, the bytes are dropped: its end is reported later. Until
    /// it connects it shares a long frame with the others that have not connected.
    pub fn send(
        &mut self,
        registry: &Registry,
        token: Token,
        frame: &mut SharedFrame,
        bytes: &[u8],
    ) -> io::Result<()> {
        self.answer(registry, token);
        let sent = match &mut self.connection {
            Connection::Open(stream) => self.send_queue.send(stream, bytes),
            Connection::Awaited(_) => frame.queue(&mut self.send_queue, bytes),
            Connection::Closed => Ok(()),
        };
        match sent {
            Ok(()) => Ok(()),
            Err(Unsent::Memory) => Err(AllocError.into()),
            Err(Unsent::Cut(error)) => {
                self.lose(error);
                Ok(())
            }
        }
    }

    /// Closes its connection and kills it. Its end is not reported.
    pub fn shut(&mut self) {
        self.is_shut = true;
        self.child.kill();
        self.close();
    }

    /// Returns why it is lost.
    pub fn departure(&mut self) -> Departure {
        match mem::take(&mut self.why) {
            Some(why) => why,
            None => self.child.departure(),
        }
    }
}
