ghost use Rattle.std.specs.Prelude.{◌≤◌, length, IfOk, IfSome, OnOk};
ghost use Rattle.slab.specs.Slab.{HasRoomFor};

use crate::child::{Child, Sought};
use crate::departure::Watcher;
use crate::shared_bytes::SharedFrame;
use mio::{Events, Poll, Registry, Token};
use slab::Slab;
use std::alloc::Global;
use std::fs::File;
use std::io;
use std::io::ErrorKind;
use std::net::Net;
use std::rt::Files;
use std::thread::sleep;
use std::time::{Clock, Duration, Instant};

/// The largest number of events that one wait returns.
const EVENTS_OF_A_WAIT: usize = 256;

/// The number of milliseconds between two tests of a child that should end soon.
const EXIT_CHECK_MILLISECONDS: u64 = 10;

/// The number of microseconds for which a turn waits for more after something came. One wakeup for
/// each report would cost more than most reports do.
const GATHER_MICROSECONDS: u64 = 100;

/// The number of milliseconds for which `finish` waits for the next child to end.
const EXIT_MILLISECONDS: u64 = 10_000;

/// The number of seconds without a byte after which a child is tested for being stopped.
const SILENCE_SECONDS: u64 = 60;

/// The least number of milliseconds between two searches for silent children, and the longest wait.
const SILENCE_CHECK_MILLISECONDS: u64 = 10_000;

/// `count` bytes came from a rank, or, if it is 0, the rank is lost. The key is that of the child.
#[derive(Clone, Copy)]
pub struct Heard {
    /// The key of the child.
    pub key: usize,
    /// The rank.
    pub rank: u32,
    /// The number of bytes, a prefix of the buffer.
    pub count: usize,
}

/// Children, and the poll that reports their events.
#[derive(Drop)]
pub struct Children<F: Drop> {
    // The first key that is not served yet in this round.
    next: usize,
    // The time of the last search for silent children.
    looked: Option<Instant>,
    watch: Option<Watch>,
    // What children that have not connected are to be sent.
    frame: SharedFrame,
    child_slab: Slab<Child<F>>,
}

// The poll and its buffer for events.
#[derive(Drop)]
struct Watch {
    poll: Poll,
    events: Events,
}

// Returns the error of a call that has no child, or no poll, to work with.
fn missing() -> io::Error {
    io::Error::from(ErrorKind::NotFound)
}

// Makes the poll and its buffer for events, unless they are there.
fn open_watch(place: &mut Option<Watch>, net: &impl Net, alloc: Global) -> io::Result<()> {
    if place.is_some() {
        return Ok(());
    }
    let poll = match Poll::new(net) {
        Ok(poll) => poll,
        Err(error) => return Err(error),
    };
    match Events::with_capacity(alloc, EVENTS_OF_A_WAIT) {
        Ok(events) => {
            drop(place.replace(Watch { poll, events }));
            Ok(())
        }
        Err(error) => {
            drop(poll);
            Err(error.into())
        }
    }
}

// Returns the lowest key of a child that satisfies the condition, if there is one.
fn key_of<F: Drop>(child_slab: &Slab<Child<F>>, sought: Sought) -> Option<usize> {
    for (key, child) in child_slab.iter() {
        if child.is(sought) {
            return Some(key);
        }
    }
    None
}

// Passes each event to its child.
fn on_events<F: Drop>(child_slab: &mut Slab<Child<F>>, registry: &Registry, events: &Events) {
    for event in events {
        let Token(key) = event.token();
        if let Some(child) = child_slab.get_mut(key) {
            child.on_event(registry, Token(key), event.is_error());
        }
    }
}

// Tests the children that should end soon.
fn check_deadlines<F: Drop>(
    child_slab: &mut Slab<Child<F>>,
    registry: &Registry,
    now: Option<Instant>,
) {
    for key in 0..child_slab.capacity() {
        if let Some(child) = child_slab.get_mut(key) {
            if child.is(Sought::Leaving) {
                child.on_event(registry, Token(key), true);
                child.check_deadline(now);
            }
        }
    }
}

// Sends the bytes to the child of this rank. Fails if there is none.
fn send_to<F: Drop>(
    child_slab: &mut Slab<Child<F>>,
    registry: &Registry,
    frame: &mut SharedFrame,
    rank: u32,
    bytes: &[u8],
) -> io::Result<()> {
    if let Some(key) = key_of(child_slab, Sought::Rank(rank)) {
        if let Some(child) = child_slab.get_mut(key) {
            return child.send(registry, Token(key), frame, bytes);
        }
    }
    Err(missing())
}

// Receives from the first of the children at these keys that has something. Drops children that
// were shut and have ended.
fn hear_among<F: Drop>(
    child_slab: &mut Slab<Child<F>>,
    first: usize,
    end: usize,
    buffer: &mut [u8],
) -> Option<Heard>
    ensures { IfSome result (λ heard. heard.count ≤ length buffer.new) }
{
    for key in first..end {
        if let Some(heard) = hear_at(child_slab, key, buffer) {
            return Some(heard);
        }
    }
    None
}

// Receives from a child, if it has something.
fn hear_of<F: Drop>(child: &mut Child<F>, key: usize, buffer: &mut [u8]) -> Option<Heard>
    ensures { IfSome result (λ heard. heard.count ≤ length buffer.new) }
{
    match child.hear(buffer) {
        Some(count) => Some(Heard {
            key,
            rank: child.rank(),
            count,
        }),
        None => None,
    }
}

// Is the child lost after it was shut? The caller must not learn of this loss.
fn is_over(heard: Option<Heard>, is_shut: bool) -> bool {
    match heard {
        Some(heard) => heard.count == 0 && is_shut,
        None => false,
    }
}

// Receives from the child at this key, if there is one and it has something. Drops the child if it
// was shut and has ended.
fn hear_at<F: Drop>(child_slab: &mut Slab<Child<F>>, key: usize, buffer: &mut [u8]) -> Option<Heard>
    ensures { IfSome result (λ heard. heard.count ≤ length buffer.new) }
{
    let Some(child) = child_slab.get_mut(key) else {
        return None;
    };
    let heard = hear_of(child, key, buffer);
    if is_over(heard, child.is_shut()) {
        drop(child_slab.try_remove(key));
        return None;
    }
    heard
}

// Have `EXIT_MILLISECONDS` milliseconds passed since this time? Without a clock they have.
fn is_past<R: Clock>(rt: &R, since: Option<Instant>) -> bool {
    match (since, Instant::now(rt)) {
        (Some(since), Ok(now)) => now.duration_since(since)
            >= Duration::from_millis(EXIT_MILLISECONDS),
        _ => true,
    }
}

// Reports the children that have been silent for long and are stopped.
fn report_stopped<F: Drop, R, W>(
    child_slab: &mut Slab<Child<F>>,
    rt: &R,
    alloc: Global,
    now: Instant,
    watcher: &mut W,
)
where
    R: Files<File = File>,
    W: Watcher,
{
    for key in 0..child_slab.capacity() {
        if let Some(child) = child_slab.get_mut(key) {
            if child.is_silent(now, SILENCE_SECONDS) {
                child.report_stopped(rt, alloc, watcher, SILENCE_SECONDS);
            }
        }
    }
}

// Drops the children that have not connected.
fn dismiss_awaited<F: Drop>(child_slab: &mut Slab<Child<F>>, registry: &Registry) {
    for key in 0..child_slab.capacity() {
        if let Some(child) = child_slab.get_mut(key) {
            child.on_event(registry, Token(key), false);
            if child.is_awaited() {
                drop(child_slab.try_remove(key));
            }
        }
    }
}

impl<F: Drop> Children<F> {
    /// Returns no children, without a poll.
    pub fn new(alloc: Global) -> Children<F> {
        Children {
            next: 0,
            looked: None,
            watch: None,
            frame: SharedFrame::new(alloc),
            child_slab: Slab::new(alloc),
        }
    }

    /// Reserves a place for one more child, and makes the poll if there is none.
    pub fn open(&mut self, net: &impl Net, alloc: Global) -> io::Result<()>
        ensures { OnOk result (HasRoomFor self.new.child_slab 1) }
    {
        match self.child_slab.reserve(1) {
            Ok(()) => open_watch(&mut self.watch, net, alloc),
            Err(error) => Err(error.into()),
        }
    }

    // Registers the child with the poll.
    fn register(&self, child: &mut Child<F>, key: usize) -> io::Result<()> {
        match &self.watch {
            Some(watch) => child.register(watch.poll.registry(), Token(key)),
            None => Err(missing()),
        }
    }

    /// Adds a child, for which a place is reserved. If it cannot be registered, the child is
    /// dropped and so killed.
    pub fn admit(&mut self, mut child: Child<F>) -> io::Result<()>
        requires { HasRoomFor self.old.child_slab 1 }
    {
        let key = self.child_slab.vacant_key();
        match self.register(&mut child, key) {
            Ok(()) => {
                self.child_slab.insert_reserved(child);
                Ok(())
            }
            Err(error) => {
                drop(child);
                Err(error)
            }
        }
    }

    /// Sends the bytes to the rank, now or as soon as they can be written. Fails if no child has
    /// this rank.
    pub fn send(&mut self, rank: u32, bytes: &[u8]) -> io::Result<()> {
        match &self.watch {
            Some(watch) => {
                let registry = watch.poll.registry();
                send_to(&mut self.child_slab, registry, &mut self.frame, rank, bytes)
            }
            None => Err(missing()),
        }
    }

    /// Closes the connection to the rank and kills its child.
    pub fn shut(&mut self, rank: u32) {
        if let Some(key) = key_of(&self.child_slab, Sought::Rank(rank)) {
            if let Some(child) = self.child_slab.get_mut(key) {
                child.shut();
            }
        }
    }

    // Receives from a child that is not served yet in this round, if one has something.
    fn hear(&mut self, buffer: &mut [u8]) -> Option<Heard>
        ensures { IfSome result (λ heard. heard.count ≤ length buffer.new) }
    {
        let end = self.child_slab.capacity();
        let heard = hear_among(&mut self.child_slab, self.next, end, buffer);
        if let Some(Heard { key, .. }) = heard {
            self.next = key.saturating_add(1);
        }
        heard
    }

    // Begins a round. Passes new events to all children first, so that one that never stops sending
    // keeps no other from connecting, sending or receiving. If none has anything, it waits for at
    // most `most` milliseconds, and after an event a little longer.
    fn look<R: Clock>(&mut self, clock: &R, most: Option<u64>) -> io::Result<()> {
        self.next = 0;
        if key_of(&self.child_slab, Sought::Stirred).is_some() {
            return self.wait(clock, Some(0));
        }
        let waited = self.wait(clock, most);
        if waited.is_ok() {
            sleep(clock, Duration::from_micros(GATHER_MICROSECONDS));
        }
        waited
    }

    // Waits for events for at most `most` milliseconds, less if a child should end soon, and passes
    // them on.
    fn wait<R: Clock>(&mut self, clock: &R, most: Option<u64>) -> io::Result<()> {
        let is_any_leaving = key_of(&self.child_slab, Sought::Leaving).is_some();
        let most = if is_any_leaving {
            Some(
                most.unwrap_or(EXIT_CHECK_MILLISECONDS)
                    .min(EXIT_CHECK_MILLISECONDS),
            )
        } else {
            most
        };
        let waited = self.wait_for_events(most);
        if waited.is_ok() {
            self.handle_events(clock, is_any_leaving);
        }
        if key_of(&self.child_slab, Sought::Awaited).is_none() {
            self.frame.clear();
        }
        waited
    }

    // Waits for events of the poll for at most `most` milliseconds.
    fn wait_for_events(&mut self, most: Option<u64>) -> io::Result<()> {
        match &mut self.watch {
            Some(watch) => watch
                .poll
                .poll(&mut watch.events, most.map(Duration::from_millis)),
            None => Err(missing()),
        }
    }

    // Passes the events of the poll to the children, and tests those that should end soon.
    fn handle_events<R: Clock>(&mut self, clock: &R, is_any_leaving: bool) {
        if let Some(watch) = &self.watch {
            on_events(&mut self.child_slab, watch.poll.registry(), &watch.events);
            if is_any_leaving {
                let now = Instant::now(clock).ok();
                check_deadlines(&mut self.child_slab, watch.poll.registry(), now);
            }
        }
    }

    // Reports silent children that are stopped, unless the last search was a short while ago.
    // Nothing else depends on it.
    fn find_silent<R, W>(&mut self, rt: &R, alloc: Global, watcher: &mut W)
    where
        R: Files<File = File> + Clock,
        W: Watcher,
    {
        let Ok(now) = Instant::now(rt) else {
            return;
        };
        if let Some(looked) = self.looked {
            if now.duration_since(looked) < Duration::from_millis(SILENCE_CHECK_MILLISECONDS) {
                return;
            }
        }
        self.looked = Some(now);
        report_stopped(&mut self.child_slab, rt, alloc, now, watcher);
    }

    /// Waits until bytes come from a child or one is lost. Reports to the watcher a child that has
    /// been silent for long and is stopped.
    pub fn turn<R, W>(
        &mut self,
        rt: &R,
        alloc: Global,
        watcher: &mut W,
        buffer: &mut [u8],
    ) -> io::Result<Heard>
    where
        R: Files<File = File> + Clock,
        W: Watcher,
        ensures { IfOk result (λ heard. heard.count ≤ length buffer.new) }
    {
        for _ in 0..u64::MAX {
            if let Some(heard) = self.hear(buffer) {
                return Ok(heard);
            }
            if let Err(error) = self.look(rt, Some(SILENCE_CHECK_MILLISECONDS)) {
                return Err(error);
            }
            self.find_silent(rt, alloc, watcher);
        }
        Err(io::Error::from(ErrorKind::TimedOut))
    }

    /// Drops the child at this key, and reports to the watcher why it is lost.
    pub fn part<W: Watcher>(&mut self, key: usize, watcher: &mut W) {
        if let Some(mut child) = self.child_slab.try_remove(key) {
            let why = child.departure();
            watcher.gone(child.rank(), &why);
            drop(why);
            drop(child);
        }
    }

    // Reads and drops the bytes of the children in the rest of this round, and drops the children
    // that have ended.
    fn drain(&mut self) {
        let mut buffer = [0u8; 4096];
        for _ in 0..u64::MAX {
            match self.hear(&mut buffer) {
                Some(Heard { key, count: 0, .. }) => drop(self.child_slab.try_remove(key)),
                Some(_) => {}
                None => return,
            }
        }
    }

    // Waits until every child has ended. Gives up if none ends for `EXIT_MILLISECONDS`
    // milliseconds, or if a wait fails.
    fn wait_for_exits<R: Clock>(&mut self, clock: &R) {
        let mut since = Instant::now(clock).ok();
        for _ in 0..u64::MAX {
            let count = self.child_slab.len();
            self.drain();
            if self.child_slab.is_empty() {
                break;
            }
            if self.child_slab.len() < count {
                since = Instant::now(clock).ok();
            } else if is_past(clock, since) {
                break;
            }
            if self.look(clock, Some(EXIT_MILLISECONDS)).is_err() {
                break;
            }
        }
    }

    /// Writes every send queue and waits for the children to end. A child that has not connected is
    /// killed, and so are all that are left when no further one ends for 10 seconds.
    pub fn finish<R: Clock>(&mut self, clock: &R) {
        if let Some(watch) = &self.watch {
            dismiss_awaited(&mut self.child_slab, watch.poll.registry());
            self.wait_for_exits(clock);
        }
        self.child_slab.clear();
    }
}
