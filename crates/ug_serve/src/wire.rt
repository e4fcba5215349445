//! A worker's end of a link: orders come over it, and reports go.

ghost use Rattle.std.specs.Prelude.{◌≡◌, ◌<◌, ◌++◌, true, false, None, Some, length, take, IfOk, MatchResult};
ghost use Rattle.ug_io.specs.Links.{LinkSeen};
ghost use Rattle.ug_frames.specs.declared.order.Order.{Order};
ghost use Rattle.ug_frames.specs.declared.report.Report.{Report};
ghost use Rattle.ug_frames.specs.Reports.{IsReport};
ghost use Rattle.ug_frames.specs.ReportFrames.{IsCarried, spelled};
ghost use Rattle.ug_serve.specs.Traces.{IsFresh};
ghost use Rattle.ug_serve.specs.Actions.{Stage, Blank, Ending, IsTaken, IsTold};
ghost use Rattle.ug_frames.specs.declared.order.Order.TheVariants.{End};
ghost use Rattle.ug_serve.specs.Serving.{HasNext, HasServed, IsOpen, StandsOn, comes_next, has_ended, stands_as};

use crate::served::Served;
use crate::telling::tell_all;
use std::alloc::{AllocError, Global};
use ug_frames::{Order, Report, encode_report};
use ug_io::{Got, Link, zeros};
use ug_stream::{Assembler, Next};

/// How many bytes are read at once.
const READ: usize = 65_536;

/// A worker's end of a link.
#[derive(Drop)]
pub struct Wire<L> {
    pub alloc: Global,
    pub orders: Assembler,
    /// The buffer for bytes received.
    pub input: Vec<u8>,
    /// The frame that is sent.
    pub frame: Vec<u8>,
    /// The place, among all bytes received, at which the last order began.
    pub at: u64,
    /// How the service ended, where it has.
    pub end: Option<Served>,
    /// The link.
    pub link: L,
    pub ghost room: { 0 < length input.items },
}

impl<L: Link + Drop> Wire<L> {
    /// The end of a link over which nothing was said, which is read into this buffer.
    pub fn new(alloc: Global, link: L, input: Vec<u8>) -> Wire<L>
        requires fresh { IsFresh (L.seen link) }
        requires room { 0 < length input.items }
        ensures stands { stands_as result.end (L.seen result.link) result.orders Blank }
        ensures link { result.link ≡ link }
    {
        Wire {
            alloc,
            link,
            orders: Assembler::new(alloc),
            input,
            frame: Vec::new(alloc),
            at: 0,
            end: None,
        }
    }

    /// The next order, if one is there. None comes once the service has ended.
    pub fn next(&mut self) -> Option<Order>
        ensures { (stage : Stage) → IsOpen stage
            → stands_as self.old.end (L.seen self.old.link) self.old.orders stage
            → comes_next self.new.end (L.seen self.new.link) self.new.orders stage self.new.at result }
    {
        for _ in 0..u64::MAX {
            if self.end.is_some() {
                return None;
            }
            if let Some(order) = self.given() {
                return Some(order);
            }
            if !self.goes_on(false) {
                return None;
            }
        }
        None
    }

    // The next order of which all bytes came, if one is there.
    fn given(&mut self) -> Option<Order>
        requires { self.old.end ≡ None }
        ensures { (stage : Stage) → IsOpen stage
            → StandsOn (L.seen self.old.link) self.old.orders stage
            → comes_next self.new.end (L.seen self.new.link) self.new.orders stage self.new.at result }
    {
        let at = self.orders.place();
        match self.orders.next::<Order>(self.alloc) {
            Ok(Next::Message(order)) => {
                self.at = at;
                Some(order)
            }
            Ok(Next::NeedMore) => None,
            Ok(Next::BadFrame { at }) => {
                self.end = Some(Served::BadFrame { at });
                None
            }
            Err(_) => {
                self.end = Some(Served::Memory);
                None
            }
        }
    }

    /// Receives more, which it waits for or not, unless the service has ended. False where nothing
    /// is there.
    pub fn goes_on(&mut self, wait: bool) -> bool
        ensures heard { (stage : Stage) → IsOpen stage
            → stands_as self.old.end (L.seen self.old.link) self.old.orders stage
            → stands_as self.new.end (L.seen self.new.link) self.new.orders stage }
        ensures nothing { result ≡ false → wait ≡ false }
    {
        if self.end.is_some() {
            return true;
        }
        match hear(&mut self.link, &mut self.orders, &mut self.input, wait) {
            Ok(more) => more,
            Err(end) => {
                self.end = Some(end);
                true
            }
        }
    }

    /// Sends a report, unless the service has ended.
    pub fn tell(&mut self, report: Report)
        requires { IsReport report }
        ensures { (old new : Stage) → IsTold old report new
            → stands_as self.old.end (L.seen self.old.link) self.old.orders old
            → stands_as self.new.end (L.seen self.new.link) self.new.orders new }
    {
        if self.end.is_none() {
            self.frame.clear();
            match encode_report(&mut self.frame, &report) {
                Ok(()) => self.send(),
                Err(_) => self.end = Some(Served::Memory),
            }
        }
        drop(report);
    }

    // Sends the frame.
    fn send(&mut self)
        requires { self.old.end ≡ None }
        ensures { (old new : Stage) (report : Report) → IsTold old report new → IsCarried report
            → self.old.frame.items ≡ spelled report
            → StandsOn (L.seen self.old.link) self.old.orders old
            → stands_as self.new.end (L.seen self.new.link) self.new.orders new }
    {
        match tell_all(&mut self.link, &self.frame) {
            Ok(()) => {}
            Err(_) => self.end = Some(Served::LinkFault),
        }
    }

    /// Obeys the order to end, which came last.
    pub fn finish(&mut self)
        ensures { (stage : Stage) → IsTaken stage End Ending → self.old.end ≡ None
            → HasNext (L.seen self.old.link) self.old.orders stage End self.old.at
            → has_ended self.new.end (L.seen self.new.link) }
    {
        self.tell(Report::Ended);
        match self.end {
            None => self.end = Some(Served::Ended),
            Some(_) => {}
        }
    }

    /// Memory runs out, unless the service has ended.
    pub fn want(&mut self)
        ensures stood { (stage : Stage)
            → stands_as self.old.end (L.seen self.old.link) self.old.orders stage
            → has_ended self.new.end (L.seen self.new.link) }
        // An order may wait that was not examined.
        ensures next { (stage : Stage) (order : Order) → self.old.end ≡ None
            → HasNext (L.seen self.old.link) self.old.orders stage order self.old.at
            → has_ended self.new.end (L.seen self.new.link) }
    {
        match self.end {
            None => self.end = Some(Served::Memory),
            Some(_) => {}
        }
    }

    /// How the service ended.
    pub fn ended(&self) -> Served
        requires { has_ended self.now.end (L.seen self.now.link) }
        ensures { HasServed (L.seen self.now.link) result }
    {
        match self.end {
            Some(end) => end,
            None => Served::Memory,
        }
    }

    /// Refuses the order that came last, which is not due.
    pub fn refuse(&mut self)
        ensures { (stage : Stage) (order : Order) → IsOpen stage
            → HasNext (L.seen self.old.link) self.old.orders stage order self.old.at
            → ((new : Stage) → ¬ IsTaken stage order new)
            → has_ended self.new.end (L.seen self.new.link) }
    {
        self.end = Some(Served::BadFrame { at: self.at });
    }
}

// Receives more, which it waits for or not. False where nothing is there; or how the service ends.
fn hear<L: Link>(
    link: &mut L,
    orders: &mut Assembler,
    buffer: &mut [u8],
    wait: bool,
) -> Result<bool, Served>
    requires { 0 < length buffer.old }
    ensures heard { (stage : Stage) → IsOpen stage
        → StandsOn (L.seen link.old) orders.old stage
        → MatchResult result
        (λ more. StandsOn (L.seen link.new) orders.new stage)
        (HasServed (L.seen link.new)) }
    ensures nothing { IfOk result (λ more. more ≡ false → wait ≡ false) }
{
    match link.read(buffer, wait) {
        Ok(Got::Bytes(n)) => match orders.feed(&buffer[..n]) {
            Ok(()) => Ok(true),
            Err(_) => Err(Served::Memory),
        },
        Ok(Got::Nothing) => Ok(false),
        Ok(Got::End) | Err(_) => Err(Served::LinkFault),
    }
}
