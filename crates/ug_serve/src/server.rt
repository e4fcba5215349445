//! A worker at a link that is moved call by call, and never waits unless it is sent to.

ghost use Rattle.std.specs.Prelude.{◌≡◌, ◌<◌, None, Some, length};
ghost use Rattle.ug_problem.specs.Better.{IsGap};
ghost use Rattle.ug_frames.specs.declared.order.Order.TheVariants.{Setup};
ghost use Rattle.ug_serve.specs.Actions.{Blank, SetUp};
ghost use Rattle.ug_serve.specs.Traces.{IsFresh};
ghost use Rattle.ug_serve.specs.Serving.{HasNext, has_ended, stands_as};
ghost use Rattle.ug_worker.specs.Releases.{fresh, usual};
ghost use Rattle.ug_serve.specs.SeatViews.{seat_seen};
ghost use Rattle.ug_serve.specs.Seats.{IsSeated};
ghost use Rattle.ug_serve.specs.Servers.{HasMoved, IsBusyAs, IsServer, is_server};

use crate::kept::Kept;
use crate::link_seat::LinkSeat;
use crate::served::Served;
use crate::wire::Wire;
use std::alloc::Global;
use ug_frames::{Order, Report};
use ug_io::Link;
use ug_lists::Bytes;
use ug_nodes::Ticket;
use ug_problem::{Problem, Shared};
use ug_records::{RecordError, from_record};
use ug_worker::{Pace, ReleasePolicy, Worker};

/// How a worker at a link continues behind a step.
#[derive(Clone, Copy, PartialEq, Eq)]
pub enum Progress {
    /// It has something to do, or may find it.
    GoesOn,
    /// It has nothing to do before an order comes.
    Waits,
    /// Its service has ended.
    Ended(Served),
}

/// A worker at a link behind a step, and how it continues.
#[derive(Drop)]
pub struct Moved<L> {
    pub progress: Progress,
    pub server: Server<L>,
}

/// A worker whose coordinator is at the other end of a link: it receives the problem, then searches
/// each box that is ordered, until the end is ordered.
#[derive(Drop)]
pub struct Server<L> {
    pub alloc: Global,
    /// What it has once the problem is there.
    pub post: Option<Post>,
    pub wire: Wire<L>,
}

/// What a worker at a link has once the problem is there.
#[derive(Drop)]
pub struct Post {
    pub kept: Kept,
    pub worker: Worker,
}

impl<L: Link + Drop> Server<L> {
    /// A worker at a link over which nothing was said yet, which is read into this buffer.
    pub fn new(alloc: Global, link: L, input: Vec<u8>) -> Server<L>
        requires fresh { IsFresh (L.seen link) }
        requires room { 0 < length input.items }
        ensures server { IsServer L.seen result }
        ensures link { result.wire.link ≡ link }
    {
        Server {
            alloc,
            wire: Wire::new(alloc, link, input),
            post: None,
        }
    }

    /// Takes the orders that are there, makes a round of steps where it has a task, and says what
    /// it has to send. It does not wait.
    pub fn step(self) -> Moved<L>
        requires { IsServer L.seen self }
        ensures { HasMoved L.seen result }
    {
        if self.wire.end.is_some() {
            return self.moved(false);
        }
        let Server { alloc, wire, post } = self;
        match post {
            None => begin(alloc, wire),
            Some(post) => post.step(alloc, wire),
        }
    }

    /// Waits until an order may be there, or the link ends or fails.
    pub fn rest(&mut self)
        requires { IsServer L.seen self.old }
        ensures { IsServer L.seen self.new }
    {
        match self.wire.end {
            None => {
                self.wire.goes_on(true);
            }
            Some(_) => {}
        }
    }

    /// Lets its service end for lack of memory, unless it has ended: so it is where memory that it
    /// asks for is refused.
    pub fn inject_out_of_memory(&mut self)
        requires { IsServer L.seen self.old }
        ensures server { IsServer L.seen self.new }
        ensures link { self.new.wire.link ≡ self.old.wire.link }
    {
        match self.wire.end {
            None => self.wire.end = Some(Served::Memory),
            Some(_) => {}
        }
    }

    /// The link again.
    pub fn into_link(self) -> L
        ensures { result ≡ self.wire.link }
    {
        let Server { wire, post, .. } = self;
        drop(post);
        let Wire {
            link,
            orders,
            input,
            frame,
            ..
        } = wire;
        drop(orders);
        drop(input);
        drop(frame);
        link
    }

    // It, and how it continues.
    fn moved(self, waits: bool) -> Moved<L>
        requires { IsServer L.seen self }
        ensures { HasMoved L.seen result }
    {
        match self.wire.end {
            Some(end) => Moved {
                server: self,
                progress: Progress::Ended(end),
            },
            None if waits => Moved {
                server: self,
                progress: Progress::Waits,
            },
            None => Moved {
                server: self,
                progress: Progress::GoesOn,
            },
        }
    }
}

impl Post {
    // Makes a step.
    fn step<L: Link + Drop>(self, alloc: Global, wire: Wire<L>) -> Moved<L>
        requires on { wire.end ≡ None }
        requires post { IsBusyAs L.seen wire self }
        ensures { HasMoved L.seen result }
    {
        let Post { kept, mut worker } = self;
        let mut seat = LinkSeat { alloc, wire, kept };
        let pace = worker.step(&mut seat);
        let LinkSeat { wire, kept, .. } = seat;
        posted(alloc, wire, Post { kept, worker }, pace == Pace::Waits)
    }
}

// Takes the first order, if it is there.
fn begin<L: Link + Drop>(alloc: Global, mut wire: Wire<L>) -> Moved<L>
    requires { stands_as wire.end (L.seen wire.link) wire.orders Blank }
    ensures { HasMoved L.seen result }
{
    let Some(order) = wire.next() else {
        return blank(alloc, wire, true);
    };
    match order {
        Order::Setup { gap, record } => set_up(alloc, wire, gap, record),
        other => {
            drop(other);
            wire.refuse();
            ended(alloc, wire)
        }
    }
}

// Reads the problem, which is ordered to be searched under this gap.
fn set_up<L: Link + Drop>(alloc: Global, mut wire: Wire<L>, gap: i128, bytes: Bytes) -> Moved<L>
    requires on { wire.end ≡ None }
    requires next { HasNext (L.seen wire.link) wire.orders Blank (Setup gap bytes) wire.at }
    ensures { HasMoved L.seen result }
{
    let read = from_record(alloc, bytes.as_slice());
    drop(bytes);
    match read {
        Ok(problem) => sit(alloc, wire, gap, problem),
        Err(why) => match why {
            RecordError::BadRecord { .. } => {
                wire.refuse();
                ended(alloc, wire)
            }
            RecordError::Memory => {
                wire.want();
                ended(alloc, wire)
            }
        },
    }
}

// Says that the problem is there.
fn sit<L: Link + Drop>(alloc: Global, mut wire: Wire<L>, gap: i128, problem: Problem) -> Moved<L>
    requires gap { IsGap gap }
    requires on { stands_as wire.end (L.seen wire.link) wire.orders (SetUp (record { problem = problem; gap = gap })) }
    ensures { HasMoved L.seen result }
{
    let Ok(problem) = Shared::own(problem).into_counted(alloc) else {
        wire.want();
        return ended(alloc, wire);
    };
    wire.tell(Report::Ready);
    let kept = Kept {
        problem,
        gap,
        ticket: Ticket { run: 1, number: 1 },
        racing: false,
        asked: 0,
    };
    seated(alloc, wire, kept)
}

// With no task yet.
fn seated<L: Link + Drop>(alloc: Global, wire: Wire<L>, kept: Kept) -> Moved<L>
    requires { IsSeated (seat_seen L.seen wire kept) (fresh (Some usual)) None }
    ensures { HasMoved L.seen result }
{
    let worker = Worker::new(Some(ReleasePolicy::usual()));
    posted(alloc, wire, Post { kept, worker }, false)
}

// The problem is there.
fn posted<L: Link + Drop>(alloc: Global, wire: Wire<L>, post: Post, waits: bool) -> Moved<L>
    requires { is_server L.seen wire.end (Some post) wire }
    ensures { HasMoved L.seen result }
{
    let server = Server {
        alloc,
        wire,
        post: Some(post),
    };
    server.moved(waits)
}

// No problem came yet.
fn blank<L: Link + Drop>(alloc: Global, wire: Wire<L>, waits: bool) -> Moved<L>
    requires { stands_as wire.end (L.seen wire.link) wire.orders Blank }
    ensures { HasMoved L.seen result }
{
    let server = Server {
        alloc,
        wire,
        post: None,
    };
    server.moved(waits)
}

// None came, nor will one.
fn ended<L: Link + Drop>(alloc: Global, wire: Wire<L>) -> Moved<L>
    requires { has_ended wire.end (L.seen wire.link) }
    ensures { HasMoved L.seen result }
{
    blank(alloc, wire, false)
}
