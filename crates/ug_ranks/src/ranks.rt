ghost use Rattle.std.specs.Prelude.{◌≡◌, ◌<◌, ◌^◌, [], length, replicate, slice_set, IfOk, OnOk, OnErr};
ghost use Rattle.ug_ranks.specs.declared.state.Off.TheVariants.{Died};
ghost use Rattle.ug_ranks.specs.declared.state.State.TheVariants.{Absent, Active, Dead, Idle, Racing};
ghost use Rattle.ug_ranks.specs.States.{IsRacing, held_by, state_at};
ghost use Rattle.ug_ranks.specs.Looks.{taken_at};
ghost use Rattle.ug_ranks.specs.Changes.{asked_for, grown, joined, noted, racer_of, won, work_of};

use crate::state::{Assignment, Off, Racer, State, Work};
use std::alloc::{AllocError, Global};
use std::marker::Model;
use std::mem;
use ug_branch::Params;
use ug_nodes::{Hands, Node, Ticket};
use ug_rows::IntBox;

/// The states of all ranks.
#[derive(Drop)]
pub struct Ranks {
    states: Vec<State>,
    // No hands, to be lent where a rank has none.
    none: Hands,
}

impl Model for Ranks {
    ghost use Rattle.std.specs.Prelude.{◌≡◌, List, [], ◌<◌, ◌^◌, length};
    ghost use Rattle.ug_ranks.specs.declared.state.State.{State};

    ghost Value = { List State };

    ghost view = { λ ranks. ranks.states.items };

    ghost invariant = { λ ranks. (length ranks.states.items < 2 ^ 32) × (ranks.none ≡ []) };
}

impl Ranks {
    /// This many ranks, all of them absent.
    pub fn new(alloc: Global, n: u32) -> Result<Ranks, AllocError>
        ensures { IfOk result (λ ranks. ranks ≡ replicate n Absent) }
    {
        let states = absent(alloc, n)?;
        Ok(Ranks {
            states,
            none: Hands::new(alloc),
        })
    }

    /// The states of all ranks, in order.
    pub fn as_slice(&self) -> &[State]
        ensures value { result.now ≡ self.now }
        ensures count { length self.now < 2 ^ 32 }
    {
        self.states.as_slice()
    }

    /// The state of a rank.
    pub fn state(&self, rank: u32) -> &State
        requires { rank < length self.now }
        ensures { result.now ≡ state_at self.now rank }
    {
        &self.states[rank as usize]
    }

    /// The boxes of the hands that were taken from a rank under its ticket, in order.
    pub fn taken(&self, rank: u32) -> &Hands
        requires { rank < length self.now }
        ensures { result.now ≡ taken_at (state_at self.now rank) }
    {
        match &self.states[rank as usize] {
            State::Active(work) => &work.taken,
            State::Absent | State::Idle | State::Racing(_) | State::Dead(_) => &self.none,
        }
    }

    /// A rank that is absent or dead becomes idle. At any other state nothing changes.
    pub fn idle(&mut self, rank: u32)
        requires { rank < length self.old }
        ensures { self.new ≡ slice_set self.old rank (joined (state_at self.old rank)) }
    {
        join(&mut self.states[rank as usize]);
    }

    /// An idle rank works on this.
    pub fn give(&mut self, rank: u32, given: Assignment)
        requires there { rank < length self.old }
        requires idle { state_at self.old rank ≡ Idle }
        ensures { self.new ≡ slice_set self.old rank
            (Active (work_of given.ticket given.node given.floor given.params)) }
    {
        let work = Work {
            ticket: given.ticket,
            node: given.node,
            floor: given.floor,
            params: given.params,
            taken: Hands::new(*self.states.allocator()),
            open: 0,
            reported: 0,
            asked: 0,
        };
        self.states[rank as usize] = State::Active(work);
    }

    /// An idle rank takes part in a race.
    pub fn race(&mut self, rank: u32, ticket: Ticket, params: Params)
        requires there { rank < length self.old }
        requires idle { state_at self.old rank ≡ Idle }
        ensures { self.new ≡ slice_set self.old rank (Racing (racer_of ticket params)) }
    {
        let racer = Racer {
            ticket,
            params,
            open: 0,
            floor: 0,
        };
        self.states[rank as usize] = State::Racing(racer);
    }

    /// The race is over, and the node with this floor is a racer's own: it works on under its
    /// ticket, with its params and its last report.
    pub fn win(&mut self, rank: u32, node: Node, floor: i128)
        requires there { rank < length self.old }
        requires racing { IsRacing (state_at self.old rank) }
        ensures { self.new ≡ slice_set self.old rank (won node floor (state_at self.old rank)) }
    {
        let taken = Hands::new(*self.states.allocator());
        crown(&mut self.states[rank as usize], node, floor, taken);
    }

    /// The rank is idle; the node that it worked on with its floor, if it did.
    pub fn free(&mut self, rank: u32) -> Option<(Node, i128)>
        requires { rank < length self.old }
        ensures states { self.new ≡ slice_set self.old rank Idle }
        ensures node { result ≡ held_by (state_at self.old rank) }
    {
        node_in(mem::replace(&mut self.states[rank as usize], State::Idle))
    }

    /// The rank is dead; the node that it worked on with its floor, if it did.
    pub fn kill(&mut self, rank: u32) -> Option<(Node, i128)>
        requires { rank < length self.old }
        ensures states { self.new ≡ slice_set self.old rank (Dead Died) }
        ensures node { result ≡ held_by (state_at self.old rank) }
    {
        node_in(mem::replace(&mut self.states[rank as usize], State::Dead(Off::Died)))
    }

    /// A rank that works or races reported this many open nodes, and their least floor. At any
    /// other state nothing changes.
    pub fn note(&mut self, rank: u32, open: u64, floor: i128)
        requires { rank < length self.old }
        ensures { self.new ≡ slice_set self.old rank (noted «open» floor (state_at self.old rank)) }
    {
        note_report(&mut self.states[rank as usize], open, floor);
    }

    /// A rank that works is asked for this many hands, or for none any more. At any other state
    /// nothing changes.
    pub fn ask(&mut self, rank: u32, count: u32)
        requires { rank < length self.old }
        ensures { self.new ≡ slice_set self.old rank (asked_for count (state_at self.old rank)) }
    {
        note_asked(&mut self.states[rank as usize], count);
    }

    /// A rank that works handed this box: it is the last of those taken, and one hand fewer is
    /// asked, if any was. At any other state nothing changes. After an error nothing has changed.
    pub fn take(&mut self, rank: u32, area: &IntBox) -> Result<(), AllocError>
        requires { rank < length self.old }
        ensures ok { OnOk result
            (self.new ≡ slice_set self.old rank (grown area.now (state_at self.old rank))) }
        ensures err { OnErr result (self.new ≡ self.old) }
    {
        take_box(&mut self.states[rank as usize], area)
    }
}

// This many states of ranks that have not joined.
fn absent(alloc: Global, n: u32) -> Result<Vec<State>, AllocError>
    ensures items { IfOk result (λ states. states.items ≡ replicate n Absent) }
    ensures len { IfOk result (λ states. length states.items ≡ n) }
{
    let mut states = Vec::with_capacity(alloc, n as usize)?;
    for _ in 0..n {
        states.push(State::Absent)?;
    }
    Ok(states)
}

fn join(state: &mut State)
    ensures { state.new ≡ joined state.old }
{
    if matches!(state, State::Absent | State::Dead(_)) {
        *state = State::Idle;
    }
}

// A racer works on the node, with no box taken.
fn crown(state: &mut State, node: Node, floor: i128, taken: Hands)
    requires racing { IsRacing state.old }
    requires none { taken ≡ [] }
    ensures { state.new ≡ won node floor state.old }
{
    if let State::Racing(racer) = state {
        let work = Work {
            ticket: racer.ticket,
            node,
            floor,
            params: racer.params,
            taken,
            open: racer.open,
            reported: racer.floor,
            asked: 0,
        };
        *state = State::Active(work);
    }
}

fn node_in(state: State) -> Option<(Node, i128)>
    ensures { result ≡ held_by state }
{
    match state {
        State::Active(work) => Some((work.node, work.floor)),
        State::Absent | State::Idle | State::Racing(_) | State::Dead(_) => None,
    }
}

fn note_report(state: &mut State, open: u64, floor: i128)
    ensures { state.new ≡ noted «open» floor state.old }
{
    match state {
        State::Active(work) => {
            work.open = open;
            work.reported = floor;
        }
        State::Racing(racer) => {
            racer.open = open;
            racer.floor = floor;
        }
        State::Absent | State::Idle | State::Dead(_) => {}
    }
}

fn note_asked(state: &mut State, count: u32)
    ensures { state.new ≡ asked_for count state.old }
{
    if let State::Active(work) = state {
        work.asked = count;
    }
}

fn take_box(state: &mut State, area: &IntBox) -> Result<(), AllocError>
    ensures ok { OnOk result (state.new ≡ grown area.now state.old) }
    ensures err { OnErr result (state.new ≡ state.old) }
{
    if let State::Active(work) = state {
        work.taken.push(area)?;
        work.asked = work.asked.saturating_sub(1);
    }
    Ok(())
}
