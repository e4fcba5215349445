//! A worker over any seat.

ghost use Rattle.std.specs.Prelude.{◌≡◌, None, IfErr, OnOk};
ghost use Rattle.ug_worker.specs.Engagements.{HasBegun};
ghost use Rattle.ug_worker.specs.Releases.{begun, fresh};
ghost use Rattle.ug_worker.specs.Workers.{EndsAs, HasPaced, IsAtWork, StandsAt};

use crate::pace::Pace;
use crate::round_count::{ReleasePolicy, RoundCount};
use crate::search::{Asked, Left, Search};
use crate::seat::Seat;
use crate::took::Took;
use std::sync::Wait;
use ug_base::Task;

/// Works until no node is held, the limit of reports is reached, or memory runs out. Tasks are
/// released by the rule `policy`, or never.
pub fn work<R: Wait, S: Seat>(rt: &R, seat: &mut S, policy: Option<ReleasePolicy>)
    requires { S.at seat.old (fresh policy) None }
    ensures over { S.over seat.new }
    ensures home { S.home seat.new ≡ S.home seat.old }
{
    let mut worker = Worker::new(policy);
    for _ in rt.forever() {
        match worker.step(seat) {
            Pace::On => {}
            Pace::Waits => {
                if !seat.rest() {
                    drop(worker);
                    return;
                }
            }
            Pace::Over => {
                drop(worker);
                return;
            }
        }
    }
    unreachable!()
}

/// A worker: its rounds, and its task, if it has one.
#[derive(Drop)]
pub struct Worker {
    /// The rounds made.
    pub round_count: RoundCount,
    /// The task, if there is one.
    pub search: Option<Search>,
}

impl Worker {
    /// Returns a worker without rounds and without a task. It releases tasks by the rule `policy`,
    /// or never.
    pub fn new(policy: Option<ReleasePolicy>) -> Worker
        ensures { result ≡ record { round_count = fresh policy; search = None } }
    {
        Worker {
            round_count: RoundCount::new(policy),
            search: None,
        }
    }

    /// Asks for work if it has no task, and otherwise makes a round of steps.
    pub fn step<S: Seat>(&mut self, seat: &mut S) -> Pace
        requires { IsAtWork (S.at seat.old) self.old.round_count self.old.search }
        ensures paced { HasPaced (S.at seat.new)
            (S.over seat.new) self.new.round_count self.new.search result }
        ensures home { S.home seat.new ≡ S.home seat.old }
    {
        match self.search.take() {
            Some(search) => self.go_on(seat, search),
            None => self.take(seat),
        }
    }

    // Makes a round of steps.
    fn go_on<S: Seat>(&mut self, seat: &mut S, mut search: Search) -> Pace
        requires { StandsAt (S.at seat.old search.round_count) search.task 0 search.asked }
        ensures paced { HasPaced (S.at seat.new)
            (S.over seat.new) self.new.round_count self.new.search result }
        ensures home { S.home seat.new ≡ S.home seat.old }
    {
        let went = search.round(seat);
        self.keep(seat, search, went)
    }

    // Asks for work.
    fn take<S: Seat>(&mut self, seat: &mut S) -> Pace
        requires at { S.at seat.old self.old.round_count None }
        requires none { self.old.search ≡ None }
        ensures paced { HasPaced (S.at seat.new)
            (S.over seat.new) self.new.round_count self.new.search result }
        ensures home { S.home seat.new ≡ S.home seat.old }
    {
        match seat.take() {
            Ok(Took::Work(task)) => self.begin(seat, task),
            Ok(Took::Wait) => Pace::Waits,
            Ok(Took::Over) => Pace::Over,
            Err(_) => {
                seat.leave();
                Pace::Over
            }
        }
    }

    // Begins a task.
    fn begin<S: Seat>(&mut self, seat: &mut S, task: Task) -> Pace
        requires { HasBegun (S.at seat.old (begun self.old.round_count)) task }
        ensures paced { HasPaced (S.at seat.new)
            (S.over seat.new) self.new.round_count self.new.search result }
        ensures home { S.home seat.new ≡ S.home seat.old }
    {
        self.round_count.begin();
        let mut search = Search {
            task,
            round_count: self.round_count,
            asked: Asked {
                count: 0,
                racing: true,
            },
        };
        let begun = search.begin(seat);
        self.keep(seat, search, begun)
    }

    // Keeps the task, or leaves one that has ended.
    fn keep<S: Seat>(&mut self, seat: &mut S, search: Search, went: Result<(), Left>) -> Pace
        requires ok { OnOk went
            (StandsAt (S.at seat.old search.round_count) search.task 0 search.asked) }
        requires err { IfErr went
            (λ left. EndsAs (S.at seat.old) search.round_count left search.task) }
        ensures paced { HasPaced (S.at seat.new)
            (S.over seat.new) self.new.round_count self.new.search result }
        ensures home { S.home seat.new ≡ S.home seat.old }
    {
        self.round_count = search.round_count;
        match went {
            Ok(()) => {
                drop(self.search.replace(search));
                Pace::On
            }
            Err(left) => {
                let Search { task, .. } = search;
                drop(self.search.take());
                self.leave(seat, task, left)
            }
        }
    }

    // Leaves a task.
    fn leave<S: Seat>(&self, seat: &mut S, task: Task, left: Left) -> Pace
        requires { EndsAs (S.at seat.old) self.now.round_count left task }
        ensures paced { HasPaced (S.at seat.new)
            (S.over seat.new) self.now.round_count None result }
        ensures home { S.home seat.new ≡ S.home seat.old }
    {
        match left {
            Left::Nothing => {
                seat.done(task);
                Pace::On
            }
            Left::Dropped => {
                drop(task);
                Pace::On
            }
            Left::Wanting => {
                seat.give_up(task);
                Pace::Over
            }
        }
    }
}
