//! A worker that releases its task, at a seat in memory that notes what it is sent and asks for
//! nothing; and one whose seat knows of a cutoff, or has a task dropped behind its point. By hand,
//! of the stairs (served/stairs.rt): the first round finds a point and leaves three boxes, the
//! second finds one and leaves five. The third branches 13 times on b and 15 times on c, finds the
//! point with a = 9, drops the 30 boxes left of it, branches a from 6..8 into 8 and then b four
//! times: 64 steps, and seven boxes are left. No value is below -65534.

ghost use Rattle.std.specs.Prelude.{◌≡◌, None};

use crate::expect::holds_at;
use crate::served::stairs::STAIRS;
use crate::tasks::task_of;
use std::alloc::{AllocError, Global};
use std::sync::Wait;
use ug_base::Task;
use ug_branch::Params;
use ug_mps::read;
use ug_nodes::{Hands, Walk};
use ug_rows::{IntBox, Interval, Point};
use ug_worker::{ReleasePolicy, Reply, Seat, Took, Untaken, cutoff_of_point, work};

// A seat with one task to give.
#[derive(Drop)]
struct Notebook {
    task: Option<Task>,
    // After how many reports of what is left the race is won.
    race: u64,
    states: u64,
    // The number of the hand for which there is no memory.
    refused: u64,
    // A cutoff that is known without a report.
    known: Option<i128>,
    // Whether a task is to be dropped behind its point.
    drops: bool,
    // A letter for each call.
    told: Vec<u8>,
    // Whether the boxes that the task handed are those by hand.
    is_handed: bool,
}

impl Notebook {
    fn note(&mut self, letter: u8) {
        drop(self.told.push(letter));
    }

    fn next(&mut self) -> Took {
        match self.task.take() {
            Some(task) => Took::Work(task),
            None => Took::Over,
        }
    }

    fn reply(&self) -> Reply
        ensures { result.cutoff ≡ None }
    {
        Reply {
            cutoff: None,
            collect: 0,
            stop: false,
            racing: self.states < self.race,
        }
    }
}

impl Seat for Notebook {
    ghost at = { λ seat round_count some. Unit {0} };

    ghost over = { λ seat. Unit {0} };

    type Home = u64;

    ghost home = { λ seat. 0 };

    fn take(&mut self) -> Result<Took, Untaken> {
        let took = self.next();
        Ok(took)
    }

    fn look(&mut self) -> Reply {
        self.reply()
    }

    fn cutoff(&mut self) -> Option<i128> {
        cutoff_of_point(self.known)
    }

    fn solution(&mut self, point: Point) -> bool {
        drop(point);
        self.note(b'P');
        !self.drops
    }

    fn hand(&mut self, number: u64, area: &IntBox) -> Result<(), AllocError> {
        let _area = area;
        self.note(b'H');
        if number == self.refused {
            return Err(AllocError);
        }
        Ok(())
    }

    fn state(&mut self, left: u64, floor: i128) -> Result<Reply, AllocError> {
        let _left = left;
        let _floor = floor;
        self.note(b'S');
        self.states = self.states.saturating_add(1);
        let reply = self.reply();
        Ok(reply)
    }

    fn done(&mut self, task: Task) {
        self.is_handed = are_by_hand(task.handed());
        drop(task);
        self.note(b'D');
    }

    fn give_up(&mut self, task: Task) {
        drop(task);
        self.note(b'G');
    }

    fn leave(&mut self) {
        self.note(b'L');
    }

    fn rest(&mut self) -> bool {
        false
    }
}

const FULL: Interval = Interval {
    low: 0,
    high: 32767,
};

// a and b of the boxes that the second round leaves; their c is full.
const BY_HAND: [[Interval; 2]; 5] = [
    [Interval { low: 0, high: 5 }, FULL],
    [Interval { low: 6, high: 8 }, FULL],
    [
        Interval { low: 9, high: 9 },
        Interval {
            low: 0,
            high: 16383,
        },
    ],
    [
        Interval { low: 9, high: 9 },
        Interval {
            low: 16384,
            high: 24575,
        },
    ],
    [
        Interval { low: 9, high: 9 },
        Interval {
            low: 24576,
            high: 32767,
        },
    ],
];

// Whether these are the boxes that the second round leaves.
fn are_by_hand(handed: &Hands) -> bool {
    let mut walk = handed.walk();
    let is_so = walks_by_hand(&mut walk);
    drop(walk);
    is_so
}

fn walks_by_hand(walk: &mut Walk) -> bool {
    for [a, b] in BY_HAND {
        if !matches!(walk.step(), Ok(true)) || walk.area() != [a, b, FULL].as_slice() {
            return false;
        }
    }
    matches!(walk.step(), Ok(false))
}

// The task of all of the stairs, upper halves first.
fn task(alloc: Global) -> Option<Task> {
    task_of(alloc, read(alloc, STAIRS, None).ok()?, 3, Params::new(4), 0)
}

// A task that is released after this many rounds at the least, and whatever part of all they are;
// after how many the race is won; for which hand there is no memory; which cutoff is known without
// a report, and whether a task is dropped behind its point; what is reported, and whether the boxes
// handed are those by hand.
#[derive(Clone, Copy)]
struct Case {
    rounds: u64,
    race: u64,
    refused: u64,
    known: Option<i128>,
    drops: bool,
    told: &'static [u8],
    is_handed: bool,
}

const DUE_AT_ONCE: Case = Case {
    rounds: 1,
    race: 0,
    refused: u64::MAX,
    known: None,
    drops: false,
    told: b"PSPHHHHHD",
    is_handed: true,
};

const CASES: &[Case] = &[
    DUE_AT_ONCE,
    Case {
        race: 1,
        ..DUE_AT_ONCE
    },
    Case {
        rounds: 2,
        told: b"PSPSPHHHHHHHD",
        is_handed: false,
        ..DUE_AT_ONCE
    },
    Case {
        race: 2,
        told: b"PSPSPHHHHHHHD",
        is_handed: false,
        ..DUE_AT_ONCE
    },
    Case {
        refused: 2,
        told: b"PSPHHHG",
        is_handed: false,
        ..DUE_AT_ONCE
    },
    Case {
        known: Some(-65534),
        told: b"D",
        is_handed: false,
        ..DUE_AT_ONCE
    },
    Case {
        drops: true,
        told: b"P",
        is_handed: false,
        ..DUE_AT_ONCE
    },
];

// Whether a worker that searches the stairs says that, and hands these boxes.
fn is_so<R: Wait>(rt: &R, alloc: Global, case: &Case) -> bool {
    let Some(task) = task(alloc) else {
        return false;
    };
    let mut seat = Notebook {
        task: Some(task),
        race: case.race,
        states: 0,
        refused: case.refused,
        known: case.known,
        drops: case.drops,
        told: Vec::new(alloc),
        is_handed: false,
    };
    let policy = ReleasePolicy {
        rounds: case.rounds,
        part: 1,
    };
    work(rt, &mut seat, Some(policy));
    let is_so = seat.told.as_slice() == case.told && seat.is_handed == case.is_handed;
    drop(seat);
    is_so
}

#[test]
fn releases_when_due(rt: HostRuntime) {
    for case in CASES {
        holds_at(&rt, is_so(&rt, rt.alloc(), case), &case.told);
    }
}
