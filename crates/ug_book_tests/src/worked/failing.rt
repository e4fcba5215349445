//! A crew of workers of which a call fails, or a rank is lost, wants memory or says what is no
//! report. It costs that rank's work and nothing else, but for a turn that fails, which no rank
//! outlives.

ghost use Rattle.std.specs.Prelude.{◌≡◌, IfSome};
ghost use Rattle.ug_io.specs.Crews.{IsAlive};
ghost use Rattle.ug_io.specs.Outside.{Rose};
ghost use Rattle.ug_book.specs.Openings.{IsOpening};

use crate::coordinated::empty_disk;
use crate::expect::holds;
use crate::worked::points::has_found;
use crate::worked::texts::KNAPSACK;
use crate::worked::ways::{Visits, Way, push_visits, settings_of};
use std::alloc::Global;
use std::sync::Wait;
use ug_book::Opening;
use ug_coord::{Coordinated, coordinate};
use ug_io::{Came, Crew, Failed};
use ug_model::{Visit, WorkerCrew};
use ug_mps::read;
use ug_problem::Shared;
use ug_restart::{End, Host, Unobserved};

/// The fault of a crew of workers.
#[derive(Clone, Copy)]
enum Wrong {
    /// The call of this number fails: a launch, a message or a turn.
    Call { number: u64 },
    /// The rank is lost in the turn of this number, and what its worker reported is not received.
    Gone { rank: u32, turn: u64 },
    /// The rank's worker wants memory from the turn of this number on.
    Wants { rank: u32, turn: u64 },
    /// What comes from the rank are zeros, which are no report.
    Zeros { rank: u32 },
}

impl Wrong {
    // The same, in the call or the turn of this number.
    fn at(self, number: u64) -> Wrong {
        match self {
            Wrong::Call { .. } => Wrong::Call { number },
            Wrong::Gone { rank, .. } => Wrong::Gone { rank, turn: number },
            Wrong::Wants { rank, .. } => Wrong::Wants { rank, turn: number },
            Wrong::Zeros { rank } => Wrong::Zeros { rank },
        }
    }
}

/// A crew of workers with which something is wrong. It reports nothing of bytes.
#[derive(Drop)]
struct WrongCrew<'a> {
    workers: WorkerCrew<'a>,
    wrong: Wrong,
    calls: u64,
    turns: u64,
    faults: u64,
    // Whether a turn failed.
    broke: bool,
    is_finished: bool,
}

impl<'a> WrongCrew<'a> {
    ghost use Rattle.ug_model.specs.WorkerCrews.{crew_seen};

    fn new(workers: WorkerCrew<'a>, wrong: Wrong) -> WrongCrew<'a>
        ensures { result.workers ≡ workers.entry }
    {
        WrongCrew {
            workers,
            wrong,
            calls: 0,
            turns: 0,
            faults: 0,
            broke: false,
            is_finished: false,
        }
    }

    // One fault more.
    fn fail(&mut self) -> Failed
        ensures faults { Rose self.old.faults self.new.faults }
        ensures same { self.new.workers ≡ self.old.workers }
    {
        self.faults = self.faults.saturating_add(1);
        Failed
    }

    // Whether the next call fails.
    fn is_wrong(&mut self) -> bool
        ensures { self.new ≡ record self.old { calls = self.new.calls } }
    {
        self.calls = self.calls.saturating_add(1);
        match self.wrong {
            Wrong::Call { number } => number == self.calls,
            _ => false,
        }
    }

    // The rank that is lost in the next turn.
    fn lost(&mut self) -> Option<u32>
        ensures same { self.new ≡ record self.old { turns = self.new.turns } }
        ensures alive { IfSome result (IsAlive (crew_seen self.new.workers)) }
    {
        self.turns = self.turns.saturating_add(1);
        match self.wrong {
            Wrong::Gone { rank, turn } if turn == self.turns && self.workers.is_alive(rank) => {
                Some(rank)
            }
            _ => None,
        }
    }

    // Lets a worker want memory, where that is due in this turn.
    fn inject_out_of_memory(&mut self)
        ensures seen { crew_seen self.new.workers ≡ crew_seen self.old.workers }
        ensures faults { self.new.faults ≡ self.old.faults }
    {
        match self.wrong {
            Wrong::Wants { rank, turn } if turn == self.turns => self
                .workers
                .inject_out_of_memory(rank),
            _ => {}
        }
    }

    // Puts zeros in the place of what came from the rank, if these are what comes from it.
    fn spoil(&self, rank: u32, buffer: &mut [u8]) {
        match self.wrong {
            Wrong::Zeros { rank: one } if one == rank => buffer.fill(0),
            _ => {}
        }
    }
}

impl Crew for WrongCrew<'_> {
    ghost use Rattle.std.specs.Prelude.{None};
    ghost use Rattle.ug_model.specs.WorkerCrews.{crew_seen};

    ghost seen = { λ c. record {
      said = None;
      lives = (crew_seen c.workers).lives;
      faults = c.faults;
    } };

    ghost finished = { λ c. c.is_finished };

    fn is_alive(&self, rank: u32) -> bool {
        self.workers.is_alive(rank)
    }

    fn launch(&mut self, rank: u32) -> Result<(), Failed> {
        if self.is_wrong() {
            return Err(self.fail());
        }
        match self.workers.launch(rank) {
            Ok(()) => Ok(()),
            Err(_) => Err(self.fail()),
        }
    }

    fn turn(&mut self, buffer: &mut [u8]) -> Result<Came, Failed> {
        if self.is_wrong() {
            self.broke = true;
            return Err(self.fail());
        }
        if let Some(rank) = self.lost() {
            self.workers.shut(rank);
            self.fail();
            return Ok(Came::Gone { rank });
        }
        self.inject_out_of_memory();
        match self.workers.turn(buffer) {
            Ok(Came::Bytes { rank, count }) => {
                self.spoil(rank, buffer);
                Ok(Came::Bytes { rank, count })
            }
            Ok(Came::Gone { rank }) => {
                self.fail();
                Ok(Came::Gone { rank })
            }
            Err(_) => {
                self.broke = true;
                Err(self.fail())
            }
        }
    }

    fn send(&mut self, rank: u32, bytes: &[u8]) -> Result<(), Failed> {
        if self.is_wrong() {
            return Err(self.fail());
        }
        match self.workers.send(rank, bytes) {
            Ok(()) => Ok(()),
            Err(_) => Err(self.fail()),
        }
    }

    fn shut(&mut self, rank: u32) {
        self.workers.shut(rank);
    }

    fn finish(&mut self) {
        self.is_finished = true;
    }
}

// Two workers, of which a few bytes are received at once.
const TWO: Way = Way {
    solvers: 2,
    racing: false,
    gap: 0,
    low: 2,
    high: 3,
    visits: Visits::LateReports,
};

// The least value of the knapsack.
const LEAST: i128 = -13;

// Whether a run of the knapsack ended as it has to.
fn has_ended(opening: &Opening, end: &End, broke: bool) -> bool {
    if broke {
        return matches!(end, End::Stranded(_));
    }
    has_found(opening.problem.problem(), end, Some(LEAST), 0)
}

// How many faults there are in a run that ends as it has to, with a crew that is visited so.
fn faults_by<R: Wait>(
    rt: &R,
    alloc: Global,
    opening: &Opening,
    schedule: &[Visit],
    wrong: Wrong,
) -> Option<u64>
    requires { IsOpening opening.now }
{
    let Ok(workers) = WorkerCrew::new(alloc, opening.settings.solvers, schedule) else {
        return None;
    };
    let crew = WrongCrew::new(workers, wrong);
    let mut disk = empty_disk(alloc);
    let host = Host {
        rt,
        alloc,
        observer: &Unobserved,
    };
    let Coordinated { crew, outcome } = coordinate(&host, opening, None, &mut disk, crew);
    drop(disk);
    let broke = crew.broke;
    let faults = crew.faults;
    drop(crew);
    let so = has_ended(opening, &outcome.end, broke);
    drop(outcome);
    if so { Some(faults) } else { None }
}

// The same in this way.
fn faults_of<R: Wait>(rt: &R, alloc: Global, way: Way, wrong: Wrong) -> Option<u64> {
    let settings = settings_of(way)?;
    let Ok(problem) = read(alloc, KNAPSACK, None) else {
        return None;
    };
    let Ok(opening) = Opening::new(alloc, Shared::own(problem), 1, settings) else {
        return None;
    };
    let mut schedule = Vec::new(alloc);
    let found = if push_visits(&mut schedule, way) {
        faults_by(rt, alloc, &opening, &schedule, wrong)
    } else {
        None
    };
    drop(schedule);
    drop(opening);
    found
}

// Whether it ends so in whichever call or turn it is wrong, of more than this many.
fn outlives_each<R: Wait>(rt: &R, alloc: Global, way: Way, wrong: Wrong, many: u64) -> bool {
    for number in 1..1000 {
        match faults_of(rt, alloc, way, wrong.at(number)) {
            Some(0) => return many < number,
            Some(_) => {}
            None => return false,
        }
    }
    false
}

// In how many of this many turns the rank is lost since its worker wants memory, if each run ends
// so.
fn lost_in<R: Wait>(rt: &R, alloc: Global, way: Way, rank: u32, turns: u64) -> Option<u64> {
    let mut lost = 0u64;
    for turn in 0..turns {
        if faults_of(rt, alloc, way, Wrong::Wants { rank, turn })? > 0 {
            lost = lost.saturating_add(1);
        }
    }
    Some(lost)
}

#[test]
fn each_call_of_a_crew_of_workers_fails_in_turn(rt: HostRuntime) {
    for racing in [false, true] {
        let way = Way { racing, ..TWO };
        let wrong = Wrong::Call { number: 1 };
        holds(&rt, outlives_each(&rt, rt.alloc(), way, wrong, 30));
    }
}

#[test]
fn a_rank_is_gone_in_each_turn_or_says_what_is_no_report(rt: HostRuntime) {
    for racing in [false, true] {
        let way = Way { racing, ..TWO };
        for rank in 0..2 {
            let gone = Wrong::Gone { rank, turn: 1 };
            holds(&rt, outlives_each(&rt, rt.alloc(), way, gone, 20));
            let zeros = faults_of(&rt, rt.alloc(), way, Wrong::Zeros { rank });
            holds(&rt, zeros.is_some());
        }
    }
}

#[test]
fn a_worker_wants_memory_in_each_turn(rt: HostRuntime) {
    for racing in [false, true] {
        let way = Way {
            racing,
            visits: Visits::ByteByByte,
            ..TWO
        };
        for rank in 0..2 {
            let lost = lost_in(&rt, rt.alloc(), way, rank, 60);
            holds(&rt, lost.unwrap_or(0) > 4);
        }
    }
}
