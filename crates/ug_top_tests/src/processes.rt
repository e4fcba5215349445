//! Runs in processes over crews and links in memory.

ghost use Rattle.std.specs.Prelude.{IfOk, IfSome};
ghost use Rattle.ug_cli.specs.Taken.{needs_of};
ghost use Rattle.ug_top.specs.Ends.{HasCrewFor};
ghost use Rattle.ug_top.specs.Outside.{seen_if};
ghost use Rattle.ug_model.specs.WorkerCrews.{crew_seen};

use crate::commands::{KNAPSACK, OPTIMUM, RUNS, is_open_or_solved, parts_of, shows_its_number};
use crate::expect::{holds_at, same_at};
use crate::running::{
    NOBODY, Partners, behind, link_of, solvers_in, sound_disk, told, told_with, words_of,
};
use std::alloc::{AllocError, Global};
use std::mem;
use std::process::Abort;
use std::sync::Wait;
use std::thread::Threads;
use ug_cli::{Plan, Usage, crossed_is_not_taken, read_words, words_tell_the_needs};
use ug_disk::MemoryDisk;
use ug_io::{MemoryLink, MemorySink, MemorySource, Piece, Script};
use ug_model::{Visit, WorkerCrew};
use ug_restart::{Host, Unobserved};
use ug_top::{Objects, Ran, run};

/// The objects of a run over workers.
type Workers<'a> = Objects<MemorySource<'a>, MemoryDisk, WorkerCrew<'a>, MemoryLink<'a>>;

// The crew of workers that a plan needs.
fn workers_of<'a>(
    alloc: Global,
    plan: Option<Plan<'_>>,
    schedule: &'a [Visit],
) -> Result<Option<WorkerCrew<'a>>, AllocError>
    ensures { IfSome plan.entry (λ p. IfOk result (λ crew.
        HasCrewFor (needs_of p).crew (seen_if crew_seen crew))) }
{
    match solvers_in(plan) {
        Some(solvers) => match WorkerCrew::new(alloc, solvers, schedule) {
            Ok(crew) => Ok(Some(crew)),
            Err(error) => Err(error),
        },
        None => Ok(None),
    }
}

// What a run of the words answers over these objects, with workers that are visited so.
fn ran_by<'a, R: Threads + Wait + Sync>(
    host: &Host<'_, R, Unobserved>,
    words: &[String],
    objects: &mut Workers<'a>,
    schedule: &'a [Visit],
    out: &mut MemorySink,
) -> Result<Ran, AllocError> {
    crossed_is_not_taken();
    words_tell_the_needs();
    let plan = match read_words(host.alloc, words) {
        Ok(plan) => Some(plan),
        Err(Usage::Memory) => return Err(AllocError),
        Err(_) => None,
    };
    let Ok(crew) = workers_of(host.alloc, plan, schedule) else {
        return Err(AllocError);
    };
    drop(mem::replace(&mut objects.crew, crew));
    let link = link_of(host.alloc, plan, NOBODY.link);
    drop(mem::replace(&mut objects.link, link));
    Ok(run(host, words, objects, out))
}

// The status of a run of the line over the knapsack and a disk, with workers that are visited so,
// and behind it what was written.
fn told_by<R: Threads + Wait + Sync>(
    rt: &R,
    alloc: Global,
    line: &str,
    schedule: &[Visit],
    disk: &mut MemoryDisk,
) -> Result<Vec<u8>, AllocError> {
    let words = words_of(alloc, line)?;
    let mut out = MemorySink::new(alloc, Script::new(Vec::new(alloc), 64));
    let mut objects = Objects {
        input: MemorySource {
            rest: KNAPSACK.as_bytes(),
        },
        disk: sound_disk(alloc),
        crew: None,
        link: None,
    };
    mem::swap(disk, &mut objects.disk);
    let observer = &Unobserved;
    let host = Host {
        rt,
        alloc,
        observer,
    };
    let ran = ran_by(&host, &words, &mut objects, schedule, &mut out);
    drop(host);
    drop(words);
    mem::swap(disk, &mut objects.disk);
    drop(objects);
    let told = match ran {
        Ok(ran) => behind(alloc, ran.status.code(), out.bytes()),
        Err(error) => Err(error),
    };
    drop(out);
    told
}

/// A visit: a rank, and how many bytes of its orders and of its reports go at most.
type Row = (u32, usize, usize);

// Each rank in its turn, with all that there is; the second one alone for a while; and few bytes.
const SCHEDULES: &[&[Row]] = &[
    &[],
    &[
        (1, 5000, 5000),
        (1, 5000, 5000),
        (1, 5000, 5000),
        (1, 5000, 5000),
        (0, 5000, 5000),
    ],
    &[
        (0, 3, 1),
        (1, 1, 1),
        (0, 1, 3),
        (2, 100, 0),
        (1, 2, 2),
        (0, 0, 1),
    ],
];

// This many times the rows.
fn visits(alloc: Global, rows: &[Row], times: usize) -> Result<Vec<Visit>, AllocError> {
    let mut visits = Vec::new(alloc);
    for _ in 0..times {
        for (rank, orders, reports) in rows {
            visits.push(Visit {
                rank: *rank,
                orders: *orders,
                reports: *reports,
            })?;
        }
    }
    Ok(visits)
}

const SOLVES: &[&str] = &[
    "solve f --mode processes",
    "solve f --mode processes --solvers 4",
    "solve f --mode processes --solvers 4 --racing",
    "solve f --mode processes --solvers 3 --low 1 --high 1 --checkpoint d --every 1",
];

// Expects a run with workers that are visited so to report the optimum.
fn tells_the_optimum<R: Threads + Wait + Sync + Abort>(
    rt: &R,
    alloc: Global,
    line: &str,
    schedule: &[Visit],
) {
    let mut disk = sound_disk(alloc);
    let told = told_by(rt, alloc, line, schedule, &mut disk).expect(rt, "memory");
    drop(disk);
    same_at(rt, &parts_of(&told), &(0, OPTIMUM), &line);
    drop(told);
}

#[test]
fn workers_find_the_optimum(rt: HostRuntime) {
    let alloc = rt.alloc();
    for line in SOLVES {
        for rows in SCHEDULES {
            let schedule = visits(alloc, rows, 50).expect(&rt, "memory");
            tells_the_optimum(&rt, alloc, line, &schedule);
            drop(schedule);
        }
    }
}

// Expects a command to report the optimum, or a line of a run that is open, and the checkpoint to
// be that of this run.
fn goes_on_by<R: Threads + Wait + Sync + Abort>(
    rt: &R,
    alloc: Global,
    (run, command): (usize, &str),
    disk: &mut MemoryDisk,
) {
    let line = format!(in alloc; "{command} --mode processes --solvers 2 --checkpoint d").expect(
        rt, "memory",
    );
    let told = told_by(rt, alloc, line.as_str(), &[], disk).expect(rt, "memory");
    holds_at(rt, is_open_or_solved(&told, run), &line);
    drop(told);
    drop(line);
    shows_its_number(rt, alloc, disk, run, command);
}

#[test]
fn each_run_of_workers_has_the_next_number(rt: HostRuntime) {
    let alloc = rt.alloc();
    let mut disk = sound_disk(alloc);
    for (run, command) in RUNS.iter().enumerate() {
        goes_on_by(&rt, alloc, (run, command), &mut disk);
    }
    drop(disk);
}

// Its only solver is lost before it says anything.
const GONE: &[Piece<'static>] = &[Piece {
    rank: 0,
    bytes: b"",
}];

// Expects a solve with that solver to be stranded.
fn is_stranded<R: Threads + Wait + Sync + Abort>(
    rt: &R,
    alloc: Global,
    line: &str,
    disk: &mut MemoryDisk,
) {
    let partners = Partners {
        crew: GONE,
        link: &[],
    };
    let input = MemorySource {
        rest: KNAPSACK.as_bytes(),
    };
    let told = told_with(rt, alloc, (line, partners), input, disk).expect(rt, "memory");
    same_at(rt, &parts_of(&told), &(7, "stranded none 1"), &line);
    drop(told);
}

// A run in the other mode resumes from the checkpoint that it leaves.
#[test]
fn run_without_solvers_is_stranded_and_goes_on(rt: HostRuntime) {
    let alloc = rt.alloc();
    let mut disk = sound_disk(alloc);
    let line = "solve f --mode processes --solvers 1 --checkpoint d";
    is_stranded(&rt, alloc, line, &mut disk);
    shows_its_number(&rt, alloc, &mut disk, 0, line);
    let line = "restart f --checkpoint d";
    let told = told(&rt, alloc, line, KNAPSACK.as_bytes(), &mut disk).expect(&rt, "memory");
    same_at(&rt, &parts_of(&told), &(0, OPTIMUM), &line);
    drop(told);
    drop(disk);
}

// The order that comes first: gap 0; one column x from 2 to 9, no row, and x minimised.
const SETUP: &[u8] = b"\0\0\0\x4d\x01\0\0\0\0\0\0\0\0\0\0\0\0\0\0\0\0\
    \0\0\0\x01\x01x\0\0\0\x02\0\0\0\x09\0\0\0\0\
    \0\0\0\0\0\0\0\0\0\0\0\0\0\0\0\0\0\0\0\0\0\x01\
    \0\0\0\0\0\0\0\0\0\0\0\0\0\0\0\0\0\0\0\x01";

const END: &[u8] = &[0, 0, 0, 1, 8];

// What comes over the link of a worker, and the status with which it ends.
const LINKS: &[(&[&[u8]], u8)] = &[
    // The end behind the problem, in one piece and in two.
    (&[SETUP, END], 0),
    (&[SETUP, &[0, 0], &[0, 1, 8]], 0),
    // Nothing; the problem alone; and a frame that is cut short.
    (&[], 13),
    (&[SETUP], 13),
    (&[SETUP, &[0, 0, 0, 1]], 13),
    // The end is not due before the problem, nor the problem again; no order has this kind; and no
    // frame has no byte.
    (&[END], 14),
    (&[SETUP, SETUP], 14),
    (&[SETUP, &[0, 0, 0, 1, 99]], 14),
    (&[&[0, 0, 0, 0]], 14),
];

// Expects a worker that receives these pieces to end with this status.
fn ends_so<R: Threads + Wait + Sync + Abort>(rt: &R, alloc: Global, pieces: &[&[u8]], status: u8) {
    let mut disk = sound_disk(alloc);
    let partners = Partners {
        crew: &[],
        link: pieces,
    };
    let words = ("worker --socket s", partners);
    let input = MemorySource { rest: b"" };
    let told = told_with(rt, alloc, words, input, &mut disk).expect(rt, "memory");
    drop(disk);
    same_at(rt, &told.as_slice(), &[status].as_slice(), &pieces);
    drop(told);
}

#[test]
fn workers_end_as_their_links_do(rt: HostRuntime) {
    for (pieces, status) in LINKS {
        ends_so(&rt, rt.alloc(), pieces, *status);
    }
}
