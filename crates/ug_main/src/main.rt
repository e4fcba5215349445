//! The program `ug`: solves bounded integer programs of MPS files, and resumes from checkpoints. It
//! depends on ug_top, on ug_cli for the words, on ug_print for why a file is refused, and on
//! ug_real. `main` makes the real objects: a reader of the file, a writer to standard output, the
//! folder of the checkpoint, and if the words ask for it a crew of children or the socket of one.
//! `carry_out` runs with them under the contract of `run`, which says what was printed. Standard
//! error gets the usage line, why a run failed and what helps, and, on a terminal or with
//! `UG_PROGRESS` set, its progress. docs/messages.md lists these lines.
#![tactic(auto)]

ghost use Rattle.std.specs.Prelude.{◌≡◌, IfOk, IfSome};
ghost use Rattle.ug_cli.specs.declared.plan.Plan.{Plan};
ghost use Rattle.ug_cli.specs.Taken.{TakenWords, needs_of, texts};
ghost use Rattle.ug_top.specs.Ends.{HasCrewFor, HasLinkFor, HasNeeds, IsPlanOf};
ghost use Rattle.ug_top.specs.Outside.{outside, seen_if};
ghost use Rattle.ug_main.specs.Files.{HasRunOnFiles, IsNewCrew, IsNewLink, IsUnbegun, crew_seen, link_seen};
ghost use Rattle.ug_top.specs.Ran.{HasRun};

mod at_once;
mod descriptors;
mod gone;
mod messages;
mod paths;
mod reasons;
mod teller;
mod words;

use crate::descriptors::take_standard;
use crate::gone::Gone;
use crate::messages::{advise, explain, explain_link, explain_output, explain_refusal, tell_best};
use crate::paths::{Paths, Purpose, paths_of};
use crate::reasons::Reasons;
use crate::teller::Teller;
use crate::words::Behind;
use std::alloc::AllocError;
use std::env::VarError;
use std::fs::File;
use std::io::{Eprint, IsTerminal, Print, Printer};
use std::net::Net;
use std::process::{ExitCode, Processes, SystemProcess};
use std::rt::{Env, Files};
use std::sync::Wait;
use std::thread::Threads;
use std::time::Clock;
use std::{env, fs, io};
use ug_cli::{Asked, Mode, Plan, Usage, crossed_is_not_taken, read_words, words_tell_the_needs};
use ug_disk::Disk;
use ug_io::{Crew, Link, Sink, Source};
use ug_real::{
    ChildCommand, FileDisk, ProcessCrew, Reader, RealFolder, SocketFolder, SocketLink, Writer,
};
use ug_restart::{Host, Observer};
use ug_top::{Objects, Ran, Status, run, tell_unread};

// Returns the words behind the program's own name. A word that is not UTF-8 is an invalid command.
fn words_of<R: Env + AllocGlobal>(rt: &R) -> Result<Vec<String>, Status> {
    let words = env::args(&(Behind(rt), rt.alloc())).map_err(|error| status_of(&error))?;
    match words.collect(rt.alloc()) {
        Ok(words) => Ok(words),
        Err(_) => Err(Status::Memory),
    }
}

// Returns the program's own name, with which it starts its children. If there is none, or it is not
// UTF-8, the name is empty, and no child can be started.
fn name_of<R: Env + AllocGlobal>(rt: &R) -> Result<String, Status> {
    let none = String::new(rt.alloc());
    match env::args(&(rt, rt.alloc())) {
        Ok(mut all) => Ok(all.next().unwrap_or(none)),
        Err(error) => match status_of(&error) {
            Status::Memory => Err(Status::Memory),
            _ => Ok(none),
        },
    }
}

// Returns the status for an error of reading the words.
fn status_of(error: &io::Error) -> Status {
    if error.kind() == io::ErrorKind::OutOfMemory {
        Status::Memory
    } else {
        Status::Usage
    }
}

// What the program runs on: files, and a crew of child programs or a socket where a plan needs it.
type Real<'a, R> = Objects<
    Reader<'a, R>,
    FileDisk<RealFolder<'a, R>>,
    ProcessCrew<'a, R, Gone<'a, R>>,
    SocketLink<'a, R>,
>;

// The words of a run, the program that its children are, and the folder of folders that are made
// for a run.
#[derive(Drop)]
struct Called {
    name: String,
    temporary: String,
    words: Vec<String>,
}

// The variables that name a folder for what is made for a run.
const TEMPORARY: &[&str] = &["XDG_RUNTIME_DIR", "TMPDIR"];

// The first folder that these variables name, else `/tmp`.
fn temporary_of<R: Env + Files + AllocGlobal>(rt: &R) -> Result<String, Status> {
    for &name in TEMPORARY {
        match env::var(&(rt, rt.alloc()), name) {
            Ok(path) => {
                if fs::metadata(rt, path.as_str()).is_ok_and(|it| it.is_dir()) {
                    return Ok(path);
                }
                drop(path);
            }
            Err(VarError::OutOfMemory) => return Err(Status::Memory),
            Err(_) => {}
        }
    }
    match String::from_str(rt.alloc(), "/tmp") {
        Ok(path) => Ok(path),
        Err(_) => Err(Status::Memory),
    }
}

// Finds what the words name, and does what the words ask for.
#[tactic(auto, using(crate::proofs::Files::unbegun_is_run))]
fn obey<'a, R>(rt: &'a R, called: &'a Called, is_told: bool) -> Worked<'a, R>
where
    R: Files<File = File>
        + Net
        + Processes<Started = SystemProcess>
        + Clock
        + Print
        + Eprint
        + AllocGlobal
        + Threads
        + Wait
        + Sync,
    ensures { HasRunOnFiles (texts called.now.words.items) (record {
      reads = result.objects.input.faults.count;
      stores = result.objects.disk.faults.count;
      writes = result.out.faults.count;
      crew = seen_if crew_seen result.objects.crew;
      link = seen_if link_seen result.objects.link;
    }) result.status }
{
    crossed_is_not_taken();
    match read_words(rt.alloc(), &called.words) {
        Ok(plan) => work(rt, called, Some(plan), is_told),
        Err(Usage::Memory) => unbegun(rt),
        Err(_) => work(rt, called, None, is_told),
    }
}

// What the program is to do: what its words say, and the files that they name.
#[derive(Clone, Copy)]
struct Job<'a> {
    words: &'a [String],
    paths: Paths<'a>,
    // Does standard error show more than the cause of a failure?
    is_told: bool,
}

// The status with which it ended, and the objects and standard output as they are then.
#[derive(Drop)]
struct Worked<'a, R: Files<File = File> + Print + Eprint> {
    status: Status,
    objects: Real<'a, R>,
    out: Writer<Printer<'a, R>>,
}

// The status alone.
fn ended<R>(worked: Worked<'_, R>) -> Status
where
    R: Files<File = File> + Print + Eprint,
    ensures { result ≡ worked.entry.status }
{
    let status = worked.status;
    drop(worked);
    status
}

// The folder of checkpoints, for what the plan does with it.
fn disk_of<'a, R>(rt: &'a R, paths: Paths<'a>) -> FileDisk<RealFolder<'a, R>>
where
    R: Files<File = File> + Eprint + AllocGlobal,
    ensures { result.faults.count ≡ 0 }
{
    let alloc = rt.alloc();
    FileDisk::new(match paths.purpose {
        Purpose::Begin => RealFolder::beginning(rt, alloc, paths.folder),
        Purpose::GoOn => RealFolder::going_on(rt, alloc, paths.folder),
        Purpose::Show => RealFolder::reading(rt, alloc, paths.folder),
    })
}

// How many images were saved in the folder of the plan; None where it names none.
fn saves_of<R>(disk: &FileDisk<RealFolder<'_, R>>, paths: Paths<'_>) -> Option<u64>
where
    R: Files<File = File> + Eprint + AllocGlobal,
{
    if paths.folder.is_empty() {
        return None;
    }
    Some(disk.folder().saves())
}

// The crew of a solve in processes, whose children are this program.
fn crew_of<'a, R>(
    rt: &'a R,
    called: &'a Called,
    plan: Option<Plan<'a>>,
    is_told: bool,
) -> Result<Option<ProcessCrew<'a, R, Gone<'a, R>>>, AllocError>
where
    R: Files<File = File>
        + Net
        + Processes<Started = SystemProcess>
        + Clock
        + Print
        + Eprint
        + AllocGlobal
        + Threads
        + Wait
        + Sync,
    ensures needs { IfSome plan.entry (λ p. IfOk result (λ crew.
        HasCrewFor (needs_of p).crew (seen_if crew_seen crew))) }
    ensures new { IfOk result (λ crew. IfSome (seen_if crew_seen crew) IsNewCrew) }
{
    let asked = match plan {
        Some(Plan::Solve(solve)) => solve.settings,
        Some(Plan::Restart(restart)) => restart.settings,
        Some(Plan::Worker(_) | Plan::Show(_) | Plan::Gen(_)) | None => return Ok(None),
    };
    let Asked {
        mode,
        ranks,
        sockets,
        ..
    } = asked;
    match mode {
        Mode::Threads => Ok(None),
        Mode::Processes => {
            let sockets = if sockets.is_empty() {
                SocketFolder::Fresh(called.temporary.as_str())
            } else {
                SocketFolder::Given(sockets)
            };
            let children = ChildCommand {
                program: called.name.as_str(),
                sockets,
            };
            let watcher = Gone::new(rt, is_told);
            match ProcessCrew::new(rt, rt.alloc(), ranks.solvers, children, watcher) {
                Ok(crew) => Ok(Some(crew)),
                Err(error) => Err(error),
            }
        }
    }
}

// The link of a solver that works for a coordinator.
fn link_of<'a, R>(rt: &'a R, plan: Option<Plan<'a>>) -> Option<SocketLink<'a, R>>
where
    R: Net + Clock + AllocGlobal,
    ensures needs { IfSome plan.entry (λ p.
        HasLinkFor (needs_of p).link (seen_if link_seen result)) }
    ensures new { IfSome (seen_if link_seen result) IsNewLink }
{
    match plan {
        Some(Plan::Worker(worker)) => Some(SocketLink::new(rt, rt.alloc(), worker.socket)),
        Some(Plan::Solve(_) | Plan::Restart(_) | Plan::Show(_) | Plan::Gen(_)) | None => None,
    }
}

// Reports out of memory before anything was done, as a run reports it.
fn unbegun<R>(rt: &R) -> Worked<'_, R>
where
    R: Files<File = File>
        + Net
        + Processes<Started = SystemProcess>
        + Clock
        + Print
        + Eprint
        + AllocGlobal
        + Threads
        + Wait
        + Sync,
    ensures { IsUnbegun (record {
      reads = result.objects.input.faults.count;
      stores = result.objects.disk.faults.count;
      writes = result.out.faults.count;
      crew = seen_if crew_seen result.objects.crew;
      link = seen_if link_seen result.objects.link;
    }) result.status }
{
    let mut out = Writer::new(io::writer(rt));
    let status = tell_unread(&mut out);
    if status == Status::WriteFault {
        explain_output(rt, out.reason());
    }
    Worked {
        status,
        objects: Objects {
            input: Reader::new(rt, ""),
            disk: disk_of(rt, paths_of(None)),
            crew: None,
            link: None,
        },
        out,
    }
}

// Does what the words ask for, with what the plan of them names.
fn work<'a, R>(
    rt: &'a R,
    called: &'a Called,
    plan: Option<Plan<'a>>,
    is_told: bool,
) -> Worked<'a, R>
where
    R: Files<File = File>
        + Net
        + Processes<Started = SystemProcess>
        + Clock
        + Print
        + Eprint
        + AllocGlobal
        + Threads
        + Wait
        + Sync,
    requires { IsPlanOf (texts called.now.words.items) plan }
    ensures { HasRunOnFiles (texts called.now.words.items) (record {
      reads = result.objects.input.faults.count;
      stores = result.objects.disk.faults.count;
      writes = result.out.faults.count;
      crew = seen_if crew_seen result.objects.crew;
      link = seen_if link_seen result.objects.link;
    }) result.status }
{
    words_tell_the_needs();
    let paths = paths_of(plan);
    let Ok(crew) = crew_of(rt, called, plan, is_told) else {
        return unbegun(rt);
    };
    let mut objects = Objects {
        input: Reader::new(rt, paths.file),
        disk: disk_of(rt, paths),
        crew,
        link: link_of(rt, plan),
    };
    let mut out = Writer::new(io::writer(rt));
    let observer = Teller::new(rt, is_told);
    let host = Host {
        rt,
        alloc: rt.alloc(),
        observer: &observer,
    };
    let job = Job {
        words: &called.words,
        paths,
        is_told,
    };
    let status = carry_out(&host, job, &mut objects, &mut out);
    observer.tell_end(saves_of(&objects.disk, paths));
    Worked {
        status,
        objects,
        out,
    }
}

// Does the job with these objects. Standard error says why it failed: the system's words if a call
// did, else what is wrong with the file or the checkpoint.
fn carry_out<R, O, S, K, D, C, L>(
    host: &Host<'_, R, O>,
    job: Job<'_>,
    objects: &mut Objects<S, D, C, L>,
    out: &mut K,
) -> Status
where
    R: Eprint + Threads + Wait + Sync,
    O: Observer,
    S: Source + Reasons,
    K: Sink + Reasons,
    D: Disk + Reasons,
    C: Crew + Drop,
    L: Link + Reasons + Drop,
    requires { (plan : Plan) → TakenWords (texts job.words.now) plan
        → HasNeeds plan (outside S.seen D.seen C.seen L.seen objects.old) }
    ensures { HasRun (texts job.entry.words.now)
        (outside S.seen D.seen C.seen L.seen objects.old)
        (outside S.seen D.seen C.seen L.seen objects.new) (K.seen out.old) (K.seen out.new) result }
{
    let ran = run(host, job.words, objects, out);
    let rt = host.rt;
    match ran.status {
        Status::ReadFault => explain(rt, job.paths.file, objects.input.reason()),
        Status::WriteFault => explain_output(rt, out.reason()),
        Status::Refused => explain_refusal(rt, job.paths.file, ran.refusal),
        Status::DiskFault => explain(rt, job.paths.folder, objects.disk.reason()),
        Status::LinkFault => {
            if let Some(link) = &objects.link {
                explain_link(rt, job.paths.socket, link.reason());
            }
        }
        status => advise(rt, job.paths, status),
    }
    let Ran { status, best, .. } = ran;
    if job.is_told {
        tell_best(rt, best.as_deref().unwrap_or_default());
    }
    drop(best);
    status
}

// Whether a variable of this value asks for something.
fn asks(value: &str) -> bool {
    !value.is_empty() && value != "0"
}

// Whether standard error is a terminal, or the environment asks for lines of progress.
fn wants_progress(rt: &HostRuntime) -> bool {
    rt.stderr().is_terminal() || env::var(rt, "UG_PROGRESS").is_ok_and(|value| asks(&value))
}

// The program's own name, its words, and the folder for what is made for a run.
fn call_of<R: Env + Files + AllocGlobal>(rt: &R) -> Result<Called, Status> {
    match (name_of(rt), temporary_of(rt), words_of(rt)) {
        (Ok(name), Ok(temporary), Ok(words)) => Ok(Called {
            name,
            temporary,
            words,
        }),
        (name, temporary, words) => {
            let failed = name.err().or(temporary.err()).or(words.err());
            Err(failed.unwrap_or(Status::Memory))
        }
    }
}

fn main(rt: HostRuntime) -> ExitCode {
    let standard = take_standard(&rt);
    let status = match call_of(&rt) {
        Ok(called) => ended(obey(&rt, &called, wants_progress(&rt))),
        Err(Status::Memory) => ended(unbegun(&rt)),
        Err(status) => status,
    };
    if status == Status::Usage {
        let _ = eprintln!(rt; "usage: ug solve|restart|worker|gen|show");
    }
    drop(standard);
    ExitCode::from(status.code())
}
