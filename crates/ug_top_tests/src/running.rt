//! Runs of the program's words over texts and disks in memory.

ghost use Rattle.std.specs.Prelude.{◌≡◌, IfOk, IfSome, option_map};
ghost use Rattle.ug_io.specs.CrewMemories.{crew_seen};
ghost use Rattle.ug_io.specs.LinkMemories.{seen_of as link_seen};
ghost use Rattle.ug_cli.specs.Taken.{needs_of};
ghost use Rattle.ug_top.specs.Ends.{HasCrewFor, HasLinkFor};
ghost use Rattle.ug_top.specs.Outside.{seen_if};

use std::alloc::{AllocError, Global};
use std::mem;
use std::sync::Wait;
use std::thread::Threads;
use ug_cli::{Mode, Plan, Usage, crossed_is_not_taken, read_words, words_tell_the_needs};
use ug_disk::MemoryDisk;
use ug_io::{MemoryCrew, MemoryLink, MemorySink, MemorySource, Piece, Script, Source};
use ug_restart::{Host, Unobserved};
use ug_top::{Objects, Ran, run};

/// The words of a line, which blanks part; `''` is an empty word.
pub fn words_of(alloc: Global, line: &str) -> Result<Vec<String>, AllocError> {
    let mut words = Vec::new(alloc);
    for word in line.split(' ') {
        let text = if word == "''" { "" } else { word };
        if let Err(error) = push_word(alloc, &mut words, text) {
            drop(words);
            return Err(error);
        }
    }
    Ok(words)
}

fn push_word(alloc: Global, words: &mut Vec<String>, text: &str) -> Result<(), AllocError> {
    words.push(String::from_str(alloc, text)?)?;
    Ok(())
}

/// A disk of two slots of these bytes, of whose calls some fail.
pub fn disk_with(alloc: Global, zero: Vec<u8>, one: Vec<u8>, failing: Vec<u64>) -> MemoryDisk {
    let script = ug_disk::Script {
        failing,
        stopping: Vec::new(alloc),
    };
    MemoryDisk::new(alloc, zero, one, script)
}

/// A disk with nothing on it, of whose calls none fails.
pub fn sound_disk(alloc: Global) -> MemoryDisk {
    disk_with(alloc, Vec::new(alloc), Vec::new(alloc), Vec::new(alloc))
}

/// The objects of a run in memory.
type Memory<'a, S> = Objects<S, MemoryDisk, MemoryCrew<'a>, MemoryLink<'a>>;

/// What comes from the crew of a run, and over its link.
#[derive(Clone, Copy)]
pub struct Partners<'a> {
    pub crew: &'a [Piece<'a>],
    pub link: &'a [&'a [u8]],
}

/// Nothing comes.
pub const NOBODY: Partners<'static> = Partners {
    crew: &[],
    link: &[],
};

/// How many solvers a plan has in processes.
pub fn solvers_in(plan: Option<Plan<'_>>) -> Option<u32>
    ensures { IfSome plan.entry (λ p. option_map (λ n. n) result ≡ (needs_of p).crew) }
{
    let asked = match plan {
        Some(Plan::Solve(solve)) => solve.settings,
        Some(Plan::Restart(restart)) => restart.settings,
        Some(Plan::Worker(_) | Plan::Show(_) | Plan::Gen(_)) | None => return None,
    };
    match asked.mode {
        Mode::Threads => None,
        Mode::Processes => Some(asked.ranks.solvers),
    }
}

// The crew that a plan needs.
fn crew_of<'a>(
    alloc: Global,
    plan: Option<Plan<'_>>,
    pieces: &'a [Piece<'a>],
) -> Result<Option<MemoryCrew<'a>>, AllocError>
    ensures { IfSome plan.entry (λ p. IfOk result (λ crew.
        HasCrewFor (needs_of p).crew (seen_if crew_seen crew))) }
{
    match solvers_in(plan) {
        Some(solvers) => {
            let script = Script::new(Vec::new(alloc), 1000);
            match MemoryCrew::new(alloc, solvers, pieces, script) {
                Ok(crew) => Ok(Some(crew)),
                Err(error) => Err(error),
            }
        }
        None => Ok(None),
    }
}

/// The link that a plan needs.
pub fn link_of<'a>(
    alloc: Global,
    plan: Option<Plan<'_>>,
    pieces: &'a [&'a [u8]],
) -> Option<MemoryLink<'a>>
    ensures { IfSome plan.entry (λ p. HasLinkFor (needs_of p).link (seen_if link_seen result)) }
{
    match plan {
        Some(Plan::Worker(_)) => {
            let script = Script::new(Vec::new(alloc), 1000);
            Some(MemoryLink::new(alloc, pieces, script))
        }
        Some(Plan::Solve(_) | Plan::Restart(_) | Plan::Show(_) | Plan::Gen(_)) | None => None,
    }
}

// What a run of the words answers over these objects. Its partners are those that the words need.
fn ran_with<'a, R: Threads + Wait + Sync, S: Source + Drop>(
    host: &Host<'_, R, Unobserved>,
    words: &[String],
    objects: &mut Memory<'a, S>,
    partners: Partners<'a>,
    out: &mut MemorySink,
) -> Result<Ran, AllocError> {
    crossed_is_not_taken();
    words_tell_the_needs();
    let plan = match read_words(host.alloc, words) {
        Ok(plan) => Some(plan),
        Err(Usage::Memory) => return Err(AllocError),
        Err(_) => None,
    };
    let Ok(crew) = crew_of(host.alloc, plan, partners.crew) else {
        return Err(AllocError);
    };
    drop(mem::replace(&mut objects.crew, crew));
    let link = link_of(host.alloc, plan, partners.link);
    drop(mem::replace(&mut objects.link, link));
    Ok(run(host, words, objects, out))
}

/// The bytes behind a status.
pub fn behind(alloc: Global, status: u8, bytes: &[u8]) -> Result<Vec<u8>, AllocError> {
    let mut told = Vec::new(alloc);
    told.push(status)?;
    told.extend_from_slice(bytes)?;
    Ok(told)
}

/// The status of a run of the words of the line over a source and a disk, and behind it what was
/// written.
pub fn told_of<R: Threads + Wait + Sync, S: Source + Drop>(
    rt: &R,
    alloc: Global,
    line: &str,
    input: S,
    disk: &mut MemoryDisk,
) -> Result<Vec<u8>, AllocError> {
    told_with(rt, alloc, (line, NOBODY), input, disk)
}

/// The same with partners.
pub fn told_with<R: Threads + Wait + Sync, S: Source + Drop>(
    rt: &R,
    alloc: Global,
    (line, partners): (&str, Partners<'_>),
    input: S,
    disk: &mut MemoryDisk,
) -> Result<Vec<u8>, AllocError> {
    let words = words_of(alloc, line)?;
    let mut out = MemorySink::new(alloc, Script::new(Vec::new(alloc), 64));
    let mut objects = Objects {
        input,
        disk: sound_disk(alloc),
        crew: None,
        link: None,
    };
    mem::swap(disk, &mut objects.disk);
    let observer = &Unobserved;
    let host = Host {
        rt,
        alloc,
        observer,
    };
    let ran = ran_with(&host, &words, &mut objects, partners, &mut out);
    drop(host);
    drop(words);
    mem::swap(disk, &mut objects.disk);
    drop(objects);
    let told = match ran {
        Ok(ran) => behind(alloc, ran.status.code(), out.bytes()),
        Err(error) => Err(error),
    };
    drop(out);
    told
}

/// The same over a file.
pub fn told<R: Threads + Wait + Sync>(
    rt: &R,
    alloc: Global,
    line: &str,
    text: &[u8],
    disk: &mut MemoryDisk,
) -> Result<Vec<u8>, AllocError> {
    told_of(rt, alloc, line, MemorySource { rest: text }, disk)
}

/// What a solve of a file answers that writes to this sink.
pub fn ran_over<R: Threads + Wait + Sync>(
    rt: &R,
    alloc: Global,
    text: &[u8],
    out: &mut MemorySink,
) -> Result<Ran, AllocError> {
    let words = words_of(alloc, "solve f")?;
    let mut objects = Objects {
        input: MemorySource { rest: text },
        disk: sound_disk(alloc),
        crew: None,
        link: None,
    };
    let observer = &Unobserved;
    let host = Host {
        rt,
        alloc,
        observer,
    };
    let ran = ran_with(&host, &words, &mut objects, NOBODY, out);
    drop(host);
    drop(words);
    drop(objects);
    ran
}
