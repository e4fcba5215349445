//! A program for measuring and comparing: `ug_measure book N` drives a book of 256 ranks through N
//! made messages; `image N` makes the image of a book of N nodes, `save N` saves it to a disk in
//! memory, `load N` loads it again; `desk N` reports a desk N times what is left; `encode N TIMES`
//! writes the frame of an order with N changes so often, and `decode N TIMES` reads it; `serve
//! FILE` serves a worker at a link with the whole problem of a file, and `steps FILE N` searches it
//! under the params of that number, and says in how many steps and what was found; with no words it
//! replays the schedules of its input, of which some were worked by hand and others by a model that
//! was written apart from this code. It is proved to be safe and to end, and no more.
#![tactic(auto)]

mod answers;
mod calls;
mod driver;
mod frames;
mod link;
mod random;
mod ranks;
mod replay;
mod saving;
mod serving;
mod start;
mod steps;

use crate::calls::call_desk;
use crate::driver::drive;
use crate::frames::{Way, frame_often};
use crate::replay::replay;
use crate::saving::{Stage, save_nodes};
use crate::serving::{Telling, serve_file};
use crate::steps::{Searched, search_file};
use std::alloc::AllocError;
use std::env;
use std::io::{Eprint, Input, Print};
use std::process::ExitCode;
use std::rt::{Env, Files};
use std::sync::Wait;

// The measurement to make.
#[derive(Clone, Copy)]
enum Task {
    Book { messages: u64 },
    Save { nodes: u32, stage: Stage },
    Desk { calls: u64 },
    Frames { way: Way, changes: u16, times: u64 },
}

// What the words ask for.
#[derive(Clone, Copy)]
enum Wanted<'a> {
    Replay,
    Measure(Task),
    Serve(&'a str),
    Steps { file: &'a str, params: u8 },
}

fn stage_of(word: &str) -> Option<Stage> {
    match word {
        "image" => Some(Stage::Image),
        "save" => Some(Stage::Save),
        "load" => Some(Stage::Load),
        _ => None,
    }
}

fn way_of(word: &str) -> Option<Way> {
    match word {
        "encode" => Some(Way::Encode),
        "decode" => Some(Way::Decode),
        _ => None,
    }
}

// The words behind the program's own name.
fn words_of<R: Env + AllocGlobal>(rt: &R) -> Option<Vec<String>> {
    env::args(rt).ok()?.skip(1).collect(rt.alloc()).ok()
}

fn asked_by<'a>(words: &'a [String]) -> Option<Wanted<'a>> {
    match words {
        [] => Some(Wanted::Replay),
        [what, file] if what.as_str() == "serve" => Some(Wanted::Serve(file.as_str())),
        [what, count] => Some(Wanted::Measure(task_of(what.as_str(), count.as_str())?)),
        [what, file, params] if what.as_str() == "steps" => Some(Wanted::Steps {
            file: file.as_str(),
            params: params.parse::<u8>().ok()?,
        }),
        [what, changes, times] => {
            let way = way_of(what.as_str())?;
            let changes = changes.parse::<u16>().ok()?;
            let times = times.parse::<u64>().ok()?;
            Some(Wanted::Measure(Task::Frames {
                way,
                changes,
                times,
            }))
        }
        _ => None,
    }
}

fn task_of(what: &str, count: &str) -> Option<Task> {
    if what == "book" {
        let messages = count.parse::<u64>().ok()?;
        return Some(Task::Book { messages });
    }
    if what == "desk" {
        let calls = count.parse::<u64>().ok()?;
        return Some(Task::Desk { calls });
    }
    let stage = stage_of(what)?;
    let nodes = count.parse::<u32>().ok()?;
    Some(Task::Save { nodes, stage })
}

// A line for each number, with its word.
fn print_all<R: Print>(rt: &R, lines: &[(&str, u64)]) {
    for (word, number) in lines {
        let _ = println!(rt; "{word} {number}");
    }
}

// What a worker reported of a whole problem; first the answer, as the program prints it.
fn print_telling<R: Print>(rt: &R, telling: &Telling) {
    let value = telling
        .value
        .as_ref()
        .and_then(|value| str::from_utf8(value.as_slice()).ok());
    let _ = match value {
        Some(value) => println!(rt; "optimal {value}"),
        None => println!(rt; "infeasible"),
    };
    print_all(rt, &[("reports", telling.reports)]);
}

// The word of how much was written or read of frames.
fn word_of(way: Way) -> &'static str {
    match way {
        Way::Encode => "bytes",
        Way::Decode => "changes",
    }
}

// Measures what is needed. Lack of memory is the one error.
fn measure<R: Print + AllocGlobal + Wait>(rt: &R, task: Task) -> Result<(), AllocError> {
    match task {
        Task::Book { messages } => print_all(rt, &drive(rt.alloc(), messages)?.lines()),
        Task::Save { nodes, stage } => {
            print_all(rt, &save_nodes(rt.alloc(), nodes, stage)?.lines());
        }
        Task::Desk { calls } => print_all(rt, &call_desk(rt, rt.alloc(), calls)?.lines()),
        Task::Frames {
            way,
            changes,
            times,
        } => {
            let much = frame_often(rt.alloc(), changes, way, times)?;
            print_all(rt, &[(word_of(way), much)]);
        }
    }
    Ok(())
}

// Measures, and how that ended.
fn measured<R: Print + AllocGlobal + Wait>(rt: &R, task: Task) -> ExitCode {
    match measure(rt, task) {
        Ok(()) => ExitCode::from(0),
        Err(_) => {
            let _ = println!(rt; "memory");
            ExitCode::from(9)
        }
    }
}

// Serves a worker, and how that ended.
fn served<R: Print + AllocGlobal + Files + Wait>(rt: &R, file: &str) -> ExitCode {
    match serve_file(rt, rt.alloc(), file) {
        Some(telling) => {
            print_telling(rt, &telling);
            drop(telling);
            ExitCode::from(0)
        }
        None => {
            let _ = println!(rt; "not served");
            ExitCode::from(1)
        }
    }
}

// Searches, and says in how many steps, and what was found.
fn counted<R: Print + AllocGlobal + Files>(rt: &R, file: &str, params: u8) -> ExitCode {
    match search_file(rt, rt.alloc(), file, params) {
        Some(
            Searched {
                steps,
                best: Some(best),
            },
        ) => {
            let _ = println!(rt; "steps {steps} best {best}");
            ExitCode::from(0)
        }
        Some(Searched { steps, best: None }) => {
            let _ = println!(rt; "steps {steps} infeasible");
            ExitCode::from(0)
        }
        None => {
            let _ = println!(rt; "not counted");
            ExitCode::from(1)
        }
    }
}

// Does what the words ask for.
fn obey<R>(rt: &R, words: &[String]) -> ExitCode
where
    R: Input + Print + Eprint + AllocGlobal + Files + Wait,
{
    match asked_by(words) {
        Some(Wanted::Replay) => ExitCode::from(u8::from(replay(rt).is_err())),
        Some(Wanted::Measure(task)) => measured(rt, task),
        Some(Wanted::Serve(file)) => served(rt, file),
        Some(Wanted::Steps { file, params }) => counted(rt, file, params),
        None => misused(rt),
    }
}

// Says how the program is called.
fn misused<R: Eprint>(rt: &R) -> ExitCode {
    let _ = eprintln!(rt; "usage: ug_measure [book|image|save|load|desk N]");
    let _ = eprintln!(rt; "       ug_measure encode|decode N TIMES");
    let _ = eprintln!(rt; "       ug_measure serve FILE");
    let _ = eprintln!(rt; "       ug_measure steps FILE N");
    ExitCode::from(2)
}

fn main(rt: HostRuntime) -> ExitCode {
    match words_of(&rt) {
        Some(words) => {
            let code = obey(&rt, &words);
            drop(words);
            code
        }
        None => misused(&rt),
    }
}
