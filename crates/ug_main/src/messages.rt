//! Why a run failed, and what helps: lines `ug: error: ..` and `ug: help: ..` on standard error.

use crate::paths::Paths;
use std::io;
use std::io::{Eprint, ErrorKind};
use ug_print::{columns_refused, reason};
use ug_top::{Refusal, Status};

/// What went wrong, and what helps if something does.
#[derive(Clone, Copy)]
struct Advice {
    cause: &'static str,
    help: Option<&'static str>,
}

// The name of a file, a folder or a socket as a message has it.
fn named(name: &str) -> &str {
    if name.is_empty() { "''" } else { name }
}

// The cause, and what helps, which is after a semicolon if there is something.
fn advice_in(words: &'static str) -> Advice {
    match words.split_once("; ") {
        Some((cause, help)) => Advice {
            cause,
            help: Some(help),
        },
        None => Advice {
            cause: words,
            help: None,
        },
    }
}

// Returns the cause of a fault of the checkpoint, and what helps.
fn advice_of(status: Status) -> Option<Advice> {
    let words = match status {
        Status::NoCheckpoint => "no checkpoint; ug solve FILE --checkpoint DIR makes one",
        Status::OtherProblem =>
            "the checkpoint belongs to another model; use one folder for each model",
        Status::BadImage =>
            "a slot of the checkpoint is damaged, or is not a slot of ug; use another folder",
        Status::Spent =>
            "the run or sequence number of the checkpoint has reached 2^62; use another folder",
        Status::SmallerGap =>
            "the checkpoint was made with a larger gap; use a --gap that is not smaller",
        _ => return None,
    };
    Some(advice_in(words))
}

// Prints what helps, if something does.
fn help<R: Eprint>(rt: &R, help: Option<&str>) {
    if let Some(help) = help {
        let _ = eprintln!(rt; "ug: help: {help}");
    }
}

/// Says why a call on this file, folder or socket failed.
pub fn explain<R: Eprint>(rt: &R, name: &str, error: Option<&io::Error>) {
    if let Some(error) = error {
        let name = named(name);
        let _ = eprintln!(rt; "ug: error: {name}: {error}");
        if error.kind() == ErrorKind::ResourceBusy {
            help(
                rt,
                Some("use another folder, or wait until that run has ended"),
            );
        }
    }
}

/// Says why a call on this socket failed, unless the other end is lost: it says so itself.
pub fn explain_link<R: Eprint>(rt: &R, socket: &str, error: Option<&io::Error>) {
    match error.map(|error| error.kind()) {
        Some(ErrorKind::BrokenPipe | ErrorKind::ConnectionReset) => {}
        _ => explain(rt, socket, error),
    }
}

/// Says why writing to standard output failed. That its reader closed it needs no words.
pub fn explain_output<R: Eprint>(rt: &R, error: Option<&io::Error>) {
    if let Some(error) = error {
        if error.kind() != ErrorKind::BrokenPipe {
            let _ = eprintln!(rt; "ug: error: standard output: {error}");
        }
    }
}

/// Says why this file was refused, and what helps.
pub fn explain_refusal<R: Eprint>(rt: &R, file: &str, refusal: Option<Refusal>) {
    if let Some(Refusal { line, cause }) = refusal {
        let file = named(file);
        let advice = advice_in(reason(cause));
        let why = advice.cause;
        match columns_refused(cause) {
            Some(count) if count > 1 => {
                let _ = eprintln!(rt; "ug: error: {file}:{line}: {why} ({count} such columns)");
            }
            _ => {
                let _ = eprintln!(rt; "ug: error: {file}:{line}: {why}");
            }
        }
        help(rt, advice.help);
    }
}

// Says that no solver is left, and how to resume.
fn advise_stranded<R: Eprint>(rt: &R, folder: &str) {
    let _ = eprintln!(rt; "ug: error: all solvers are lost");
    if folder.is_empty() {
        help(rt, Some("a run with --checkpoint DIR can be resumed"));
    } else {
        let _ = eprintln!(rt; "ug: help: ug restart resumes from the checkpoint in {folder}");
    }
}

/// Says what ended a run with this status, if it was the checkpoint, an order or lost solvers.
pub fn advise<R: Eprint>(rt: &R, paths: Paths<'_>, status: Status) {
    match status {
        Status::Stranded => advise_stranded(rt, paths.folder),
        Status::BadFrame => {
            let socket = named(paths.socket);
            let _ = eprintln!(rt; "ug: error: {socket}: invalid order, or one that is not due");
        }
        _ => {
            if let Some(Advice { cause, help: words }) = advice_of(status) {
                let folder = named(paths.folder);
                let _ = eprintln!(rt; "ug: error: {folder}: {cause}");
                help(rt, words);
            }
        }
    }
}

/// Prints the lines of an incumbent that is not an answer yet, if there are some.
pub fn tell_best<R: Eprint>(rt: &R, lines: &[u8]) {
    let Ok(lines) = str::from_utf8(lines) else {
        let _ = eprintln!(rt; "ug: warning: the incumbent has names that are not UTF-8");
        return;
    };
    for line in lines.lines() {
        let _ = eprintln!(rt; "ug: incumbent: {line}");
    }
}
