use crate::at_once::AtOnce;
use std::fmt;
use std::fs::File;
use std::io::Eprint;
use std::net::Net;
use std::rt::Files;
use std::sync::atomic::{AtomicBool, AtomicU64, Ordering};
use std::time::{Clock, Instant};
use ug_restart::{Begun, Dropped, Moment, Observer, Progress};

const MILLION: u64 = 1_000_000;

/// Prints the progress of a run on standard error, if it is asked for: a line at the start; one for
/// a better incumbent, unless the last line is less than a sixteenth of all reports ago; one after
/// 1000, 2000, 5000, 10000 and so on reports, and from a million on at each million; one for a rank
/// that is lost; and one at the end. A line that cannot be written at once is dropped, and so is
/// one that is older than the last. Each column that is at a bound of the box is named in any case,
/// since the answer depends on it.
#[derive(Drop)]
pub struct Teller<'a, R> {
    rt: &'a R,
    at_once: AtOnce<'a, R>,
    is_on: bool,
    // When the run began; `None` if the clock failed.
    began: Option<Instant>,
    // The next line is due after this number of reports.
    next: AtomicU64,
    // The number of reports when the last line was due.
    last: AtomicU64,
    // Whether a thread prints a line now.
    prints: AtomicBool,
    // The number of reports of the last line that was printed.
    printed: AtomicU64,
    // The number of reports of the run, plus one; 0 before its end.
    ended: AtomicU64,
}

// The time since the run began, in tenths of a second.
#[derive(Clone, Copy)]
struct Elapsed {
    tenths: u128,
}

impl fmt::Display for Elapsed {
    fn fmt<W: fmt::Write>(&self, f: &mut fmt::Formatter<W>) -> fmt::Result {
        let seconds = self.tenths / 10;
        let tenth = self.tenths % 10;
        write!(f, "{seconds}.{tenth} s")
    }
}

impl<'a, R: Files<File = File> + Net + Clock + AllocGlobal> Teller<'a, R> {
    pub fn new(rt: &'a R, is_on: bool) -> Teller<'a, R> {
        let began = if is_on { Instant::now(rt).ok() } else { None };
        Teller {
            rt,
            at_once: AtOnce::new(rt, is_on),
            is_on,
            began,
            next: AtomicU64::new(1000),
            last: AtomicU64::new(0),
            prints: AtomicBool::new(false),
            printed: AtomicU64::new(0),
            ended: AtomicU64::new(0),
        }
    }
}

impl<R: Clock> Teller<'_, R> {
    // The time since the run began, 0 if the clock failed.
    fn elapsed(&self) -> Elapsed {
        let tenths = match self.began {
            Some(began) => match began.elapsed(self.rt) {
                Ok(time) => time.as_millis() / 100,
                Err(_) => 0,
            },
            None => 0,
        };
        Elapsed { tenths }
    }
}

impl<R> Teller<'_, R> {
    // Is the last line at least a sixteenth of all reports ago?
    fn is_past(&self, heard: u64) -> bool {
        heard.saturating_sub(self.last.load(Ordering::SeqCst)) >= heard / 16
    }

    // Is the next line due after this number of reports? It is for one of several threads that
    // ask.
    fn has_come(&self, heard: u64) -> bool {
        let next = self.next.load(Ordering::SeqCst);
        heard >= next
            && self
                .next
                .compare_exchange(next, after(heard), Ordering::SeqCst, Ordering::SeqCst)
                .is_ok()
    }

    // May this thread print a line after this number of reports? Not if another one prints: then
    // the next report gets a line. Not if a later line was printed.
    fn begins_line(&self, heard: u64) -> bool {
        if self.prints.swap(true, Ordering::SeqCst) {
            self.next.store(heard.saturating_add(1), Ordering::SeqCst);
            return false;
        }
        if self.printed.load(Ordering::SeqCst) > heard {
            self.ends_line();
            return false;
        }
        self.printed.store(heard, Ordering::SeqCst);
        true
    }

    fn ends_line(&self) {
        self.prints.store(false, Ordering::SeqCst);
    }
}

// The word for one, or for any other number.
fn counted(count: u64, one: &'static str, other: &'static str) -> &'static str {
    if count == 1 { one } else { other }
}

// A value as it is printed, or `none`.
fn word_of(value: &Option<Vec<u8>>) -> &str {
    match value {
        Some(value) => str::from_utf8(value).unwrap_or("none"),
        None => "none",
    }
}

// The number of reports at which the next line is due, after this one.
fn after(heard: u64) -> u64 {
    let mut next = 1000u64;
    for step in 0..9u32 {
        if next > heard {
            return next;
        }
        next = if step % 3 == 1 {
            next.saturating_mul(5) / 2
        } else {
            next.saturating_mul(2)
        };
    }
    (heard / MILLION).saturating_add(1).saturating_mul(MILLION)
}

impl<'a, R: Eprint + Clock> Teller<'a, R> {
    /// Prints that the run has ended, if one did, with the number of saves if it had a checkpoint.
    pub fn tell_end(&self, saves: Option<u64>) {
        let ended = self.ended.load(Ordering::SeqCst);
        if !self.is_on || ended == 0 {
            return;
        }
        let heard = ended - 1;
        let report = counted(heard, "report", "reports");
        let time = self.elapsed();
        match saves {
            Some(saves) => {
                let save = counted(saves, "save", "saves");
                let _ = eprintln!(self.at_once;
                    "ug: {time}: ended after {heard} {report}, {saves} {save}"
                );
            }
            None => {
                let _ = eprintln!(self.at_once; "ug: {time}: ended after {heard} {report}");
            }
        }
    }
}

impl<'a, R: Eprint + Clock + Sync> Observer for Teller<'a, R> {
    fn pass(&self, _rank: u32, _moment: Moment) {}

    fn begin(&self, begun: &Begun) {
        if !self.is_on {
            return;
        }
        let Begun {
            columns,
            rows,
            solvers,
            maximise,
            constant,
        } = begun;
        let column = counted(*columns as u64, "column", "columns");
        let row = counted(*rows as u64, "row", "rows");
        let solver = counted(u64::from(*solvers), "solver", "solvers");
        let sense = if *maximise { "maximised" } else { "minimised" };
        let constant = word_of(constant);
        let _ = eprintln!(self.at_once;
            "ug: {columns} {column}, {rows} {row}, {sense}, constant {constant}, {solvers} {solver}"
        );
    }

    fn wants(&self, heard: u64, is_better: bool) -> bool {
        if !self.is_on {
            return false;
        }
        let is_wanted = self.has_come(heard) || (is_better && self.is_past(heard));
        if is_wanted {
            self.last.store(heard, Ordering::SeqCst);
        }
        is_wanted
    }

    fn tell(&self, progress: &Progress) {
        let Progress {
            heard,
            best,
            bound,
            nodes,
        } = progress;
        if !self.begins_line(*heard) {
            return;
        }
        let time = self.elapsed();
        let best = word_of(best);
        let bound = word_of(bound);
        let node = counted(*nodes as u64, "node", "nodes");
        let report = counted(*heard, "report", "reports");
        let _ = eprintln!(self.at_once;
            "ug: {time}: incumbent {best}, dual bound {bound}, {nodes} open {node}, {heard} {report}"
        );
        self.ends_line();
    }

    fn end(&self, heard: u64) {
        self.ended.store(heard.saturating_add(1), Ordering::SeqCst);
    }

    fn stands_at_box(&self, column: &[u8]) {
        match str::from_utf8(column) {
            Ok(column) => {
                let _ = eprintln!(self.rt;
                    "ug: warning: column {column} is at a bound of the box; a larger --box may have a better point"
                );
            }
            Err(_) => {
                let _ = eprintln!(self.rt;
                    "ug: warning: a column whose name is not UTF-8 is at a bound of the box; a larger --box may have a better point"
                );
            }
        }
    }

    fn drops(&self, rank: u32, why: Dropped) {
        if self.is_on {
            let why = match why {
                Dropped::Nonsense => "malformed message",
                Dropped::Untrue => "a report that cannot be true",
            };
            let _ = eprintln!(self.at_once; "ug: rank {rank} lost: {why}");
        }
    }
}
