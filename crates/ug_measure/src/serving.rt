use crate::link::TaskLink;
use std::alloc::{AllocError, Global};
use std::rt::Files;
use std::sync::Wait;
use ug_branch::Params;
use ug_frames::{Decoded, Order, Report, decode_report, encode_order};
use ug_lists::{Bytes, Text};
use ug_mps::{gather, read};
use ug_nodes::{Changes, Ticket};
use ug_problem::Problem;
use ug_real::Reader;
use ug_records::to_record;
use ug_rows::Point;
use ug_serve::{Served, serve};

/// The longest record that a frame has room for.
const LONGEST: usize = 67_108_843;

/// The frame of the last order.
const END: &[u8] = &[0, 0, 0, 1, 8];

/// What a worker reported of the whole problem.
#[derive(Drop)]
pub struct Telling {
    /// How many reports.
    pub reports: u64,
    /// The value of the last point, if there was one.
    pub value: Option<Text>,
}

// The facts read from the reports.
#[derive(Drop)]
struct Heard {
    reports: u64,
    is_done: bool,
    best: Option<Point>,
}

impl Heard {
    fn new() -> Heard {
        Heard {
            reports: 0,
            is_done: false,
            best: None,
        }
    }

    fn hear(&mut self, report: Report) {
        self.reports = self.reports.saturating_add(1);
        match report {
            Report::Solution { point, .. } => self.best = Some(point),
            Report::Done { .. } => self.is_done = true,
            other => drop(other),
        }
    }

    // Receives the report whose frame is at the front, and says how many bytes it has.
    fn hear_first(&mut self, alloc: Global, bytes: &[u8]) -> Option<usize> {
        let Ok(Decoded::Whole { message, used }) = decode_report(alloc, bytes) else {
            return None;
        };
        self.hear(message);
        Some(used)
    }

    // Receives the reports whose frames these are.
    fn hear_all(&mut self, alloc: Global, bytes: &[u8]) {
        let mut rest = bytes;
        for _ in 0..bytes.len() {
            let Some(used) = self.hear_first(alloc, rest) else {
                return;
            };
            rest = rest.get(used..).unwrap_or(&[]);
        }
    }

    // The value of the best point.
    fn value(&self, alloc: Global, problem: &Problem) -> Option<Text> {
        let point = self.best.as_ref()?;
        if point.as_slice().len() != problem.columns().len() {
            return None;
        }
        problem.print_value(alloc, problem.value(point)).ok()
    }
}

// Puts the frame of the order that brings the problem.
fn put_setup(frames: &mut Vec<u8>, record: Bytes) -> Result<(), AllocError> {
    if record.len() > LONGEST {
        drop(record);
        return Err(AllocError);
    }
    let order = Order::Setup { gap: 0, record };
    let put = encode_order(frames, &order);
    drop(order);
    put
}

// Puts the frame of the order to search all of it, as a first rank is given it.
fn put_work(alloc: Global, frames: &mut Vec<u8>) -> Result<(), AllocError> {
    let order = Order::Work {
        ticket: Ticket { run: 1, number: 1 },
        params: Params::new(0),
        race: false,
        cutoff: None,
        changes: Changes::new(Vec::new(alloc)),
    };
    let put = encode_order(frames, &order);
    drop(order);
    put
}

// The frames of both orders.
fn orders_of(alloc: Global, problem: &Problem) -> Result<Vec<u8>, AllocError> {
    let record = to_record(alloc, problem)?;
    let mut frames = Vec::new(alloc);
    let is_put = put_setup(&mut frames, record).is_ok() && put_work(alloc, &mut frames).is_ok();
    if is_put {
        return Ok(frames);
    }
    drop(frames);
    Err(AllocError)
}

// Returns the facts read from the reports of a worker that serves these orders.
fn heard_over<R: Wait>(rt: &R, alloc: Global, orders: &[u8]) -> Heard {
    let service = serve(rt, alloc, TaskLink::new(orders, END, Vec::new(alloc)));
    let mut heard = Heard::new();
    if service.end == Served::Ended {
        heard.hear_all(alloc, &service.link.told);
    }
    drop(service);
    heard
}

// Returns the reports on the whole problem, if the task was done.
fn telling_of<R: Wait>(rt: &R, alloc: Global, problem: &Problem) -> Option<Telling> {
    let orders = orders_of(alloc, problem).ok()?;
    let heard = heard_over(rt, alloc, &orders);
    drop(orders);
    let telling = if heard.is_done {
        Some(Telling {
            reports: heard.reports,
            value: heard.value(alloc, problem),
        })
    } else {
        None
    };
    drop(heard);
    telling
}

/// The problem of a file, if its text is not refused.
pub fn problem_of<R: Files>(rt: &R, alloc: Global, path: &str) -> Option<Problem> {
    let mut reader = Reader::new(rt, path);
    let text = gather(alloc, &mut reader);
    drop(reader);
    let text = text.ok()?;
    let problem = read(alloc, &text, None);
    drop(text);
    problem.ok()
}

/// Serves a worker with the whole problem of a file as its one task. None where the file is
/// refused, a call fails or memory runs out.
pub fn serve_file<R: Files + Wait>(rt: &R, alloc: Global, path: &str) -> Option<Telling> {
    let problem = problem_of(rt, alloc, path)?;
    let telling = telling_of(rt, alloc, &problem);
    drop(problem);
    telling
}
