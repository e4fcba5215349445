//! Orders and reports as tables have them, and their frames: the length of all that follows, the
//! tag, and the fields, whose numbers are big endian.

use std::alloc::Global;
use ug_mps::read;
use ug_nodes::{Change, Ticket};
use ug_records::to_record;

/// The tickets of tables: two of one run, and one of the next.
pub const FIRST: Ticket = Ticket { run: 1, number: 1 };

pub const SECOND: Ticket = Ticket { run: 1, number: 2 };

pub const NEXT_RUN: Ticket = Ticket { run: 2, number: 1 };

/// The box to search.
#[derive(Clone, Copy)]
pub struct Work {
    pub ticket: Ticket,
    pub params: u8,
    pub race: bool,
    pub cutoff: Option<i128>,
    pub changes: &'static [Change],
}

/// An order behind the first.
#[derive(Clone, Copy)]
pub enum Ordered {
    Work(Work),
    Incumbent { cutoff: i128 },
    CollectIn { ticket: Ticket, count: u32 },
    CollectOut { ticket: Ticket },
    Winner { ticket: Ticket },
    Stop { ticket: Ticket },
    End,
}

/// A report.
#[derive(Clone, Copy)]
pub enum Reported {
    Ready,
    Solution {
        ticket: Ticket,
        point: &'static [i32],
    },
    Hand {
        ticket: Ticket,
        number: u64,
        changes: &'static [Change],
    },
    State {
        ticket: Ticket,
        left: u64,
        floor: i128,
    },
    Done {
        ticket: Ticket,
        cutoff: Option<i128>,
        count: u64,
    },
    Ended,
}

// Bytes. Whether there was memory for them, as of each call here.
fn put(body: &mut Vec<u8>, bytes: &[u8]) -> bool {
    body.extend_from_slice(bytes).is_ok()
}

// A number in 64 bits.
fn put_number(body: &mut Vec<u8>, number: u64) -> bool {
    put(body, &number.to_be_bytes())
}

// A value in 128 bits.
fn put_value(body: &mut Vec<u8>, value: i128) -> bool {
    put(body, &value.to_be_bytes())
}

// A tag, and the run and the number of a ticket.
fn put_ticket(body: &mut Vec<u8>, tag: u8, ticket: Ticket) -> bool {
    put(body, &[tag]) & put_number(body, ticket.run) & put_number(body, ticket.number)
}

// 0, or 1 and the value.
fn put_optional(body: &mut Vec<u8>, value: Option<i128>) -> bool {
    match value {
        None => put(body, &[0]),
        Some(value) => put(body, &[1]) & put_value(body, value),
    }
}

// How many there are, which are few.
fn put_count(body: &mut Vec<u8>, count: usize) -> bool {
    put(
        body,
        &u32::try_from(count).unwrap_or(u32::MAX).to_be_bytes(),
    )
}

// How many changes there are, and of each the column and its bounds.
fn put_changes(body: &mut Vec<u8>, changes: &[Change]) -> bool {
    let mut so = put_count(body, changes.len());
    for change in changes {
        so &= put(body, &change.column.to_be_bytes())
            & put(body, &change.low.to_be_bytes())
            & put(body, &change.high.to_be_bytes());
    }
    so
}

// How many values there are, and each.
fn put_point(body: &mut Vec<u8>, point: &[i32]) -> bool {
    let mut so = put_count(body, point.len());
    for value in point {
        so &= put(body, &value.to_be_bytes());
    }
    so
}

// The tag and the fields of an order.
fn put_order(body: &mut Vec<u8>, order: &Ordered) -> bool {
    match order {
        Ordered::Work(work) => {
            put_ticket(body, 2, work.ticket)
                & put(body, &[work.params, u8::from(work.race)])
                & put_optional(body, work.cutoff)
                & put_changes(body, work.changes)
        }
        Ordered::Incumbent { cutoff } => put(body, &[3]) & put_value(body, *cutoff),
        Ordered::CollectIn { ticket, count } => {
            put_ticket(body, 4, *ticket) & put(body, &count.to_be_bytes())
        }
        Ordered::CollectOut { ticket } => put_ticket(body, 5, *ticket),
        Ordered::Winner { ticket } => put_ticket(body, 6, *ticket),
        Ordered::Stop { ticket } => put_ticket(body, 7, *ticket),
        Ordered::End => put(body, &[8]),
    }
}

// The tag and the fields of a report.
fn put_report(body: &mut Vec<u8>, report: &Reported) -> bool {
    match report {
        Reported::Ready => put(body, &[17]),
        Reported::Solution { ticket, point } => {
            put_ticket(body, 18, *ticket) & put_point(body, point)
        }
        Reported::Hand {
            ticket,
            number,
            changes,
        } => {
            put_ticket(body, 19, *ticket) & put_number(body, *number) & put_changes(body, changes)
        }
        Reported::State {
            ticket,
            left,
            floor,
        } => { put_ticket(body, 20, *ticket) & put_number(body, *left) & put_value(body, *floor) }
        Reported::Done {
            ticket,
            cutoff,
            count,
        } => {
            put_ticket(body, 21, *ticket) & put_optional(body, *cutoff) & put_number(body, *count)
        }
        Reported::Ended => put(body, &[22]),
    }
}

/// Adds the frame of an order.
pub fn add_order(alloc: Global, bytes: &mut Vec<u8>, order: &Ordered) -> bool {
    let mut body = Vec::new(alloc);
    let so = put_order(&mut body, order) && put_count(bytes, body.len()) && put(bytes, &body);
    drop(body);
    so
}

/// Adds the frames of reports, one behind another.
pub fn add_reports(alloc: Global, bytes: &mut Vec<u8>, reports: &[Reported]) -> bool {
    let mut body = Vec::new(alloc);
    let mut so = true;
    for report in reports {
        body.clear();
        so = so
            && put_report(&mut body, report)
            && put_count(bytes, body.len())
            && put(bytes, &body);
    }
    drop(body);
    so
}

// The frame of a first order with this record.
fn put_setup(frame: &mut Vec<u8>, gap: i128, record: &[u8]) -> bool {
    put_count(frame, record.len().saturating_add(17))
        & put(frame, &[1])
        & put_value(frame, gap)
        & put(frame, record)
}

/// Adds the frame of the first order, of the problem of this text.
pub fn add_setup(alloc: Global, frame: &mut Vec<u8>, gap: i128, text: &[u8]) -> bool {
    let Ok(problem) = read(alloc, text, None) else {
        return false;
    };
    let so = match to_record(alloc, &problem) {
        Ok(record) => {
            let so = put_setup(frame, gap, record.as_slice());
            drop(record);
            so
        }
        Err(_) => false,
    };
    drop(problem);
    so
}
