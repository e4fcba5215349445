//! Children that solve: three workers of one large problem, of which each byte is examined.

ghost use Rattle.std.specs.Prelude.{◌<◌, length};

use crate::children::child::make_solver;
use crate::children::listening::{is_clean, start_three, tell};
use crate::children::notes::Notes;
use crate::expect::holds;
use std::alloc::{AllocGlobal, Global};
use std::net::Net;
use std::process::Abort;
use std::sync::Wait;
use std::time::Clock;
use ug_io::{Came, Crew};
use ug_real::{ChildCommand, ProcessCrew, SocketFolder, SocketLink};
use ug_serve::{Service, serve};

const SOLVERS: ChildCommand<'static> = ChildCommand {
    program: "./solver",
    sockets: SocketFolder::Given("sockets"),
};

const COLUMNS: u32 = 10_000;

// How many bytes Setup has, and Ready, Solution and Done.
const SETUP: usize = 2_640_051;

const REPORTS: usize = 40_076;

const END: &[u8] = &[0, 0, 0, 1, 8];

const READY: &[u8] = &[0, 0, 0, 1, 17];

const ENDED: &[u8] = &[0, 0, 0, 1, 22];

/// Serves the socket of this path, as the program does with the words of a worker.
pub fn solve<R: Net + Clock + Wait + AllocGlobal>(rt: &R, path: &str) {
    let link = SocketLink::new(rt, rt.alloc(), path);
    let Service { link, .. } = serve(rt, rt.alloc(), link);
    drop(link);
}

// Adds bytes. Whether there was memory for them, as of each call here.
fn put(bytes: &mut Vec<u8>, more: &[u8]) -> bool {
    bytes.extend_from_slice(more).is_ok()
}

// The last digit of a number.
fn digit(number: u32) -> u8 {
    b'0' + (number % 10) as u8
}

// A column from 0 to 0, whose name is its number in 255 digits.
fn put_column(bytes: &mut Vec<u8>, number: u32) -> bool {
    let digits = [
        digit(number / 10_000),
        digit(number / 1_000),
        digit(number / 100),
        digit(number / 10),
        digit(number),
    ];
    put(bytes, &[255]) & put(bytes, &[b'0'; 250]) & put(bytes, &digits) & put(bytes, &[0; 8])
}

fn put_columns(bytes: &mut Vec<u8>) -> bool {
    let mut so = true;
    for number in 0..COLUMNS {
        so = so && put_column(bytes, number);
    }
    so
}

// The ticket of the rank: of run 1, and one more than its number.
fn put_ticket(bytes: &mut Vec<u8>, rank: u8) -> bool {
    put(bytes, &[0, 0, 0, 0, 0, 0, 0, 1, 0, 0, 0, 0, 0, 0, 0])
        & put(bytes, &[rank.saturating_add(1)])
}

// Setup with gap 0, many columns, no row and the objective 0, and Work of all of it for the rank.
fn put_orders(bytes: &mut Vec<u8>, rank: u8) -> bool {
    put(bytes, &[0, 0x28, 0x48, 0xaf, 1])
        & put(bytes, &[0; 16])
        & put(bytes, &[0, 0, 0x27, 0x10])
        & put_columns(bytes)
        & put(bytes, &[0; 26])
        & put(bytes, &[0, 0, 0, 24, 2])
        & put_ticket(bytes, rank)
        & put(bytes, &[0; 7])
}

// A point of zeros, one for each column.
fn put_point(bytes: &mut Vec<u8>) -> bool {
    let mut so = put(bytes, &[0, 0, 0x27, 0x10]);
    for _ in 0..COLUMNS {
        so = so && put(bytes, &[0; 4]);
    }
    so
}

// What comes of the rank: Ready, the one point, Done under its cutoff, 0, with no hand, and Ended.
fn put_reports(bytes: &mut Vec<u8>, rank: u8) -> bool {
    put(bytes, READY)
        & put(bytes, &[0, 0, 0x9c, 0x55, 18])
        & put_ticket(bytes, rank)
        & put_point(bytes)
        & put(bytes, &[0, 0, 0, 42, 21])
        & put_ticket(bytes, rank)
        & put(bytes, &[1])
        & put(bytes, &[0; 24])
        & put(bytes, ENDED)
}

// What was received from each rank, and how many are lost.
#[derive(Drop)]
struct Heard {
    ranks: [Vec<u8>; 3],
    gone: u32,
}

impl Heard {
    // Nothing of three ranks.
    fn new(alloc: Global) -> Heard {
        Heard {
            ranks: [Vec::new(alloc), Vec::new(alloc), Vec::new(alloc)],
            gone: 0,
        }
    }

    // Takes note of bytes of the rank. Whether all reports but Ended came with them.
    fn add(&mut self, rank: u32, bytes: &[u8]) -> bool {
        match self.ranks.get_mut(rank as usize) {
            Some(all) => all.extend_from_slice(bytes).is_ok() && all.len() == REPORTS,
            None => false,
        }
    }

    // Takes note of what comes next, and reports the end to a rank that has searched all. Whether
    // something came.
    fn hear<C: Crew>(&mut self, crew: &mut C, buffer: &mut [u8]) -> bool
        requires { 0 < length buffer.old }
    {
        match crew.turn(buffer) {
            Ok(Came::Bytes { rank, count }) => {
                !self.add(rank, buffer.get(..count).unwrap_or(&[])) || tell(crew, rank, END)
            }
            Ok(Came::Gone { .. }) => {
                self.gone = self.gone.saturating_add(1);
                true
            }
            Err(_) => false,
        }
    }

    // Listens until three ranks are lost.
    fn listen<C: Crew>(&mut self, crew: &mut C) {
        let mut buffer = [0u8; 4096];
        for _ in 0..u64::MAX {
            if self.gone == 3 || !self.hear(crew, &mut buffer) {
                return;
            }
        }
    }

    // Whether just that came of the rank.
    fn has(&self, rank: u8, wanted: &[u8]) -> bool {
        match self.ranks.get(rank as usize) {
            Some(all) => all.as_slice() == wanted,
            None => false,
        }
    }
}

// Whether the rank is sent the problem and its work.
fn is_told<C: Crew>(alloc: Global, crew: &mut C, rank: u8) -> bool {
    let mut orders = Vec::new(alloc);
    let so = put_orders(&mut orders, rank)
        && orders.len() == SETUP + 28
        && tell(crew, u32::from(rank), &orders);
    drop(orders);
    so
}

// Whether the rank has said just what it has to.
fn has_said(alloc: Global, heard: &Heard, rank: u8) -> bool {
    let mut wanted = Vec::new(alloc);
    let so = put_reports(&mut wanted, rank) && heard.has(rank, &wanted);
    drop(wanted);
    so
}

// Each of three ranks is sent the problem and its work, and the end once it has searched all;
// it says just what it has to, and is lost.
fn say_what_they_have_to<C: Crew>(rt: &impl Abort, alloc: Global, crew: &mut C)
    requires { 2 < length (C.seen crew.old).lives }
{
    holds(rt, start_three(crew));
    for rank in 0..3u8 {
        holds(rt, is_told(alloc, crew, rank));
    }
    let mut heard = Heard::new(alloc);
    heard.listen(crew);
    for rank in 0..3u8 {
        holds(rt, has_said(alloc, &heard, rank));
    }
    holds(rt, heard.gone == 3);
    drop(heard);
    crew.finish();
}

#[test]
fn three_solvers_of_a_large_problem_say_what_they_have_to(rt: HostRuntime) {
    let alloc = rt.alloc();
    holds(&rt, make_solver(&rt));
    let mut lines = Vec::new(alloc);
    let notes = Notes {
        alloc,
        lines: &mut lines,
    };
    let mut crew = ProcessCrew::new(&rt, alloc, 3, SOLVERS, notes).expect(&rt, "memory");
    say_what_they_have_to(&rt, alloc, &mut crew);
    drop(crew);
    drop(lines);
    holds(&rt, is_clean(&rt, "sockets"));
}
