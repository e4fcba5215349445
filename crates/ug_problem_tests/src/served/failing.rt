//! Links of which a call fails.

use crate::expect::holds_at;
use crate::served::cases::{Case, add_pieces};
use crate::served::link::{Calls, is_told, told_of};
use crate::served::square::FROM_ABOVE;
use crate::served::stairs::{MORE, STAIRS};
use crate::served::words::add_reports;
use crate::tasks::SQUARE;
use std::alloc::Global;
use std::process::Abort;
use std::sync::Wait;
use ug_serve::Served;

/// A run of which no call fails: how many bytes a call moves at most, and how many are made.
#[derive(Clone, Copy)]
struct Run {
    text: &'static [u8],
    case: Case,
    most: usize,
    calls: u64,
}

// A read for each of four pieces and three gaps, and a write for each of eleven reports.
const HANDS: Run = Run {
    text: STAIRS,
    case: MORE,
    most: 1000,
    calls: 18,
};

// Reads of 175, 28 and 5 bytes, 59, 10 and 2 of them, and of a gap. Writes: 2 for Ready and for
// Ended, 11 for each of ten points, and 16 for Done.
const POINTS: Run = Run {
    text: SQUARE,
    case: FROM_ABOVE,
    most: 3,
    calls: 202,
};

// Whether a prefix of the whole is reported, and the service ends by a fault.
fn is_cut_off<R: Wait>(
    rt: &R,
    alloc: Global,
    pieces: &[Vec<u8>],
    calls: Calls<'_>,
    whole: &[u8],
) -> bool {
    match told_of(rt, alloc, pieces, calls, whole) {
        Some(told) => told.front.is_some() && told.end == Served::LinkFault,
        None => false,
    }
}

// Expects that each call ends the service where it fails, and that none is made behind them.
fn each_call_ends<R: Wait + Abort>(
    rt: &R,
    alloc: Global,
    pieces: &[Vec<u8>],
    run: &Run,
    whole: &[u8],
) {
    let most = run.most;
    for before in 0..run.calls {
        let failing = &[before.saturating_add(1)];
        let calls = Calls { failing, most };
        holds_at(rt, is_cut_off(rt, alloc, pieces, calls, whole), &before);
    }
    let failing = &[run.calls.saturating_add(1)];
    let calls = Calls { failing, most };
    let is_whole = is_told(rt, alloc, pieces, calls, whole, Served::Ended);
    holds_at(rt, is_whole, &run.calls);
}

// Expects it of the calls of this run.
fn each_call_of<R: Wait + Abort>(rt: &R, alloc: Global, run: &Run) {
    let mut pieces = Vec::new(alloc);
    let mut whole = Vec::new(alloc);
    let is_made = add_pieces(alloc, &mut pieces, run.text, &run.case)
        && add_reports(alloc, &mut whole, run.case.told);
    holds_at(rt, is_made, &run.calls);
    each_call_ends(rt, alloc, &pieces, run, &whole);
    drop(pieces);
    drop(whole);
}

#[test]
fn call_that_fails_ends_the_service(rt: HostRuntime) {
    each_call_of(&rt, rt.alloc(), &HANDS);
}

#[test]
fn short_call_that_fails_ends_the_service(rt: HostRuntime) {
    each_call_of(&rt, rt.alloc(), &POINTS);
}
