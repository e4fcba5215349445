//! Cases of a worker at a link: what is ordered, and what is reported.

use crate::expect::holds_at;
use crate::served::link::{SOUND, is_told};
use crate::served::words::{Ordered, Reported, add_order, add_reports, add_setup};
use std::alloc::Global;
use std::process::Abort;
use std::sync::Wait;
use ug_serve::Served;

/// The orders behind a problem under a gap, piece by piece, the reports that follow, and the end.
#[derive(Clone, Copy)]
pub struct Case {
    pub what: &'static str,
    pub gap: i128,
    pub pieces: &'static [&'static [Ordered]],
    pub told: &'static [Reported],
    pub end: Served,
}

/// Nothing comes for now: what follows is received by the next read.
pub const GAP: &[Ordered] = &[];

/// Adds a piece. Whether it is a whole one, and there was memory for it.
pub fn push_piece(pieces: &mut Vec<Vec<u8>>, piece: Vec<u8>, is_whole: bool) -> bool {
    let pushed = pieces.push(piece);
    let so = pushed.is_ok() && is_whole;
    drop(pushed);
    so
}

// Adds the frames of orders, one behind another, as one piece.
fn add_piece(alloc: Global, pieces: &mut Vec<Vec<u8>>, orders: &[Ordered]) -> bool {
    let mut piece = Vec::new(alloc);
    let mut so = true;
    for order in orders {
        so = so && add_order(alloc, &mut piece, order);
    }
    push_piece(pieces, piece, so)
}

/// Adds the pieces of a case over the problem of a file, that of the problem first.
pub fn add_pieces(alloc: Global, pieces: &mut Vec<Vec<u8>>, text: &[u8], case: &Case) -> bool {
    let mut setup = Vec::new(alloc);
    let is_set = add_setup(alloc, &mut setup, case.gap, text);
    let mut so = push_piece(pieces, setup, is_set);
    for orders in case.pieces {
        so = so && add_piece(alloc, pieces, orders);
    }
    so
}

// Whether the problem of the file is served as the case has it.
fn is_served_so<R: Wait>(rt: &R, alloc: Global, text: &[u8], case: &Case) -> bool {
    let mut pieces = Vec::new(alloc);
    let mut wanted = Vec::new(alloc);
    let is_so = add_pieces(alloc, &mut pieces, text, case)
        && add_reports(alloc, &mut wanted, case.told)
        && is_told(rt, alloc, &pieces, SOUND, &wanted, case.end);
    drop(pieces);
    drop(wanted);
    is_so
}

/// Expects each case over the problem of the file.
pub fn each_is_served_so<R: Wait + Abort>(rt: &R, alloc: Global, text: &[u8], cases: &[Case]) {
    for case in cases {
        holds_at(rt, is_served_so(rt, alloc, text, case), &case.what);
    }
}
