//! A desk of two passes over a small problem: what they take, hand, find and read.

mod boxes;
mod calls;
mod cutoffs;
mod ends;
mod opened;
mod saved;

use crate::desks::boxes::box_is_work;
use crate::desks::cutoffs::cutoff_is_read;
use crate::desks::ends::is_over_with_the_root;
use crate::desks::opened::{closes_with_least, open};
use crate::desks::saved::boxes_are_saved;
use crate::expect::holds;
use std::alloc::Global;
use std::sync::Wait;

/// The facts examined in a desk.
#[derive(Clone, Copy)]
enum Looked {
    BoxIsWork,
    OverWithTheRoot,
    BoxesAreSaved,
    Cutoff,
    CutoffUnderGap,
}

// Whether that is so of a desk that is opened; and where it is over behind that, it closes with the
// least point.
fn is_so<R: Wait>(rt: &R, alloc: Global, looked: Looked) -> bool {
    let has_gap = matches!(looked, Looked::CutoffUnderGap);
    let Some(mut opened) = open(alloc, has_gap) else {
        return false;
    };
    let (is_so, is_over) = match looked {
        Looked::BoxIsWork => (box_is_work(rt, &mut opened), false),
        Looked::OverWithTheRoot => (is_over_with_the_root(rt, alloc, &mut opened), true),
        Looked::BoxesAreSaved => (boxes_are_saved(rt, &mut opened), false),
        Looked::Cutoff => (cutoff_is_read(rt, alloc, &mut opened, 5), false),
        Looked::CutoffUnderGap => (cutoff_is_read(rt, alloc, &mut opened, 3), false),
    };
    let has_least = closes_with_least(alloc, opened);
    is_so && has_least == is_over
}

#[test]
fn box_handed_is_the_work_of_the_pass_that_waited(rt: HostRuntime) {
    holds(&rt, is_so(&rt, rt.alloc(), Looked::BoxIsWork));
}

#[test]
fn desk_is_over_where_the_root_is_done(rt: HostRuntime) {
    holds(&rt, is_so(&rt, rt.alloc(), Looked::OverWithTheRoot));
}

#[test]
fn boxes_given_are_saved_in_place_of_the_node(rt: HostRuntime) {
    holds(&rt, is_so(&rt, rt.alloc(), Looked::BoxesAreSaved));
}

#[test]
fn cutoff_is_read_without_the_lock(rt: HostRuntime) {
    holds(&rt, is_so(&rt, rt.alloc(), Looked::Cutoff));
    holds(&rt, is_so(&rt, rt.alloc(), Looked::CutoffUnderGap));
}
