//! Which columns of an answer are at a bound that the box put, and not the file.

use std::alloc::Global;
use ug_mps::{FreeEnds, free_ends};
use ug_problem::{Column, Shared};
use ug_restart::{End, Observer};

/// The problem that a file states.
#[derive(Drop)]
pub struct Stated {
    pub problem: Shared,
    /// Which bounds the file leaves infinite, where a box is put for them and memory suffices.
    pub ends: Option<Vec<FreeEnds>>,
}

/// Which bounds the file leaves infinite, where a box is put for them and memory suffices.
pub fn ends_for(alloc: Global, text: &[u8], boxed: Option<u32>) -> Option<Vec<FreeEnds>> {
    boxed?;
    free_ends(alloc, text)
}

/// Reports the observer of each column of an answer that is not 0 and is at a bound of the box.
pub fn tell_boxes<O: Observer>(observer: &O, end: &End, ends: Option<Vec<FreeEnds>>) {
    let Some(ends) = ends else {
        return;
    };
    if let End::Answered(book) = end {
        if let Some(point) = book.best() {
            let columns = book.problem().problem().columns();
            tell_columns(observer, columns, point.as_slice(), &ends);
        }
    }
    drop(ends);
}

fn tell_columns<O: Observer>(observer: &O, columns: &[Column], values: &[i32], ends: &[FreeEnds]) {
    for ((column, value), free) in columns.iter().zip(values).zip(ends) {
        if *value != 0 && stands_at_box(column, *value, *free) {
            observer.stands_at_box(column.name.as_slice());
        }
    }
}

fn stands_at_box(column: &Column, value: i32, free: FreeEnds) -> bool {
    (free.low && value == column.low) || (free.high && value == column.high)
}
