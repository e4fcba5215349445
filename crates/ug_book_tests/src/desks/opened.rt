//! A desk that is opened with its two passes, and closed.

ghost use Rattle.std.specs.Prelude.{◌≡◌, IfSome};
ghost use Rattle.ug_rules.specs.Books.{AreSettings};
ghost use Rattle.ug_book_tests.specs.Both.{AreBoth, AreTwo};

use crate::problems::square;
use std::alloc::Global;
use ug_book::{Answered, Book, Opening};
use ug_branch::Base;
use ug_desk::{Desk, Pass};
use ug_problem::Shared;
use ug_rules::Settings;

// Two ranks, from two to three nodes in the pool, and a gap of 2 where one is needed.
fn settings(has_gap: bool) -> Settings
    ensures are { AreSettings result }
    ensures two { result.solvers ≡ 2 }
{
    let gap = if has_gap { 2 } else { 0 };
    Settings {
        solvers: 2,
        racing: false,
        base: Base::Bound,
        low: 2,
        high: 3,
        every: 1,
        limit: u64::MAX,
        winner: 20,
        gap,
    }
}

/// A desk over the square, and its two passes.
#[derive(Drop)]
pub struct Opened {
    pub desk: Desk,
    pub first: Pass,
    pub second: Pass,
}

/// A desk with the passes that it was opened with.
pub fn open(alloc: Global, has_gap: bool) -> Option<Opened>
    ensures { IfSome result (λ o. AreTwo o.desk o.first o.second) }
{
    let problem = Shared::own(square(alloc).ok()?);
    let Ok(opening) = Opening::new(alloc, problem, 1, settings(has_gap)) else {
        return None;
    };
    match Desk::new(alloc, opening) {
        Ok((desk, passes)) => with_both(desk, passes),
        Err(_) => None,
    }
}

// A desk with both of its passes.
fn with_both(desk: Desk, mut passes: Vec<Pass>) -> Option<Opened>
    requires { AreBoth desk passes.items }
    ensures { IfSome result (λ o. AreTwo o.desk o.first o.second) }
{
    let second = passes.pop();
    let first = passes.pop();
    drop(passes);
    match (first, second) {
        (Some(first), Some(second)) => Some(Opened {
            desk,
            first,
            second,
        }),
        (one, other) => {
            drop(desk);
            drop(one);
            drop(other);
            None
        }
    }
}

// Whether the answer is the point (0, 5).
fn has_least(book: &Book) -> bool {
    match book.answer() {
        Some(Answered::Optimal(point)) => point.as_slice() == [0, 5].as_slice(),
        _ => false,
    }
}

/// Whether the book of a desk that is closed has the point (0, 5) for its answer.
pub fn closes_with_least(alloc: Global, opened: Opened) -> bool
    requires { AreTwo opened.desk opened.first opened.second }
{
    let Opened {
        desk,
        first,
        second,
    } = opened;
    let Ok(mut passes) = Vec::with_capacity(alloc, 2) else {
        drop(desk);
        drop(first);
        drop(second);
        return false;
    };
    passes.push_reserved(first);
    passes.push_reserved(second);
    match desk.close(alloc, passes) {
        Ok(locked) => {
            let has_least = has_least(locked.book());
            drop(locked);
            has_least
        }
        Err(back) => {
            drop(back);
            false
        }
    }
}
