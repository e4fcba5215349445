//! When the book is saved.

ghost use Rattle.std.specs.Prelude.{◌≡◌, ◌↔◌, IsTrue, MatchBool};
ghost use Rattle.ug_coord.specs.Pacing.{IsApart, IsSaveDue, is_due, saved_at};

use ug_book::Book;

// A snapshot copies each node. Between two saves there are this many reports for each node, so that
// copying takes a small part of the time, however many nodes there are.
const REPORTS_A_NODE: u64 = 8;

/// The number of reports at the last save, and the least number of reports before the next.
#[derive(Clone, Copy)]
pub struct Pacing {
    pub since: u64,
    pub apart: u64,
}

impl Pacing {
    /// Returns the pacing of a run that begins with this number of reports.
    pub fn new(heard: u64) -> Pacing
        ensures { result ≡ record { since = heard; apart = 0 } }
    {
        Pacing {
            since: heard,
            apart: 0,
        }
    }

    /// Whether a save of the book is due.
    pub fn is_due(self, book: &Book) -> bool
        ensures { MatchBool result (IsSaveDue self book.now) (¬ IsSaveDue self book.now) }
    {
        is_asked_for(book.settings().every, book.heard()) && is_apart(self, book.heard())
    }

    /// The book was saved.
    pub fn saved(book: &Book) -> Pacing
        ensures { result ≡ saved_at book.now }
    {
        let open = book.open() as u64;
        Pacing {
            since: book.heard(),
            apart: open.saturating_mul(REPORTS_A_NODE),
        }
    }
}

// Did at least one report come since the last save, and as many as must lie between?
fn is_apart(pacing: Pacing, heard: u64) -> bool
    ensures { IsTrue result ↔ IsApart pacing heard }
{
    match heard.checked_sub(pacing.since) {
        Some(since) => since > 0 && pacing.apart <= since,
        None => false,
    }
}

// Whether the report of this number asks for a save.
fn is_asked_for(every: u64, heard: u64) -> bool
    ensures { result ≡ is_due every heard }
{
    every != 0 && heard % every == 0
}
