ghost use Rattle.std.specs.Prelude.{◌≡◌};
ghost use Rattle.ug_drafts.specs.Bounds.{low_after, high_after};
ghost use Rattle.ug_drafts.specs.Kept.{with_change};

use crate::bound::{Bound, BoundChange};

/// What a column has so far.
#[derive(Clone, Copy)]
pub struct ColumnDraft {
    /// The line in which it begins.
    pub line: u64,
    /// It is integer where it begins, or a bound made it so.
    pub integer: bool,
    /// The lower bound, if it was set.
    pub low: Option<Bound>,
    /// The upper bound, if it was set.
    pub high: Option<Bound>,
}

// The lower bound after a change.
fn low_after(change: BoundChange, old: Option<Bound>) -> Option<Bound>
    ensures { result ≡ low_after change old }
{
    match change.low {
        Some(low) => Some(low),
        None => {
            if change.falls && old.is_none() {
                Some(Bound::Infinite)
            } else {
                old
            }
        }
    }
}

// The upper bound after a change.
fn high_after(change: BoundChange, old: Option<Bound>) -> Option<Bound>
    ensures { result ≡ high_after change old }
{
    match change.high {
        Some(high) => Some(high),
        None => old,
    }
}

impl ColumnDraft {
    /// The column after a change.
    pub fn changed(self, change: BoundChange) -> ColumnDraft
        ensures { result ≡ with_change change self }
    {
        ColumnDraft {
            line: self.line,
            integer: self.integer || change.integer,
            low: low_after(change, self.low),
            high: high_after(change, self.high),
        }
    }
}
