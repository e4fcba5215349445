ghost use Rattle.std.specs.Prelude.{◌≡◌, ◌↔◌, IsSome, IsTrue, IfOk, IfSome};
ghost use Rattle.ug_nodes.specs.Changes.{change_bounds, IsRising};

use std::alloc::AllocError;
use std::marker::Model;
use ug_lists::{Same, are_same};
use ug_rows::Interval;

/// A column whose bounds are not the root's.
#[derive(Clone, Copy, PartialEq, Eq)]
pub struct Change {
    /// The column, counted from 0.
    pub column: u32,
    pub low: i32,
    pub high: i32,
}

impl Change {
    /// The bounds that the column has.
    pub fn bounds(self) -> Interval
        ensures { result ≡ change_bounds self }
    {
        Interval {
            low: self.low,
            high: self.high,
        }
    }
}

impl Same for Change {
    fn is(&self, other: &Change) -> bool {
        *self == *other
    }
}

/// A box against the root's: the columns that differ, in strictly rising order.
#[derive(Clone, Drop)]
pub struct Changes {
    changes: Vec<Change>,
}

impl Model for Changes {
    ghost use Rattle.std.specs.Prelude.{List};
    ghost use Rattle.ug_nodes.specs.declared.change.Change.{Change};
    ghost use Rattle.ug_nodes.specs.Changes.{IsRising};

    ghost Value = { List Change };

    ghost view = { λ list. list.changes.items };

    ghost invariant = { λ list. IsRising list.changes.items };
}

impl Changes {
    /// These changes. It takes no memory.
    pub fn new(changes: Vec<Change>) -> Changes
        requires { IsRising changes.items }
        ensures { result ≡ changes.items }
    {
        Changes { changes }
    }

    /// These changes, if their columns rise strictly. It takes no memory.
    pub fn checked(changes: Vec<Change>) -> Option<Changes>
        ensures rising { IsSome result ↔ IsRising changes.items }
        ensures value { IfSome result (λ list. list ≡ changes.items) }
    {
        if !are_rising(&changes) {
            return None;
        }
        Some(Changes { changes })
    }

    /// A copy.
    pub fn copy(&self) -> Result<Changes, AllocError>
        ensures { IfOk result (λ copy. copy ≡ self.now) }
    {
        self.clone()
    }

    pub fn as_slice(&self) -> &[Change]
        ensures value { result.now ≡ self.now }
        ensures rising { IsRising self.now }
    {
        self.changes.as_slice()
    }
}

impl Same for Changes {
    fn is(&self, other: &Changes) -> bool {
        are_same(self.as_slice(), other.as_slice())
    }
}

// Whether the columns rise strictly.
fn are_rising(changes: &[Change]) -> bool
    ensures { IsTrue result ↔ IsRising changes.now }
{
    for k in 1..changes.len() {
        if changes[k].column <= changes[k - 1].column {
            return false;
        }
    }
    true
}
