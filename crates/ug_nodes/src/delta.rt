ghost use Rattle.std.specs.Prelude.{◌≡◌, ◌↔◌, IfOk, OnOk, OnErr, IsTrue};
ghost use Rattle.ug_nodes.specs.Deltas.{IsDelta, IsNear, after};

use crate::change::Changes;
use crate::spelling::{differences, write_all};
use std::alloc::{AllocError, Global};
use std::mem;
use ug_lists::Same;
use ug_rows::{IntBox, Interval};

/// A box against the one before it.
#[derive(Drop)]
pub enum Delta {
    /// The box itself: it has another width, or more columns than changes are of.
    Whole(IntBox),
    /// The columns that have other bounds.
    Changed(Changes),
}

impl Same for Delta {
    fn is(&self, other: &Delta) -> bool {
        match (self, other) {
            (Delta::Whole(area), Delta::Whole(that)) => area.is(that),
            (Delta::Changed(changes), Delta::Changed(those)) => changes.is(those),
            _ => false,
        }
    }
}

impl Delta {
    /// What a box is against another.
    #[tactic(auto, using(crate::proofs::DeltaLemmas::made))]
    pub(crate) fn of(alloc: Global, before: &[Interval], area: &IntBox) -> Result<Delta, AllocError>
        ensures delta { IfOk result (IsDelta before.now) }
        ensures area { IfOk result (λ delta. after before.now delta ≡ area.now) }
    {
        if is_near(before, area.as_slice()) {
            let changes = differences(alloc, before, area.as_slice())?;
            Ok(Delta::Changed(Changes::new(changes)))
        } else {
            let sides = Vec::from_slice(alloc, area.as_slice())?;
            Ok(Delta::Whole(IntBox::from_vec(sides)))
        }
    }

    /// Makes the box of the one before it. After an error this is as it was.
    pub(crate) fn apply(&self, sides: &mut Vec<Interval>) -> Result<(), AllocError>
        requires { IsDelta sides.old.items self.now }
        ensures ok { OnOk result (sides.new.items ≡ after sides.old.items self.now) }
        ensures err { OnErr result (sides.new.items ≡ sides.old.items) }
    {
        match self {
            Delta::Whole(area) => {
                let copy = Vec::from_slice(*sides.allocator(), area.as_slice())?;
                drop(mem::replace(sides, copy));
            }
            Delta::Changed(changes) => write_all(sides, changes.as_slice()),
        }
        Ok(())
    }
}

// Whether changes may say what the one box is against the other.
fn is_near(before: &[Interval], area: &[Interval]) -> bool
    ensures { IsTrue result ↔ IsNear before.now area.now }
{
    area.len() == before.len() && before.len() <= 10_000
}
