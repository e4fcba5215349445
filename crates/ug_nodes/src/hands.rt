ghost use Rattle.std.specs.Prelude.{◌≡◌, [], ◌∷◌, ◌++◌, ◌↔◌, length, IfOk, OnOk, OnErr, IsTrue};
ghost use Rattle.ug_nodes.specs.Deltas.{IsFork};
ghost use Rattle.ug_nodes.specs.Hands.{Agree, DidStep};

use crate::delta::Delta;
use std::alloc::{AllocError, Global};
use std::marker::Model;
use ug_lists::Same;
use ug_rows::{IntBox, Interval};

/// Boxes that were handed, in order. Each is kept as what it is against the one before it, so
/// memory follows what differs from box to box; the last is kept whole beside them.
#[derive(Drop)]
pub struct Hands {
    deltas: Vec<Delta>,
    last: Vec<Interval>,
}

impl Model for Hands {
    ghost use Rattle.std.specs.Prelude.{List, []};
    ghost use Rattle.ug_rows.specs.declared.area.Interval.{Interval};
    ghost use Rattle.ug_nodes.specs.Deltas.{boxes_behind};
    ghost use Rattle.ug_nodes.specs.Hands.{AreHands};

    ghost Value = { List (List Interval) };

    ghost view = { λ hands. boxes_behind [] hands.deltas.items };

    ghost invariant = { λ hands. AreHands hands.deltas.items hands.last.items };
}

impl Hands {
    /// None. It takes no memory.
    pub fn new(alloc: Global) -> Hands
        ensures { result ≡ [] }
    {
        Hands {
            deltas: Vec::new(alloc),
            last: Vec::new(alloc),
        }
    }

    /// How many there are.
    #[tactic(auto, using(crate::proofs::DeltaLemmas::count))]
    pub fn len(&self) -> usize
        ensures { result ≡ length self.now }
    {
        self.deltas.len()
    }

    /// A box more. After an error they are as they were.
    #[tactic(auto, using(crate::proofs::DeltaLemmas::pushed))]
    pub fn push(&mut self, area: &IntBox) -> Result<(), AllocError>
        ensures ok { OnOk result (self.new ≡ self.old ++ area.now ∷ []) }
        ensures err { OnErr result (self.new ≡ self.old) }
    {
        self.deltas.reserve(1)?;
        let delta = Delta::of(*self.deltas.allocator(), self.last.as_slice(), area)?;
        match delta.apply(&mut self.last) {
            Ok(()) => {
                self.deltas.push_reserved(delta);
                Ok(())
            }
            Err(error) => {
                drop(delta);
                Err(error)
            }
        }
    }

    /// How many of the first boxes are those of another list with as many. No box is made.
    #[tactic(auto, using(crate::proofs::DeltaLemmas::agreed))]
    pub fn leading(&self, other: &Hands) -> usize
        requires { length self.now ≡ length other.now }
        ensures { Agree self.now other.now result }
    {
        leading(self.deltas.as_slice(), other.deltas.as_slice())
    }

    /// A walk through the boxes, ahead of the first.
    pub fn walk(&self) -> Walk<'_>
        ensures { result.ahead ≡ self.now }
    {
        Walk {
            deltas: self.deltas.as_slice(),
            sides: Vec::new(*self.deltas.allocator()),
        }
    }
}

/// A walk through boxes that were handed, from the first on. It holds one of them at a time.
#[derive(Drop)]
pub struct Walk<'a> {
    // Those ahead.
    deltas: &'a [Delta],
    sides: Vec<Interval>,
}

impl<'a> Model for Walk<'a> {
    ghost use Rattle.ug_nodes.specs.Deltas.{AreDeltas, boxes_behind};
    ghost use Rattle.ug_nodes.specs.Hands.{WalkState};

    ghost Value = { WalkState };

    ghost view = { λ walk. record {
      area = walk.sides.items;
      ahead = boxes_behind walk.sides.items walk.deltas.now;
    } };

    ghost invariant = { λ walk. AreDeltas walk.sides.items walk.deltas.now };
}

impl<'a> Walk<'a> {
    /// Continues to the next box, and says whether there was one. After an error it stands where it
    /// stood.
    pub fn step(&mut self) -> Result<bool, AllocError>
        ensures ok { IfOk result (DidStep self.old self.new) }
        ensures err { OnErr result (self.new ≡ self.old) }
    {
        let Some((delta, rest)) = self.deltas.split_first() else {
            return Ok(false);
        };
        delta.apply(&mut self.sides)?;
        self.deltas = rest;
        Ok(true)
    }

    /// The intervals of the box that it is at; none before the first.
    pub fn area(&self) -> &[Interval]
        ensures { result.now ≡ self.now.area }
    {
        self.sides.as_slice()
    }
}

// The first this many are the same, and the next, if there is one, is another.
fn leading(deltas: &[Delta], others: &[Delta]) -> usize
    requires { length deltas.now ≡ length others.now }
    ensures { IsFork deltas.now others.now result }
{
    for k in 0..deltas.len() {
        if !deltas[k].is(&others[k]) {
            return k;
        }
    }
    deltas.len()
}
