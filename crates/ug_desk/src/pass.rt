ghost use Rattle.std.specs.Prelude.{◌≡◌, ◌<◌, ◌≤◌, ◌*◌, ◌^◌, IfSome, unsigned_abs};
ghost use Rattle.ug_turn.specs.Seats.{IsAtRest, lock_of, view_of};
ghost use Rattle.ug_desk.specs.Passes.{IsSeatOf};
ghost use Rattle.ug_desk.specs.Words.{floor_of};

use crate::locked_book::LockedBook;
use std::marker::Model;
use ug_turn::SeatOf;

/// What speaks for one rank of a desk.
#[derive(Drop)]
pub struct Pass {
    pub(crate) rank: u32,
    pub(crate) heard: u64,
    // The floor of the root box, from which cutoff words count.
    pub(crate) floor: i128,
    pub(crate) seat: SeatOf<LockedBook>,
}

impl Model for Pass {
    ghost use Rattle.ug_desk.specs.Passes.{IsPass, PassState, pass_of};

    ghost Value = { PassState };

    ghost view = { pass_of };

    ghost invariant = { IsPass };
}

impl Pass {
    /// A pass that speaks for a rank by a seat of its own, and has made no call.
    pub(crate) fn new(rank: u32, floor: i128, seat: SeatOf<LockedBook>) -> Pass
        requires rest { IsAtRest seat }
        requires own { (view_of seat).pass ≡ rank }
        requires here { IfSome (view_of seat).opening (λ o. rank < o.settings.solvers) }
        requires floor { IfSome (view_of seat).opening (λ o. floor ≡ floor_of o.problem) }
        requires small { unsigned_abs floor ≤ 2 * 10 ^ 37 }
        ensures { result ≡ record {
          lock = lock_of seat;
          rank = rank;
          opening = (view_of seat).opening;
          seen = (view_of seat).seen;
          mine = (view_of seat).mine;
          known = (view_of seat).known;
        } }
    {
        Pass {
            rank,
            heard: 0,
            floor,
            seat,
        }
    }

    /// Its seat, which it speaks by no more.
    pub(crate) fn into_seat(self) -> SeatOf<LockedBook>
        ensures { IsSeatOf self result }
    {
        let Pass { seat, .. } = self;
        seat
    }

    /// The rank for which it speaks.
    pub fn rank(&self) -> u32
        ensures { result ≡ self.now.rank }
    {
        self.rank
    }

    /// Returns the number of reports that the book had received after the pass's last call. Takes
    /// neither the lock nor memory.
    pub fn heard(&self) -> u64 {
        self.heard
    }
}
