ghost use Rattle.std.specs.Prelude.{◌≡◌, ◌<◌, ◌≤◌, ◌*◌, ◌^◌, [], length, unsigned_abs, vec_capacity, IfOk};
ghost use Rattle.ug_turn.specs.Locks.{id_of};
ghost use Rattle.ug_desk.specs.Passes.{AreNewPasses, AreSeatsOf};
ghost use Rattle.ug_desk.specs.LockedBooks.{AreFreshSeats};
ghost use Rattle.ug_desk.specs.Words.{floor_of};

use crate::locked_book::LockedBook;
use crate::pass::Pass;
use std::alloc::{AllocError, Global};
use std::snapshot::Snapshot;
use ug_book::Opening;
use ug_turn::{SeatOf, Turn};

/// A pass for each seat of a lock, where the history began with this opening.
pub fn passes(
    alloc: Global,
    turn: &Turn<LockedBook>,
    began: &Snapshot<Opening>,
    floor: i128,
    seats: Vec<SeatOf<LockedBook>>,
) -> Result<Vec<Pass>, AllocError>
    requires floor { floor ≡ floor_of began.now.value.problem }
    requires small { unsigned_abs floor ≤ 2 * 10 ^ 37 }
    requires few { (length seats.items ≤ began.now.value.settings.solvers)
        × (length seats.items < 2 ^ 32) }
    requires fresh { AreFreshSeats (id_of turn.now) began.now.value seats.items }
    ensures count { IfOk result (λ passes. length passes.items ≡ length seats.items) }
    ensures each { IfOk result (λ passes.
        AreNewPasses (id_of turn.now) began.now.value passes.items) }
{
    let _turn = turn;
    let _began = began;
    let mut passes = Vec::with_capacity(alloc, seats.len())?;
    let mut rank = 0u32;
    for seat in seats {
        passes.push(Pass::new(rank, floor, seat))?;
        rank += 1;
    }
    Ok(passes)
}

/// The seats of passes, in room for as many.
pub fn seats(room: Vec<SeatOf<LockedBook>>, passes: Vec<Pass>) -> Vec<SeatOf<LockedBook>>
    requires empty { room.items ≡ [] }
    requires room { length passes.items ≤ vec_capacity room }
    ensures { AreSeatsOf passes.items result.items }
{
    let mut seats = room;
    for pass in passes {
        seats.push_reserved(pass.into_seat());
    }
    seats
}
