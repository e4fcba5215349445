// A desk is opened.
ghost use Rattle.std.specs.Prelude.{◌≡◌, length, IfOk};
ghost use Rattle.ug_book.specs.Openings.{IsOpening};
ghost use Rattle.ug_desk.specs.Passes.{AreNewPasses, lock_of_desk, width_of};

use crate::desk::{Desk, wakeups};
use crate::locked_book::LockedBook;
use crate::pass::Pass;
use crate::passes::passes;
use crate::word::floor_of;
use std::alloc::{AllocError, Global};
use std::snapshot::Snapshot;
use ug_book::Opening;
use ug_turn::Turn;

impl Desk {
    /// A desk over the book that starts with the opening, and a pass for each of its ranks.
    pub fn new(alloc: Global, opening: Opening) -> Result<(Desk, Vec<Pass>), AllocError>
        requires { IsOpening opening }
        ensures count { IfOk result (λ made. length made.1.items ≡ opening.settings.solvers) }
        ensures width { IfOk result (λ made. width_of made.0 ≡ opening.settings.solvers) }
        ensures each { IfOk result (λ made.
            AreNewPasses (lock_of_desk made.0) opening made.1.items) }
    {
        let count = opening.settings.solvers;
        let floor = floor_of(opening.problem.problem());
        let began = Snapshot::of(&opening);
        let Ok(wakeups) = wakeups(alloc, count) else {
            drop(opening);
            return Err(AllocError);
        };
        let locked_book = LockedBook::new(alloc, opening)?;
        let (turn, seats) = Turn::new(alloc, locked_book, count)?;
        match passes(alloc, &turn, &began, floor, seats) {
            Ok(passes) => Ok((Desk::over(turn, wakeups), passes)),
            Err(error) => {
                drop(turn);
                drop(wakeups);
                Err(error)
            }
        }
    }
}
