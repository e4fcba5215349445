// A desk is closed.
ghost use Rattle.std.specs.Prelude.{◌≡◌, Some, length, IfErr, IfOk, slice_get};
ghost use Rattle.ug_desk.specs.Passes.{IsClosed, lock_of_desk, width_of};

use crate::desk::Desk;
use crate::locked::Locked;
use crate::locked_book::LockedBook;
use crate::pass::Pass;
use crate::passes::seats;
use std::alloc::Global;
use std::boxed::Box;

impl Desk {
    /// Closes the desk with all its passes and returns the value behind the lock: a history leads
    /// to it that begins with all that each pass has seen, and in which the entries of each pass
    /// are its own calls, each once. If memory runs out, everything is returned.
    pub fn close(self, alloc: Global, passes: Vec<Pass>) -> Result<Locked, (Desk, Vec<Pass>)>
        requires all { length passes.items ≡ width_of self }
        requires here { (k : _) (p : _) → slice_get passes.items k ≡ Some p
            → p.lock ≡ lock_of_desk self }
        ensures ok { IfOk result (IsClosed passes.items) }
        ensures err { IfErr result (λ back. (back.0 ≡ self) × (back.1 ≡ passes)) }
    {
        let Ok(room) = Vec::with_capacity(alloc, passes.len()) else {
            return Err((self, passes));
        };
        let seats = seats(room, passes);
        let Desk { turn, wakeups } = self;
        drop(wakeups);
        let LockedBook { locked } = turn.close(seats);
        Ok(Box::into_inner(locked))
    }
}
