ghost use Rattle.std.specs.Prelude.{◌≡◌, IfSome, None, Some, true, false};
ghost use Rattle.ug_problem.specs.Better.{IsSmallCutoff};

/// No value of a point of a problem is larger, and so no cutoff is.
const MOST: u128 = 20_000_000_000_000_000_000_000_000_000_000_000_000;

/// The answer to a report of what is left.
#[derive(Clone, Copy, PartialEq, Eq)]
pub struct Reply {
    /// The incumbent's cutoff, if there is an incumbent.
    pub cutoff: Option<i128>,
    /// The number of boxes still asked for; 0 during a race.
    pub collect: u32,
    /// Must the task be dropped?
    pub stop: bool,
    /// Do others have the same box, or may they have it?
    pub racing: bool,
}

impl Reply {
    /// Returns the reply that changes nothing: no cutoff, no box asked for, no race.
    pub fn nothing() -> Reply
        ensures { result ≡ record { cutoff = None; collect = 0; stop = false; racing = true } }
    {
        Reply {
            cutoff: None,
            collect: 0,
            stop: false,
            racing: true,
        }
    }
}

/// Returns the cutoff unless it is too large for the value of a point. A cutoff that was read as a
/// word is small, but not known to be.
pub fn cutoff_of_point(cutoff: Option<i128>) -> Option<i128>
    ensures small { IsSmallCutoff result }
    ensures some { IfSome result (λ c. cutoff ≡ Some c) }
    ensures same { IsSmallCutoff cutoff → result ≡ cutoff }
{
    match cutoff {
        Some(cutoff) if cutoff.unsigned_abs() <= MOST => Some(cutoff),
        _ => None,
    }
}
