ghost use Rattle.std.specs.Prelude.{◌≡◌};
ghost use Rattle.ug_problem.specs.declared.error.ProblemError.TheVariants.{Memory};

use std::alloc::{AllocError, AllocFailed};

/// Why a problem is not made.
#[derive(Clone, Copy, Debug, PartialEq, Eq)]
pub enum ProblemError {
    /// Memory ran out.
    Memory,
    /// There are more columns, rows or terms than the limits allow.
    TooMany,
    /// A number of this row, or of the objective where there is none, is above its limit.
    TooWide { row: Option<u32> },
}

impl From<AllocError> for ProblemError {
    ghost from_gives = { λ _ e. e ≡ Memory };

    fn from(_e: AllocError) -> ProblemError {
        ProblemError::Memory
    }
}

impl<T: Drop> From<AllocFailed<T>> for ProblemError {
    ghost from_gives = { λ _ e. e ≡ Memory };

    fn from(_e: AllocFailed<T>) -> ProblemError {
        ProblemError::Memory
    }
}
