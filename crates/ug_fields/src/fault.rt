ghost use Rattle.std.specs.Prelude.{◌≡◌};
ghost use Rattle.ug_fields.specs.declared.fault.Fault.TheVariants.{Memory};

use std::alloc::{AllocError, AllocFailed};

/// Why a field was not read.
#[derive(Clone, Copy, PartialEq, Eq)]
pub enum Fault {
    Memory,
    /// It is cut short or breaks a rule; this many bytes are left from its first one on.
    Bad(usize),
}

impl From<AllocError> for Fault {
    ghost from_gives = { λ _ e. e ≡ Memory };

    fn from(_error: AllocError) -> Fault {
        Fault::Memory
    }
}

impl<T: Drop> From<AllocFailed<T>> for Fault {
    ghost from_gives = { λ _ e. e ≡ Memory };

    fn from(_error: AllocFailed<T>) -> Fault {
        Fault::Memory
    }
}
