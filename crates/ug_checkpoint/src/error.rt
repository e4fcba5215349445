ghost use Rattle.std.specs.Prelude.{◌≡◌};
ghost use Rattle.ug_checkpoint.specs.Errors.{load_error_of};
ghost use Rattle.ug_checkpoint.specs.declared.error.SaveError.TheVariants.{Memory, Fault};

use std::alloc::AllocError;
use ug_disk::{ReadError, Slot};
use ug_io::Failed;

/// Why no checkpoint is found.
#[derive(Clone, Copy, Debug, PartialEq, Eq)]
pub enum LoadError {
    /// Memory ran out.
    Memory,
    /// The disk's count of faults rose.
    Fault,
    /// The slot is open and spells no image. Its first field that is cut short or breaks a rule
    /// begins at this byte.
    BadImage { slot: Slot, at: usize },
}

/// Why a checkpoint is not saved.
#[derive(Clone, Copy, PartialEq, Eq)]
pub enum SaveError {
    /// Memory ran out, and the disk was not touched.
    Memory,
    /// The disk's count of faults rose.
    Fault,
}

impl From<ReadError> for LoadError {
    ghost from_gives = { λ error e. e ≡ load_error_of error };

    fn from(error: ReadError) -> LoadError {
        match error {
            ReadError::Memory => LoadError::Memory,
            ReadError::Fault => LoadError::Fault,
        }
    }
}

impl From<AllocError> for SaveError {
    ghost from_gives = { λ _ e. e ≡ Memory };

    fn from(_error: AllocError) -> SaveError {
        SaveError::Memory
    }
}

impl From<Failed> for SaveError {
    ghost from_gives = { λ _ e. e ≡ Fault };

    fn from(_error: Failed) -> SaveError {
        SaveError::Fault
    }
}
