ghost use Rattle.std.specs.Prelude.{◌≡◌};
ghost use Rattle.ug_restart.specs.Faults.{fault_of_load, fault_of_save};
ghost use Rattle.ug_restart.specs.declared.fault.StartFault.TheVariants.{Memory};

use std::alloc::{AllocError, AllocFailed};
use ug_checkpoint::{LoadError, SaveError};
use ug_disk::Slot;

/// Why a run does not begin on a disk. The causes are tested in this order; `DiskFault` first while
/// loading, and again last while saving.
#[derive(Clone, Copy, Debug, PartialEq, Eq)]
pub enum StartFault {
    Memory,
    /// The disk failed: its count of faults has risen.
    DiskFault,
    /// An open slot has no valid image; its first bad field begins at this byte of the slot.
    BadImage {
        slot: Slot,
        at: usize,
    },
    /// Neither slot is open.
    NoCheckpoint,
    /// The checkpoint belongs to another problem. The records first differ at this byte, where the
    /// stored one and the one that was read have these; `None` is past the end.
    OtherProblem {
        at: usize,
        kept: Option<u8>,
        read: Option<u8>,
    },
    /// The gap is smaller than that of the checkpoint, which may have dropped points that a smaller
    /// gap needs.
    SmallerGap {
        kept: i128,
        asked: i128,
    },
    /// The stored run or sequence number is 2^62 or more.
    Spent,
}

impl From<AllocError> for StartFault {
    ghost from_gives = { λ _ e. e ≡ Memory };

    fn from(_error: AllocError) -> StartFault {
        StartFault::Memory
    }
}

impl<T: Drop> From<AllocFailed<T>> for StartFault {
    ghost from_gives = { λ _ e. e ≡ Memory };

    fn from(_error: AllocFailed<T>) -> StartFault {
        StartFault::Memory
    }
}

impl From<LoadError> for StartFault {
    ghost from_gives = { λ error fault. fault ≡ fault_of_load error };

    fn from(error: LoadError) -> StartFault {
        match error {
            LoadError::Memory => StartFault::Memory,
            LoadError::Fault => StartFault::DiskFault,
            LoadError::BadImage { slot, at } => StartFault::BadImage { slot, at },
        }
    }
}

impl From<SaveError> for StartFault {
    ghost from_gives = { λ error fault. fault ≡ fault_of_save error };

    fn from(error: SaveError) -> StartFault {
        match error {
            SaveError::Memory => StartFault::Memory,
            SaveError::Fault => StartFault::DiskFault,
        }
    }
}
