ghost use Rattle.std.specs.Prelude.{◌≡◌};
ghost use Rattle.ug_model.specs.DiskHalts.{halted_by};
ghost use Rattle.ug_model.specs.declared.halt.Halted.TheVariants.{Memory};

use crate::playing::Halt;
use std::alloc::AllocError;
use ug_disk::Slot;
use ug_restart::StartFault;

/// Why an event did not happen.
#[derive(Clone, Copy, Debug, PartialEq, Eq)]
pub enum Halted {
    /// It receives the report at this place, which was not sent.
    NoSuch { place: usize },
    /// It names this rank, which the run has not.
    NoRank { rank: u32 },
    /// A crash may not leave the image of this slot.
    NotAllowed { slot: Slot },
    /// The last restart was refused, and this is not another.
    Refused(StartFault),
    Memory,
}

impl From<AllocError> for Halted {
    ghost from_gives = { λ _ halted. halted ≡ Memory };

    fn from(_error: AllocError) -> Halted {
        Halted::Memory
    }
}

impl From<Halt> for Halted {
    ghost from_gives = { λ halt halted. halted ≡ halted_by halt };

    fn from(halt: Halt) -> Halted {
        match halt {
            Halt::NoSuch { place } => Halted::NoSuch { place },
            Halt::Memory => Halted::Memory,
        }
    }
}
