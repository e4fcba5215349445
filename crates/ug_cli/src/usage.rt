ghost use Rattle.std.specs.Prelude.{◌≡◌};
ghost use Rattle.ug_cli.specs.declared.usage.Usage.TheVariants.{Memory};

use std::alloc::AllocError;

/// Why the words give no plan.
#[derive(Clone, Copy, PartialEq, Eq)]
pub enum Usage {
    /// Memory ran out.
    Memory,
    /// The words ask for no plan: the command is invalid, or a number is invalid or out of range.
    Words,
    /// The high in force is below the low in force.
    HighBelowLow { low: u32, high: u32 },
}

impl From<AllocError> for Usage {
    ghost from_gives = { λ _ e. e ≡ Memory };

    fn from(_error: AllocError) -> Usage {
        Usage::Memory
    }
}
