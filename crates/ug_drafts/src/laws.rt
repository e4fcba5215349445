//! Laws on what is made.
//! The functions do nothing: their contracts are what is proved of the definitions.

ghost use Rattle.std.specs.Prelude.{ℕ, ◌≤◌, ◌↔◌};
ghost use Rattle.ug_drafts.specs.RowNumbers.{Numbers, scale_of};
ghost use Rattle.ug_drafts.specs.Scales.{AreDecimals, AreWhole};

/// The numbers of a row times a power of ten are all whole exactly where the power is at least the
/// row's scale.
pub fn least_scale()
    ensures { (s : ℕ) (n : Numbers) → AreDecimals n → ((scale_of n ≤ s) ↔ AreWhole s n) }
{}
