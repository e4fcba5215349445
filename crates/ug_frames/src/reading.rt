//! Messages read from the bytes of their frames.

pub mod changes;
pub mod orders;
pub mod parts;
pub mod point;
pub mod reports;

/// The greatest value or cutoff of a frame, in absolute value.
pub const GREATEST_VALUE: u128 = 20_000_000_000_000_000_000_000_000_000_000_000_000;

/// The greatest gap of a frame.
pub const GREATEST_GAP: u128 = 40_000_000_000_000_000_000_000_000_000_000_000_000;
