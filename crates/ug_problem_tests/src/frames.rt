//! Frames of orders and reports, byte for byte.

pub mod bytes;
mod orders;
mod reports;
mod sides;
mod streams;
