//! Bodies of bytes in the two slots of a disk, each behind a gate of one byte; what the bodies mean
//! is not known here. A save shuts the gate of the slot that does not have the last body, writes
//! the new body behind it, and opens the gate, each on the disk before the next begins. A crash at
//! any moment leaves the last body, and of the other slot what was there, something shut, or the
//! whole new body.

mod blocks;
mod closing;
mod gate;
pub mod loading;
pub mod pieces;
mod saving;
pub mod slot_pair;
