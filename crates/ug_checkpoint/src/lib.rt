//! Checkpoints: images of a run in the two slots of a disk, saved in turn and found again.
//! It depends on ug_image for an image's bytes, and on ug_disk; `slots` keeps bodies of bytes.
//! `load` finds the image with the larger sequence of the slots that are open, or names the first
//! field that is bad. `Saver::save` keeps that at each moment a crash leaves two slots in which a
//! load finds what it could find before, the last acknowledged image, or the whole new one.
#![tactic(auto)]

mod body;
mod error;
mod found;
mod laws;
mod loading;
mod saver;
mod slots;
mod stored;

pub use error::{LoadError, SaveError};
pub use found::Found;
pub use laws::recovery_is_one;
pub use loading::load;
pub use saver::Saver;
pub use slots::loading::{Both, read_both};
pub use slots::pieces::Pieces;
pub use slots::slot_pair::SlotPair;
