//! How a run begins on a disk, new or from its last checkpoint, what it saves, how it ended, and
//! its observer. Depends on ug_checkpoint, and on ug_snapshot for the image of a moment. `begin`
//! and `restart` return what a run begins with, under a run number above the one on the disk, once
//! an image of its book is acknowledged. So no ticket of the earlier run is current in it. The
//! start is Covered, that of a restart if the image was. `Saves` saves snapshots, and counts the
//! saves that fail.
#![tactic(auto)]

mod books;
mod compare;
mod fault;
mod host;
mod laws;
mod next;
mod observer;
mod opening;
mod outcome;
mod progress;
mod saves;
mod saving;
mod start;

pub use fault::StartFault;
pub use host::Host;
pub use laws::starts_keep_an_image;
pub use observer::{Begun, Dropped, Moment, Observer, Progress, Unobserved};
pub use outcome::{Attempt, End, Outcome};
pub use progress::{progress_of, tell_begin, tell_end};
pub use saves::Saves;
pub use saving::save_end;
pub use start::{Start, begin, restart};
