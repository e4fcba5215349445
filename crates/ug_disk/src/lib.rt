//! Disks for checkpoints: two slots, and what a crash may leave of them. Depends on ug_io, whose
//! `Failed` and count of faults it shares. `Disk` is a trait whose contract models a disk: if the
//! disk shows it, what a read returns, which images a crash may leave at each moment so far, and
//! the number of failed calls. `MemoryDisk` satisfies it with vectors and shows everything. Its
//! calls fail as its `Script` says.
#![tactic(auto)]

mod disk;
mod laws;
mod memory;
mod reading;
mod script;
mod slot;
mod stored;
mod stored_slots;
mod synced;
mod undo;

pub use disk::Disk;
pub use laws::{sync_leaves_one, write_is_torn, writes_add_images};
pub use memory::MemoryDisk;
pub use reading::{ReadError, read_all};
pub use script::Script;
pub use slot::{NotAllowed, Slot, Span};
pub use synced::write_synced;
