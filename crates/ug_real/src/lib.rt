//! Implementations of the traits of ug_io and ug_disk by the operating system: files as a source
//! and as a disk, standard output as a sink, a Unix socket as a link, and child programs as a crew.
//! Depends on ug_io and ug_disk, on mio for readiness and on slab for connections.
//!
//! `Reader`, `Writer`, `FileDisk`, `SocketLink` and `ProcessCrew` satisfy the contracts of their
//! traits. Each failed call raises the count of faults, and its error is recorded. A `FileDisk` is
//! built on a `Folder`, whose contract states what is required of a system: over a folder that
//! shows the history of its files, the disk satisfies the whole contract of `Disk`. The real
//! implementations show no bytes: no contract can say what a real file or socket returns, or what a
//! terminal accepts.
//!
//! A `ProcessCrew` has a `ChildCrew`: a `Children` of `Child`s behind one poll. A `Child` has a
//! connection, a `SendQueue` that holds the bytes not written yet, and a `ChildProcess`. Dropping a
//! `ChildProcess` ends the process, and dropping the `SocketFile` of a child that has not connected
//! removes the file, so none is left.
#![tactic(auto)]

mod again;
mod cause;
mod child;
mod child_crew;
mod child_process;
mod children;
mod departure;
mod disk;
mod faults;
mod folder;
mod kept;
mod process_crew;
mod reader;
mod real_folder;
mod saves;
mod send_queue;
mod shared_bytes;
mod slot_copies;
mod slot_files;
mod socket_link;
mod sockets;
mod writer;

pub use child_crew::ChildCommand;
pub use departure::{Departure, Watcher};
pub use disk::FileDisk;
pub use folder::Folder;
pub use process_crew::ProcessCrew;
pub use reader::Reader;
pub use real_folder::RealFolder;
pub use socket_link::SocketLink;
pub use sockets::SocketFolder;
pub use writer::Writer;
