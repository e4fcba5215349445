//! Input and output as the program sees them: sources, sinks, links, and crews of workers. Depends
//! on nothing but std. `Source`, `Sink`, `Link` and `Crew` are traits whose contracts speak of the
//! bytes left, written, sent or received, if the implementation shows them, and of a count of
//! faults: each failed call raises it, up to its largest value, and so does a lost rank of a crew.
//! The implementations in memory show their bytes; a `Script` says which of their calls fail.
//! `zeros` returns a buffer to read into.
#![tactic(auto)]

mod buffer;
mod crew;
mod crew_memory;
mod keeping;
mod link;
mod link_memory;
mod memory;
mod outside;
mod script;

pub use buffer::zeros;
pub use crew::{Came, Crew, Exchange};
pub use crew_memory::{MemoryCrew, Piece};
pub use keeping::{keep_from, keep_heard, keep_to, keep_told};
pub use link::{Got, Link, Said};
pub use link_memory::MemoryLink;
pub use memory::{MemorySink, MemorySource, ScriptedSource};
pub use outside::{Failed, Sink, Source};
pub use script::Script;
