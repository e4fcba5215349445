//! Reads a bounded integer program from an MPS text. It depends on ug_io, ug_lines, ug_drafts and
//! ug_problem. `gather` reads from a source what is enough of a file; `read` gives the problem that
//! the file states, or the first fault with its line, kind and word. specs/ says what a file states
//! as relations on its lines, each judged by what the lines before it have said. Memory grows only
//! with bytes that are there.
#![tactic(auto)]

mod again;
mod bound_words;
mod draft;
mod ending;
mod error;
mod gathering;
mod laws;
mod line;
mod names;
mod pairs;
mod reading;

pub use again::{FreeEnds, cause_of, free_ends};
pub use gathering::{GatherError, gather};
pub use laws::{one_outcome, worked_texts};
pub use reading::read;
pub use ug_drafts::{Cause, Kind, MpsError, MpsFault};
