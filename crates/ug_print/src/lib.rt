//! The lines that the program prints, each of which a definition in specs/ determines, and the
//! explanation on standard error of a file that is refused, which none does. Depends on ug_book for
//! the answer of a run, on ug_restart for the causes why none begins, on ug_image for the contents
//! of a checkpoint, and on ug_drafts for the causes why a file is refused. Each function makes or
//! adds whole lines, and allocates only for them and their numbers; the line for out of memory
//! needs no memory.
#![tactic(auto)]

mod answers;
mod best;
mod checkpoints;
mod counts;
mod faults;
mod fixed;
mod limited;
mod nodes;
mod reasons;
mod refusals;
mod words;

pub use answers::{answer_line, answer_lines};
pub use checkpoints::{checkpoint_lines, checkpoint_point};
pub use counts::push_counts;
pub use faults::fault_line;
pub use fixed::{memory, read_fault};
pub use limited::{incumbent_lines, open_line, stranded_line};
pub use reasons::{columns_refused, reason};
pub use refusals::refusal;
