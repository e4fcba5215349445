//! The top call: words in, lines and a status out.
//! It depends on ug_cli for what words ask for, ug_mps for texts, ug_threads for runs, ug_print for
//! lines. `run` does all that the program does: it reads the words, does what they ask for by
//! `run_plan`, and writes the lines. Its contract says what was written for each status, and when
//! each comes. A run is new or continues; with a disk recovery's images stay Covered all along it.
#![tactic(auto)]

mod boxes;
mod command;
mod ended;
mod headline;
mod made;
mod objects;
mod one_run;
mod outcome;
mod ran;
mod reading;
mod running;
mod scaled;
mod served;
mod settings;
mod show;
mod solvers;
mod status;
mod write;

pub use headline::answers_are_right;
pub use objects::Objects;
pub use ran::{Ran, Refusal};
pub use running::{run, tell_unread};
pub use status::Status;
