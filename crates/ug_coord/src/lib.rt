//! A solve by a crew of workers at links: the coordinator's loop. Depends on ug_book for what a
//! coordinator does, on ug_stream and ug_frames for bytes, on ug_restart for saves, and on `Crew`
//! of ug_io. `coordinate` starts the crew, decides, sends orders, receives reports and saves, until
//! no node is held, the limit of reports is reached, or no rank is alive. The run is a trace of
//! actions by the rules of the book, which the crew's bytes show.
#![tactic(auto)]

mod checkpointer;
mod coordinator;
mod ending;
mod hearing;
mod pacing;
mod solving;
mod streams;
mod telling;

pub use solving::{Coordinated, coordinate};
