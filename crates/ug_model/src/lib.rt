//! Models for tests, which no program depends on.
//! Schedules that are played: `play` makes the calls of a book that events are, `play_disk` those
//! of saves, crashes and restarts too, on a disk in memory; their contracts say what each did.
//! `WorkerCrew` is a crew of workers in memory, visited as a schedule says; `solve_by_workers` is a
//! whole run by a coordinator of ug_coord and such a crew.
#![tactic(auto)]

mod crew;
mod disk_schedule;
mod halt;
mod held;
mod holding;
mod machine;
mod parts;
mod playing;
mod queue_link;
mod ranks;
mod saving;
mod saying;
mod schedule;
mod sim_workers;
mod slots;
mod starting;
mod workers;

pub use crew::{Visit, WorkerCrew};
pub use disk_schedule::{Attempts, PlayDiskFault, PlayedDisk, play_disk};
pub use halt::Halted;
pub use queue_link::QueueLink;
pub use schedule::{Decisions, PlayFault, Played, Replies, play};
pub use workers::solve_by_workers;
