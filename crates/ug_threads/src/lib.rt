//! A solve by threads: one worker for each rank at one desk, and the caller, who saves. Depends on
//! ug_desk for the shared book, on ug_worker for what a thread does, and on ug_restart for saves.
//! `solve_threads` returns the book that a history of calls leads to from the opening: without a
//! node, and then its answer is right if the opening was sound, or at the limit of reports. With a
//! saver whatever recovery could find stays Covered at each moment, and it finds the final book.
#![tactic(auto)]

mod crew;
mod desk_seat;
mod ending;
mod pace;
mod snapshot_sink;
mod solve;
mod together;
mod told;

pub use solve::solve_threads;
