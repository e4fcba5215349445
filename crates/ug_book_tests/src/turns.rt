//! The lock by turns, round a value that keeps its whole history: how a call in a turn of its own
//! is written, and that threads take turns.

mod adding;
mod chronicle;
mod tests;
