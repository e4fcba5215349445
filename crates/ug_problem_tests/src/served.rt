//! A worker at the end of a link in memory, alone and in a crew, and all bytes that it reports.

mod bytes;
mod cases;
mod failing;
mod knapsack;
mod link;
mod square;
mod staffed;
pub mod stairs;
mod words;
