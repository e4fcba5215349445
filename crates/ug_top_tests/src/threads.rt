//! A solve by threads. What it answers is compared with what trying each point of the problem
//! gives, by this many threads, racing or not, under observers that hold threads or let others go
//! first, and on disks. That a thread progresses is proved nowhere: here each solve of these ends.

mod answer;
mod cases;
mod family;
mod holding;
mod observers;
mod problems;
mod solving;
mod tests;
mod trying;
mod yielding;
