//! Tests of the book, of the small crates that it is made of, of the desk and its lock by turns,
//! and of what is saved. They stand apart from the crates that they test, from ug_nodes to ug_book,
//! ug_model and ug_desk, ug_turn, and from ug_disk to ug_restart and ug_real. Each call on its
//! usual path, the cases that rules are easily misread in, many threads at one lock, and disks that
//! stop anywhere. Nothing here is proved but that the tests are safe and end, that a folder in
//! memory keeps the contract of one, and that seats at a lock are used as they may be.
#![tactic(auto)]

#[cfg(test)]
mod coordinated;
#[cfg(test)]
mod crashes;
#[cfg(test)]
mod desks;
#[cfg(test)]
mod expect;
#[cfg(test)]
mod pools;
#[cfg(test)]
mod problems;
#[cfg(test)]
mod ramp;
#[cfg(test)]
mod turns;
#[cfg(test)]
mod worked;
#[cfg(test)]
mod worlds;
