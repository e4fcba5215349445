//! Tests of the top call and of a solve by threads, apart from the crates that they test, ug_top
//! and ug_threads: outsides that fail at each of their calls, runs in processes over crews and
//! links in memory, threads in many orders. The results of command lines and files, and commands
//! over real folders, are tested with the built program (tests). Nothing here is proved except that
//! the tests are safe and end.
#![tactic(auto)]

#[cfg(test)]
mod commands;
#[cfg(test)]
mod expect;
#[cfg(test)]
mod failing_disks;
#[cfg(test)]
mod processes;
#[cfg(test)]
mod running;
#[cfg(test)]
mod runs;
#[cfg(test)]
mod threads;
