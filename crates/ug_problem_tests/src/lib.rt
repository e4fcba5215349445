//! Tests of problems and of what is worked out of one problem alone: bounds by multipliers, changes
//! and boxes, records and frames byte for byte, links and crews, in memory and of real children at
//! sockets, workers at a link, rounds, the steps of a task, searches with and without surrogate
//! rows. They stand apart from the crates that they test, from ug_problem to ug_worker, ug_frames,
//! ug_real and ug_gen. Nothing here is proved but that the tests are safe and end.
#![tactic(auto)]

#[cfg(test)]
mod bounds;
#[cfg(test)]
mod children;
#[cfg(test)]
mod crews;
#[cfg(test)]
mod expect;
#[cfg(test)]
mod forms;
#[cfg(test)]
mod frames;
#[cfg(test)]
mod links;
#[cfg(test)]
mod nodes;
#[cfg(test)]
mod records;
#[cfg(test)]
mod releases;
#[cfg(test)]
mod rounds;
#[cfg(test)]
mod served;
#[cfg(test)]
mod small;
#[cfg(test)]
mod subgradients;
#[cfg(test)]
mod tasks;

#[cfg(test)]
use crate::children::echo::echo;
#[cfg(test)]
use crate::children::solvers::solve;
#[cfg(test)]
use std::{env, io};

// The child of a test is the test program, started with the words of a worker, of which the first
// is this test's name, and one more where it is to solve. Without them there is nothing to do.
#[test]
fn worker(rt: HostRuntime) -> io::Result<()> {
    let mut words = env::args(&rt)?;
    if let Some(path) = words.nth(3) {
        match words.next() {
            Some(_) => solve(&rt, path.as_str()),
            None => echo(&rt, path.as_str()),
        }
    }
    Ok(())
}
