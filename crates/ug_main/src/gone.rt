use crate::at_once::AtOnce;
use std::fs::File;
use std::io::Eprint;
use std::mem;
use std::net::Net;
use std::rt::Files;
use ug_real::{Departure, Watcher};

/// Prints on standard error why a rank of the crew is lost, if progress is asked for, and always
/// why the first one could not be started: if none could, that is why the run failed.
#[derive(Drop)]
pub struct Gone<'a, R> {
    rt: AtOnce<'a, R>,
    is_on: bool,
    // Whether a rank could not be started, which was reported.
    has_failed: bool,
}

impl<'a, R: Files<File = File> + Net + AllocGlobal> Gone<'a, R> {
    pub fn new(rt: &'a R, is_on: bool) -> Gone<'a, R> {
        Gone {
            rt: AtOnce::new(rt, is_on),
            is_on,
            has_failed: false,
        }
    }
}

impl<R: Eprint> Watcher for Gone<'_, R> {
    fn gone(&mut self, rank: u32, why: &Departure) {
        let is_first = match why {
            Departure::Unstarted(_) => !mem::replace(&mut self.has_failed, true),
            _ => false,
        };
        if self.is_on || is_first {
            let _ = eprintln!(self.rt; "ug: rank {rank} lost: {why}");
        }
    }

    fn silent(&mut self, rank: u32, seconds: u64) {
        let _ = eprintln!(self.rt;
            "ug: warning: rank {rank} has sent nothing for {seconds} s; if it is stopped, continue or kill it"
        );
    }
}
