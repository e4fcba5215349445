use std::os::unix::process::ExitStatusExt;
use std::process::ExitStatus;
use std::{fmt, io};

/// Why a rank of a crew is lost.
#[derive(Drop)]
pub enum Departure {
    /// It could not be started, or its connection could not be accepted.
    Unstarted(io::Error),
    /// A signal of this number ended it.
    Killed(i32),
    /// It ended with this status.
    Ended(i32),
    /// Bytes for it could not be queued: out of memory, or no child has this rank.
    Untold(io::Error),
    /// A write to its connection failed, and it did not end.
    Cut(io::Error),
    /// It closed its connection, or its standard input before it had one, and did not end.
    HungUp,
    /// It ended, and its status is not known.
    Lost,
}

/// Receives the loss of each rank, once, and of each rank that is stopped.
pub trait Watcher {
    /// The rank is lost, for this reason.
    fn gone(&mut self, rank: u32, why: &Departure);

    /// The rank has sent nothing for `seconds`, and the system reports that it is stopped.
    fn silent(&mut self, rank: u32, seconds: u64);
}

/// Returns how a child with this status ended.
pub fn end_of(status: ExitStatus) -> Departure {
    match (status.signal(), status.code()) {
        (Some(signal), _) => Departure::Killed(signal),
        (None, Some(code)) => Departure::Ended(code),
        (None, None) => Departure::Lost,
    }
}

// Writes words and what they refer to.
fn put<W: fmt::Write, T: fmt::Display>(
    f: &mut fmt::Formatter<W>,
    words: &str,
    of: &T,
) -> fmt::Result {
    write!(f, "{words}{of}")
}

impl fmt::Display for Departure {
    fn fmt<W: fmt::Write>(&self, f: &mut fmt::Formatter<W>) -> fmt::Result {
        match self {
            Departure::Unstarted(error) => put(f, "could not be started: ", error),
            Departure::Killed(signal) => put(f, "killed by signal ", signal),
            Departure::Ended(code) => put(f, "ended with status ", code),
            Departure::Untold(error) => put(f, "could not be told: ", error),
            Departure::Cut(error) => put(f, "its connection failed: ", error),
            Departure::HungUp => f.write_str("closed its connection and did not end"),
            Departure::Lost => f.write_str("ended, and its status is not known"),
        }
    }
}
