use mio::unix::SourceFd;
use mio::{Events, Interest, Poll, Token};
use std::alloc::Global;
use std::fmt::Display;
use std::fs::{File, OpenOptions};
use std::io;
use std::io::{Eprint, ErrorKind, Write};
use std::net::Net;
use std::os::fd::{OwnedFd, RawFd};
use std::os::unix::fs::FileTypeExt;
use std::os::unix::net::UnixStream;
use std::rt::Files;
use std::time::Duration;

const STANDARD_ERROR: RawFd = 2;

const ITS_PATH: &str = "/proc/self/fd/2";

/// Standard error for lines that may be lost: a line that cannot be written at once is dropped. So
/// a stopped terminal or a pipe that nobody reads does not stop a run. The mode of the descriptor
/// stays as it is, since other programs share it.
#[derive(Drop)]
pub struct AtOnce<'a, R> {
    rt: &'a R,
    alloc: Global,
    // Standard error opened anew, with a mode of its own, if it is a terminal or a pipe. A regular
    // file never waits for a reader.
    own: Option<File>,
}

impl<'a, R: Files<File = File> + Net + AllocGlobal> AtOnce<'a, R> {
    /// For lines that are printed if `is_on`.
    pub fn new(rt: &'a R, is_on: bool) -> AtOnce<'a, R> {
        let alloc = rt.alloc();
        let own = if is_on {
            reopened(rt, alloc).ok()
        } else {
            None
        };
        AtOnce { rt, alloc, own }
    }
}

// Has the pipe a reader? To open one without a reader would wait for one.
fn has_reader<R: Net>(rt: &R, alloc: Global) -> io::Result<bool> {
    let mut poll = Poll::new(rt)?;
    let mut events = Events::with_capacity(alloc, 1)?;
    let mut source = SourceFd(&STANDARD_ERROR);
    poll.registry()
        .register(&mut source, Token(0), Interest::WRITABLE)?;
    poll.poll(&mut events, Some(Duration::ZERO))?;
    for event in &events {
        if event.is_error() {
            return Ok(false);
        }
    }
    Ok(true)
}

// Can standard error be opened anew without waiting?
fn may_reopen<R: Files<File = File> + Net>(rt: &R, alloc: Global) -> io::Result<bool> {
    let kind = rt.metadata(ITS_PATH)?.file_type();
    if kind.is_fifo() {
        return has_reader(rt, alloc);
    }
    Ok(kind.is_char_device())
}

// Standard error opened anew in a mode in which no write waits.
fn reopened<R: Files<File = File> + Net>(rt: &R, alloc: Global) -> io::Result<File> {
    if !may_reopen(rt, alloc)? {
        return Err(io::Error::from(ErrorKind::Unsupported));
    }
    let file = OpenOptions::new().write(true).open(rt, ITS_PATH)?;
    match unblocked(&file) {
        Ok(()) => Ok(file),
        Err(error) => {
            drop(file);
            Err(error)
        }
    }
}

// Sets the mode of the open file, which only sockets offer to set. A copy of its descriptor shares
// the mode.
fn unblocked(file: &File) -> io::Result<()> {
    let copy = UnixStream::from(OwnedFd::from(file.try_clone()?));
    let set = copy.set_nonblocking(true);
    drop(copy);
    set
}

// Writes the value and this end to the file, if it takes them now. A pipe takes a line as a whole
// or not at all; a terminal near its limit takes a part.
fn write<D: Display>(alloc: Global, mut file: &File, value: &D, end: &str) -> io::Result<()> {
    let text = format!(in alloc; "{value}{end}")?;
    let wrote = file.write(text.as_bytes());
    drop(text);
    match wrote {
        Ok(_) => Ok(()),
        Err(error) => Err(error),
    }
}

impl<R: Eprint> AtOnce<'_, R> {
    // Prints the value and this end, if that can be done at once.
    fn put<D: Display + Drop>(&self, value: D, end: &str) -> io::Result<()> {
        let put = match &self.own {
            Some(file) => write(self.alloc, file, &value, end),
            None => self.rt.eprint(format_args!("{value}{end}")),
        };
        drop(value);
        put
    }
}

impl<R: Eprint> Eprint for AtOnce<'_, R> {
    fn eprint<D: Display + Drop>(&self, value: D) -> io::Result<()> {
        self.put(value, "")
    }

    fn eprintln<D: Display + Drop>(&self, value: D) -> io::Result<()> {
        self.put(value, "\n")
    }
}
