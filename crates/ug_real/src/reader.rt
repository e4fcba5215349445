ghost use Rattle.std.specs.Prelude.{◌≡◌, ◌≤◌, None, length, IfOk};

use crate::again;
use crate::faults::Faults;
use std::fs::OpenOptions;
use std::io;
use std::rt::Files;
use ug_io::{Failed, Source};

/// A file as a source. The first call opens it; if that fails, the call fails and the next one
/// tries again.
#[derive(Drop)]
pub struct Reader<'a, R: Files> {
    faults: Faults,
    path: &'a str,
    rt: &'a R,
    file: Option<R::File>,
}

impl<'a, R: Files> Reader<'a, R> {
    /// Returns a source for the file of this path, with no call failed yet.
    pub fn new(rt: &'a R, path: &'a str) -> Reader<'a, R>
        ensures { result.faults.count ≡ 0 }
    {
        Reader {
            rt,
            path,
            file: None,
            faults: Faults::new(),
        }
    }

    /// Returns the system's error of the last failed call, if a call has failed.
    pub fn error(&self) -> Option<&io::Error> {
        self.faults.last.as_ref()
    }
}

// Reads some bytes of the file, and opens it first if it is not open.
fn read_some<R: Files>(
    rt: &R,
    path: &str,
    file: &mut Option<R::File>,
    buffer: &mut [u8],
) -> io::Result<usize>
    ensures { IfOk result (λ n. n ≤ length buffer.new) }
{
    match file {
        Some(file) => again::read(file, buffer),
        None => match OpenOptions::new().read(true).open(rt, path) {
            Ok(opened) => again::read(file.insert(opened), buffer),
            Err(error) => Err(error),
        },
    }
}

impl<R: Files> Source for Reader<'_, R> {
    ghost seen = { λ r. record { left = None; faults = r.faults.count } };

    fn read(&mut self, buffer: &mut [u8]) -> Result<usize, Failed> {
        let got = read_some(self.rt, self.path, &mut self.file, buffer);
        self.faults.counted(got)
    }
}
