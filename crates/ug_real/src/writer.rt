ghost use Rattle.std.specs.Prelude.{◌≡◌, None};

use crate::again;
use crate::faults::Faults;
use std::io;
use std::io::Write;
use ug_io::{Failed, Sink};

/// A writer of std as a sink, such as standard output. It is a fault if no byte of a non-empty
/// piece is written.
#[derive(Drop)]
pub struct Writer<W: Write + Drop> {
    faults: Faults,
    to: W,
}

impl<W: Write + Drop> Writer<W> {
    /// Returns a sink to this writer, with no call failed yet.
    pub fn new(to: W) -> Writer<W>
        ensures { result.faults.count ≡ 0 }
    {
        Writer {
            to,
            faults: Faults::new(),
        }
    }

    /// Returns the system's error of the last failed call, if a call has failed.
    pub fn error(&self) -> Option<&io::Error> {
        self.faults.last.as_ref()
    }
}

impl<W: Write + Drop> Sink for Writer<W> {
    ghost seen = { λ w. record { written = None; faults = w.faults.count } };

    fn write(&mut self, bytes: &[u8]) -> Result<usize, Failed> {
        match again::write(&mut self.to, bytes) {
            Ok(0) if !bytes.is_empty() => {
                Err(self.faults.add(io::Error::from(io::ErrorKind::WriteZero)))
            }
            Ok(n) => Ok(n),
            Err(error) => Err(self.faults.add(error)),
        }
    }
}
