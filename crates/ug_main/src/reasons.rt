use std::fs::File;
use std::io;
use std::io::{Eprint, Write};
use std::net::Net;
use std::rt::Files;
use std::time::Clock;
use ug_real::{FileDisk, Reader, RealFolder, SocketLink, Writer};

/// What keeps why a call on it failed.
pub trait Reasons {
    /// Why the last call failed that did, in the system's words.
    fn reason(&self) -> Option<&io::Error>;
}

impl<R: Files> Reasons for Reader<'_, R> {
    fn reason(&self) -> Option<&io::Error> {
        self.error()
    }
}

impl<W: Write + Drop> Reasons for Writer<W> {
    fn reason(&self) -> Option<&io::Error> {
        self.error()
    }
}

impl<R: Files<File = File> + Eprint> Reasons for FileDisk<RealFolder<'_, R>> {
    fn reason(&self) -> Option<&io::Error> {
        self.error()
    }
}

impl<R: Net + Clock> Reasons for SocketLink<'_, R> {
    fn reason(&self) -> Option<&io::Error> {
        self.error()
    }
}
