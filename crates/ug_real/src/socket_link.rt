ghost use Rattle.std.specs.Prelude.{◌≡◌, ◌<◌, ◌≤◌, true, false, length, None, IfSome, IsSome};
ghost use Rattle.std.specs.Prelude.{Ok, IfOk};

use crate::again;
use crate::cause::failed_by;
use crate::faults::Faults;
use std::alloc::Global;
use std::io;
use std::io::{BufWriter, ErrorKind, Write};
use std::net::Net;
use std::os::unix::net::UnixStream;
use std::time::{Clock, Duration, Instant};
use ug_io::{Failed, Got, Link};

/// The number of bytes that may wait to be written.
const HELD: usize = 8_192;

/// The number of microseconds for which written bytes may wait for more, and for which no new read
/// is tried without waiting. A round of a small problem takes a few microseconds, and a system call
/// as many.
const GATHER_MICROSECONDS: u64 = 100;

/// A worker's end of a Unix socket as a link. The first call connects; if that fails, the call
/// fails. Written bytes wait until the next read that waits, or that is the first one in 100
/// microseconds, or until the buffer is full: one system call for each report would cost more than
/// most reports do. If these bytes cannot be sent, the read fails. Bytes written between a read
/// that returned bytes and the next read are sent at once, and the write fails if they cannot be
/// sent: so the last answer never waits.
#[derive(Drop)]
pub struct SocketLink<'a, R> {
    has_ended: bool,
    faults: Faults,
    wire: Wire<'a, R>,
}

// The path of a socket, and the connection once there is one.
#[derive(Drop)]
struct Wire<'a, R> {
    connection: Option<LinkConnection>,
    path: &'a str,
    alloc: Global,
    rt: &'a R,
}

// A connection: do its calls wait, did the last read return bytes, and when was it last read
// without waiting?
#[derive(Drop)]
struct LinkConnection {
    stream: BufWriter<UnixStream, Global>,
    waits: bool,
    has_read: bool,
    looked: Option<Instant>,
}

impl<'a, R: Net + Clock> SocketLink<'a, R> {
    /// Returns a link to the socket of this path, with no call failed yet. It allocates when it
    /// connects.
    pub fn new(rt: &'a R, alloc: Global, path: &'a str) -> SocketLink<'a, R>
        ensures ended { result.has_ended ≡ false }
        ensures faults { result.faults.count ≡ 0 }
    {
        SocketLink {
            wire: Wire {
                rt,
                alloc,
                path,
                connection: None,
            },
            has_ended: false,
            faults: Faults::new(),
        }
    }

    /// Returns the system's error of the last failed call, if a call has failed.
    pub fn error(&self) -> Option<&io::Error> {
        self.faults.last.as_ref()
    }
}

impl LinkConnection {
    // Makes its calls wait from now on, or not.
    fn set(&mut self, waits: bool) -> io::Result<()> {
        if waits != self.waits {
            self.stream.get_ref().set_nonblocking(!waits)?;
            self.waits = waits;
        }
        Ok(())
    }

    // Has enough time passed since the last read that does not wait? If so, records the time now.
    // Without a clock it has.
    fn is_due(&mut self, clock: &impl Clock) -> bool {
        let now = Instant::now(clock).ok();
        if let (Some(looked), Some(now)) = (self.looked, now) {
            if now.duration_since(looked) < Duration::from_micros(GATHER_MICROSECONDS) {
                return false;
            }
        }
        self.looked = now;
        true
    }

    // Writes the bytes that wait. If none can be written now, waits until they are written.
    fn flush(&mut self) -> io::Result<()> {
        let got = self.stream.flush();
        if !failed_by(&got, ErrorKind::WouldBlock) {
            return got;
        }
        drop(got);
        match self.set(true) {
            Ok(()) => self.stream.flush(),
            Err(error) => Err(error),
        }
    }

    // Reads some bytes, and waits if there are none. First reads in the current mode, since
    // changing it is a system call too.
    fn wait(&mut self, buffer: &mut [u8]) -> io::Result<usize>
        ensures { IfOk result (λ n. n ≤ length buffer.new) }
    {
        if let Err(error) = self.flush() {
            return Err(error);
        }
        let got = again::read(self.stream.get_mut(), buffer);
        if !failed_by(&got, ErrorKind::WouldBlock) {
            return got;
        }
        drop(got);
        match self.set(true) {
            Ok(()) => again::read(self.stream.get_mut(), buffer),
            Err(error) => Err(error),
        }
    }

    // Reads some bytes, or returns `None` if there are none.
    fn look(&mut self, buffer: &mut [u8]) -> io::Result<Option<usize>>
        ensures { IfOk result (λ got. IfSome got (λ n. n ≤ length buffer.new)) }
    {
        let mut readied = self.flush();
        if readied.is_ok() {
            readied = self.set(false);
        }
        if let Err(error) = readied {
            return Err(error);
        }
        let got = again::read(self.stream.get_mut(), buffer);
        if failed_by(&got, ErrorKind::WouldBlock) {
            drop(got);
            return Ok(None);
        }
        got.map(Some)
    }

    // Reads some bytes. If `wait` is not set, returns `None` if there are none, or if the last such
    // read was a moment ago.
    fn get(
        &mut self,
        clock: &impl Clock,
        buffer: &mut [u8],
        wait: bool,
    ) -> io::Result<Option<usize>>
        ensures count { IfOk result (λ got. IfSome got (λ n. n ≤ length buffer.new)) }
        ensures waits { IfOk result (λ got. wait ≡ true → IsSome got) }
    {
        if wait {
            self.wait(buffer).map(Some)
        } else if self.is_due(clock) {
            self.look(buffer)
        } else {
            Ok(None)
        }
    }

    // Reads as `get` does, and records whether bytes were received.
    fn read(
        &mut self,
        clock: &impl Clock,
        buffer: &mut [u8],
        wait: bool,
    ) -> io::Result<Option<usize>>
        ensures count { IfOk result (λ got. IfSome got (λ n. n ≤ length buffer.new)) }
        ensures waits { IfOk result (λ got. wait ≡ true → IsSome got) }
    {
        let got = self.get(clock, buffer, wait);
        self.has_read = match &got {
            Ok(Some(n)) => *n > 0,
            Ok(None) | Err(_) => false,
        };
        got
    }

    // Buffers some bytes to be written, and writes the buffered ones if there is no room.
    fn put(&mut self, bytes: &[u8]) -> io::Result<usize>
        ensures { IfOk result (λ n. n ≤ length bytes.now) }
    {
        let got = again::write(&mut self.stream, bytes);
        if !failed_by(&got, ErrorKind::WouldBlock) {
            return got;
        }
        drop(got);
        match self.set(true) {
            Ok(()) => again::write(&mut self.stream, bytes),
            Err(error) => Err(error),
        }
    }

    // Buffers some bytes to be written, and writes them at once if the last read returned bytes.
    fn write(&mut self, bytes: &[u8]) -> io::Result<usize>
        ensures { IfOk result (λ n. n ≤ length bytes.now) }
    {
        match self.put(bytes) {
            Ok(n) if self.has_read => match self.flush() {
                Ok(()) => Ok(n),
                Err(error) => Err(error),
            },
            wrote => wrote,
        }
    }
}

// Connects to the socket of a path.
fn connected<R: Net>(rt: &R, alloc: Global, path: &str) -> io::Result<LinkConnection> {
    match UnixStream::connect(rt, path) {
        Ok(stream) => match BufWriter::with_capacity(alloc, HELD, stream) {
            Ok(stream) => Ok(LinkConnection {
                stream,
                waits: true,
                has_read: false,
                looked: None,
            }),
            Err(error) => Err(error),
        },
        Err(error) => Err(error),
    }
}

// Returns the result of a write. Writing no byte is an error if there was one to write.
fn at_least_one(wrote: io::Result<usize>, bytes: &[u8]) -> io::Result<usize>
    ensures some { IfOk result (λ n. 0 < length bytes.now → 0 < n) }
    ensures given { IfOk result (λ n. wrote ≡ Ok n) }
{
    match wrote {
        Ok(0) if !bytes.is_empty() => Err(io::Error::from(ErrorKind::WriteZero)),
        _ => wrote,
    }
}

impl<R: Net + Clock> Wire<'_, R> {
    // Returns the connection, made at the first call.
    fn connection(&mut self) -> io::Result<&mut LinkConnection> {
        match &mut self.connection {
            Some(connection) => Ok(connection),
            none => match connected(self.rt, self.alloc, self.path) {
                Ok(connection) => Ok(none.insert(connection)),
                Err(error) => Err(error),
            },
        }
    }

    // Reads some bytes. If `wait` is not set, returns `None` if there are none, or if the last such
    // read was a moment ago.
    fn read(&mut self, buffer: &mut [u8], wait: bool) -> io::Result<Option<usize>>
        ensures count { IfOk result (λ got. IfSome got (λ n. n ≤ length buffer.new)) }
        ensures waits { IfOk result (λ got. wait ≡ true → IsSome got) }
    {
        let clock = self.rt;
        match self.connection() {
            Ok(connection) => connection.read(clock, buffer, wait),
            Err(error) => Err(error),
        }
    }

    // Buffers some bytes to be written, at least one if there is one, and returns their number.
    fn write(&mut self, bytes: &[u8]) -> io::Result<usize>
        ensures some { IfOk result (λ n. 0 < length bytes.now → 0 < n) }
        ensures within { IfOk result (λ n. n ≤ length bytes.now) }
    {
        match self.connection() {
            Ok(connection) => at_least_one(connection.write(bytes), bytes),
            Err(error) => Err(error),
        }
    }
}

impl<R: Net + Clock> Link for SocketLink<'_, R> {
    ghost seen = { λ l. record { said = None; ended = l.has_ended; faults = l.faults.count } };

    fn read(&mut self, buffer: &mut [u8], wait: bool) -> Result<Got, Failed> {
        match self.wire.read(buffer, wait) {
            Ok(Some(0)) => {
                self.has_ended = true;
                Ok(Got::End)
            }
            Ok(Some(n)) => Ok(Got::Bytes(n)),
            Ok(None) => Ok(Got::Nothing),
            Err(error) => Err(self.faults.add(error)),
        }
    }

    fn write(&mut self, bytes: &[u8]) -> Result<usize, Failed> {
        let wrote = self.wire.write(bytes);
        self.faults.counted(wrote)
    }
}
