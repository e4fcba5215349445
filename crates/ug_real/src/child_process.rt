use crate::again;
use crate::departure::{Departure, end_of};
use mio::unix::SourceFd;
use mio::{Interest, Registry, Token};
use std::alloc::Global;
use std::fs::File;
use std::io;
use std::io::ErrorKind;
use std::os::fd::AsRawFd;
use std::process::{Child, Command, ExitStatus, Processes, Stdio, SystemProcess};
use std::rt::Files;

/// A child process. Dropping it kills the process if it has not ended, and waits for its end.
pub struct ChildProcess {
    child: Child,
    state: State,
}

#[derive(Clone, Copy)]
enum State {
    Runs,
    Ended(ExitStatus),
    // Other code has waited for it.
    Lost,
}

// Starts the command as a worker that connects to this socket.
fn spawn<R: Processes<Started = SystemProcess>>(
    rt: &R,
    command: &mut Command,
    socket: &str,
) -> io::Result<Child> {
    match command.args(["worker", "--socket", socket]) {
        Ok(command) => command
            .stdin(Stdio::piped())
            .stdout(Stdio::null())
            .spawn(rt),
        Err(error) => Err(error.into()),
    }
}

// Returns the state of a process from its `stat` file: the letter behind the name in parentheses.
fn state_in<R: Files<File = File>>(rt: &R, path: &str) -> Option<u8> {
    let mut buffer = [0u8; 256];
    let Ok(mut file) = File::open(rt, path) else {
        return None;
    };
    let count = again::read(&mut file, &mut buffer).unwrap_or(0);
    drop(file);
    let stat = buffer.get(..count).unwrap_or(&[]);
    let at = stat.iter().rposition(|byte| *byte == b')')?;
    stat.get(at.saturating_add(2)).copied()
}

impl ChildProcess {
    /// Starts the program as a worker that connects to this socket. Its standard output is
    /// discarded. Its standard input is a pipe on which nothing is sent: the pipe closes when the
    /// child ends.
    pub fn start<R: Processes<Started = SystemProcess>>(
        rt: &R,
        alloc: Global,
        program: &str,
        socket: &str,
    ) -> io::Result<ChildProcess> {
        let mut command = Command::new(alloc, program)?;
        let spawned = spawn(rt, &mut command, socket);
        drop(command);
        match spawned {
            Ok(child) => Ok(ChildProcess {
                child,
                state: State::Runs,
            }),
            Err(error) => Err(error),
        }
    }

    /// Is it stopped, by a signal or a debugger? False if the system does not say.
    pub fn is_stopped<R: Files<File = File>>(&self, rt: &R, alloc: Global) -> bool {
        match format!(in alloc; "/proc/{}/stat", self.child.id()) {
            Ok(path) => {
                let state = state_in(rt, path.as_str());
                drop(path);
                state == Some(b'T') || state == Some(b't')
            }
            Err(_) => false,
        }
    }

    /// Registers the pipe with the poll. The closing of the pipe, an error event under this token,
    /// reports the child's end.
    pub fn register(&self, registry: &Registry, token: Token) -> io::Result<()> {
        match &self.child.stdin {
            Some(pipe) => {
                let descriptor = pipe.as_raw_fd();
                registry.register(&mut SourceFd(&descriptor), token, Interest::READABLE)
            }
            None => Err(io::Error::from(ErrorKind::BrokenPipe)),
        }
    }

    /// Tests whether it has ended, and records its status.
    pub fn look(&mut self) {
        match self.child.try_wait() {
            Ok(Some(status)) => self.state = State::Ended(status),
            Ok(None) => {}
            Err(error) => {
                drop(error);
                self.state = State::Lost;
            }
        }
    }

    /// Was it found to have ended?
    pub fn has_ended(&self) -> bool {
        match self.state {
            State::Runs => false,
            State::Ended(_) | State::Lost => true,
        }
    }

    /// Returns how it ended.
    pub fn departure(&self) -> Departure {
        match self.state {
            State::Ended(status) => end_of(status),
            State::Runs | State::Lost => Departure::Lost,
        }
    }

    /// Kills it. It ends soon after.
    pub fn kill(&mut self) {
        let _ = self.child.kill();
    }
}

impl Drop for ChildProcess {
    fn drop(self) {
        let ChildProcess {
            mut child,
            state: _,
        } = self;
        let _ = child.kill();
        let _ = child.wait();
    }
}
