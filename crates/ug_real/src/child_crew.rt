ghost use Rattle.std.specs.Prelude.{◌≤◌, length, IfOk};
ghost use Rattle.slab.specs.Slab.{HasRoomFor};

use crate::child::Child;
use crate::child_process::ChildProcess;
use crate::children::{Children, Heard};
use crate::departure::Watcher;
use crate::sockets::{Listener, SocketFile, SocketFolder, Sockets};
use std::alloc::Global;
use std::fs::File;
use std::io;
use std::net::Net;
use std::process::{Processes, SystemProcess};
use std::rt::Files;
use std::time::Clock;

/// How the children of a crew are started.
#[derive(Clone, Copy)]
pub struct ChildCommand<'a> {
    /// The path of the program that each child runs.
    pub program: &'a str,
    /// The place of the folder with the sockets to which the children connect.
    pub sockets: SocketFolder<'a>,
}

/// Children at the other ends of sockets, behind one poll.
#[derive(Drop)]
pub struct ChildCrew<'a, R: Files<File = File>, W: Drop> {
    /// Declared before `starter`, so that the sockets are removed before their folder.
    // Before the starter: its sockets go before their folder.
    pub children: Children<SocketFile<'a, R>>,
    starter: Starter<'a, R>,
    /// Receives the losses of ranks.
    pub watcher: W,
}

// Starts the children.
#[derive(Drop)]
struct Starter<'a, R: Files<File = File>> {
    alloc: Global,
    program: &'a str,
    rt: &'a R,
    sockets: Sockets<'a, R>,
}

impl<'a, R: Files<File = File> + Processes<Started = SystemProcess>> Starter<'a, R> {
    // Starts the child of this rank, which connects to this listener. The set of children has room
    // for it.
    fn start_at(
        &self,
        rank: u32,
        listener: Listener<SocketFile<'a, R>>,
        children: &mut Children<SocketFile<'a, R>>,
    ) -> io::Result<()>
        requires { HasRoomFor children.old.child_slab 1 }
    {
        match ChildProcess::start(self.rt, self.alloc, self.program, listener.file.path()) {
            Ok(child) => children.admit(Child::new(self.alloc, rank, listener, child)),
            Err(error) => {
                drop(listener);
                Err(error)
            }
        }
    }
}

impl<'a, R> Starter<'a, R>
where
    R: Files<File = File> + Net + Processes<Started = SystemProcess>,
{
    // Binds a socket and starts the child of this rank. The set of children has room for it.
    fn start(&mut self, rank: u32, children: &mut Children<SocketFile<'a, R>>) -> io::Result<()>
        requires { HasRoomFor children.old.child_slab 1 }
    {
        match self.sockets.bind(rank) {
            Ok(listener) => self.start_at(rank, listener, children),
            Err(error) => Err(error),
        }
    }
}

impl<'a, R, W> ChildCrew<'a, R, W>
where
    R: Files<File = File> + Net + Processes<Started = SystemProcess> + Clock,
    W: Watcher + Drop,
{
    /// Returns a crew without children. The folder of the sockets is made at the first launch.
    pub fn new(
        rt: &'a R,
        alloc: Global,
        command: ChildCommand<'a>,
        watcher: W,
    ) -> ChildCrew<'a, R, W> {
        ChildCrew {
            starter: Starter {
                alloc,
                program: command.program,
                rt,
                sockets: Sockets::new(rt, alloc, command.sockets),
            },
            children: Children::new(alloc),
            watcher,
        }
    }

    /// Starts the child of this rank.
    pub fn launch(&mut self, rank: u32) -> io::Result<()> {
        let opened = self.children.open(self.starter.rt, self.starter.alloc);
        if opened.is_err() {
            return opened;
        }
        self.starter.start(rank, &mut self.children)
    }

    /// Waits until bytes come from a rank or one is lost. Removes a lost one and reports it to the
    /// watcher.
    pub fn turn(&mut self, buffer: &mut [u8]) -> io::Result<Heard>
        ensures { IfOk result (λ heard. heard.count ≤ length buffer.new) }
    {
        let Starter { rt, alloc, .. } = &self.starter;
        let turned = self.children.turn(*rt, *alloc, &mut self.watcher, buffer);
        if let Ok(Heard { key, count: 0, .. }) = turned {
            self.children.part(key, &mut self.watcher);
        }
        turned
    }

    /// Writes the queued bytes, waits until each child has ended, and removes the folder of the
    /// sockets. A child that has not connected is killed, and so is one that runs too long.
    pub fn finish(&mut self) {
        self.children.finish(self.starter.rt);
        self.starter.sockets.close();
    }
}
