use crate::cause::failed_by;
use mio::net::UnixListener;
use std::alloc::{AllocError, Global};
use std::fs::{DirBuilder, File, TryLockError};
use std::io::ErrorKind;
use std::net::Net;
use std::os::unix::fs::{DirBuilderExt, MetadataExt};
use std::os::unix::net::SocketAddr;
use std::rt::Files;
use std::{fs, io};

/// The largest number of bytes in the path of a socket.
const LONGEST: usize = 107;

/// The number of names that are tried for a new folder.
const NAMES: u32 = 10_000;

/// The place of the folder of sockets.
#[derive(Clone, Copy)]
pub enum SocketFolder<'a> {
    /// Within the folder of this path, which is made if it is missing.
    Given(&'a str),
    /// Within this folder, under a name that no other run uses.
    Fresh(&'a str),
}

/// The sockets to which the children of a crew connect. They are in a folder of their own that only
/// its user may enter. The first call makes and locks it, so that no other crew replaces the
/// sockets. It is removed when this object is closed or dropped.
#[derive(Drop)]
pub struct Sockets<'a, R: Files<File = File>> {
    rt: &'a R,
    alloc: Global,
    place: SocketFolder<'a>,
    own: Option<OwnFolder<'a, R>>,
}

// The folder with the sockets, locked.
struct OwnFolder<'a, R: Files<File = File>> {
    rt: &'a R,
    path: String,
    lock: File,
}

impl<R: Files<File = File>> Drop for OwnFolder<'_, R> {
    // Removed while it is locked, so that it cannot belong to another program by then.
    fn drop(self) {
        let OwnFolder { rt, path, lock } = self;
        let _ = fs::remove_dir(rt, path.as_str());
        drop(lock);
    }
}

/// A socket to which a child connects, and the owner of its file.
#[derive(Drop)]
pub struct Listener<F: Drop> {
    /// The socket.
    pub listener: UnixListener,
    /// Removes the file of the socket when it is dropped.
    pub file: F,
}

/// The file of a socket, which is removed when this is dropped.
pub struct SocketFile<'a, R: Files> {
    rt: &'a R,
    path: String,
}

impl<R: Files> SocketFile<'_, R> {
    /// Returns the path of the file.
    pub fn path(&self) -> &str {
        self.path.as_str()
    }
}

impl<R: Files> Drop for SocketFile<'_, R> {
    fn drop(self) {
        let SocketFile { rt, path } = self;
        let _ = fs::remove_file(rt, path.as_str());
    }
}

// Returns the error if no socket may be made in this folder.
fn refused(why: &'static str) -> io::Error {
    io::Error::new(ErrorKind::PermissionDenied, why)
}

// Returns the folder unless others may change its entries. In a sticky folder each user changes
// only their own.
fn own_alone(folder: File) -> io::Result<File> {
    let mode = folder.metadata()?.mode();
    if mode & 0o022 != 0 && mode & 0o1000 == 0 {
        drop(folder);
        return Err(refused("others may write in the folder of sockets"));
    }
    Ok(folder)
}

// Returns the folder if only its owner may enter it.
fn entered_alone(folder: File) -> io::Result<File> {
    if folder.metadata()?.mode() & 0o077 != 0 {
        drop(folder);
        return Err(refused("others may enter the folder of sockets"));
    }
    Ok(folder)
}

// Locks the folder and returns it.
fn locked(folder: File) -> io::Result<File> {
    match folder.try_lock() {
        Ok(()) => Ok(folder),
        Err(TryLockError::WouldBlock) => {
            drop(folder);
            Err(taken())
        }
        Err(TryLockError::Error(error)) => {
            drop(folder);
            Err(error)
        }
    }
}

// Returns the error if another program uses the folder.
fn taken() -> io::Error {
    io::Error::new(
        ErrorKind::ResourceBusy,
        "another program has its sockets in this folder",
    )
}

// Returns the folder if it is still the one at this path: its last owner may have removed it.
fn still_at<R: Files>(rt: &R, path: &str, folder: File) -> io::Result<File> {
    let there = fs::symlink_metadata(rt, path)?;
    let it = folder.metadata()?;
    if there.ino() != it.ino() || there.dev() != it.dev() {
        drop(folder);
        return Err(taken());
    }
    Ok(folder)
}

// Opens and locks the folder of this path, if only its owner may enter it.
fn lock_own<R: Files<File = File>>(rt: &R, path: &str) -> io::Result<File> {
    File::open(rt, path)
        .and_then(entered_alone)
        .and_then(locked)
        .and_then(|folder| still_at(rt, path, folder))
}

// Makes a folder that only its user may enter.
fn make_private<R: Files>(rt: &R, path: &str, with_parents: bool) -> io::Result<()> {
    DirBuilder::new()
        .recursive(with_parents)
        .mode(0o700)
        .create(rt, path)
}

// Makes the folder of the sockets within this one, which is made too if it is missing, and returns
// its path. Fails if others may change the entries of this folder. A path that begins with `-` gets
// `./` in front, since a child would read it as an option.
fn make_in<R: Files<File = File>>(rt: &R, alloc: Global, folder: &str) -> io::Result<String> {
    make_private(rt, folder, true)?;
    drop(File::open(rt, folder).and_then(own_alone)?);
    let here = if folder.starts_with("-") { "./" } else { "" };
    let path = format!(in alloc; "{here}{folder}/ug-sockets")?;
    match make_private(rt, path.as_str(), true) {
        Ok(()) => Ok(path),
        Err(error) => {
            drop(path);
            Err(error)
        }
    }
}

// Makes a folder for the sockets within this one, under a name that is not used, and returns its
// path.
fn make_fresh<R: Files>(rt: &R, alloc: Global, folder: &str) -> io::Result<String> {
    for number in 0..NAMES {
        let path = format!(in alloc; "{folder}/ug-{number}")?;
        let made = make_private(rt, path.as_str(), false);
        if made.is_ok() {
            return Ok(path);
        }
        drop(path);
        if !failed_by(&made, ErrorKind::AlreadyExists) {
            return Err(made.err().unwrap_or(taken()));
        }
    }
    Err(taken())
}

// Makes the folder of the sockets and locks it.
fn make_own<'a, R: Files<File = File>>(
    rt: &'a R,
    alloc: Global,
    place: SocketFolder<'_>,
) -> io::Result<OwnFolder<'a, R>> {
    let path = match place {
        SocketFolder::Given(folder) => make_in(rt, alloc, folder)?,
        SocketFolder::Fresh(folder) => make_fresh(rt, alloc, folder)?,
    };
    match lock_own(rt, path.as_str()) {
        Ok(lock) => Ok(OwnFolder { rt, path, lock }),
        Err(error) => {
            drop(path);
            Err(error)
        }
    }
}

// Removes the file at this path, if there is one.
fn remove_old<R: Files>(rt: &R, path: &str) -> io::Result<()> {
    let removed = fs::remove_file(rt, path);
    if failed_by(&removed, ErrorKind::NotFound) {
        drop(removed);
        return Ok(());
    }
    removed
}

// Does the file belong to this user?
fn is_of<R: Files>(rt: &R, file: &str, user: u32) -> io::Result<bool> {
    match fs::symlink_metadata(rt, file) {
        Ok(metadata) => Ok(metadata.uid() == user),
        Err(error) => Err(error),
    }
}

// Does the folder belong to the user who made this file?
fn is_own<R: Files>(rt: &R, folder: &File, file: &str) -> io::Result<bool> {
    match folder.metadata() {
        Ok(metadata) => is_of(rt, file, metadata.uid()),
        Err(error) => Err(error),
    }
}

// Returns the error if the folder belongs to another user.
fn not_own() -> io::Error {
    refused("the folder of sockets is another user's")
}

// Fails unless the folder belongs to the user who made this file.
fn own_folder<R: Files>(rt: &R, folder: &File, file: &str) -> io::Result<()> {
    match is_own(rt, folder, file) {
        Ok(true) => Ok(()),
        Ok(false) => Err(not_own()),
        Err(error) => Err(error),
    }
}

// Returns the path to the socket of a rank.
fn path_of(alloc: Global, folder: &str, rank: u32) -> Result<String, AllocError> {
    format!(in alloc; "{folder}/ug-{rank}.sock")
}

// Binds a socket at this path. Removes the file there first, if there is one.
fn listen_at<R: Files + Net>(rt: &R, path: &str) -> io::Result<UnixListener> {
    let address = address_of(path)?;
    match remove_old(rt, path) {
        Ok(()) => UnixListener::bind_addr(rt, &address),
        Err(error) => Err(error),
    }
}

// Returns the address of a socket at this path. Fails if the path is too long.
fn address_of(path: &str) -> io::Result<SocketAddr> {
    if path.len() > LONGEST {
        return Err(io::Error::new(
            ErrorKind::InvalidFilename,
            "the path to its socket has more than 107 bytes",
        ));
    }
    SocketAddr::from_pathname(path)
}

impl<'a, R: Files<File = File>> OwnFolder<'a, R> {
    // Binds a socket at this path, in a folder of this user.
    fn listen(&self, file: &str) -> io::Result<UnixListener>
    where
        R: Net,
    {
        let listener = listen_at(self.rt, file)?;
        match own_folder(self.rt, &self.lock, file) {
            Ok(()) => Ok(listener),
            Err(error) => {
                drop(listener);
                Err(error)
            }
        }
    }

    // Binds the socket of a rank. If that fails, removes its file.
    fn bind(&self, alloc: Global, rank: u32) -> io::Result<Listener<SocketFile<'a, R>>>
    where
        R: Net,
    {
        let path = path_of(alloc, self.path.as_str(), rank)?;
        let file = SocketFile { rt: self.rt, path };
        match self.listen(file.path()) {
            Ok(listener) => Ok(Listener { listener, file }),
            Err(error) => {
                drop(file);
                Err(error)
            }
        }
    }
}

impl<'a, R: Files<File = File> + Net> Sockets<'a, R> {
    /// Returns the sockets of a folder that is not made yet.
    pub fn new(rt: &'a R, alloc: Global, place: SocketFolder<'a>) -> Sockets<'a, R> {
        Sockets {
            rt,
            alloc,
            place,
            own: None,
        }
    }

    /// Binds the socket of a rank, to which only this user can connect. Removes the file at its
    /// path first, if there is one.
    pub fn bind(&mut self, rank: u32) -> io::Result<Listener<SocketFile<'a, R>>> {
        match &self.own {
            Some(own) => own.bind(self.alloc, rank),
            None => match make_own(self.rt, self.alloc, self.place) {
                Ok(own) => self.own.insert(own).bind(self.alloc, rank),
                Err(error) => Err(error),
            },
        }
    }

    /// Removes the folder, which must be empty.
    pub fn close(&mut self) {
        drop(self.own.take());
    }
}
