//! The lock beside a socket, which one server of this program has at a time.

use hub_endings::{Fault, ListenFault};
use std::alloc::Global;
use std::fs;
use std::fs::{File, Files, OpenOptions, Permissions, TryLockError};
use std::io::ErrorKind;
use std::os::unix::fs::{MetadataExt, OpenOptionsExt, PermissionsExt};

/// Who may read a lock's file could also lock it, and keep a server from coming back. So only its own user may.
const OWN: u32 = 0o600;

/// The bits of a mode that say who may do what.
const PERMISSIONS: u32 = 0o7777;

/// Opens the file SOCKET.lock, makes it if it isn't there, and locks it. The system lets go of the lock when the program ends,
/// however it ends. An error is `Taken` if another server has the lock, `Listen` if the file isn't an ordinary one of this user's
/// own, or `Memory`.
pub(crate) fn lock_beside<H: Files<File = File>>(
    rt: &H,
    alloc: Global,
    socket: &str,
) -> Result<File, Fault> {
    let path = format!(in alloc; "{socket}.lock")?;
    let lock = open_own(rt, path.as_str())?;
    match lock.try_lock() {
        Ok(()) => Ok(lock),
        Err(TryLockError::WouldBlock) => Err(Fault::Taken),
        Err(TryLockError::Error(fault)) => Err(Fault::Listen(ListenFault::from(fault))),
    }
}

// Opens the file, which only its own user may read or write from then on.
fn open_own<H: Files<File = File>>(rt: &H, path: &str) -> Result<File, ListenFault> {
    let lock = open_in_place(rt, path)?;
    let (open, named) = (lock.metadata()?, fs::symlink_metadata(rt, path)?);
    let is_named = (open.dev(), open.ino()) == (named.dev(), named.ino());
    let is_own = open.uid() == libc::geteuid() && open.nlink() == 1;
    if !(open.is_file() && is_named && is_own) {
        return Err(ListenFault::Lock);
    }
    if open.mode() & PERMISSIONS != OWN {
        lock.set_permissions(Permissions::from_mode(OWN))?;
    }
    Ok(lock)
}

// Opens the file that is at the path, or a new one. It never waits: a pipe that is open for reading and writing has both ends.
fn open_in_place<H: Files<File = File>>(rt: &H, path: &str) -> Result<File, ListenFault> {
    let mut how = OpenOptions::new();
    how.read(true).write(true).create_new(true).mode(OWN);
    match how.open(rt, path) {
        Err(fault) if fault.kind() == ErrorKind::AlreadyExists => {}
        opened => return Ok(opened?),
    }
    if !fs::symlink_metadata(rt, path)?.is_file() {
        return Err(ListenFault::Lock);
    }
    Ok(how.create_new(false).open(rt, path)?)
}
