//! A look at what is at a socket's path, of which a server there learns nothing.

use hub_endings::ListenFault;
use libc::net as c;
use std::fs;
use std::fs::Files;
use std::io::{Error, ErrorKind};
use std::net::Net;
use std::os::unix::fs::FileTypeExt;

/// The most bytes of a socket's path. A NUL follows them.
const MOST_BYTES: usize = 107;

/// The bytes of an address before its path.
const FAMILY: usize = 2;

/// Whether a socket is at the path. An error is `Another` if another file is there, or why it can't be known.
pub(crate) fn has_socket<H: Files>(rt: &H, path: &str) -> Result<bool, ListenFault> {
    match fs::symlink_metadata(rt, path) {
        Ok(found) if found.file_type().is_socket() => Ok(true),
        Ok(_) => Err(ListenFault::Another),
        Err(fault) if fault.kind() == ErrorKind::NotFound => Ok(false),
        Err(fault) => Err(ListenFault::from(fault)),
    }
}

/// Whether a server has the socket at the path, or may have it. Only a socket that no program has any more refuses a connection.
///
/// The connection that is asked for is one for single messages. A server's socket is of another kind, and the system says so at
/// once: it asks no server, and waits for none, whether the server listens already or not.
pub(crate) fn is_served<H: Net>(_rt: &H, path: &str) -> Result<bool, ListenFault> {
    let name = path.as_bytes();
    if name.len() > MOST_BYTES {
        return Err(ListenFault::Long);
    }
    let mut address = [0u8; c::_SS_SIZE];
    address[..FAMILY].copy_from_slice(&(c::AF_UNIX as u16).to_ne_bytes());
    address[FAMILY..FAMILY + name.len()].copy_from_slice(name);
    let length = (FAMILY + name.len() + 1) as u32;
    let socket = unsafe { c::socket(c::AF_UNIX, c::SOCK_DGRAM | c::SOCK_CLOEXEC, 0) };
    if socket < 0 {
        return Err(ListenFault::from(Error::from_raw_os_error(os::errno())));
    }
    let status = unsafe { c::connect(socket, &address, length) };
    let fault = if status < 0 { os::errno() } else { 0 };
    libc::close(socket);
    Ok(fault != libc::ECONNREFUSED && fault != libc::ENOENT)
}
