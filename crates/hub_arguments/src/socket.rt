//! The rule for the socket of words that name none.
ghost use Rattle.std.specs.Prelude.{◌≡◌};
ghost use Rattle.hub_arguments.specs.Environment.{IsDerived, IsOf, is_absolute, path_of};

use std::alloc::{AllocError, AllocGlobal, Global};
use std::env;
use std::env::VarError;
use std::rt::Runtime;

/// The socket of the hub that root runs.
pub(crate) const ROOT_SOCKET: &str = "/run/ftrighub/hub.socket";

const ROOT: u32 = 0;

/// The socket for words that name none.
#[derive(Drop, Debug, PartialEq, Eq)]
pub enum OwnSocket {
    /// `FTRIGHUB_SOCKET` has this path.
    Named(String),
    /// The program runs as root: `/run/ftrighub/hub.socket`.
    OfRoot,
    /// This path is in the folder that `XDG_RUNTIME_DIR` has.
    OfUser(String),
}

impl OwnSocket {
    /// Its path.
    pub fn path(&self) -> &str
        ensures { result.now ≡ path_of self.now }
    {
        match self {
            OwnSocket::Named(path) | OwnSocket::OfUser(path) => path.as_str(),
            OwnSocket::OfRoot => ROOT_SOCKET,
        }
    }
}

/// The socket for words that name none, if there is one. The effective number of the program's user is `user`.
pub fn own_socket<H: Runtime + AllocGlobal>(
    rt: &H,
    alloc: Global,
    user: u32,
) -> Result<Option<OwnSocket>, AllocError> {
    let named = env::var(rt, "FTRIGHUB_SOCKET");
    let folder = env::var(rt, "XDG_RUNTIME_DIR");
    derived_socket(alloc, named, user, folder)
}

/// The rule: what `FTRIGHUB_SOCKET` has, or else root's socket, or else one in the folder that `XDG_RUNTIME_DIR` has. The XDG Base
/// Directory Specification says that a relative path in that variable is invalid and ignored. The results are what the environment has
/// under these two names.
pub fn derived_socket(
    alloc: Global,
    named: Result<String, VarError>,
    user: u32,
    folder: Result<String, VarError>,
) -> Result<Option<OwnSocket>, AllocError>
    ensures { IsDerived named user folder result }
{
    match named {
        Ok(path) if !path.is_empty() => Ok(Some(OwnSocket::Named(path))),
        Err(VarError::OutOfMemory) => Err(AllocError),
        Ok(_) | Err(VarError::NotPresent | VarError::NotUnicode) => {
            unnamed_socket(alloc, user, folder)
        }
    }
}

// The rule for a user to whom no socket is named.
fn unnamed_socket(
    alloc: Global,
    user: u32,
    folder: Result<String, VarError>,
) -> Result<Option<OwnSocket>, AllocError>
    ensures { IsOf user folder result }
{
    if user == ROOT {
        return Ok(Some(OwnSocket::OfRoot));
    }
    match folder {
        Ok(folder) if is_absolute(&folder) => {
            let path = format!(in alloc; "{folder}/ftrighub.socket")?;
            Ok(Some(OwnSocket::OfUser(path)))
        }
        Err(VarError::OutOfMemory) => Err(AllocError),
        Ok(_) | Err(VarError::NotPresent | VarError::NotUnicode) => Ok(None),
    }
}

fn is_absolute(path: &str) -> bool
    ensures { result ≡ is_absolute path.now }
{
    match path.as_bytes() {
        [first, ..] => *first == b'/',
        [] => false,
    }
}
