//! Why a server can't listen.
ghost use Rattle.std.specs.Prelude.{◌≡◌, Some};
ghost use Rattle.std.specs.IoError.{error_kind};
ghost use Rattle.hub_endings.specs.Faults.{listen_fault_of};

use std::error::Error;
use std::io::ErrorKind;
use std::{fmt, io};

/// Why no socket can be made at a path. Its text is the one of `Fault::Listen`.
#[derive(Clone, Copy, Debug, PartialEq, Eq)]
pub enum ListenFault {
    /// It isn't known, or isn't told: a server that ends by itself always says so.
    Untold,
    /// A folder of the path isn't there.
    NoFolder,
    /// What has to be a folder of the path is a file of another kind.
    NotFolder,
    /// This user may not make it there.
    Denied,
    /// The path has no byte.
    Empty,
    /// The path, or that of the socket's second name, has more bytes than an address.
    Long,
    /// A file that isn't a socket is at the path.
    Another,
    /// The lock's file isn't an ordinary one, isn't this user's own, or has a second name.
    Lock,
    /// No name for the private folder is free.
    Names,
    /// The socket is to get a mode, and other users may put another file in its place meanwhile.
    Shared,
    /// The umask takes this user's own rights to the private folder.
    Umask,
    /// The file system can't be written to.
    ReadOnly,
    /// The file system is full, or this user's share of it is.
    Space,
    /// Memory ran out.
    Memory,
}

impl fmt::Display for ListenFault {
    ghost use Rattle.hub_endings.specs.Faults.{listen_text};

    ghost output = { λ it. Some (listen_text it) };

    fn fmt<W: fmt::Write>(&self, f: &mut fmt::Formatter<W>) -> fmt::Result {
        f.write_str(match self {
            ListenFault::Untold => "cannot listen",
            ListenFault::NoFolder => "cannot listen: no such directory",
            ListenFault::NotFolder => "cannot listen: not a directory",
            ListenFault::Denied => "cannot listen: permission denied",
            ListenFault::Empty => "cannot listen: the path is empty",
            ListenFault::Long => "cannot listen: the path is too long (at most 103 bytes)",
            ListenFault::Another => "cannot listen: a file that isn't a socket",
            ListenFault::Lock => "cannot listen: SOCKET.lock isn't an ordinary file of this user",
            ListenFault::Names => "cannot listen: SOCKET.a to SOCKET.z are taken",
            ListenFault::Shared =>
                "cannot listen: no mode can be set where others may write to the directory",
            ListenFault::Umask => "cannot listen: the umask takes this user's own rights",
            ListenFault::ReadOnly => "cannot listen: read-only file system",
            ListenFault::Space => "cannot listen: no space left",
            ListenFault::Memory => "cannot listen: out of memory",
        })
    }
}

impl Error for ListenFault {}

/// What the system says of a file at the path, or beside it.
impl From<io::Error> for ListenFault {
    ghost from_gives = { λ error it. it ≡ listen_fault_of (error_kind error) };

    fn from(error: io::Error) -> ListenFault {
        match error.kind() {
            ErrorKind::NotFound => ListenFault::NoFolder,
            ErrorKind::NotADirectory => ListenFault::NotFolder,
            ErrorKind::PermissionDenied => ListenFault::Denied,
            ErrorKind::ReadOnlyFilesystem => ListenFault::ReadOnly,
            ErrorKind::StorageFull | ErrorKind::QuotaExceeded => ListenFault::Space,
            ErrorKind::OutOfMemory => ListenFault::Memory,
            _ => ListenFault::Untold,
        }
    }
}
