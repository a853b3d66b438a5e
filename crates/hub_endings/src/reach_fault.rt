//! Why a hub can't be reached.
ghost use Rattle.std.specs.Prelude.{◌≡◌, Some};
ghost use Rattle.std.specs.IoError.{error_kind};
ghost use Rattle.hub_endings.specs.Reaching.{is_absence, reach_fault_of, reach_text};

use std::error::Error;
use std::io::ErrorKind;
use std::{fmt, io};

/// Why a command can't connect to a hub. Its text is the end of its line.
#[derive(Clone, Copy, Debug, PartialEq, Eq)]
pub enum ReachFault {
    /// Nothing is at the path.
    NoFile,
    /// What has to be a folder of the path is a file of another kind.
    NotFolder,
    /// This user may not write to the socket, or not enter a folder of its path.
    Denied,
    /// A file is at the path, and nobody listens there.
    Nobody,
    /// Somebody listens there, and has no room for one more connection.
    Full,
    /// No socket can have the path.
    Path,
    /// Another one.
    Other,
}

impl ReachFault {
    /// Whether a hub may be there later, though there is none now, or it has no room.
    pub fn is_absence(self) -> bool
        ensures { result ≡ is_absence self }
    {
        match self {
            ReachFault::NoFile | ReachFault::Nobody | ReachFault::Full => true,
            ReachFault::NotFolder | ReachFault::Denied | ReachFault::Path | ReachFault::Other => {
                false
            }
        }
    }
}

impl fmt::Display for ReachFault {
    ghost output = { λ it. Some (reach_text it) };

    fn fmt<W: fmt::Write>(&self, f: &mut fmt::Formatter<W>) -> fmt::Result {
        f.write_str(match self {
            ReachFault::NoFile => "no such file",
            ReachFault::NotFolder => "not a directory",
            ReachFault::Denied => "permission denied",
            ReachFault::Nobody => "nobody listens there",
            ReachFault::Full => "no room for one more connection",
            ReachFault::Path => "the path is empty, or has more than 107 bytes",
            ReachFault::Other => "the system refuses it",
        })
    }
}

impl Error for ReachFault {}

/// What the system says of a connection to the path.
impl From<io::Error> for ReachFault {
    ghost from_gives = { λ error it. it ≡ reach_fault_of (error_kind error) };

    fn from(error: io::Error) -> ReachFault {
        match error.kind() {
            ErrorKind::NotFound => ReachFault::NoFile,
            ErrorKind::NotADirectory => ReachFault::NotFolder,
            ErrorKind::PermissionDenied => ReachFault::Denied,
            ErrorKind::ConnectionRefused => ReachFault::Nobody,
            ErrorKind::WouldBlock => ReachFault::Full,
            ErrorKind::InvalidInput => ReachFault::Path,
            _ => ReachFault::Other,
        }
    }
}

/// A hub that can't be reached. Its text is the line on standard error.
#[derive(Debug, Drop)]
pub struct Unreached {
    /// The path of its socket.
    pub socket: String,
    /// Why it can't be reached.
    pub why: ReachFault,
}

impl fmt::Display for Unreached {
    ghost use Rattle.hub_endings.specs.Reaching.{unreached_text};

    ghost output = { λ it. Some (unreached_text it) };

    fn fmt<W: fmt::Write>(&self, f: &mut fmt::Formatter<W>) -> fmt::Result {
        let (socket, why) = (self.socket.as_str(), self.why);
        write!(f, "cannot connect to {socket}: {why}")
    }
}
