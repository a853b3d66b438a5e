//! Why a hub can't have its second socket, at which sessions only look.
ghost use Rattle.std.specs.Prelude.{Some};
ghost use Rattle.hub_endings.specs.Faults.{look_fault_text};

use crate::listen_fault::ListenFault;
use std::error::Error;
use std::fmt;

/// Why a hub can't listen at its second socket, or has lost it.
#[derive(Clone, Copy, Debug, PartialEq, Eq)]
pub enum LookFault {
    /// The socket couldn't be made at its path.
    Listen(ListenFault),
    /// Another server listens at the socket.
    Taken,
    /// Its path is that of the first socket.
    Same,
    /// Another file is in the place of the socket, or its file couldn't be put back.
    Lost,
}

impl fmt::Display for LookFault {
    ghost output = { λ it. Some (look_fault_text it) };

    fn fmt<W: fmt::Write>(&self, f: &mut fmt::Formatter<W>) -> fmt::Result {
        f.write_str(match self {
            LookFault::Listen(fault) => return write!(f, "{fault} (--look)"),
            LookFault::Taken => "another server listens there (--look)",
            LookFault::Same => "the path is that of the first socket (--look)",
            LookFault::Lost => "socket file lost (--look)",
        })
    }
}

impl Error for LookFault {}
