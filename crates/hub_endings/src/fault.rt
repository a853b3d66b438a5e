//! The faults that end the program.
ghost use Rattle.std.specs.Prelude.{◌≡◌, OnOk, Some};
ghost use Rattle.std.specs.Io.KnownBytes.{Appends};
ghost use Rattle.hub_endings.specs.Faults.{line_of, look_fault};
ghost use Rattle.hub_endings.specs.declared.fault.Fault.TheVariants as fault;

use crate::line::tell_line;
use crate::listen_fault::ListenFault;
use crate::look_fault::LookFault;
use crate::reach_fault::ReachFault;
use crate::refused_line::RefusedLine;
use hub_ask::AskError;
use hub_client::RelayError;
use hub_io::FrontError;
use hub_reports::ServeError;
use std::alloc::{AllocError, Global};
use std::error::Error;
use std::io::Write;
use std::{fmt, io};

/// Why the program ends with status 1. Its text is the line on standard error.
#[derive(Clone, Copy, Debug, PartialEq, Eq)]
pub enum Fault {
    /// The socket couldn't be made at its path.
    Listen(ListenFault),
    /// Another server listens at the socket.
    Taken,
    /// The descriptor that is told when the hub listens couldn't be written to.
    Notify,
    /// The file of the setup couldn't be read, or is too large.
    Setup,
    /// A line of the setup was refused.
    SetupLine(RefusedLine),
    /// Another file is in the place of the socket, or its file couldn't be put back.
    Lost,
    /// The second socket couldn't be made, or was lost.
    Look(LookFault),
    /// A connection was expected, and accepting it failed.
    Accept,
    /// The connection of a call to a server at the socket couldn't be made.
    Connect,
    /// The connection of a command to a hub couldn't be made.
    Reach(ReachFault),
    /// Memory ran out before the first session.
    Memory,
    /// The session of `script` stopped, or a text such as `--help` couldn't be printed.
    Script(FrontError),
    /// The sessions of `serve` couldn't be served.
    Serve(ServeError),
    /// A session of `serve` stopped. Sessions are numbered from 1, in the order in which they were accepted.
    Session { number: u64, fault: FrontError },
    /// The relay of `call` stopped.
    Relay(RelayError),
    /// A request of `ask` has no outcome.
    Ask(AskError),
}

impl fmt::Display for Fault {
    ghost use Rattle.hub_endings.specs.Faults.{text_of};

    ghost output = { λ it. Some (text_of it) };

    fn fmt<W: fmt::Write>(&self, f: &mut fmt::Formatter<W>) -> fmt::Result {
        let text = match self {
            Fault::Taken => "another server listens there",
            Fault::Notify => "cannot notify",
            Fault::Setup => "cannot read the setup",
            Fault::Lost => "socket file lost",
            Fault::Accept => "cannot accept",
            Fault::Connect => "cannot connect",
            Fault::Listen(fault) => return fault.fmt(f),
            Fault::Reach(why) => return write!(f, "cannot connect: {why}"),
            Fault::SetupLine(line) => return line.fmt(f),
            Fault::Look(fault) => return fault.fmt(f),
            Fault::Memory => return FrontError::Memory.fmt(f),
            Fault::Script(fault) => return fault.fmt(f),
            Fault::Serve(fault) => return fault.fmt(f),
            Fault::Session { number, fault } => return write!(f, "session {number}: {fault}"),
            Fault::Relay(fault) => return fault.fmt(f),
            Fault::Ask(fault) => return fault.fmt(f),
        };
        f.write_str(text)
    }
}

impl Error for Fault {}

impl Fault {
    /// Writes the fault's line in one write, so that the lines of several programs don't mix. Only if memory runs out
    /// is it written in pieces.
    pub fn tell<W: Write>(self, alloc: Global, out: &mut W) -> io::Result<()>
        ensures { OnOk result (Appends (W.contents out.old) (W.contents out.new) (line_of self)) }
    {
        tell_line(alloc, &self, out)
    }

    /// The same fault of the second socket, if it is one of a socket.
    pub fn at_look(self) -> Fault
        ensures { result ≡ look_fault self }
    {
        match self {
            Fault::Listen(fault) => Fault::Look(LookFault::Listen(fault)),
            Fault::Taken => Fault::Look(LookFault::Taken),
            Fault::Lost => Fault::Look(LookFault::Lost),
            other => other,
        }
    }
}

impl From<AllocError> for Fault {
    ghost from_gives = { λ _ it. it ≡ fault.Memory };

    fn from(_error: AllocError) -> Fault {
        Fault::Memory
    }
}

impl From<ListenFault> for Fault {
    ghost from_gives = { λ error it. it ≡ fault.Listen error };

    fn from(error: ListenFault) -> Fault {
        Fault::Listen(error)
    }
}

impl From<ReachFault> for Fault {
    ghost from_gives = { λ error it. it ≡ fault.Reach error };

    fn from(error: ReachFault) -> Fault {
        Fault::Reach(error)
    }
}

impl From<RefusedLine> for Fault {
    ghost from_gives = { λ error it. it ≡ fault.SetupLine error };

    fn from(error: RefusedLine) -> Fault {
        Fault::SetupLine(error)
    }
}

impl From<FrontError> for Fault {
    ghost from_gives = { λ error it. it ≡ fault.Script error };

    fn from(error: FrontError) -> Fault {
        Fault::Script(error)
    }
}

impl From<ServeError> for Fault {
    ghost from_gives = { λ error it. it ≡ fault.Serve error };

    fn from(error: ServeError) -> Fault {
        Fault::Serve(error)
    }
}

impl From<RelayError> for Fault {
    ghost from_gives = { λ error it. it ≡ fault.Relay error };

    fn from(error: RelayError) -> Fault {
        Fault::Relay(error)
    }
}

impl From<AskError> for Fault {
    ghost from_gives = { λ error it. it ≡ fault.Ask error };

    fn from(error: AskError) -> Fault {
        Fault::Ask(error)
    }
}
