//! The first line of a hub that lives.
ghost use Rattle.std.specs.Prelude.{OnOk, Some};
ghost use Rattle.std.specs.Io.KnownBytes.{Appends};
ghost use Rattle.hub_endings.specs.Faults.{line_with};
ghost use Rattle.hub_endings.specs.HubLines.{listening_text, look_text};

use crate::line::tell_line;
use std::alloc::Global;
use std::io::Write;
use std::{fmt, io};

/// That a hub listens at a second socket, at which sessions only look.
#[derive(Clone, Copy, Debug, PartialEq, Eq)]
pub struct LookListening<'a> {
    /// The path of the socket.
    pub socket: &'a str,
    /// The permission bits that the socket's file was given.
    pub mode: u32,
    /// How many sessions of all there may be at it at the same time.
    pub sessions: u64,
}

// The second socket, if there is one.
#[derive(Drop)]
struct Second<'a> {
    look: Option<LookListening<'a>>,
}

impl<'a> fmt::Display for Second<'a> {
    ghost output = { λ it. Some (look_text it.look) };

    fn fmt<W: fmt::Write>(&self, f: &mut fmt::Formatter<W>) -> fmt::Result {
        let Some(look) = self.look else {
            return Ok(());
        };
        let (socket, mode, sessions) = (look.socket, look.mode, look.sessions);
        write!(
            f,
            ", and at {socket} for those who only look (mode 0{mode:o}, at most {sessions} of these)"
        )
    }
}

/// That a hub listens.
#[derive(Clone, Copy, Debug, PartialEq, Eq)]
pub struct Listening<'a> {
    /// The program's version.
    pub version: &'a str,
    /// The path of the socket.
    pub socket: &'a str,
    /// The permission bits that the socket's file was given. None: those that the process's umask leaves.
    pub mode: Option<u32>,
    /// How many sessions there may be at the same time.
    pub sessions: u64,
    /// The second socket. None: there is none.
    pub look: Option<LookListening<'a>>,
}

impl<'a> fmt::Display for Listening<'a> {
    ghost output = { λ it. Some (listening_text it.version.now it.socket.now it.mode it.sessions
        it.look) };

    fn fmt<W: fmt::Write>(&self, f: &mut fmt::Formatter<W>) -> fmt::Result {
        let (version, socket, sessions) = (self.version, self.socket, self.sessions);
        let second = Second { look: self.look };
        match self.mode {
            Some(mode) => write!(
                f,
                "{version} listens at {socket} (mode 0{mode:o}, {sessions} sessions){second}"
            ),
            None => write!(
                f,
                "{version} listens at {socket} ({sessions} sessions){second}"
            ),
        }
    }
}

impl Listening<'_> {
    /// Writes the line, as [`Fault::tell`] does.
    pub fn tell<W: Write>(self, alloc: Global, out: &mut W) -> io::Result<()>
        ensures { OnOk result (Appends (W.contents out.old) (W.contents out.new)
            (line_with (listening_text self.entry.version.now self.entry.socket.now self.entry.mode
            self.entry.sessions self.entry.look))) }
    {
        tell_line(alloc, &self, out)
    }
}
