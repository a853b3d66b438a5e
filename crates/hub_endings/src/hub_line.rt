//! The lines of a hub that lives.
ghost use Rattle.std.specs.Prelude.{OnOk, Some};
ghost use Rattle.std.specs.Io.KnownBytes.{Appends};
ghost use Rattle.hub_endings.specs.Faults.{line_with};
ghost use Rattle.hub_endings.specs.HubLines.{hub_text};

use crate::fault::Fault;
use crate::line::tell_line;
use crate::stop_cause::StopCause;
use std::alloc::Global;
use std::io::Write;
use std::{fmt, io};

/// What a hub that lives says while it goes on. Its text is a line of the hub's log.
#[derive(Clone, Copy, Debug, PartialEq, Eq)]
pub enum HubLine {
    /// A session stopped, so many seconds after it began, and after so many lines of its client. Sessions are numbered from 1, in the
    /// order in which they were accepted.
    Stopped {
        number: u64,
        seconds: u64,
        lines: u64,
        cause: StopCause,
    },
    /// So many sessions stopped besides, and aren't told one by one.
    More {
        sessions: u64,
    },
    /// So many wills of sessions couldn't be carried out: their fifodirs had no room for a minute, or take no more events.
    Wills {
        wills: u64,
    },
    /// So many sessions are all that there may be at the same time, and a client waits for one.
    Full {
        sessions: u64,
    },
    /// No session is free for a client of the second socket, and one waits there.
    LookFull,
    /// The socket's file was removed, and is back.
    Restored,
    /// The file of the second socket was removed, and is back.
    LookRestored,
    /// This failed, and is tried again.
    Failed(Fault),
}

impl fmt::Display for HubLine {
    ghost output = { λ it. Some (hub_text it) };

    fn fmt<W: fmt::Write>(&self, f: &mut fmt::Formatter<W>) -> fmt::Result {
        match self {
            HubLine::Stopped {
                number,
                seconds,
                lines,
                cause,
            } => write!(
                f,
                "session {number} stopped after {seconds} s (lines: {lines}): {cause}"
            ),
            HubLine::More { sessions } => write!(f, "{sessions} more sessions stopped"),
            HubLine::Wills { wills } => write!(f, "{wills} wills not carried out"),
            HubLine::Full { sessions } => write!(
                f,
                "all {sessions} sessions are taken, and clients wait"
            ),
            HubLine::LookFull => {
                f.write_str("no session is free for those who only look, and clients wait")
            }
            HubLine::Restored => f.write_str("socket file restored"),
            HubLine::LookRestored => f.write_str("socket file restored (--look)"),
            HubLine::Failed(fault) => write!(f, "{fault}"),
        }
    }
}

impl HubLine {
    /// Writes the line, as [`Fault::tell`] does.
    pub fn tell<W: Write>(self, alloc: Global, out: &mut W) -> io::Result<()>
        ensures { OnOk result (Appends (W.contents out.old) (W.contents out.new)
            (line_with (hub_text self))) }
    {
        tell_line(alloc, &self, out)
    }
}
