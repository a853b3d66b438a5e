//! How the program ends, if no reply says so.
ghost use Rattle.std.specs.Prelude.{◌≡◌, OnOk, Some};
ghost use Rattle.std.specs.Io.KnownBytes.{Appends};
ghost use Rattle.hub_endings.specs.Endings.{exit_status, last_lines};
ghost use Rattle.hub_endings.specs.declared.ending.Ending.TheVariants.{Failed};
ghost use Rattle.hub_endings.specs.declared.fault.Fault.TheVariants as fault;

use crate::fault::Fault;
use crate::line::tell_line;
use crate::reach_fault::Unreached;
use crate::stopped::tell_faults;
use hub_ask::AskError;
use hub_io::FrontError;
use hub_reports::Report;
use std::alloc::{AllocError, Global};
use std::io::Write;
use std::{fmt, io};

/// Why the words of a command line are refused, though they are a plan. Its text is the line on standard error.
#[derive(Debug, Drop, PartialEq, Eq)]
pub enum BadWords {
    /// An argument isn't UTF-8.
    NotText,
    /// They need a socket and name none, and none can be derived.
    NoSocket,
    /// A word has a line feed.
    Word,
    /// A name has a line feed.
    Name,
    /// A text isn't a name that a fifodir may have.
    NotName,
    /// There are more names than one wait may have, or their line is too long.
    Many,
    /// This text is no duration, or one that is too long.
    Duration(String),
    /// A wait for a restart is one wait of the hub, and may not be longer than that.
    Restart,
}

impl fmt::Display for BadWords {
    ghost use Rattle.hub_endings.specs.BadWords.{bad_text};

    ghost output = { λ it. Some (bad_text it) };

    fn fmt<W: fmt::Write>(&self, f: &mut fmt::Formatter<W>) -> fmt::Result {
        f.write_str(match self {
            BadWords::NotText => "an argument is not UTF-8",
            BadWords::NoSocket =>
                "no socket: name one by --socket PATH or FTRIGHUB_SOCKET, or set XDG_RUNTIME_DIR",
            BadWords::Word => "a word has a line feed",
            BadWords::Name => "a name has a line feed",
            BadWords::NotName => "a name has 1 to 32 letters, digits, _, . or -",
            BadWords::Many => "too many names for one wait",
            BadWords::Duration(text) => {
                return write!(
                    f,
                    "\"{text}\" is no duration, such as 500ms, 0.5s, 90, 2m or 1h, up to 1000h"
                );
            }
            BadWords::Restart => "a wait for a restart takes 1000s at most",
        })
    }
}

/// Why the program ends, if no reply says so.
#[derive(Debug, Drop)]
pub enum Ending {
    /// The words are refused, and nothing was done.
    Refused(BadWords),
    /// A session of `serve` stopped, or an accept failed.
    Stopped(Report),
    /// The hub that was to be asked couldn't be reached.
    Unreached(Unreached),
    /// A fault came before it was done.
    Failed(Fault),
}

/// Writes a line for each thing that went wrong, if something did.
pub fn tell_end<W: Write>(alloc: Global, ended: &Result<u8, Ending>, out: &mut W) -> io::Result<()>
    ensures { OnOk result (Appends (W.contents out.old) (W.contents out.new)
        (last_lines ended.now)) }
{
    match ended {
        Ok(_) => Ok(()),
        Err(Ending::Refused(words)) => writeln!(out, "ftrighub: {words}"),
        Err(Ending::Stopped(report)) => tell_faults(alloc, report, out),
        Err(Ending::Unreached(hub)) => tell_line(alloc, hub, out),
        Err(Ending::Failed(fault)) => fault.tell(alloc, out),
    }
}

/// The exit status: the one that a subcommand returned, 2 if the words were refused, or 1 after a fault.
pub fn end_status(ended: &Result<u8, Ending>) -> u8
    ensures { result ≡ exit_status ended.now }
{
    match ended {
        Ok(status) => *status,
        Err(Ending::Refused(_)) => 2,
        Err(Ending::Stopped(_) | Ending::Unreached(_) | Ending::Failed(_)) => 1,
    }
}

impl From<Fault> for Ending {
    ghost from_gives = { λ error it. it ≡ Failed error };

    fn from(error: Fault) -> Ending {
        Ending::Failed(error)
    }
}

impl From<AllocError> for Ending {
    ghost from_gives = { λ _ it. it ≡ Failed fault.Memory };

    fn from(_error: AllocError) -> Ending {
        Ending::Failed(Fault::Memory)
    }
}

impl From<FrontError> for Ending {
    ghost from_gives = { λ error it. it ≡ Failed (fault.Script error) };

    fn from(error: FrontError) -> Ending {
        Ending::Failed(Fault::Script(error))
    }
}

impl From<AskError> for Ending {
    ghost from_gives = { λ error it. it ≡ Failed (fault.Ask error) };

    fn from(error: AskError) -> Ending {
        Ending::Failed(Fault::Ask(error))
    }
}
