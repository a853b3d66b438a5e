//! Why a session of a hub that lives stopped.
ghost use Rattle.std.specs.Prelude.{◌≡◌, Some};
ghost use Rattle.hub_endings.specs.HubLines.{stop_cause};

use hub_io::FrontError;
use std::fmt;

/// Why a session of a hub that lives stopped.
#[derive(Clone, Copy, Debug, PartialEq, Eq)]
pub enum StopCause {
    /// A read failed.
    Read,
    /// A write failed, or took no byte.
    Write,
    /// It made too many reads.
    Turns,
    /// There was no memory for its own buffers.
    Memory,
    /// Its client sent no whole line for too long.
    Silent,
    /// Its client took no whole reply for too long.
    Deaf,
}

impl StopCause {
    /// Why a session stopped with this error. `timed_out` says whether a call on its connection took too long.
    pub fn of(error: FrontError, timed_out: bool) -> StopCause
        ensures { result ≡ stop_cause error timed_out }
    {
        match error {
            FrontError::Read if timed_out => StopCause::Silent,
            FrontError::Write if timed_out => StopCause::Deaf,
            FrontError::Read => StopCause::Read,
            FrontError::Write => StopCause::Write,
            FrontError::Turns => StopCause::Turns,
            FrontError::Memory => StopCause::Memory,
        }
    }
}

impl fmt::Display for StopCause {
    ghost use Rattle.hub_endings.specs.HubLines.{cause_text};

    ghost output = { λ it. Some (cause_text it) };

    fn fmt<W: fmt::Write>(&self, f: &mut fmt::Formatter<W>) -> fmt::Result {
        f.write_str(match self {
            StopCause::Read => "could not read from its client",
            StopCause::Write => "its client left before it read its reply",
            StopCause::Turns => "too many reads",
            StopCause::Memory => "out of memory",
            StopCause::Silent => "no whole line came (--idle)",
            StopCause::Deaf => "its reply was not taken (--idle)",
        })
    }
}
