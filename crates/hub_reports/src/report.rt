//! The results of serving.
ghost use Rattle.std.specs.Prelude.{◌≡◌, ◌↔◌, IsTrue, All, IsOk, Some, false};
ghost use Rattle.hub_reports.specs.declared.report.ServeError.TheVariants.{Memory, Spawn};

use crate::spawning::NoThread;
use hub_io::FrontError;
use std::alloc::AllocError;
use std::error::Error;
use std::fmt;

/// The results of all sessions.
#[derive(Debug, Drop)]
pub struct Report {
    /// The result of each session, in the gate's order: its number of lines, or why it stopped.
    pub results: Vec<Result<u64, FrontError>>,
    /// Whether the gate failed, after the last of them.
    pub gate_failed: bool,
}

impl Report {
    /// Whether there was no fault: every session ended with its input, and the gate didn't fail.
    pub fn is_clean(&self) -> bool
        ensures { IsTrue result ↔ (All IsOk self.now.results.items
            × (self.now.gate_failed ≡ false)) }
    {
        self.results.iter().all(|ended| ended.is_ok()) && !self.gate_failed
    }
}

/// Why the serving of sessions failed. All sessions that were started have ended by then.
#[derive(Clone, Copy, Debug, PartialEq, Eq)]
pub enum ServeError {
    /// A thread couldn't be started.
    Spawn(NoThread),
    /// Memory ran out, before the first session, for one more session, or for the results.
    Memory,
}

impl fmt::Display for ServeError {
    ghost use Rattle.hub_reports.specs.Reports.{serve_text};

    ghost output = { λ fault. Some (serve_text fault) };

    fn fmt<W: fmt::Write>(&self, f: &mut fmt::Formatter<W>) -> fmt::Result {
        match self {
            ServeError::Spawn(_) => f.write_str("cannot start a session"),
            ServeError::Memory => write!(f, "{}", FrontError::Memory),
        }
    }
}

impl Error for ServeError {}

impl From<NoThread> for ServeError {
    ghost from_gives = { λ refused error. error ≡ Spawn refused };

    fn from(refused: NoThread) -> ServeError {
        ServeError::Spawn(refused)
    }
}

impl From<AllocError> for ServeError {
    ghost from_gives = { λ _ error. error ≡ Memory };

    fn from(_: AllocError) -> ServeError {
        ServeError::Memory
    }
}
