//! Why a session stopped.

ghost use Rattle.std.specs.Prelude.{◌≡◌, Some};
ghost use Rattle.hub_io.specs.declared.fault.FrontError.TheVariants.{Memory};

use std::alloc::AllocError;
use std::error::Error;
use std::fmt;

/// Why a session stopped before the end of its input, or a relay before its end.
#[derive(Clone, Copy, Debug, PartialEq, Eq)]
pub enum FrontError {
    /// A read failed.
    Read,
    /// A write failed, or took no byte.
    Write,
    /// [`MAX_READS`](crate::MAX_READS) reads were made, and the input hasn't ended.
    Turns,
    /// There was no memory for the session's own buffers.
    Memory,
}

impl From<AllocError> for FrontError {
    ghost from_gives = { λ _ fault. fault ≡ Memory };

    fn from(_error: AllocError) -> FrontError {
        FrontError::Memory
    }
}

impl fmt::Display for FrontError {
    ghost use Rattle.hub_io.specs.Faults.{fault_text};

    ghost output = { λ fault. Some (fault_text fault) };

    fn fmt<W: fmt::Write>(&self, f: &mut fmt::Formatter<W>) -> fmt::Result {
        match self {
            FrontError::Read => f.write_str("read failed"),
            FrontError::Write => f.write_str("write failed"),
            FrontError::Turns => f.write_str("too many reads"),
            FrontError::Memory => f.write_str("out of memory"),
        }
    }
}

impl Error for FrontError {}
