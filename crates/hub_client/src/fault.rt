//! Why a relay stopped.

ghost use Rattle.std.specs.Prelude.{◌≡◌, Some};
ghost use Rattle.hub_client.specs.Faults.{sending, receiving};

use hub_io::FrontError;
use std::error::Error;
use std::fmt;

/// Why a relay stopped before the end of its input.
#[derive(Clone, Copy, Debug, PartialEq, Eq)]
pub enum RelayError {
    /// A read of the input failed.
    Input,
    /// A write to the output failed, or took no byte.
    Output,
    /// A write to the peer failed, or took no byte.
    Send,
    /// A read of the peer's stream failed. If a reply was unfinished, it wasn't written, as at `Ended`.
    Receive,
    /// The peer's stream ended before the LF of a reply. The unfinished reply wasn't written, except for the whole
    /// buffers that it filled.
    Ended,
    /// [`MAX_READS`](hub_io::MAX_READS) reads were made, of the input and the peer's stream together, and more were
    /// needed. If a reply was unfinished, it wasn't written, as at `Ended`.
    Turns,
    /// There was no memory for the two buffers.
    Memory,
}

impl fmt::Display for RelayError {
    ghost use Rattle.hub_client.specs.Faults.{relay_text};

    ghost output = { λ fault. Some (relay_text fault) };

    fn fmt<W: fmt::Write>(&self, f: &mut fmt::Formatter<W>) -> fmt::Result {
        match self {
            RelayError::Input => write!(f, "{}", FrontError::Read),
            RelayError::Output => write!(f, "{}", FrontError::Write),
            RelayError::Send => f.write_str("send failed"),
            RelayError::Receive => f.write_str("receive failed"),
            RelayError::Ended => f.write_str("connection ended"),
            RelayError::Turns => write!(f, "{}", FrontError::Turns),
            RelayError::Memory => write!(f, "{}", FrontError::Memory),
        }
    }
}

impl Error for RelayError {}

// The error for a fault between the input and the peer.
pub(crate) fn of_sending(fault: FrontError) -> RelayError
    ensures { result ≡ sending fault }
{
    match fault {
        FrontError::Read => RelayError::Input,
        FrontError::Write => RelayError::Send,
        FrontError::Turns => RelayError::Turns,
        FrontError::Memory => RelayError::Memory,
    }
}

// The error for a fault between the peer and the output.
pub(crate) fn of_receiving(fault: FrontError) -> RelayError
    ensures { result ≡ receiving fault }
{
    match fault {
        FrontError::Read => RelayError::Receive,
        FrontError::Write => RelayError::Output,
        FrontError::Turns => RelayError::Turns,
        FrontError::Memory => RelayError::Memory,
    }
}
