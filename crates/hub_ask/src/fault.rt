//! Why a request has no outcome.

ghost use Rattle.std.specs.Prelude.{◌≡◌, Some};
ghost use Rattle.hub_client.specs.declared.fault.RelayError.TheVariants as relay;
ghost use Rattle.hub_ask.specs.declared.fault.AskError.TheVariants as ask;

use hub_client::RelayError;
use std::alloc::AllocError;
use std::error::Error;
use std::fmt;

/// Why a request has no outcome.
#[derive(Clone, Copy, Debug, PartialEq, Eq)]
pub enum AskError {
    /// A stream failed, the peer's stream ended before the LF of a reply, or memory ran out.
    Relay(RelayError),
    /// No reply came in time, or the peer didn't take the request in time.
    NoAnswer,
    /// The line is no reply of a hub to this request, or is longer than any reply of one.
    Unknown,
    /// A request has a line feed, so it wasn't sent.
    Words,
}

impl From<RelayError> for AskError {
    ghost from_gives = { λ error it. it ≡ ask.Relay error };

    fn from(error: RelayError) -> AskError {
        AskError::Relay(error)
    }
}

impl From<AllocError> for AskError {
    ghost from_gives = { λ _ it. it ≡ ask.Relay relay.Memory };

    fn from(_error: AllocError) -> AskError {
        AskError::Relay(RelayError::Memory)
    }
}

impl fmt::Display for AskError {
    ghost use Rattle.hub_ask.specs.Faults.{ask_text};

    ghost output = { λ fault. Some (ask_text fault) };

    fn fmt<W: fmt::Write>(&self, f: &mut fmt::Formatter<W>) -> fmt::Result {
        match self {
            AskError::Relay(error) => write!(f, "{error}"),
            AskError::NoAnswer => f.write_str("no answer"),
            AskError::Unknown => f.write_str("unknown reply"),
            AskError::Words => f.write_str("a word has a line feed"),
        }
    }
}

impl Error for AskError {}
