//! The answers of a listener to a piece of letters.
use thiserror::Error;

/// The answer to a piece of letters.
#[derive(Clone, Copy, Debug, PartialEq, Eq)]
pub enum Feed {
    /// The listener is spent: in mode `Once` it had its hit before.
    Spent,
    /// A hit. This many letters of the piece completed it; the rest of the piece wasn't used.
    Hit(usize),
    /// There is no hit, and the whole piece is gathered.
    Quiet,
}

/// Why a piece was refused. The listener hasn't changed.
#[derive(Clone, Copy, Debug, PartialEq, Eq, Error)]
pub enum FeedError {
    /// There is no hit, and the gathered letters and the piece together are more letters than a listener gathers.
    #[error("more letters than a listener gathers")]
    Overlong,
    /// The search ran out of memory. No piece is answered so, since all room is made with the listener.
    #[error("out of memory")]
    Memory,
}
