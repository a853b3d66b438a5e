//! How long a listener listens, and how much it gathers.

/// The most letters that a listener gathers without a hit. A hit has at most so many letters.
pub const MOST_GATHERED: usize = 4_096;

/// Whether a listener goes on after a hit.
#[derive(Clone, Copy, Debug, PartialEq, Eq)]
pub enum Mode {
    /// The listener has one hit, and is spent from then on.
    Once,
    /// The listener gathers from scratch after each hit.
    Repeat,
}
