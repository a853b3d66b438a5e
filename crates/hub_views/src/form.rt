//! How a letter or a hit is written.

/// How a letter or a hit is written: on a line of its own.
#[derive(Clone, Copy, Debug, PartialEq, Eq)]
pub enum Form {
    /// With its time and its name. A letter has its number besides, and what it says of a service.
    Line,
    /// Nothing but the letters.
    Plain,
    /// The same as in a line, as an object of JSON.
    Json,
}
