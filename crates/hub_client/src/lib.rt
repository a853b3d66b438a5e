//! The client's side: sends lines to a peer, and writes the peer's reply lines.
//!
//! [`relay`] sends a line of the input with its LF. Then it reads one line of the peer's stream and writes it, before
//! it sends the next line. So the replies come in the order of the lines, and a peer that answers each line is never
//! ahead and at most one line behind.
//!
//! Lines and replies may have any length. Their bytes pass through two buffers of [`CHUNK`](hub_io::CHUNK) bytes. What a
//! read gave beyond the end of a line stays in its buffer for the next line.
//!
//! A line is sent piece by piece, as it comes. A reply is written once its LF has come, so a peer whose stream ends
//! within a reply can't make `yes 12` look like `yes 1`. A reply that is longer than the buffer is written in pieces:
//! each is a full buffer, and the last piece is written once its LF has come.
#![tactic(auto)]

mod buffer;
mod fault;
mod passing;
mod relaying;

pub use fault::RelayError;
pub use relaying::relay;
