//! The client's side of a hub: it asks for one thing after the other, and the reply says how it went.
//!
//! A [`Client`] has the two streams of a connection. [`Client::ask`] sends a request, and gives the reply that came as [`Heard`]. [`ask`]
//! is for people and scripts: it sends one [`Line`] of words, and writes the reply line. The [`Outcome`] is that of the reply, and has
//! the exit status. A peer whose line is no reply of a hub is none: that is an [`AskError`], as is a fault of a stream.
//!
//! The peer's stream is read until the LF of the reply, and nothing of a reply is written before its LF has come. [`halves`] of a
//! connection end by a [`Deadline`], and take no more of a reply than the longest of a hub has.
#![tactic(auto)]

mod asking;
mod bounded;
mod client;
mod deadline;
mod duration;
mod exchanging;
mod fault;
mod heard;
mod line;
mod notes;
mod noting;
mod outcome;
mod peer;
mod state;
mod timed;
mod waiting;

pub use asking::ask;
pub use bounded::Bounded;
pub use client::Client;
pub use deadline::Deadline;
pub use duration::{MOST_MILLIS, millis_of, turns_asked, turns_of_request};
pub use exchanging::{ANSWER, exchange};
pub use fault::AskError;
pub use heard::Heard;
pub use line::Line;
pub use noting::{note, note_on, write_note};
pub use outcome::Outcome;
pub use peer::{Halt, Replies, Requests};
pub use state::State;
pub use timed::{Timed, halves};
pub use waiting::{Delay, GRACE, delay_of, end_wait, wait_line};
