//! The bytes of a session: where they come from, where they go, and why they may stop.
//!
//! A [`Source`] is a reader and a [`Sink`] is a writer. Contracts can count their faults, and a call that fails because
//! a signal interrupted it is retried. [`write_whole`] writes a line or a reply whole, or reports that it failed.
//! [`first_line`] cuts bytes at the end of a line. A [`Client`] is who has the other end of a connection.
#![tactic(auto)]

mod again;
mod client;
mod cutting;
mod fault;
mod reading;
mod sink;
mod source;
mod writing;

pub use client::Client;
pub use cutting::first_line;
pub use fault::FrontError;
pub use reading::{CHUNK, MAX_READS, new_chunk};
pub use sink::Sink;
pub use source::Source;
pub use writing::write_whole;
