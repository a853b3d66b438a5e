//! The fifodirs of a hub by name, and what a session keeps of those that it found.
//!
//! A [`Hub`] has the fifodirs that sessions share. [`Fifodirs`] is what one session found there: each fifodir under the name
//! that it was found by, with the session's publisher there once that was made. The publisher answers `pub`, `close` and
//! `status`, so what the session is told is what its own publisher has seen.
//!
//! A publisher that nobody ends would keep its place among those of its fifodir. So [`Fifodirs`] isn't `Drop`: `leave`
//! and `release` end what it keeps, and code that drops it doesn't compile.
#![tactic(auto)]

mod fifodirs;
mod hub;
mod joined;
mod last_word;

pub use fifodirs::Fifodirs;
pub use hub::{Found, Hub, HubError, Made, NamesChange, NamesLook};
