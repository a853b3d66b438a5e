//! One caller of each library crate. Each module is the example of a crate's README, and `tests/callers` compares the two.
#![tactic(auto)]

pub mod arguments;
pub mod ask;
pub mod client;
pub mod commands;
pub mod desk;
pub mod dialing;
pub mod endings;
pub mod fakes;
pub mod fifodir;
pub mod front;
pub mod gather;
pub mod handles;
pub mod io;
pub mod letters;
pub mod library;
pub mod listen;
pub mod local;
pub mod look;
pub mod names;
pub mod options;
pub mod place;
pub mod protocol;
pub mod record;
pub mod reports;
pub mod requests;
pub mod rights;
pub mod running;
pub mod script;
pub mod server;
pub mod serving;
pub mod shared;
pub mod showing;
pub mod views;
pub mod wait;
