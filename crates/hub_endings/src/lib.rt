//! Why and how the program ends: with which status, and with which lines on standard error.
//!
//! A [`Fault`] ends the program, or a session of it, and has a line. An [`Ending`] is why a subcommand has no status: [`BadWords`], a
//! report of sessions that stopped, a hub that is [`Unreached`], or a [`Fault`]. [`end_status`] is the exit status then, and [`tell_end`]
//! writes the lines; those of a report are written by [`tell_faults`]. [`Notes`] writes lines while a subcommand runs.
//!
//! A [`LookFault`] is one of the hub's second socket, at which sessions only look. A [`HubLine`] is what a hub that lives says while it
//! goes on, a [`TroubleAt`] what it says of one of its fifodirs, and [`Listening`] that it listens.
#![tactic(auto)]

mod ending;
mod fault;
mod hub_line;
mod line;
mod listen_fault;
mod listening;
mod look_fault;
mod notes;
mod reach_fault;
mod refused_line;
mod stop_cause;
mod stopped;
mod trouble;
mod words;

pub use ending::{BadWords, Ending, end_status, tell_end};
pub use fault::Fault;
pub use hub_line::HubLine;
pub use listen_fault::ListenFault;
pub use listening::{Listening, LookListening};
pub use look_fault::LookFault;
pub use notes::Notes;
pub use reach_fault::{ReachFault, Unreached};
pub use refused_line::RefusedLine;
pub use stop_cause::StopCause;
pub use stopped::tell_faults;
pub use trouble::{Trouble, TroubleAt};
pub use words::{any_breaks, breaks, limit_of};
