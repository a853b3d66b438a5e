//! The subcommands of clients that ask for something. (Those that only look are in `hub_showing`.)
//!
//! [`ask_words`], [`make_fifodirs`], [`tell_state`], [`hold_as_told`] and [`wait_as_told`] each make one connection by a
//! [`Dial`](hub_dialing::Dial), and none if their words are refused.
//!
//! They return the exit status, or an [`Ending`](hub_endings::Ending).
#![tactic(auto)]

mod asking;
mod hinting;
mod holding;
mod making;
mod missing;
mod noting;
mod requesting;
mod saying;
mod shaping;
mod telling;
mod waiting;

pub use asking::ask_words;
pub use holding::hold_as_told;
pub use hub_options::Hold;
pub use making::make_fifodirs;
pub use telling::tell_state;
pub use waiting::wait_as_told;
