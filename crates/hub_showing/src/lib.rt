//! The subcommands of clients that only look.
//!
//! [`show_status`] makes one connection by a [`Dial`](hub_dialing::Dial), and [`follow_as_told`] one after another. Neither makes any if
//! its words are refused. They return the exit status, or an [`Ending`](hub_endings::Ending).
#![tactic(auto)]

mod following;
mod showing;

pub use following::follow_as_told;
pub use showing::show_status;
