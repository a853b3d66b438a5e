//! What the words of the command line may tell a subcommand, as types.
//!
//! `hub_arguments` reads the words as these, and the subcommands take them. So no subcommand waits for what reads the words.
#![tactic(auto)]

mod asking;
mod changing;
mod serving;
mod version;

pub use asking::{Follow, Wish};
pub use changing::{Hold, Shape};
pub use serving::{
    HubOptions, LEAST_WITH_LOOK, LookOptions, MOST_CLIENTS, MOST_DESCRIPTOR, MOST_IDLE, MOST_MADE,
};
pub use version::VERSION;
