//! What the program does: [`run`] has the words of its command line read, and does what they say.
//!
//! The subcommands are those of other crates: `serve` of `hub_serving`, `call` of `hub_dialing`, `script` of `hub_script`, and the others
//! of `hub_commands`. `hub_serving` and `hub_commands` are proved side by side.
#![tactic(auto)]

mod running;
mod streams;

pub use hub_requests::Enter;
pub use running::run;
