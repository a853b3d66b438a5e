//! What serving sessions comes to: the [`Report`] of their results, or why they couldn't be served.
//!
//! That a thread couldn't be started is told by a [`NoThread`], which only [`spawn`] and [`spawn_with`] make. So whoever starts the
//! threads of sessions does it by these.
#![tactic(auto)]

mod report;
mod spawning;

pub use report::{Report, ServeError};
pub use spawning::{NoThread, STACK_SIZE, spawn, spawn_with};
