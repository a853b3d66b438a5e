//! Fakes for tests. Readers and writers over memory give and take few bytes at a time, and fail at a call that the test
//! chooses. A pause lets other threads run.
#![tactic(auto)]

mod pauses;
mod readers;
mod writers;

pub use pauses::Yielding;
pub use readers::{Dripping, Endless};
pub use writers::{Narrow, Stuck};
