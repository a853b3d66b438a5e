//! The desk of one thread: a session over records of its own.
//!
//! The replies of a [`LocalDesk`] are determined by the requests, by which texts are patterns, and by whether memory
//! runs out. The layers above use it for input that is served alone, such as a script.
#![tactic(auto)]

mod local_desk;

pub use hub_requests::{Desk, Enter, Name, Names, Numbers, PatternText, Refusal, Reply, Request};
pub use local_desk::LocalDesk;
