//! One local session: a reader's lines, answered by a desk of its own.
//!
//! [`script`] serves the lines of a reader until they end. It is proved that its output is a function of its input: of
//! the bytes, and of which texts in its `listen` lines are patterns.
#![tactic(auto)]

mod scripting;

pub use hub_requests::Enter;
pub use scripting::{input_has_one_output, script};
