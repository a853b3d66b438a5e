//! What a session holds at a hub's fifodirs, by handle.
//!
//! [`Handles`] has a session's subscriptions and listeners, numbered in one sequence, each number given once. A
//! subscription takes events by the ticket that its fifodir gave it, and a listener hears them letter by letter. What
//! either is answered is told by what its own ticket has seen of the fifodir's record.
//!
//! A subscription that nobody ends would hold publishers up for ever. So nothing here is `Drop`: `cancel`, `end` and `release`
//! end what they take, and code that drops a subscription or a listener doesn't compile.
#![tactic(auto)]

mod handles;
mod room;
mod session_listener;
mod subscription;

pub use handles::Handles;
