//! What a session may do: desks that stand before another one.
//!
//! An [`Onlooker`] only looks: it lets no request through that changes something and, but for a `wait`, none that may hold a publisher up. A [`Limited`] desk
//! makes at most so many fifodirs. Each is a [`Desk`](hub_requests::Desk) over any other, and can touch that one only by asking it.
#![tactic(auto)]

mod asking;
mod laws;
mod limited;
mod onlooker;

pub use hub_requests::{Desk, Enter};
pub use laws::{looks_leave_records, onlookers_only_look, sessions_keep_their_share};
pub use limited::Limited;
pub use onlooker::Onlooker;
