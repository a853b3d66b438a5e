//! A fifodir that threads share: a record of numbered events behind a lock, and its status readable without the lock.
//!
//! Publishers add messages and tickets take events, each call under the one lock. A publisher or a ticket is a *pass*.
//! What a pass knows is its seen list: the record at the moment of its latest step. Contracts speak only of seen lists,
//! since other threads may change the record at any time. Two passes that meet have seen the same list.
//! Only `publisher` and `subscribe` make passes. They ask for a runtime that is [`Enter`], as `usage` does, which makes none. The
//! other calls don't.
//!
//! A ticket gets every event from its mark on. If the slowest ticket leaves no room, the policy says what gives way. With Hold,
//! `publish` is refused as `Full`, nothing is lost, and the publisher retries. With Evict the ticket is evicted, and each take
//! of it reports `Evicted`. After a close nothing is added. A ticket that isn't evicted can still take what is pending; after
//! that a take reports `End`.
//!
//! `status` and `front` read one word without the lock, so a reader of the status never waits for a publisher.
//!
//! Who waits for a change is counted as a [`Waiter`], and sleeps at the fifodir's [`Bell`], which rings after each change. It
//! hears the bell, looks, and pauses, in this order: each asks for what the one before it gave. If nobody waits, a publish
//! asks the kernel for nothing. Of waking nothing is proved, so a waiter also looks by itself at times.
#![tactic(auto)]

mod awaiting;
mod bell;
mod fifodir;
pub mod laws;
mod locked;
mod pass;
mod pause;
mod publisher;
mod rule;
mod steps;
mod ticket;
pub mod together;
mod usage;
mod views;
pub mod word;

pub use bell::{Bell, Heard, Looked, Waiter};
pub use fifodir::Fifodir;
pub use hub_record::{Enter, Status};
pub use locked::Locked;
pub use pass::Pass;
pub use pause::{Go, Pause};
pub use publisher::Publisher;
use thiserror::Error;
pub use ticket::Ticket;
pub use usage::Usage;

/// Why there is no new publisher. If several reasons hold, the first in this order is reported.
#[derive(Clone, Copy, Debug, PartialEq, Eq, Error)]
pub enum PassError {
    /// [`MOST_PASSES`](hub_record::MOST_PASSES) publishers are current. There is room again after one of them leaves.
    #[error("too many publishers")]
    Many,
    /// The last number was given. A number is never given again.
    #[error("no number is left")]
    Spent,
    /// There was no memory to record the publisher. The same call may succeed later.
    #[error("out of memory")]
    Memory,
}
