//! What a fifodir is, and how much is there.

use hub_record::{Kind, Policy};

/// What a fifodir is, and how much is there at one moment.
#[derive(Clone, Copy, Debug, PartialEq, Eq)]
pub struct About {
    /// Whether it takes any letters, or those of a service in their lawful order.
    pub kind: Kind,
    /// Whether it is a service's, and the service reports its readiness.
    pub notifies: bool,
    /// How many events may be pending for the slowest subscription.
    pub waiting: u64,
    /// How many events it takes in its life.
    pub total: u64,
    /// What happens if more events would be pending than may be.
    pub policy: Policy,
    /// How many subscriptions are neither cancelled nor evicted.
    pub subscriptions: u64,
    /// How many publishers there are.
    pub publishers: u64,
    /// How many events are pending for the slowest of these subscriptions.
    pub pending: u64,
}
