//! What a make or a hold may be told.

use hub_letters::State;
use hub_record::{Kind, Policy};
use hub_requests::Will;

/// What fifodirs are to be.
#[derive(Clone, Copy, Debug, PartialEq, Eq)]
pub struct Shape {
    /// Whether it takes any letters, or those of a service in their lawful order.
    pub kind: Kind,
    /// Whether it is a service's, and the service reports its readiness.
    pub notifies: bool,
    /// How many events may be pending for a subscription.
    pub waiting: u64,
    /// How many events it takes in its life.
    pub total: u64,
    /// What happens if more events would be pending than may be.
    pub policy: Policy,
}

/// What is held of a service.
#[derive(Clone, Copy, Debug, PartialEq, Eq)]
pub struct Hold<'a> {
    /// The service.
    pub name: &'a str,
    /// Where it is to be told to be when the session ends.
    pub will: Will,
    /// Where it is said to be at the beginning, if that is said.
    pub told: Option<State>,
}
