//! The desks of a hub: what a client may ask, and the two desks that answer.
//!
//! A [`LocalDesk`] answers one session by itself. A [`SharedDesk`] is one of many sessions over a [`Hub`]. Both answer a
//! [`Request`] with a [`Reply`], as [`Desk`] says. The items come from `hub_requests`, `hub_local` and `hub_shared`.
#![tactic(auto)]

pub use hub_local::LocalDesk;
pub use hub_requests::{
    Desk, Enter, Excerpt, Listing, Name, Names, Numbers, PatternText, Refusal, Reply, Request,
};
pub use hub_shared::{Found, Hub, HubError, SharedDesk};
