//! What a hub says of a fifodir.

use hub_record::Status;
use hub_requests::About;

/// What a hub says of a fifodir.
#[derive(Clone, Copy)]
pub struct Description {
    /// What it is, and how much was there before its status was asked for: that makes a session one of its publishers.
    pub about: About,
    /// How it is.
    pub status: Status,
}
