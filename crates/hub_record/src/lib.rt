//! The record of a fifodir, as a value without threads: numbered events, and a cursor for each subscription.
//!
//! In s6 a fifodir is a directory in which a notifier meets its listeners. Each listener has a named pipe there, and
//! `s6-ftrig-notify` writes each letter of a message to every pipe (s6's pages "fifodir" and "s6-ftrig-notify"). Here
//! the meeting point is a value: one list of numbered events, and for each subscription a cursor, the number of the
//! event that it takes next.
//!
//! **Delivery.** The mark of a subscription is the number of events that there were when it subscribed. A subscription
//! gets the events from its mark on, each once and in order, and no earlier event.
//!
//! **A slow subscriber.** A pipe that nobody reads loses letters silently. Here a ring that is made with the record keeps
//! the events that are pending, and the record's policy says what happens if a message doesn't fit. With `Policy::Hold` no
//! event is dropped that is pending for a subscription: the message is refused whole (`PubError::Full`), and there is
//! room again after the slowest subscription takes or is cancelled. With `Policy::Evict` the slowest subscriptions give
//! way: they are evicted, and each take of one reports `Taken::Evicted`. So no subscription gets a list with a hole that
//! looks whole. If no subscription is active nothing is kept, and no message is too long for the ring.
//!
//! **Closing.** A closed record takes no event and no subscription any more. Unless a subscription is evicted, it can still
//! take the events that are pending; after them a take reports `Taken::End`.
//!
//! Each call is the model's call on one list of all events (`specs/World.antt`). `specs/Kept.antt` says when a record
//! represents a world of the model.
#![tactic(auto)]

mod backlog;
mod counts;
mod cursor_list;
mod ends;
mod enter;
pub mod laws;
mod letters;
mod limits;
mod record;
mod ring;
mod runs;

pub use enter::Enter;
use hub_letters::{Flags, Letter};
pub use letters::Letters;
pub use limits::{Limits, MOST_EVENTS, MOST_IDS, MOST_PASSES, MOST_WAITING, Policy};
pub use record::Record;
pub use runs::{Call, Said, World, replay};
use thiserror::Error;

/// A letter with the number of its publisher.
#[derive(Clone, Copy, Debug, PartialEq, Eq)]
pub struct Event {
    /// The number of the publisher.
    pub who: u64,
    /// Its letter.
    pub letter: Letter,
}

impl Event {
    /// An event that fills a slice before events are taken into it.
    pub const FILLER: Event = Event {
        who: 0,
        letter: Letter::LEAST,
    };
}

/// Which letters a record takes.
#[derive(Clone, Copy, Debug, PartialEq, Eq)]
pub enum Kind {
    /// Any letters in any order, as in a fifodir that a user makes by `s6-mkfifodir`.
    Plain,
    /// The letters of a service in the order in which `s6-supervise` sends them to the service's event directory.
    Service,
}

/// The answer to a take.
#[derive(Clone, Copy, Debug, PartialEq, Eq)]
pub enum Taken {
    /// This many events fill the beginning of the slice. It is 0 if the slice is empty and events are pending.
    Got(usize),
    /// Nothing is pending now.
    Nothing,
    /// Nothing is pending, and nothing will be: the record is closed.
    End,
    /// Nothing is pending any more, and nothing will be. More events were pending than may be, and with the policy
    /// [`Policy::Evict`] they gave way to later ones.
    Evicted,
}

/// Why there is no new subscription. If several reasons hold, the first in this order is reported.
#[derive(Clone, Copy, Debug, PartialEq, Eq, Error)]
pub enum SubError {
    /// The record is closed.
    #[error("the fifodir is closed")]
    Closed,
    /// [`MOST_PASSES`] subscriptions are current, evicted ones among them. There is room again after one of them is cancelled.
    #[error("too many subscriptions")]
    Many,
    /// The last id was given. An id is never given again.
    #[error("no id is left")]
    Spent,
    /// There was no memory for the cursor. The same call may succeed later.
    #[error("out of memory")]
    Memory,
}

/// Why no letter of a message was added. If several reasons hold, the first in this order is reported.
#[derive(Clone, Copy, Debug, PartialEq, Eq, Error)]
pub enum PubError {
    /// The record is closed.
    #[error("the fifodir is closed")]
    Closed,
    /// A service can't send the letter at this place of the message, counted from 0, after its letters so far and the
    /// letters before it in the message.
    #[error("letter {0} is unlawful")]
    Unlawful(u64),
    /// The record would have more events than its limits allow in all.
    #[error("no number is left")]
    Spent,
    /// More events would be pending for the slowest subscription than the limits allow. With [`Policy::Hold`] the publisher
    /// retries after a take or a cancel makes room. With [`Policy::Evict`] the message alone is too long, so the publisher
    /// sends it in several.
    #[error("too many events wait")]
    Full,
}

/// The id was never given, or it was cancelled.
#[derive(Clone, Copy, Debug, PartialEq, Eq, Error)]
#[error("no such id")]
pub struct NoId;

/// The record is closed already.
#[derive(Clone, Copy, Debug, PartialEq, Eq, Error)]
#[error("closed already")]
pub struct Closed;

/// The status of a fifodir at one moment.
#[derive(Clone, Copy, Debug, PartialEq, Eq)]
pub struct Status {
    /// How many events its record has.
    pub number: u64,
    /// What its letters say of the service.
    pub flags: Flags,
    /// Whether the record is closed.
    pub closed: bool,
}
