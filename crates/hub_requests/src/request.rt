//! The requests of clients.

use crate::name::Name;
use crate::texts::{Names, PatternText};
use crate::will::Will;
use hub_letters::{Mode, Span, State, Want};
use hub_record::Letters;

/// A request. Each variant has a line of its own form, which begins with the variant's word.
#[derive(Drop)]
pub enum Request {
    /// Makes a plain fifodir. At most `waiting` events may be pending for a subscription (1 to 4,096), and it takes `total`
    /// events in its life (1 to 10^12). `evict` says whether a subscription for which more would be pending is evicted,
    /// or the message is refused.
    Dir {
        name: Name,
        waiting: u64,
        total: u64,
        evict: bool,
    },
    /// Makes the fifodir of a service, which takes only letters in their lawful order. `notifies` says whether the
    /// service reports its readiness.
    Svc {
        name: Name,
        waiting: u64,
        total: u64,
        notifies: bool,
        evict: bool,
    },
    /// Subscribes to all events from now on.
    Sub {
        name: Name,
    },
    /// Publishes letters as events, in order: all of them, or none.
    Pub {
        name: Name,
        letters: Letters,
    },
    /// Publishes the letters that bring a service to a state from where it is: none if it is there already.
    Tell {
        name: Name,
        state: State,
    },
    /// Has a service told this state when the session ends, however it ends, if the last event is the session's own then. A
    /// later will for the same name takes an earlier one's place.
    Will {
        name: Name,
        state: Will,
    },
    /// Takes at most `max` events (1 to 256) that are pending for a subscription.
    Take {
        id: u64,
        max: u64,
    },
    /// Ends a subscription or a listener.
    Cancel {
        id: u64,
    },
    /// Closes a fifodir for good: it takes no event and no subscription any more.
    Close {
        name: Name,
    },
    /// Reports the status of a fifodir.
    Status {
        name: Name,
    },
    /// Reports what a fifodir is, and how much is there: its subscriptions, its publishers and what is pending.
    About {
        name: Name,
    },
    /// Subscribes a listener. From now on it hears all letters, and has one hit of the pattern or repeated ones, by its
    /// mode.
    Listen {
        name: Name,
        mode: Mode,
        pattern: PatternText,
    },
    /// Looks for a listener's next hit.
    Poll {
        id: u64,
    },
    /// Sleeps for at most `turns` turns (0 to 1,000,000) until the next `take` or `poll` of a handle has something to do. It
    /// takes nothing.
    Await {
        id: u64,
        turns: u64,
    },
    /// Takes what is pending for a subscription, at most as many events as a reply shows, or looks for a listener's next hit. If
    /// there is none yet, it sleeps for at most `turns` turns (0 to 1,000,000) until there is.
    Next {
        id: u64,
        turns: u64,
    },
    /// Waits for at most `turns` turns (0 to 1,000,000) until all of the named services (1 to 32), or any of them, are
    /// as wanted.
    Wait {
        span: Span,
        want: Want,
        turns: u64,
        names: Names,
    },
    /// Lists the fifodirs' names in the order in which they were made, from place `from` on (counted from 0), as many as fit
    /// in one reply.
    Names {
        from: u64,
    },
}
