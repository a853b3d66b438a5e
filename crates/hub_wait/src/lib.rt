//! Waits for services, as `s6-svwait` and `s6-svlisten` do, over the shared fifodirs of `hub_fifodir`.
//!
//! A [`Post`] subscribes to a service's fifodir first, then reads its status, and from then on takes its events. So no
//! change falls between the look and the wait. Its [`Watch`] is what is known of the service: a number of events, and
//! the flags at that number.
//!
//! If the status is newer than the subscription, the first letters that the post takes are in the status already. The
//! watch skips them by their numbers, while `s6-svwait` can answer from such a stale letter. However the letters are
//! cut and overlap, a watch shows the flags of its service's history up to its number.
//!
//! A [`Tally`] gives the verdict over several watches, for all of them or any. It is `Never` as soon as no yes can come
//! any more, because a service has failed for good or its fifodir is closed. [`svwait`] looks, pauses, takes and looks
//! again, for a given number of turns. [`svlisten`] first runs the action that is to bring the change about, when the
//! posts are subscribed already.
//!
//! [`receive`] takes events by a ticket, and waits if there are none.
//!
//! Between two looks a wait pauses by a [`Pause`]. A [`Patience`] sleeps until a fifodir's bell rings, which it does after
//! each change that somebody waits for. Of waking nothing is proved: a pause may also end for no reason, or late.
//!
//! Each watch has a number of its own, so a yes for all doesn't say that all services were as wanted at one moment.
#![tactic(auto)]

mod blocking;
mod pause;
mod post;
mod tally;
mod wait;
mod watch;

pub use blocking::receive;
pub use hub_fifodir::{Go, Pause};
pub use hub_letters::Span;
pub use pause::Patience;
pub use post::{Post, SLICE, SLICES};
pub use tally::{Tally, Verdict};
pub use wait::{svlisten, svwait};
pub use watch::Watch;
