//! The library of the hub: all that a program needs that has fifodirs inside it.
//!
//! | To | Use |
//! |---|---|
//! | share a fifodir between threads | [`Fifodir`], [`Publisher`], [`Ticket`] |
//! | keep numbered events without threads | [`Record`] |
//! | search letters for a pattern | [`Listener`] |
//! | wait for services | [`Post`], [`svwait`], [`svlisten`] |
//! | wait for events | [`receive`] |
//! | answer requests | [`LocalDesk`], or a [`Hub`] and a [`SharedDesk`] for each session |
//! | serve lines | [`serve`] for one session, [`serve_all`] for many |
//! | send lines to a server | [`relay`] |
#![tactic(auto)]

pub use hub_client::{RelayError, relay};
pub use hub_desk::{
    Desk, Excerpt, Found, Hub, HubError, Listing, LocalDesk, Name, Names, Numbers, PatternText,
    Refusal, Reply, Request, SharedDesk,
};
pub use hub_fifodir::{Bell, Enter, Fifodir, Pass, PassError, Publisher, Ticket, Waiter};
pub use hub_front::{parse, serve, write_reply};
pub use hub_io::{FrontError, Sink, Source};
pub use hub_letters::{Flags, Letter, Mode, Span, Stage, Want};
pub use hub_listen::{Feed, FeedError, ListenError, Listener};
pub use hub_record::{
    Closed, Event, Kind, Letters, Limits, NoId, Policy, PubError, Record, Status, SubError, Taken,
};
pub use hub_server::{Gate, Next, Report, ServeError};
pub use hub_serving::serve_all;
pub use hub_wait::{Go, Patience, Pause, Post, Tally, Verdict, Watch, receive, svlisten, svwait};
