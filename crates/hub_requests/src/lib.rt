//! The vocabulary of a hub: what clients ask for, and what they are answered.
//!
//! A client sends a [`Request`], and gets a [`Reply`]. A [`Desk`] answers the requests of one session. It keeps what
//! the session holds: its subscriptions and listeners, each under a handle, a number that is never given twice. The end
//! of a desk releases all that it holds; the fifodirs stay.
//!
//! This crate has the vocabulary alone. The layers above read lines, write replies and implement the desks with it.
#![tactic(auto)]

mod about;
mod bounds;
mod desk;
mod letters;
mod listing;
mod name;
mod reply;
mod request;
mod room;
mod texts;
mod will;
mod wills;

pub use about::About;
pub use bounds::{
    LONGEST_NAME, LONGEST_REPLY, MOST_HANDLES, MOST_NAMES, MOST_NUMBERS, MOST_SERVICES, MOST_TAKEN,
    MOST_TURNS,
};
pub use desk::Desk;
pub use hub_record::Enter;
pub use letters::letters_of;
pub use listing::{Listing, names_reply};
pub use name::Name;
pub use reply::{Refusal, Reply};
pub use request::Request;
pub use room::{limits, refusal_of_handle};
pub use texts::{Excerpt, Names, Numbers, PatternText};
pub use will::Will;
pub use wills::Wills;
