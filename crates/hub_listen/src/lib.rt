//! Listeners: a listener has a pattern, and reports each time the letters that it hears match it.
//!
//! The listeners of s6 (libftrigr) search while bytes arrive, so what they report depends on how the bytes were cut on
//! their way: `a+` over `aab` is one hit if they arrive at once, and two if they arrive one by one. Here a hit is a
//! fact about the letters: their least non-empty prefix in which the pattern finds a match. However they are cut into
//! pieces, the hits are the same, and that is proved ([`laws`]).
//!
//! A [`Listener`] gathers letters since its last hit. After each letter it searches what it has gathered, as a text of
//! its own: `^` is where the gathering began, and `$` is the end of the newest letter. A pattern that finds a match at
//! any place of every text, such as `a*`, hits at each letter.
//!
//! A listener gathers at most [`MOST_GATHERED`](hub_letters::MOST_GATHERED) letters. A piece that doesn't fit, and has
//! no hit before that, is refused whole. All of the room is made with the listener, so a piece takes no memory. In mode
//! [`Mode::Once`] a listener is spent after its hit.
//!
//! No letter costs more than three passes over the pattern's NFA, however many were gathered: the listener keeps the
//! states in which its searches are alive, and a letter moves them on.
//!
//! For its pattern a listener keeps at most [`MOST_BYTES`], or it isn't made. Of the pattern's classes it keeps the letters.
#![tactic(auto)]

mod alive;
mod cut;
mod feed;
pub mod laws;
mod listener;
mod pattern;
mod search;
mod size;
mod states;

pub use feed::{Feed, FeedError};
pub use hub_letters::Mode;
pub use listener::{ListenError, Listener};
pub use pattern::Pattern;
pub use size::MOST_BYTES;
