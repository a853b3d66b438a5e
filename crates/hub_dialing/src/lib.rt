//! How a hub is reached.
//!
//! [`Dial`] is the means to connect, and a function that has no other can't connect without it. A [`Dialer`] connects to Unix sockets, as
//! [`connect`] does for one request. [`call`] sends the lines of its input over a connection, and writes the hub's replies. A [`Tie`]
//! sees whether a hub still has its end of a connection; that of a [`Dialer`] is a [`Connection`].
#![tactic(auto)]

mod calling;
mod connecting;
mod dialing;
mod tie;

pub use calling::call;
pub use connecting::connect;
pub use dialing::{Dial, Dialer};
pub use tie::{Connection, Tie};
