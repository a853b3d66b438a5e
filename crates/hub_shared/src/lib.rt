//! The desks of several sessions over one hub of fifodirs.
//!
//! A [`Hub`] has the fifodirs by their names, and a [`SharedDesk`] is one session over it, on a thread of its own. What
//! a session knows of a fifodir is what its own passes have seen: each `pub`, `take`, `close` and `status` is answered
//! by the pass that the session keeps, and so by the one record behind it. What other sessions do meanwhile shows only
//! there.
//!
//! A session that ends, however it ends, releases all that it holds, so that no subscription of its own keeps others from
//! publishing. A desk, a publisher and a post aren't `Drop`, so code that drops one doesn't compile.
#![tactic(auto)]

pub mod laws;
mod shared_desk;

pub use hub_names::{Found, Hub, HubError};
pub use shared_desk::SharedDesk;
