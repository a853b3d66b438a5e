//! The engine of a session that writes its replies in batches.
//!
//! [`serve_by`] holds the texts of replies back, and writes all that it holds by one write: before it reads again, before a request
//! that may sleep, before more than [`MOST_HELD`] bytes are held, and at its end. So a client that waits for a reply has it, and one that
//! sends many lines at once costs few writes. The engine knows neither its client nor its desk: it can touch them only by [`Means`], each
//! call of which is a step of one history. [`serve_long`] is this engine over a real client and a real desk, and [`serve_staying`]
//! takes it for a session that may stay long.
#![tactic(auto)]

mod batch;
mod means;
mod room;
mod serving;
mod staying;

pub use batch::MOST_HELD;
pub use hub_front::Stay;
pub use hub_io::{FrontError, Sink, Source};
pub use hub_requests::Enter;
pub use means::{Awake, Direct, Means, Settles};
pub use room::may_sleep;
pub use serving::serve_by;
pub use staying::{serve_long, serve_staying};
