//! Serves sessions, each on a thread of its own, whatever desks answer them.
//!
//! A [`Gate`] gives sessions, each with a reader and a writer; a [`Door`] is that of a listening socket. [`serve_each`] serves each
//! session as soon as it comes, by a desk of its own that [`Desks`] opens. All sessions run at the same time, and in
//! the end it joins their threads. The [`Report`] has the result of each session, in the gate's order.
//!
//! Reader and writer are dropped on the session's own thread, so a connection ends with its session.
#![tactic(auto)]

mod bell;
mod connection;
mod crew;
mod desks;
mod door;
mod gate;
mod journal;
mod lasting;
mod limit;
mod listening;
mod promise;
mod quota;
mod seat;
mod serving;
mod side;
mod started;
mod taken;
mod together;
mod workers;

pub use connection::{Connection, Lines, Timed};
pub use crew::{Crew, Keeper};
pub use desks::Desks;
pub use door::{Door, SharedDoor};
pub use gate::{Gate, Next};
pub use hub_front::Enter;
pub use hub_reports::{NoThread, Report, STACK_SIZE, ServeError};
pub use journal::Journal;
pub use lasting::serve_on;
pub use listening::Listen;
pub use promise::Session;
pub use quota::Quota;
pub use side::Side;
pub use taken::most_looking;
pub use together::serve_each;
pub use workers::start_workers;
