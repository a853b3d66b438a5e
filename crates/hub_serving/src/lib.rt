//! The sessions of a hub, and what a hub does that lives.
//!
//! [`serve`] accepts connections at a Unix socket, and serves them by [`serve_all`] over one hub. [`serve_forever`] does so for as long
//! as the program runs: it takes the socket's place, has the hub carry out the lines of its setup as [`set_up`] does, keeps the
//! socket there, and says what happens: that it listens, which sessions stopped and why, and that clients wait.
#![tactic(auto)]

mod crowd;
mod desks;
mod doors;
mod living;
mod living_desks;
mod look_desks;
mod lost_wills;
mod notice;
mod noting;
mod places;
mod serving;
mod setup;
mod troubles;
mod watching;

pub use desks::serve_all;
pub use hub_options::HubOptions;
pub use hub_requests::Enter;
pub use living::serve_forever;
pub use serving::serve;
pub use setup::set_up;
