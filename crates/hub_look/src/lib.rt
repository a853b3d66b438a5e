//! The client's side for people and scripts that look at a hub: how its fifodirs are, and their letters as they come.
//!
//! [`show_states`] writes a table with a row for each fifodir, or an object of JSON for each. [`follow`] writes each letter of some fifodirs as it comes. Both ask
//! through a [`Peer`], which sends nothing but requests that only look: so they publish nothing, and make and close no fifodir.
#![tactic(auto)]

mod asking;
mod describing;
mod following;
mod limited;
mod look;
mod names;
mod news;
mod peer;
mod presence;
mod stop;
mod subscribing;
mod table;
mod taking;

pub use following::Following;
pub use hub_views::Form;
pub use limited::Limited;
pub use news::follow;
pub use peer::Peer;
pub use presence::are_there;
pub use table::show_states;
