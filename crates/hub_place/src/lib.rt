//! The place of a socket that one server after the other listens at.
//!
//! [`take_place`] takes the path of a socket, if no server has it. The socket listens in a private folder beside the path
//! ([`Place::listen`]), and is put in its place ([`Place::put`]) once there are threads for its sessions.
#![tactic(auto)]

mod folder;
mod lock;
mod look;
mod place;

pub use place::{InPlace, Place, make_root_folder, take_place};
