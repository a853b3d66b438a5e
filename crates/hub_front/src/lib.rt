//! The engine of a session: reads a client's bytes, lets the session's desk answer, and writes the replies.
//!
//! [`serve`] cuts the client's bytes at each LF. A line either spells one request, which the desk answers, or it is
//! refused by the first rule that it breaks. Each reply is one line. It is written whole before the next line is
//! answered, so the replies come in the order of the lines, however the bytes were cut on their way.
#![tactic(auto)]

mod places;
mod serving;
mod session;
mod stay;

pub use hub_io::{FrontError, Sink, Source};
pub use hub_protocol::{parse, write_reply};
pub use hub_requests::Enter;
pub use places::{refusals_are_in_place, same_input_same_output, same_lines_same_replies};
pub use serving::{serve, serve_within};
pub use session::KEPT;
pub use stay::{MANY_READS, SMALL_CHUNK, Stay};
