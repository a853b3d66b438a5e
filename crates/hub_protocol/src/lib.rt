//! The text protocol: reads lines as requests, and writes replies as lines.
//!
//! [`parse`] reads a line. It either spells one request, or it is refused by the first rule that it breaks. Each
//! request has exactly one spelling, which [`write_request`] writes. [`write_reply`] writes the one text of a reply.
//! `docs/manual/protocol.md` is the manual of lines and replies.
#![tactic(auto)]

mod about;
mod fields;
mod line;
mod meanings;
mod parsing;
mod replies;
mod reply_pieces;
mod requests;
mod spelling;
mod table;
mod telling;
mod words;
mod writing;

pub use parsing::{Bad, LONGEST_LINE, parse};
pub use replies::{BorrowedReply, read_reply};
pub use spelling::{
    each_form_has_a_line, each_line_is_read_in_one_way, each_request_is_read_as_itself,
    no_line_is_spelled_twice,
};
pub use telling::write_request;
pub use words::Spelled;
pub use writing::write_reply;
