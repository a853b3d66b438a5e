// crates.txt: YOURS: hub_look hub_ask
use hub_ask::{AskError, Outcome, Replies, Requests};
use hub_look::{Following, Form, Peer, follow};
use std::alloc::Global;
use std::rt::Clock;
use std::sync::Wait;

/// Puts the next letter of a fifodir behind `letters`, with an LF, and what a hub refuses behind `notes`. `receiver` and `sender` are
/// the `halves` of a connection.
pub fn next_letter<H: Wait + Clock>(
    rt: &H,
    alloc: Global,
    name: &str,
    receiver: impl Replies + Drop,
    sender: impl Requests + Drop,
    letters: &mut Vec<u8>,
    notes: &mut Vec<u8>,
) -> Result<Outcome, AskError> {
    let mut names = Vec::new(alloc);
    names.extend_from_slice(&[name])?;
    let following = Following {
        names,
        pattern: None,
        form: Form::Plain,
        is_once: true,
        until: None,
        is_again: false,
    };
    let mut peer = Peer::new(receiver, sender);
    follow(rt, alloc, &following, &mut peer, letters, notes)
}
