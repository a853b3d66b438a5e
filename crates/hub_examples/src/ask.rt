// crates.txt: YOURS: hub_ask hub_requests
use hub_ask::{AskError, Client, Replies, Requests, State};
use hub_requests::{Name, Request};
use std::alloc::Global;
use std::sync::Wait;

/// Asks a hub how a fifodir is. None if the text isn't a name, or the hub doesn't say how it is. `receiver` and `sender` are the
/// `halves` of a connection.
pub fn state_of<H: Wait>(
    rt: &H,
    alloc: Global,
    name: &str,
    receiver: impl Replies + Drop,
    sender: impl Requests + Drop,
) -> Result<Option<State>, AskError> {
    let Some(name) = Name::of(alloc, name.as_bytes())? else {
        return Ok(None);
    };
    let mut client = Client::new(receiver, sender);
    let heard = client.ask(rt, alloc, &Request::Status { name })?;
    Ok(State::of(heard.line()))
}
