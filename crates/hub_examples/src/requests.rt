// crates.txt: YOURS: hub_requests
use hub_requests::{Desk, Enter, Name, Reply, Request};
use std::alloc::{AllocError, Global};
use std::sync::Wait;

/// How many events a fifodir has, as any desk answers it. None if the desk has no fifodir of this name.
pub fn count_events<H: Wait + Enter, D: Desk>(
    rt: &H,
    alloc: Global,
    desk: &mut D,
    name: &[u8],
) -> Result<Option<u64>, AllocError> {
    let Some(name) = Name::of(alloc, name)? else {
        return Ok(None);
    };
    match desk.ask(rt, &Request::Status { name }) {
        Reply::State(status) => Ok(Some(status.number)),
        _ => Ok(None),
    }
}
