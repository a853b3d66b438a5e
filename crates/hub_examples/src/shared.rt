// crates.txt: YOURS: hub_shared hub_requests hub_wait
use hub_requests::{Desk, Enter, Name, Reply, Request};
use hub_shared::{Hub, SharedDesk};
use hub_wait::Pause;
use std::alloc::{AllocError, Global};
use std::sync::{Arc, Wait};

/// Opens a session over the hub, asks it for the status of one fifodir, and ends it.
pub fn ask_for_status<H: Wait + Enter, P: Pause + Copy>(
    rt: &H,
    alloc: Global,
    hub: Arc<Hub, Global>,
    pause: P,
    name: Name,
) -> Result<Reply, AllocError> {
    let mut desk = SharedDesk::new(alloc, hub, pause)?;
    let reply = desk.ask(rt, &Request::Status { name });
    desk.release(rt);
    Ok(reply)
}
