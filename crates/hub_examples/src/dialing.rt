// crates.txt: YOURS: hub_dialing hub_endings
use hub_dialing::{Dialer, call};
use hub_endings::Fault;
use std::alloc::Global;
use std::net::Net;
use std::rt::Clock;
use std::sync::Wait;

/// Sends the lines of a text to the hub at a socket, and returns its replies.
pub fn replies_to<H: Net + Clock + Wait + Copy>(
    rt: &H,
    alloc: Global,
    socket: &str,
    text: &str,
) -> Result<Vec<u8>, Fault> {
    let mut dialer = Dialer::new(*rt);
    let mut replies = Vec::new(alloc);
    call(
        rt,
        alloc,
        &mut dialer,
        socket,
        &mut text.as_bytes(),
        &mut replies,
    )?;
    Ok(replies)
}
