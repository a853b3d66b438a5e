// crates.txt: YOURS: hub_client
use hub_client::{RelayError, relay};
use std::alloc::Global;
use std::os::unix::net::UnixStream;
use std::sync::Wait;

/// Sends the lines of a text over a connection, and returns the server's replies. `receiver` and `sender` are two clones
/// of that connection.
pub fn ask<H: Wait>(
    rt: &H,
    alloc: Global,
    text: &str,
    receiver: &mut UnixStream,
    sender: &mut UnixStream,
) -> Result<Vec<u8>, RelayError> {
    let mut replies = Vec::new(alloc);
    relay(
        rt,
        alloc,
        &mut text.as_bytes(),
        &mut replies,
        receiver,
        sender,
    )?;
    Ok(replies)
}
