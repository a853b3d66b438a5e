// crates.txt: YOURS: hub_fifodir hub_record hub_letters anyhow
use anyhow::Result;
use hub_fifodir::{Enter, Fifodir};
use hub_letters::Letter;
use hub_record::{Event, Taken};
use std::sync::Wait;

/// Publishes a message as a new publisher, and answers the number of its first event.
pub fn send<H: Wait + Enter>(rt: &H, fifodir: &Fifodir, message: &[Letter]) -> Result<u64> {
    let mut publisher = fifodir.publisher(rt)?;
    let sent = fifodir.publish(rt, &mut publisher, message);
    fifodir.leave(rt, publisher);
    Ok(sent?)
}

/// Subscribes, publishes a message, and takes the first events that came since then, of whatever publisher.
pub fn send_and_take<H: Wait + Enter>(
    rt: &H,
    fifodir: &Fifodir,
    message: &[Letter],
    out: &mut [Event],
) -> Result<Taken> {
    let mut ticket = fifodir.subscribe(rt)?;
    let sent = send(rt, fifodir, message);
    let taken = fifodir.take_into(rt, &mut ticket, out);
    fifodir.cancel(rt, ticket);
    sent?;
    Ok(taken)
}
