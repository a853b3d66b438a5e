// crates.txt: YOURS: hub_local
use hub_local::{Desk, Enter, LocalDesk, Name, Refusal, Reply, Request};
use std::alloc::{AllocError, Global};
use std::sync::Wait;

/// Makes a fifodir at a new desk, and subscribes to it. The reply is `Reply::Number(1)`.
pub fn make_and_subscribe<H: Wait + Enter>(rt: &H, alloc: Global) -> Result<Reply, AllocError> {
    let Some(name) = Name::of(alloc, b"web")? else {
        return Ok(Reply::No(Refusal::Name));
    };
    let dir = Request::Dir {
        name: name.copy()?,
        waiting: 64,
        total: 1_000,
        evict: false,
    };
    let mut desk = LocalDesk::new(alloc)?;
    let _made = desk.ask(rt, &dir);
    let subscribed = desk.ask(rt, &Request::Sub { name });
    desk.end(rt);
    Ok(subscribed)
}
