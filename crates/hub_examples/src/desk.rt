// crates.txt: YOURS: hub_desk
use hub_desk::{Desk, Enter, Name, Refusal, Reply, Request};
use std::alloc::{AllocError, Global};
use std::sync::Wait;

/// Makes the fifodir of a service at a desk: a `LocalDesk`, or a `SharedDesk` over a `Hub`.
pub fn make_service<H: Wait + Enter, D: Desk>(
    rt: &H,
    alloc: Global,
    desk: &mut D,
    name: &[u8],
) -> Result<Reply, AllocError> {
    let Some(name) = Name::of(alloc, name)? else {
        return Ok(Reply::No(Refusal::Name));
    };
    let service = Request::Svc {
        name,
        waiting: 64,
        total: 1_000_000,
        notifies: true,
        evict: false,
    };
    Ok(desk.ask(rt, &service))
}
