//! The two desks, and a table over each of them.
use crate::tests::rows::{Step, go};
use hub_fakes::Yielding;
use hub_local::LocalDesk;
use hub_requests::{Desk, Enter};
use hub_shared::{Hub, SharedDesk};
use std::alloc::{AllocError, AllocGlobal, Global};
use std::process::Abort;
use std::sync::{Arc, Wait};

pub type Session = SharedDesk<Yielding>;

pub fn new_local<H: AllocGlobal + Abort>(rt: &H) -> LocalDesk {
    LocalDesk::new(rt.alloc()).expect(rt, "a desk")
}

fn try_new_hub(alloc: Global) -> Result<Arc<Hub, Global>, AllocError> {
    Ok(Arc::new(alloc, Hub::new(alloc)?)?)
}

pub fn new_hub<H: AllocGlobal + Abort>(rt: &H) -> Arc<Hub, Global> {
    try_new_hub(rt.alloc()).expect(rt, "a hub")
}

fn try_session(alloc: Global, hub: &Arc<Hub, Global>) -> Result<Session, AllocError> {
    SharedDesk::new(alloc, Arc::try_clone(hub)?, Yielding)
}

/// A session over the hub.
pub fn session<H: AllocGlobal + Abort>(rt: &H, hub: &Arc<Hub, Global>) -> Session {
    try_session(rt.alloc(), hub).expect(rt, "a session")
}

/// A session alone over a hub.
pub fn alone<H: AllocGlobal + Abort>(rt: &H) -> Session {
    session(rt, &new_hub(rt))
}

/// Takes the steps at a local desk, and then in a session alone over a hub.
pub fn run_anew<H: AllocGlobal + Abort + Wait + Enter>(rt: &H, steps: &[Step]) {
    go(rt, &mut new_local(rt), steps);
    let mut desk = alone(rt);
    go(rt, &mut desk, steps);
    desk.release(rt);
}

/// Takes the rows of each text as steps of their own.
pub fn run_each<H: AllocGlobal + Abort + Wait + Enter>(rt: &H, texts: &[&'static str]) {
    for rows in texts {
        run_anew(rt, &[Step::Rows(*rows)]);
    }
}
