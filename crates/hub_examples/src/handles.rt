// crates.txt: YOURS: hub_handles hub_requests hub_fifodir
use hub_fifodir::{Enter, Fifodir};
use hub_handles::Handles;
use hub_requests::{Name, Reply};
use std::alloc::Global;
use std::sync::{Arc, Wait};

/// Subscribes to the fifodir of this name, and takes at most 256 letters of what was published since then.
pub fn subscribe_and_take<H: Wait + Enter>(
    rt: &H,
    handles: &mut Handles,
    name: &Name,
    fifodir: Arc<Fifodir, Global>,
) -> Reply {
    match handles.subscribe(rt, name, fifodir) {
        Reply::Number(number) => {
            let taken = handles.take(rt, number, 256);
            handles.cancel(rt, number);
            taken
        }
        refused => refused,
    }
}
