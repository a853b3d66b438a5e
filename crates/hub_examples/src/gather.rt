// crates.txt: YOURS: hub_gather hub_local
use hub_gather::{Awake, Enter, FrontError, serve_long};
use hub_local::LocalDesk;
use std::alloc::Global;
use std::sync::Wait;

/// Returns the replies of a new desk to the lines of a text. Those to the lines of one read are written by one write.
pub fn replies_in_batches<H: Wait + Enter>(
    rt: &H,
    alloc: Global,
    text: &str,
) -> Result<Vec<u8>, FrontError> {
    let mut desk = LocalDesk::new(alloc)?;
    let mut replies = Vec::new(alloc);
    serve_long(
        rt,
        alloc,
        &Awake,
        &mut desk,
        &mut text.as_bytes(),
        &mut replies,
    )?;
    Ok(replies)
}
