// crates.txt: YOURS: hub_front hub_local
use hub_front::{Enter, FrontError, serve};
use hub_local::LocalDesk;
use std::alloc::Global;
use std::sync::Wait;

/// Returns the replies of a new desk to the lines of a text.
pub fn replies_to<H: Wait + Enter>(
    rt: &H,
    alloc: Global,
    text: &str,
) -> Result<Vec<u8>, FrontError> {
    let mut desk = LocalDesk::new(alloc)?;
    let mut replies = Vec::new(alloc);
    serve(rt, alloc, &mut desk, &mut text.as_bytes(), &mut replies)?;
    Ok(replies)
}
