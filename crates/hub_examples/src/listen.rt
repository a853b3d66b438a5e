// crates.txt: YOURS: hub_listen hub_letters anyhow
use anyhow::Result;
use hub_letters::Letter;
use hub_listen::{Feed, Listener, Mode};
use std::alloc::Global;

/// Counts how often a service became ready after it was started.
pub fn count_starts(alloc: Global, letters: &[Letter]) -> Result<u64> {
    let mut listener = Listener::new(alloc, "u.*U", Mode::Repeat)?;
    let mut starts = 0u64;
    for letter in letters {
        if let Feed::Hit(_) = listener.feed(&[*letter])? {
            starts = starts.saturating_add(1);
        }
    }
    Ok(starts)
}
