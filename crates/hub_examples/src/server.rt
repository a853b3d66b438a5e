// crates.txt: YOURS: hub_server
use hub_server::{Desks, Enter, Gate, ServeError, serve_each};
use std::alloc::Global;
use std::os::unix::net::UnixStream;
use std::sync::Wait;
use std::thread::Threads;

/// Serves at most 8 sessions of the gate at the same time, and answers how many lines they had. A session that stopped
/// counts none.
pub fn count_lines<H, G, O>(
    rt: &H,
    alloc: Global,
    desks: &O,
    gate: &mut G,
) -> Result<u64, ServeError>
where
    H: Threads + Wait + Enter + Copy + Send + 'static,
    G: Gate<UnixStream, UnixStream>,
    O: Desks + Send + Drop + 'static,
{
    let report = serve_each(rt, alloc, desks, gate, 8)?;
    let mut lines = 0u64;
    for ended in report.results.iter() {
        lines = lines.saturating_add(ended.unwrap_or(0));
    }
    Ok(lines)
}
