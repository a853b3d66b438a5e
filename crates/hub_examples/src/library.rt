// crates.txt: YOURS: ftrighub
use ftrighub::{Enter, Gate, Hub, Patience, Report, ServeError, serve_all};
use std::alloc::Global;
use std::os::unix::net::UnixStream;
use std::rt::Clock;
use std::sync::{Arc, Wait};
use std::thread::Threads;

/// Serves at most 8 sessions of the gate over one new hub, each on a thread of its own.
pub fn serve_together<H, G>(rt: &H, alloc: Global, gate: &mut G) -> Result<Report, ServeError>
where
    H: Clock + Threads + Wait + Enter + Copy + Send + 'static,
    G: Gate<UnixStream, UnixStream>,
{
    let Ok(hub) = Arc::new(alloc, Hub::new(alloc)?) else {
        return Err(ServeError::Memory);
    };
    // A wait of a session sleeps until something changes, or until its time is over.
    let pause = Patience::new(*rt);
    serve_all(rt, alloc, hub, gate, 8, pause)
}
