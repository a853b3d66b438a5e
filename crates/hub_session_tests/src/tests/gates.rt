//! Gates for the tests.
use hub_server::{Gate, Next};
use std::alloc::Global;
use std::os::unix::net::{UnixListener, UnixStream};
use std::sync::atomic::{AtomicU64, Ordering};
use std::sync::{Arc, Wait};

/// Gives its sessions, the last one first, and then fails or is over.
#[derive(Drop)]
pub struct Listed<R, W> {
    sessions: Vec<(R, W)>,
    fails: bool,
    pub asked: u64,
    /// How often it was asked when it was closed, once for each time that it was.
    closed: Vec<u64>,
}

impl<R, W> Listed<R, W> {
    pub fn new(alloc: Global, sessions: Vec<(R, W)>, fails: bool) -> Listed<R, W> {
        Listed {
            sessions,
            fails,
            asked: 0,
            closed: Vec::new(alloc),
        }
    }

    /// Whether it was closed once, after it was asked so often.
    pub fn was_closed_once_at(&self, asked: u64) -> bool {
        self.closed.as_slice() == [asked].as_slice()
    }
}

impl<R, W> Gate<R, W> for Listed<R, W> {
    ghost gives = { λ old next new. Unit {0} };

    ghost closes = { λ old new. Unit {0} };

    fn next<H: Wait>(&mut self, _rt: &H) -> Next<R, W> {
        self.asked = self.asked.saturating_add(1);
        match self.sessions.pop() {
            Some((reader, writer)) => Next::Session(reader, writer),
            None if self.fails => Next::Failed,
            None => Next::Over,
        }
    }

    fn close(&mut self) {
        let _ = self.closed.push(self.asked);
    }
}

/// A list that counts in `told` that it was closed.
#[derive(Drop)]
pub struct Telling<R, W> {
    pub list: Listed<R, W>,
    pub told: Arc<AtomicU64, Global>,
}

impl<R, W> Gate<R, W> for Telling<R, W> {
    ghost gives = { λ old next new. Unit {0} };

    ghost closes = { λ old new. Unit {0} };

    fn next<H: Wait>(&mut self, rt: &H) -> Next<R, W> {
        self.list.next(rt)
    }

    fn close(&mut self) {
        self.list.close();
        self.told.fetch_add(1, Ordering::SeqCst);
    }
}

/// Accepts connections, as long as it has its listener.
#[derive(Drop)]
pub struct Door {
    pub listener: Option<UnixListener>,
}

impl Door {
    fn accept(&self) -> Option<(UnixStream, UnixStream)> {
        let (receive, _peer) = self.listener.as_ref()?.accept().ok()?;
        let send = receive.try_clone().ok()?;
        Some((receive, send))
    }
}

impl Gate<UnixStream, UnixStream> for Door {
    ghost gives = { λ old next new. Unit {0} };

    ghost closes = { λ old new. Unit {0} };

    fn next<H: Wait>(&mut self, _rt: &H) -> Next<UnixStream, UnixStream> {
        match self.accept() {
            Some((receive, send)) => Next::Session(receive, send),
            None => Next::Failed,
        }
    }

    fn close(&mut self) {
        self.listener = None;
    }
}
