//! The time that a client has for a whole line, or for a whole reply.

use std::io::{self, ErrorKind};
use std::rt::Clock;
use std::time::{Duration, Instant};

/// A limit for what takes several calls of the system: a line that comes in pieces, or a reply that is taken in pieces. The system
/// itself limits each call.
#[derive(Drop)]
pub(crate) struct Limit<C> {
    clock: C,
    /// The time for all the calls together.
    whole: Duration,
    /// When the first of the calls began. None: the next one is the first.
    begun: Option<Instant>,
}

impl<C: Clock> Limit<C> {
    pub(crate) fn new(clock: C, whole: Duration) -> Limit<C> {
        Limit {
            clock,
            whole,
            begun: None,
        }
    }

    /// How long the next call may take, if that is less than the whole time. An error says that no time is left.
    pub(crate) fn left(&mut self) -> io::Result<Option<Duration>> {
        let Some(begun) = self.begun else {
            self.begun = Some(Instant::now(&self.clock)?);
            return Ok(None);
        };
        let left = self.whole.saturating_sub(begun.elapsed(&self.clock)?);
        if left.is_zero() {
            return Err(io::Error::from(ErrorKind::WouldBlock));
        }
        Ok(Some(left))
    }

    /// What was waited for is there. Returns the time that the system is to give a call again.
    pub(crate) fn end(&mut self) -> Duration {
        self.begun = None;
        self.whole
    }
}
