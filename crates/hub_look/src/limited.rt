//! A connection whose calls end by the deadline of a follow.
ghost use Rattle.std.specs.Prelude.{◌≡◌, IfNone, is_some, true};

use hub_ask::{Deadline, Halt, Replies, Requests};
use hub_io::{Sink, Source};
use std::io;
use std::io::{Read, Write};
use std::rt::Clock;

/// How many milliseconds are left until the deadline, a part of one as a whole one. Without a deadline there is no end of them. None
/// if it is over.
pub(crate) fn millis_left<C: Clock>(until: Option<Deadline>, clock: &C) -> Option<u64>
    ensures { IfNone result (is_some until ≡ true) }
{
    let Some(deadline) = until else {
        return Some(u64::MAX);
    };
    let whole = u64::try_from(deadline.left(clock)?.as_millis()).unwrap_or(u64::MAX);
    Some(whole.saturating_add(1))
}

/// One of the streams of a connection. Whatever it is allowed, its calls end by the deadline, if there is one.
#[derive(Drop)]
pub struct Limited<S, C> {
    /// The stream.
    pub inner: S,
    clock: C,
    until: Option<Deadline>,
}

impl<S, C: Clock> Limited<S, C> {
    /// The stream, until then.
    pub fn new(inner: S, clock: C, until: Option<Deadline>) -> Limited<S, C>
        ensures { result.inner ≡ inner }
    {
        Limited {
            inner,
            clock,
            until,
        }
    }

    // What may be allowed of so many milliseconds.
    fn allowed(&self, millis: u64) -> u64 {
        millis.min(millis_left(self.until, &self.clock).unwrap_or(0))
    }
}

impl<S: Source, C> Read for Limited<S, C> {
    ghost remaining = { λ it. S.remaining it.inner };

    fn read(&mut self, buf: &mut [u8]) -> io::Result<usize> {
        self.inner.read(buf)
    }
}

impl<S: Source, C> Source for Limited<S, C> {
    ghost reads = { λ it. S.reads it.inner };

    ghost faults = { λ it. S.faults it.inner };

    fn pull(&mut self, buf: &mut [u8]) -> io::Result<usize> {
        self.inner.pull(buf)
    }
}

impl<S: Replies, C: Clock> Replies for Limited<S, C> {
    fn allow(&mut self, millis: u64) {
        let allowed = self.allowed(millis);
        self.inner.allow(allowed);
    }

    fn halt(&self) -> Option<Halt> {
        self.inner.halt()
    }
}

impl<S: Sink, C> Write for Limited<S, C> {
    ghost contents = { λ it. S.contents it.inner };

    fn write(&mut self, bytes: &[u8]) -> io::Result<usize> {
        self.inner.write(bytes)
    }

    fn flush(&mut self) -> io::Result<()> {
        self.inner.flush()
    }
}

impl<S: Sink, C> Sink for Limited<S, C> {
    ghost faults = { λ it. S.faults it.inner };

    fn push(&mut self, bytes: &[u8]) -> io::Result<usize> {
        self.inner.push(bytes)
    }
}

impl<S: Requests, C: Clock> Requests for Limited<S, C> {
    fn allow(&mut self, millis: u64) {
        let allowed = self.allowed(millis);
        self.inner.allow(allowed);
    }

    fn is_late(&self) -> bool {
        self.inner.is_late()
    }
}
