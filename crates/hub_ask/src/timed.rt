//! A connection whose calls end by a time.
ghost use Rattle.std.specs.Prelude.{◌≡◌, ◌<◌, None, IfOk, length};
ghost use Rattle.std.specs.Io.{ReadsAtMost, WritesAtMost};
ghost use Rattle.hub_ask.specs.Timing.{EndBy, deadline_of};

use crate::bounded::Bounded;
use crate::deadline::Deadline;
use crate::peer::{Halt, Replies, Requests};
use hub_io::{Sink, Source};
use std::io;
use std::io::{ErrorKind, Read, Write};
use std::os::unix::net::UnixStream;
use std::rt::Clock;
use std::time::Duration;

/// A connection whose reads and writes end by a time, all of them together: a peer that sends a byte now and then doesn't
/// prolong it.
#[derive(Drop)]
pub struct Timed<C> {
    stream: UnixStream,
    clock: C,
    deadline: Deadline,
    is_late: bool,
}

/// The two halves of a connection to a peer, for its replies and for requests. They are clones, since the descriptor of a clone is
/// 3 or more. If a standard stream is closed, the connection itself may have that stream's descriptor.
pub fn halves<C: Clock + Copy>(
    clock: C,
    connection: &UnixStream,
    deadline: Deadline,
) -> io::Result<(Bounded<Timed<C>>, Timed<C>)>
    ensures { IfOk result (λ both. EndBy deadline both.0 both.1) }
{
    let replies = Timed::new(clock, connection.try_clone()?, deadline);
    let requests = Timed::new(clock, connection.try_clone()?, deadline);
    Ok((Bounded::new(replies), requests))
}

impl<C: Clock> Timed<C> {
    fn new(clock: C, stream: UnixStream, deadline: Deadline) -> Timed<C>
        ensures { deadline_of result ≡ deadline }
    {
        Timed {
            stream,
            clock,
            deadline,
            is_late: false,
        }
    }

    // From now on it has so many milliseconds.
    fn restart(&mut self, millis: u64) {
        self.deadline = Deadline::after(&self.clock, millis);
    }

    // The time that is left, for one call. It isn't zero, since that would be without end.
    fn left(&self) -> io::Result<Option<Duration>> {
        match self.deadline.left(&self.clock) {
            Some(left) => Ok(Some(left)),
            None => Err(io::Error::from(ErrorKind::TimedOut)),
        }
    }

    fn read_in_time(&self, buf: &mut [u8]) -> io::Result<usize>
        ensures { ReadsAtMost result buf.new }
    {
        self.stream.set_read_timeout(self.left()?)?;
        (&self.stream).pull(buf)
    }

    fn write_in_time(&self, bytes: &[u8]) -> io::Result<usize>
        requires { 0 < length bytes.now }
        ensures { WritesAtMost result bytes.now }
    {
        self.stream.set_write_timeout(self.left()?)?;
        (&self.stream).push(bytes)
    }
}

// The operating system says so of a call that has waited for as long as it may, and `left` of one that wasn't made.
fn is_late<T>(done: &io::Result<T>) -> bool {
    match done {
        Ok(_) => false,
        Err(fault) => matches!(fault.kind(), ErrorKind::WouldBlock | ErrorKind::TimedOut),
    }
}

impl<C: Clock> Read for Timed<C> {
    fn read(&mut self, buf: &mut [u8]) -> io::Result<usize> {
        self.pull(buf)
    }
}

impl<C: Clock> Source for Timed<C> {
    ghost reads = { λ _. None };

    ghost faults = { λ _. None };

    fn pull(&mut self, buf: &mut [u8]) -> io::Result<usize> {
        let read = self.read_in_time(buf);
        self.is_late = is_late(&read);
        read
    }
}

impl<C: Clock> Replies for Timed<C> {
    fn allow(&mut self, millis: u64) {
        self.restart(millis);
    }

    fn halt(&self) -> Option<Halt> {
        if self.is_late { Some(Halt::Late) } else { None }
    }
}

impl<C: Clock> Write for Timed<C> {
    fn write(&mut self, bytes: &[u8]) -> io::Result<usize> {
        if bytes.is_empty() {
            Ok(0)
        } else {
            self.push(bytes)
        }
    }

    fn flush(&mut self) -> io::Result<()> {
        Ok(())
    }
}

impl<C: Clock> Sink for Timed<C> {
    ghost faults = { λ _. None };

    fn push(&mut self, bytes: &[u8]) -> io::Result<usize> {
        let written = self.write_in_time(bytes);
        self.is_late = is_late(&written);
        written
    }
}

impl<C: Clock> Requests for Timed<C> {
    fn allow(&mut self, millis: u64) {
        self.restart(millis);
    }

    fn is_late(&self) -> bool {
        self.is_late
    }
}
