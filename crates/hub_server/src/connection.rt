//! A client's connection, which may time out.
ghost use Rattle.std.specs.Prelude.{◌≡◌, ◌==◌, ◌<◌, count_by, length, None};
ghost use Rattle.std.specs.Io.{ReadsAtMost, WritesAtMost};

use crate::limit::Limit;
use hub_io::{Client, Sink, Source};
use std::alloc::{AllocError, Global};
use std::io;
use std::io::{ErrorKind, Read, Write};
use std::os::unix::net::UnixStream;
use std::rt::Clock;
use std::sync::Arc;
use std::time::Duration;

/// A stream that may give up after some time without a whole line, or with a reply that isn't taken.
pub trait Timed {
    /// Whether a call on the stream has failed for this reason.
    fn has_timed_out(&self) -> bool;
}

/// A stream that counts the lines that came.
pub trait Lines {
    /// How many line feeds were read.
    fn lines(&self) -> u64;
}

/// The memory that a connection needs. Who has it before a client connects turns no client away for want of it.
#[derive(Drop)]
pub(crate) struct Room {
    stream: Arc<Option<UnixStream>, Global>,
}

impl Room {
    pub(crate) fn new(alloc: Global) -> Result<Room, AllocError> {
        let stream = Arc::new(alloc, None)?;
        Ok(Room { stream })
    }
}

/// A client's connection, for receiving or for sending.
#[derive(Drop)]
pub struct Connection<C> {
    /// The other half has it too, and so has who waits for the client: all take one descriptor.
    stream: Arc<Option<UnixStream>, Global>,
    /// The limit for a line, or for a reply. None: there is none.
    limit: Option<Limit<C>>,
    /// Whether the system's limit for a call is less than the whole time.
    is_short: bool,
    timed_out: bool,
    /// Whether anything was received.
    has_begun: bool,
    /// How many line feeds were received.
    lines: u64,
}

/// What a call of the system does.
#[derive(Clone, Copy)]
enum Way {
    Receive,
    Send,
}

impl<C: Clock + Copy> Connection<C> {
    /// The two halves of a connection that waits for so long for a whole line to come, or for a reply to be taken. None: without
    /// end.
    pub(crate) fn halves(
        room: Room,
        stream: UnixStream,
        idle: Option<Duration>,
        clock: C,
    ) -> io::Result<(Connection<C>, Connection<C>)> {
        if idle.is_some() {
            stream.set_read_timeout(idle)?;
            stream.set_write_timeout(idle)?;
        }
        let mut shared = room.stream;
        if let Some(place) = Arc::get_mut(&mut shared) {
            *place = Some(stream);
        }
        let send = Connection::half(Arc::try_clone(&shared)?, idle, clock);
        Ok((Connection::half(shared, idle, clock), send))
    }

    fn half(
        stream: Arc<Option<UnixStream>, Global>,
        idle: Option<Duration>,
        clock: C,
    ) -> Connection<C> {
        Connection {
            stream,
            limit: idle.map(|whole| Limit::new(clock, whole)),
            is_short: false,
            timed_out: false,
            has_begun: false,
            lines: 0,
        }
    }

    fn stream(&self) -> io::Result<&UnixStream> {
        match &*self.stream {
            Some(stream) => Ok(stream),
            None => Err(io::Error::from(ErrorKind::NotConnected)),
        }
    }

    fn set_time(&self, way: Way, time: Duration) -> io::Result<()> {
        let stream = self.stream()?;
        match way {
            Way::Receive => stream.set_read_timeout(Some(time)),
            Way::Send => stream.set_write_timeout(Some(time)),
        }
    }

    // Sees to it that the next call takes no longer than what is left of the time. It asks the system only if this isn't the first
    // call for a line, or for a reply.
    fn begin(&mut self, way: Way) -> io::Result<()> {
        let left = match &mut self.limit {
            Some(limit) => limit.left()?,
            None => None,
        };
        if let Some(left) = left {
            self.is_short = true;
            self.set_time(way, left)?;
        }
        Ok(())
    }

    // What was waited for is there, or came too late. The next call is the first one again.
    fn end(&mut self, way: Way) {
        let Some(limit) = &mut self.limit else {
            return;
        };
        let whole = limit.end();
        if self.is_short {
            self.is_short = false;
            let _: io::Result<()> = self.set_time(way, whole);
        }
    }

    // Before the first line is there, sees to it that its client hasn't closed the connection altogether. Who has, while the line waited,
    // has given it up, and may have asked for something else since. So many bytes were received.
    fn check_client(&mut self, count: usize) -> io::Result<()> {
        self.has_begun = self.has_begun || count > 0;
        if self.lines == 0 && self.has_begun && self.is_abandoned() {
            return Err(io::Error::from(ErrorKind::ConnectionReset));
        }
        Ok(())
    }

    fn is_abandoned(&self) -> bool {
        match self.client() {
            Some(client) => client.is_gone(),
            None => false,
        }
    }

    fn pull_in_time(&mut self, buf: &mut [u8]) -> io::Result<usize>
        ensures bound { ReadsAtMost result buf.new }
    {
        self.begin(Way::Receive)?;
        let count = self.stream()?.pull(buf)?;
        self.check_client(count)?;
        let ended = line_feeds(&buf[..count]);
        self.lines = self.lines.saturating_add(ended);
        if self.limit.is_some() && ended > 0 {
            self.end(Way::Receive);
        }
        Ok(count)
    }

    fn push_in_time(&mut self, bytes: &[u8]) -> io::Result<usize>
        requires { 0 < length bytes.now }
        ensures bound { WritesAtMost result bytes.now }
    {
        self.begin(Way::Send)?;
        let count = self.stream()?.push(bytes)?;
        if count == bytes.len() {
            self.end(Way::Send);
        }
        Ok(count)
    }
}

fn line_feeds(bytes: &[u8]) -> u64
    ensures { result ≡ count_by (λ byte. byte == 10) bytes.now }
{
    bytes.iter().filter(|byte| **byte == b'\n').count() as u64
}

impl<C> Lines for Connection<C> {
    fn lines(&self) -> u64 {
        self.lines
    }
}

impl<C> Timed for Connection<C> {
    fn has_timed_out(&self) -> bool {
        self.timed_out
    }
}

// The operating system says so of a call that has waited for as long as it may.
fn is_late<T>(done: &io::Result<T>) -> bool {
    match done {
        Ok(_) => false,
        Err(fault) => fault.kind() == ErrorKind::WouldBlock,
    }
}

impl<C: Clock + Copy> Read for Connection<C> {
    fn read(&mut self, buf: &mut [u8]) -> io::Result<usize> {
        self.pull(buf)
    }
}

impl<C: Clock + Copy> Source for Connection<C> {
    ghost reads = { λ _. None };

    ghost faults = { λ _. None };

    fn pull(&mut self, buf: &mut [u8]) -> io::Result<usize> {
        let read = self.pull_in_time(buf);
        self.timed_out = is_late(&read);
        if self.timed_out {
            self.end(Way::Receive);
        }
        read
    }

    fn client(&self) -> Option<Client> {
        Arc::try_clone(&self.stream).ok().map(Client::Shared)
    }
}

impl<C: Clock + Copy> Write for Connection<C> {
    fn write(&mut self, bytes: &[u8]) -> io::Result<usize> {
        let mut stream = self.stream()?;
        stream.write(bytes)
    }

    fn flush(&mut self) -> io::Result<()> {
        Ok(())
    }
}

impl<C: Clock + Copy> Sink for Connection<C> {
    ghost faults = { λ _. None };

    fn push(&mut self, bytes: &[u8]) -> io::Result<usize> {
        let written = self.push_in_time(bytes);
        self.timed_out = is_late(&written);
        if self.timed_out {
            self.end(Way::Send);
        }
        written
    }
}
