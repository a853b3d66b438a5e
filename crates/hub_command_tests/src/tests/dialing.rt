//! A dialer whose hubs give one reply each, or none in time.
ghost use Rattle.std.specs.Prelude.{None, ⊤};

use hub_ask::{Halt, Replies, Requests};
use hub_dialing::{Dial, Tie};
use hub_endings::Fault;
use hub_io::{Sink, Source};
use std::io;
use std::io::{ErrorKind, Read, Write};
use std::sync::Wait;

/// The reply of a hub, or none in time.
#[derive(Drop)]
pub struct Reply {
    rest: Option<&'static [u8]>,
}

impl Read for Reply {
    fn read(&mut self, buf: &mut [u8]) -> io::Result<usize> {
        self.pull(buf)
    }
}

impl Source for Reply {
    ghost reads = { λ _. None };

    ghost faults = { λ _. None };

    fn pull(&mut self, buf: &mut [u8]) -> io::Result<usize> {
        let Some(rest) = self.rest else {
            return Err(io::Error::from(ErrorKind::TimedOut));
        };
        let n = buf.len().min(rest.len());
        let (given, rest) = rest.split_at(n);
        buf[..n].copy_from_slice(given);
        self.rest = Some(rest);
        Ok(n)
    }
}

impl Replies for Reply {
    fn allow(&mut self, _millis: u64) {}

    fn halt(&self) -> Option<Halt> {
        match self.rest {
            Some(_) => None,
            None => Some(Halt::Late),
        }
    }
}

/// Takes what is sent.
#[derive(Drop)]
pub struct Taker;

impl Write for Taker {
    fn write(&mut self, buf: &[u8]) -> io::Result<usize> {
        Ok(buf.len())
    }

    fn flush(&mut self) -> io::Result<()> {
        Ok(())
    }
}

impl Sink for Taker {
    ghost faults = { λ _. None };

    fn push(&mut self, bytes: &[u8]) -> io::Result<usize> {
        Ok(bytes.len())
    }
}

impl Requests for Taker {
    fn allow(&mut self, _millis: u64) {}

    fn is_late(&self) -> bool {
        false
    }
}

/// Sees no end.
#[derive(Drop)]
pub struct Untied;

impl Tie for Untied {
    fn awaits_input<H: Wait>(&self, _rt: &H) -> bool {
        true
    }
}

/// The hubs of one connection after the other: what each replies, or none in time.
#[derive(Drop)]
pub struct Hubs {
    replies: &'static [Option<&'static [u8]>],
    /// How many connections were made.
    pub connections: usize,
}

impl Hubs {
    /// Hubs that reply these.
    pub fn new(replies: &'static [Option<&'static [u8]>]) -> Hubs {
        Hubs {
            replies,
            connections: 0,
        }
    }

    fn next(&mut self) -> Result<(Reply, Taker), Fault> {
        let Some(reply) = self.replies.get(self.connections) else {
            return Err(Fault::Connect);
        };
        self.connections = self.connections.saturating_add(1);
        Ok((Reply { rest: *reply }, Taker))
    }
}

impl Dial for Hubs {
    type Receiver = Reply;

    type Sender = Taker;

    ghost reaches = { λ _ _ _ _ _. ⊤ };

    fn dial(&mut self, _socket: &str, _millis: u64) -> Result<(Reply, Taker), Fault> {
        self.next()
    }

    fn dial_at_once(&mut self, _socket: &str, _millis: u64) -> Result<(Reply, Taker), Fault> {
        self.next()
    }

    type Tie = Untied;

    fn tie(&mut self, _socket: &str, _millis: u64) -> Result<((Reply, Taker), Untied), Fault> {
        Ok((self.next()?, Untied))
    }

    type Incoming = Reply;

    type Outgoing = Taker;

    ghost connects = { λ _ _ _ _. ⊤ };

    fn connect(&mut self, _socket: &str) -> Result<(Reply, Taker), Fault> {
        self.next()
    }
}
