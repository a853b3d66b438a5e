//! How a hub is reached.
ghost use Rattle.std.specs.Prelude.{◌≡◌, ℕ, List, Result, Ok, Err, IfOk, IfErr};
ghost use Rattle.hub_endings.specs.declared.fault.Fault.{Fault as fault_of};
ghost use Rattle.hub_endings.specs.declared.fault.Fault.TheVariants as fault;
ghost use Rattle.hub_dialing.specs.Dialing.{IsUnreached};

use crate::connecting::{connect, connect_at_once, connect_tied, connection_at};
use crate::tie::{Connection, Tie};
use hub_ask::{Bounded, Replies, Requests, Timed};
use hub_endings::Fault;
use hub_io::{Sink, Source};
use std::net::Net;
use std::os::unix::net::UnixStream;
use std::rt::Clock;

/// The means to reach hubs. A function that has no other can't connect without it.
pub trait Dial {
    /// The half of a connection for a hub's replies.
    type Receiver: Replies + Drop;

    /// The half for requests.
    type Sender: Requests + Drop;

    /// `reaches old socket millis both new`: a dialer in the state `old` may give this for the socket and the time, and is then in
    /// the state `new`.
    ghost reaches: { Self → List ℕ → ℕ → Result (Self.Receiver × Self.Sender) fault_of → Self → Type 0 };

    /// Connects to the hub at the socket, and returns the two halves of the connection. They end so many milliseconds after the
    /// call began.
    fn dial(&mut self, socket: &str, millis: u64) -> Result<(Self::Receiver, Self::Sender), Fault>
        ensures { reaches self.old socket.now millis result self.new };

    /// Connects as `dial` does, if that can be done at once.
    fn dial_at_once(
        &mut self,
        socket: &str,
        millis: u64,
    ) -> Result<(Self::Receiver, Self::Sender), Fault>
        ensures { reaches self.old socket.now millis result self.new };

    /// What sees whether a hub still has its end of a connection.
    type Tie: Tie + Drop;

    /// Connects as `dial` does. The connection stays open for as long as one of the three is kept.
    fn tie(
        &mut self,
        socket: &str,
        millis: u64,
    ) -> Result<((Self::Receiver, Self::Sender), Self::Tie), Fault>
        ensures ok { IfOk result (λ it. reaches self.old socket.now millis (Ok it.0) self.new) }
        ensures err { IfErr result (λ it. reaches self.old socket.now millis (Err it) self.new) };

    /// The half of a connection of a call for a hub's replies.
    type Incoming: Source + Drop;

    /// The half for lines.
    type Outgoing: Sink + Drop;

    /// `connects old socket both new`: a dialer in the state `old` may give this for a call of the socket, and is then in the state
    /// `new`.
    ghost connects: { Self → List ℕ → Result (Self.Incoming × Self.Outgoing) fault_of → Self → Type 0 };

    /// Connects to the hub at the socket for a call, and returns the two halves of the connection. They wait without end.
    fn connect(&mut self, socket: &str) -> Result<(Self::Incoming, Self::Outgoing), Fault>
        ensures { connects self.old socket.now result self.new };
}

/// Reaches hubs at Unix sockets.
#[derive(Clone, Copy, Drop)]
pub struct Dialer<H> {
    rt: H,
}

impl<H: Net + Clock + Copy> Dialer<H> {
    /// A dialer by this runtime.
    pub fn new(rt: H) -> Dialer<H> {
        Dialer { rt }
    }
}

impl<H: Net + Clock + Copy> Dial for Dialer<H> {
    type Receiver = Bounded<Timed<H>>;

    type Sender = Timed<H>;

    ghost reaches = { λ old _ _ both new. (new ≡ old) × IfErr both IsUnreached };

    fn dial(&mut self, socket: &str, millis: u64) -> Result<(Bounded<Timed<H>>, Timed<H>), Fault> {
        connect(&self.rt, socket, millis)
    }

    fn dial_at_once(
        &mut self,
        socket: &str,
        millis: u64,
    ) -> Result<(Bounded<Timed<H>>, Timed<H>), Fault> {
        connect_at_once(&self.rt, socket, millis)
    }

    type Tie = Connection;

    fn tie(
        &mut self,
        socket: &str,
        millis: u64,
    ) -> Result<((Bounded<Timed<H>>, Timed<H>), Connection), Fault> {
        connect_tied(&self.rt, socket, millis)
    }

    type Incoming = UnixStream;

    type Outgoing = UnixStream;

    ghost connects = { λ old _ both new. (new ≡ old) × IfErr both (λ it. it ≡ fault.Connect) };

    fn connect(&mut self, socket: &str) -> Result<(UnixStream, UnixStream), Fault> {
        connection_at(&self.rt, socket).ok_or(Fault::Connect)
    }
}
