//! Accepting connections, again after a fault that passes.
ghost use Rattle.std.specs.Prelude.{◌≡◌, ◌↔◌, IsTrue, Result};
ghost use Rattle.std.specs.declared.io.Error.{Error};
ghost use Rattle.hub_server.specs.Doors.{AcceptsOne, Passes};

use crate::gate::Next;
use std::io;
use std::io::ErrorKind;
use std::os::unix::net::{UnixListener, UnixStream};
use std::sync::Wait;

/// Where clients connect.
pub trait Listen<R, W> {
    /// `accepts old halves new`: a listener in the state `old` may accept this connection, or fail so, and is then in the state `new`.
    ghost accepts: { Self → Result (R × W) Error → Self → Type 0 };

    /// Waits for the next connection. Returns its half for receiving, and the one for sending.
    fn accept_halves(&mut self) -> io::Result<(R, W)>
        ensures { accepts self.old result self.new };
}

// The standard library doesn't say which connection a socket accepts.
impl Listen<UnixStream, UnixStream> for UnixListener {
    ghost accepts = { λ old _ new. new ≡ old };

    fn accept_halves(&mut self) -> io::Result<(UnixStream, UnixStream)> {
        let (receive, _peer) = self.accept()?;
        let send = receive.try_clone()?;
        Ok((receive, send))
    }
}

/// Whether a failed accept concerns one connection only: its client had left before, or a signal came.
pub(crate) fn passes(fault: &io::Error) -> bool
    ensures { IsTrue result ↔ Passes fault.now }
{
    matches!(
        fault.kind(),
        ErrorKind::ConnectionAborted | ErrorKind::Interrupted
    )
}

/// Accepts one connection. If a fault passes, it accepts again.
pub(crate) fn accept_one<H: Wait, R, W, L: Listen<R, W>>(rt: &H, listener: &mut L) -> Next<R, W>
    ensures { AcceptsOne L.accepts listener.old result listener.new }
{
    'faults: for _ in rt.forever() {
        match listener.accept_halves() {
            Ok((receive, send)) => return Next::Session(receive, send),
            Err(fault) if passes(&fault) => {}
            Err(_) => return Next::Failed,
        }
    }
    unreachable!()
}
