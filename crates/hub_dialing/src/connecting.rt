//! A connection to a server, which ends by a time.
ghost use Rattle.std.specs.Prelude.{IfErr};
ghost use Rattle.hub_dialing.specs.Dialing.{IsUnreached};

use crate::tie::Connection;
use hub_ask::{AskError, Bounded, Deadline, Timed, halves};
use hub_endings::{Fault, ReachFault};
use std::net::Net;
use std::os::unix::net::UnixStream;
use std::rt::Clock;
use std::thread;
use std::time::Duration;

/// How many milliseconds pass before another try, if the server has no room for one more connection.
const PAUSE: u64 = 10;

/// The most tries. The longest time of a request ends before.
const TRIES: u64 = 1_000_000;

// Connects, and fails with `Full` if the server has no room for one more connection: a blocking connect would wait for it.
fn connect_now<H: Net>(rt: &H, socket: &str) -> Result<UnixStream, ReachFault> {
    let connection = UnixStream::from(mio::net::UnixStream::connect(rt, socket)?);
    connection.set_nonblocking(false)?;
    Ok(connection)
}

// Connects, and tries again until there is room, or the time is over.
fn connect_by<H: Net + Clock>(
    rt: &H,
    socket: &str,
    deadline: &Deadline,
) -> Result<UnixStream, Fault>
    ensures { IfErr result IsUnreached }
{
    'tries: for _ in 0..TRIES {
        match connect_now(rt, socket) {
            Ok(connection) => return Ok(connection),
            Err(ReachFault::Full) => {}
            Err(why) => return Err(Fault::Reach(why)),
        }
        let Some(left) = deadline.left(rt) else {
            break;
        };
        thread::sleep(rt, left.min(Duration::from_millis(PAUSE)));
    }
    Err(Fault::Ask(AskError::NoAnswer))
}

/// Connects to the server at the socket, and returns the two halves of the connection: for its replies and for requests. They end
/// so many milliseconds after the call began. The error says why it can't connect, or is the one of no answer if it can't in time.
pub fn connect<H: Net + Clock + Copy>(
    rt: &H,
    socket: &str,
    millis: u64,
) -> Result<(Bounded<Timed<H>>, Timed<H>), Fault>
    ensures { IfErr result IsUnreached }
{
    let deadline = Deadline::after(rt, millis);
    let connection = connect_by(rt, socket, &deadline)?;
    split(rt, &connection, deadline)
}

/// Connects as [`connect`] does, if that can be done at once.
pub(crate) fn connect_at_once<H: Net + Clock + Copy>(
    rt: &H,
    socket: &str,
    millis: u64,
) -> Result<(Bounded<Timed<H>>, Timed<H>), Fault>
    ensures { IfErr result IsUnreached }
{
    let deadline = Deadline::after(rt, millis);
    let connection = connect_now(rt, socket)?;
    split(rt, &connection, deadline)
}

// The two halves of the connection.
fn split<H: Clock + Copy>(
    rt: &H,
    connection: &UnixStream,
    deadline: Deadline,
) -> Result<(Bounded<Timed<H>>, Timed<H>), Fault>
    ensures { IfErr result IsUnreached }
{
    match halves(*rt, connection, deadline) {
        Ok(both) => Ok(both),
        Err(error) => Err(Fault::Reach(ReachFault::from(error))),
    }
}

/// Connects as [`connect`] does, and returns besides what sees whether the server ends the connection. That is a clone too.
pub(crate) fn connect_tied<H: Net + Clock + Copy>(
    rt: &H,
    socket: &str,
    millis: u64,
) -> Result<((Bounded<Timed<H>>, Timed<H>), Connection), Fault>
    ensures { IfErr result IsUnreached }
{
    let deadline = Deadline::after(rt, millis);
    let tied = connect_by(rt, socket, &deadline)?;
    let both = split(rt, &tied, deadline)?;
    match tied.try_clone() {
        Ok(clone) => Ok((both, Connection::new(clone))),
        Err(error) => Err(Fault::Reach(ReachFault::from(error))),
    }
}

/// Connects to the server at the socket, for a call, and returns the connection twice: for receiving and for sending. Both are
/// clones, since the descriptor of a clone is 3 or more. If a standard stream is closed, the connection itself may have
/// that stream's descriptor.
pub(crate) fn connection_at<H: Net>(rt: &H, socket: &str) -> Option<(UnixStream, UnixStream)> {
    let connection = UnixStream::connect(rt, socket).ok()?;
    let receive = connection.try_clone().ok()?;
    let send = connection.try_clone().ok()?;
    Some((receive, send))
}
