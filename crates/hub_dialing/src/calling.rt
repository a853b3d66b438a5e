//! The subcommand `call`: a client of a server.
ghost use Rattle.hub_dialing.specs.Calls.{IsCall, calling};

use crate::dialing::Dial;
use hub_client::relay;
use hub_endings::Fault;
use hub_io::{Sink, Source};
use std::alloc::Global;
use std::sync::Wait;

/// Sends the lines of the input to the server at the socket, and writes its replies. Returns how many lines there were.
pub fn call<H: Wait, D: Dial, R: Source, W: Sink>(
    rt: &H,
    alloc: Global,
    dialer: &mut D,
    socket: &str,
    input: &mut R,
    output: &mut W,
) -> Result<u64, Fault>
    // One connection is made, to that socket, and the lines are relayed over it. Without one, nothing is read and nothing is written.
    ensures { IsCall
        (calling D.connects D.Incoming.remaining D.Incoming.reads D.Incoming.faults
        D.Outgoing.contents D.Outgoing.faults)
        dialer.old dialer.new socket.now
        (record { remaining = R.remaining; reads = R.reads; faults = R.faults })
        (record { contents = W.contents; faults = W.faults })
        input.old input.new output.old output.new result }
{
    let (mut receive, mut send) = match dialer.connect(socket) {
        Ok(both) => both,
        Err(fault) => return Err(fault),
    };
    match relay(rt, alloc, input, output, &mut receive, &mut send) {
        Ok(count) => Ok(count),
        Err(error) => Err(Fault::Relay(error)),
    }
}
