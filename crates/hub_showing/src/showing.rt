//! The subcommand `status`: how fifodirs are.
ghost use Rattle.std.specs.Prelude.{◌≡◌};
ghost use Rattle.hub_dialing.specs.Dialing.{dialing};
ghost use Rattle.hub_showing.specs.Looking.{ShowsStatus};

use hub_ask::ANSWER;
use hub_dialing::Dial;
use hub_endings::{BadWords, Ending, any_breaks};
use hub_io::Sink;
use hub_look::{Peer, show_states};
use std::alloc::Global;
use std::sync::Wait;

/// Writes how these fifodirs of the hub at the socket are, or all of the hub if none is named, as a table or as objects of JSON, and
/// returns the exit status. `notes`
/// gets a line for each name that the hub refuses. Names with a line feed are refused.
pub fn show_status<H: Wait, D: Dial, W: Sink, F: Sink>(
    rt: &H,
    alloc: Global,
    dialer: &mut D,
    socket: &str,
    is_json: bool,
    names: &[&str],
    output: &mut W,
    notes: &mut F,
) -> Result<u8, Ending>
    // If a name has an LF, it is refused: no connection is made, and nothing is written. Else one connection is made, over which
    // only looks go. The table is written of what the hub replies.
    ensures { ShowsStatus
        (dialing D.reaches D.Receiver.remaining D.Sender.contents) dialer.old dialer.new socket.now
        (record { contents = F.contents; faults = F.faults }) notes.old notes.new
        (λ name. name.now) is_json names.now ((output.new ≡ output.old) × (notes.new ≡ notes.old))
        (W.contents output.old) (W.contents output.new) result }
{
    if any_breaks(names) {
        return Err(Ending::Refused(BadWords::Name));
    }
    let (receive, send) = dialer.dial(socket, ANSWER)?;
    let mut peer = Peer::new(receive, send);
    let outcome = show_states(rt, alloc, is_json, names, &mut peer, output, notes)?;
    Ok(outcome.status())
}
