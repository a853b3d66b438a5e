//! The subcommand `tell`: where a service is.
ghost use Rattle.std.specs.Prelude.{◌≡◌, IfOk, IfErr};
ghost use Rattle.hub_ask.specs.Streams.{streams};
ghost use Rattle.hub_requests.specs.declared.request.Request.TheVariants as request;
ghost use Rattle.hub_dialing.specs.Dialing.{dialing};
ghost use Rattle.hub_commands.specs.Telling.{FailsToTell, IsTold, TellsAsTold, verdict_of};

use crate::noting::note_refusal;
use crate::requesting::ask_once;
use hub_ask::{ANSWER, AskError, Client, Outcome, Replies, Requests};
use hub_dialing::Dial;
use hub_endings::{BadWords, Ending};
use hub_io::Sink;
use hub_letters::State;
use hub_protocol::BorrowedReply;
use hub_requests::{Name, Refusal, Request};
use std::alloc::Global;
use std::sync::Wait;

// What a hub says to a `tell`: that it is done, or why not. None if it says something else.
fn verdict_of(read: BorrowedReply<'_>) -> Option<Result<(), Refusal>>
    ensures { result ≡ verdict_of read.entry }
{
    match read {
        BorrowedReply::Number(_) => Some(Ok(())),
        BorrowedReply::No(refusal) => Some(Err(refusal)),
        _ => None,
    }
}

/// Sends the request, and returns how it went. A refusal is noted under this name.
pub(crate) fn tell<H: Wait, SR: Replies, SW: Requests, F: Sink>(
    rt: &H,
    alloc: Global,
    name: &str,
    request: Request,
    client: &mut Client<SR, SW>,
    notes: &mut F,
) -> Result<Outcome, AskError>
    ensures ok { IfOk result (IsTold
        (streams SW.contents SR.remaining F.contents F.faults client.old notes.old)
        (streams SW.contents SR.remaining F.contents F.faults client.new notes.new)
        request name.now) }
    ensures err { IfErr result (FailsToTell
        (streams SW.contents SR.remaining F.contents F.faults client.old notes.old)
        (streams SW.contents SR.remaining F.contents F.faults client.new notes.new)
        request) }
{
    let heard = ask_once(rt, alloc, request, client)?;
    match verdict_of(heard.reply()) {
        Some(Ok(())) => Ok(Outcome::Done),
        Some(Err(refusal)) => {
            note_refusal(alloc, name.as_bytes(), refusal, notes)?;
            Ok(Outcome::Refused)
        }
        None => Err(AskError::Unknown),
    }
}

/// Says at the hub at the socket where a service is, and returns the exit status. `notes` gets a line if the hub refuses that. A
/// text that is no name is refused.
pub fn tell_state<H: Wait, D: Dial, F: Sink>(
    rt: &H,
    alloc: Global,
    dialer: &mut D,
    socket: &str,
    name: &str,
    state: State,
    notes: &mut F,
) -> Result<u8, Ending>
    // If the text is no name, no connection is made, and nothing is noted. Else one connection is made, over which the one `tell`
    // goes. Only a refusal is noted.
    ensures { TellsAsTold
        (dialing D.reaches D.Receiver.remaining D.Sender.contents) dialer.old dialer.new socket.now
        (record { contents = F.contents; faults = F.faults }) notes.old notes.new
        name.now state result }
{
    let Some(named) = Name::of(alloc, name.as_bytes())? else {
        return Err(Ending::Refused(BadWords::NotName));
    };
    let (receiver, sender) = dialer.dial(socket, ANSWER)?;
    let mut client = Client::new(receiver, sender);
    let request = Request::Tell { name: named, state };
    let outcome = tell(rt, alloc, name, request, &mut client, notes)?;
    Ok(outcome.status())
}
