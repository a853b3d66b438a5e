//! Looks at one fifodir.
ghost use Rattle.std.specs.Prelude.{◌≡◌, Ok, IfOk, IfErr};
ghost use Rattle.hub_protocol.specs.Spelling.{form_of, spelling};
ghost use Rattle.hub_protocol.specs.declared.replies.BorrowedReply.TheVariants as shown;
ghost use Rattle.hub_ask.specs.Asking.{IsAnswered};
ghost use Rattle.hub_ask.specs.Hearing.{line_of};
ghost use Rattle.hub_ask.specs.Lines.{joined};
ghost use Rattle.hub_look.specs.Stops.{IsOwnFault, IsOwnStop};
ghost use Rattle.hub_ask.specs.Streams.{IsHeard, streams};
ghost use Rattle.hub_look.specs.Subscribing.{IsHandled};
ghost use Rattle.hub_look.specs.Tables.{IsFoundBy, IsJudged, IsLookedUp, TellsBy};
ghost use Rattle.hub_look.specs.Looking.{IsLook};

use crate::look::look_of;
use crate::peer::Peer;
use crate::stop::{Stop, tell_refusal};
use hub_ask::{AskError, Heard, Outcome, Replies, Requests};
use hub_io::Sink;
use hub_protocol::BorrowedReply;
use hub_record::Status;
use hub_requests::{Refusal, Request};
use std::alloc::Global;
use std::sync::Wait;

/// Sends a look, and returns the reply.
pub(crate) fn ask_once<H: Wait, SR: Replies, SW: Requests>(
    rt: &H,
    alloc: Global,
    request: Request,
    peer: &mut Peer<SR, SW>,
) -> Result<Heard, Stop>
    requires { IsLook request }
    ensures begun { peer.new.begun ≡ peer.old.begun }
    ensures ok { IfOk result (λ heard. IsAnswered
        (SW.contents peer.old.client.sender) (SW.contents peer.new.client.sender)
        (SR.remaining peer.old.client.receiver) (SR.remaining peer.new.client.receiver)
        (spelling (form_of request)) (line_of heard)) }
    ensures err { IfErr result IsOwnFault }
{
    let heard = peer.ask(rt, alloc, &request);
    // So no exit drops it, which would be a path for each kind of request in the proof.
    drop(request);
    Ok(heard?)
}

// Sends a look, and returns the reply, or the refusal, which is told of this name.
fn ask_or_tell<H: Wait, SR: Replies, SW: Requests, F: Sink>(
    rt: &H,
    alloc: Global,
    request: Request,
    name: &str,
    peer: &mut Peer<SR, SW>,
    notes: &mut F,
) -> Result<Result<Heard, Refusal>, Stop>
    requires { IsLook request }
    ensures begun { peer.new.begun ≡ peer.old.begun }
    ensures ok { IfOk result (IsLookedUp
        (streams SW.contents SR.remaining F.contents F.faults peer.old.client notes.old)
        (streams SW.contents SR.remaining F.contents F.faults peer.new.client notes.new)
        request name.now) }
    ensures err { IfErr result IsOwnFault }
{
    let heard = ask_once(rt, alloc, request, peer)?;
    if let BorrowedReply::No(refusal) = heard.reply() {
        tell_refusal(alloc, name, refusal, notes)?;
        return Ok(Err(refusal));
    }
    Ok(Ok(heard))
}

/// Sends a look, and returns the reply. If it is refused, that is told of this name, and the command ends.
pub(crate) fn ask_about<H: Wait, SR: Replies, SW: Requests, F: Sink>(
    rt: &H,
    alloc: Global,
    request: Request,
    name: &str,
    peer: &mut Peer<SR, SW>,
    notes: &mut F,
) -> Result<Heard, Stop>
    requires { IsLook request }
    ensures begun { peer.new.begun ≡ peer.old.begun }
    ensures ok { IfOk result (λ heard. IsHeard
        (streams SW.contents SR.remaining F.contents F.faults peer.old.client notes.old)
        (streams SW.contents SR.remaining F.contents F.faults peer.new.client notes.new)
        request (line_of heard)) }
    ensures err { IfErr result IsOwnStop }
{
    match ask_or_tell(rt, alloc, request, name, peer, notes)? {
        Ok(heard) => Ok(heard),
        Err(_) => Err(Stop::Reply(Outcome::Refused)),
    }
}

/// Sends the look at this name that these words spell, and returns the reply, or the refusal, which is told.
pub(crate) fn look_up<H: Wait, SR: Replies, SW: Requests, F: Sink>(
    rt: &H,
    alloc: Global,
    words: &[&str],
    name: &str,
    peer: &mut Peer<SR, SW>,
    notes: &mut F,
) -> Result<Result<Heard, Refusal>, Stop>
    ensures begun { peer.new.begun ≡ peer.old.begun }
    ensures ok { IfOk result (IsFoundBy
        (streams SW.contents SR.remaining F.contents F.faults peer.old.client notes.old)
        (streams SW.contents SR.remaining F.contents F.faults peer.new.client notes.new)
        (joined (λ word. word.now) words.now) name.now) }
    ensures err { IfErr result IsOwnFault }
{
    match look_of(alloc, words)? {
        Ok(request) => ask_or_tell(rt, alloc, request, name, peer, notes),
        Err(refusal) => {
            tell_refusal(alloc, name, refusal, notes)?;
            Ok(Err(refusal))
        }
    }
}

// The handle that was heard.
fn handle_of(looked: Result<Heard, Refusal>) -> Result<u64, Stop>
    ensures ok { IfOk result (λ handle. TellsBy shown.Number looked (Ok handle)) }
    ensures err { IfErr result IsOwnStop }
{
    match looked {
        Ok(heard) => match heard.reply() {
            BorrowedReply::Number(handle) => Ok(handle),
            _ => Err(Stop::Fault(AskError::Unknown)),
        },
        Err(_) => Err(Stop::Reply(Outcome::Refused)),
    }
}

/// Asks for a handle at a fifodir by the look that these words spell. If it is refused, that is told of this name, and the command
/// ends.
pub(crate) fn handle_for<H: Wait, SR: Replies, SW: Requests, F: Sink>(
    rt: &H,
    alloc: Global,
    words: &[&str],
    name: &str,
    peer: &mut Peer<SR, SW>,
    notes: &mut F,
) -> Result<u64, Stop>
    ensures begun { peer.new.begun ≡ peer.old.begun }
    ensures ok { IfOk result (IsHandled
        (streams SW.contents SR.remaining F.contents F.faults peer.old.client notes.old)
        (streams SW.contents SR.remaining F.contents F.faults peer.new.client notes.new)
        (joined (λ word. word.now) words.now)) }
    ensures err { IfErr result IsOwnStop }
{
    handle_of(look_up(rt, alloc, words, name, peer, notes)?)
}

// The status that was heard, or the refusal.
fn status_of(looked: Result<Heard, Refusal>) -> Result<Result<Status, Refusal>, Stop>
    ensures ok { IfOk result (TellsBy shown.State looked) }
    ensures err { IfErr result IsOwnFault }
{
    match looked {
        Ok(heard) => match heard.reply() {
            BorrowedReply::State(status) => Ok(Ok(status)),
            _ => Err(Stop::Fault(AskError::Unknown)),
        },
        Err(why) => Ok(Err(why)),
    }
}

/// How the fifodir is, or why the hub doesn't say, which is told.
pub(crate) fn state_of<H: Wait, SR: Replies, SW: Requests, F: Sink>(
    rt: &H,
    alloc: Global,
    name: &str,
    peer: &mut Peer<SR, SW>,
    notes: &mut F,
) -> Result<Result<Status, Refusal>, Stop>
    ensures begun { peer.new.begun ≡ peer.old.begun }
    ensures ok { IfOk result (IsJudged
        (streams SW.contents SR.remaining F.contents F.faults peer.old.client notes.old)
        (streams SW.contents SR.remaining F.contents F.faults peer.new.client notes.new)
        name.now) }
    ensures err { IfErr result IsOwnFault }
{
    status_of(look_up(rt, alloc, &["status", name], name, peer, notes)?)
}
