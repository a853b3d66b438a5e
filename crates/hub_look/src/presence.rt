//! Whether fifodirs are there.
ghost use Rattle.std.specs.Prelude.{◌≡◌};

use crate::look::look_of;
use crate::peer::Peer;
use hub_ask::{AskError, Replies, Requests};
use hub_protocol::BorrowedReply;
use hub_requests::Refusal;
use std::alloc::Global;
use std::sync::Wait;

// Whether the hub has a fifodir of this name, or refuses the name for another reason.
fn is_there<H: Wait, SR: Replies, SW: Requests>(
    rt: &H,
    alloc: Global,
    name: &str,
    peer: &mut Peer<SR, SW>,
) -> Result<bool, AskError>
    ensures begun { peer.new.begun ≡ peer.old.begun }
{
    let request = match look_of(alloc, &["status", name])? {
        Ok(request) => request,
        Err(_) => return Ok(true),
    };
    let heard = peer.ask(rt, alloc, &request);
    // As in `ask_once`, no exit drops it.
    drop(request);
    Ok(!matches!(heard?.reply(), BorrowedReply::No(Refusal::Name)))
}

/// Whether the hub has all of these fifodirs, by a look at each. It writes nothing.
pub fn are_there<H: Wait, SR: Replies, SW: Requests>(
    rt: &H,
    alloc: Global,
    names: &[&str],
    peer: &mut Peer<SR, SW>,
) -> Result<bool, AskError>
    // What it sends are looks (`Peer`).
    ensures begun { peer.new.begun ≡ peer.old.begun }
{
    'names: for name in names {
        if !is_there(rt, alloc, name, peer)? {
            return Ok(false);
        }
    }
    Ok(true)
}
