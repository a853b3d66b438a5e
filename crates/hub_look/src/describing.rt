//! What a hub says of a fifodir: what it is, and how it is.
ghost use Rattle.std.specs.Prelude.{◌≡◌, IfOk, IfErr};
ghost use Rattle.hub_look.specs.Stops.{IsOwnFault};
ghost use Rattle.hub_ask.specs.Streams.{streams};
ghost use Rattle.hub_look.specs.Tables.{IsAbout, IsDescribed, TellsBy};
ghost use Rattle.hub_protocol.specs.declared.replies.BorrowedReply.TheVariants as shown;

use crate::asking::{look_up, state_of};
use crate::peer::Peer;
use crate::stop::Stop;
use hub_ask::{AskError, Heard, Replies, Requests};
use hub_io::Sink;
use hub_protocol::BorrowedReply;
use hub_requests::{About, Refusal};
use hub_views::Description;
use std::alloc::Global;
use std::sync::Wait;

// What was heard of what it is, or the refusal.
fn about_in(looked: Result<Heard, Refusal>) -> Result<Result<About, Refusal>, Stop>
    ensures ok { IfOk result (TellsBy shown.About looked) }
    ensures err { IfErr result IsOwnFault }
{
    match looked {
        Ok(heard) => match heard.reply() {
            BorrowedReply::About(about) => Ok(Ok(about)),
            _ => Err(Stop::Fault(AskError::Unknown)),
        },
        Err(why) => Ok(Err(why)),
    }
}

// What the fifodir is, or why the hub doesn't say, which is told.
fn about_of<H: Wait, SR: Replies, SW: Requests, F: Sink>(
    rt: &H,
    alloc: Global,
    name: &str,
    peer: &mut Peer<SR, SW>,
    notes: &mut F,
) -> Result<Result<About, Refusal>, Stop>
    ensures begun { peer.new.begun ≡ peer.old.begun }
    ensures ok { IfOk result (IsAbout
        (streams SW.contents SR.remaining F.contents F.faults peer.old.client notes.old)
        (streams SW.contents SR.remaining F.contents F.faults peer.new.client notes.new)
        name.now) }
    ensures err { IfErr result IsOwnFault }
{
    about_in(look_up(rt, alloc, &["about", name], name, peer, notes)?)
}

/// What the fifodir is and how it is, or why the hub doesn't say, which is told once.
pub(crate) fn describe<H: Wait, SR: Replies, SW: Requests, F: Sink>(
    rt: &H,
    alloc: Global,
    name: &str,
    peer: &mut Peer<SR, SW>,
    notes: &mut F,
) -> Result<Result<Description, Refusal>, Stop>
    ensures begun { peer.new.begun ≡ peer.old.begun }
    ensures ok { IfOk result (IsDescribed
        (streams SW.contents SR.remaining F.contents F.faults peer.old.client notes.old)
        (streams SW.contents SR.remaining F.contents F.faults peer.new.client notes.new)
        name.now) }
    ensures err { IfErr result IsOwnFault }
{
    let about = match about_of(rt, alloc, name, peer, notes)? {
        Ok(about) => about,
        Err(refusal) => return Ok(Err(refusal)),
    };
    match state_of(rt, alloc, name, peer, notes)? {
        Ok(status) => Ok(Ok(Description { about, status })),
        Err(refusal) => Ok(Err(refusal)),
    }
}
