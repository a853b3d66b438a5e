//! What comes next of a fifodir that is followed, and how it is written.
ghost use Rattle.std.specs.Prelude.{◌≡◌, ℕ, List, length, true, Err, Ok, IfErr, OnOk, MatchResult, if◌then◌else◌, is_some};
ghost use Rattle.std.specs.Io.KnownBytes.{Appends};
ghost use Rattle.hub_requests.specs.declared.reply.Reply.{Reply as replies};
ghost use Rattle.hub_ask.specs.declared.outcome.Outcome.TheVariants as outcome;
ghost use Rattle.hub_views.specs.EventLines.{IsTextOf, number_after};
ghost use Rattle.hub_protocol.specs.Replies.{Shows};
ghost use Rattle.hub_look.specs.Follows.{EndsTake, FailsToWrite, GoesOn, IsSettled, IsTaken, StopsBy, manner_of, written_of};
ghost use Rattle.hub_look.specs.Subscribing.{name_of};
ghost use Rattle.hub_ask.specs.Streams.{streams};
ghost use Rattle.hub_look.specs.declared.stop.Stop.TheVariants as stops;

use crate::asking::ask_once;
use crate::following::Following;
use crate::peer::Peer;
use crate::stop::{Stop, tell, tell_refusal, write_text};
use crate::subscribing::Followed;
use hub_ask::{AskError, Outcome, Replies, Requests};
use hub_io::Sink;
use hub_protocol::BorrowedReply;
use hub_requests::Request;
use hub_views::number_after;
use std::alloc::Global;
use std::rt::Clock;
use std::sync::Wait;

// Writes the letters, or the hit, that came.
fn write_letters<C: Clock, W: Sink>(
    clock: &C,
    alloc: Global,
    following: &Following<'_>,
    followed: &mut Followed,
    letters: &[u8],
    output: &mut W,
) -> Result<(), Stop>
    ensures ok { OnOk result ((text : List ℕ)
        × IsTextOf (is_some following.now.pattern) following.now.form
        (name_of followed.old) followed.old.next letters.now text
        × Appends (W.contents output.old) (W.contents output.new) text) }
    ensures moved { OnOk result (followed.new ≡ record followed.old
        { next = number_after followed.old.next (length letters.now) }) }
    ensures err { IfErr result (FailsToWrite (manner_of following.now) followed.old
        (W.contents output.old) (W.contents output.new)) }
{
    let lines = following.lines(clock, alloc, followed.name.as_str(), followed.next, letters)?;
    write_text(output, &lines)?;
    followed.next = number_after(followed.next, letters.len() as u64);
    Ok(())
}

// The letters of a reply that are written: the first one alone, if that is enough.
fn written_of<'a>(following: &Following<'_>, letters: &'a [u8]) -> &'a [u8]
    ensures { result.now ≡ written_of following.now.is_once letters.now }
{
    if following.is_once {
        &letters[..letters.len().min(1)]
    } else {
        letters
    }
}

// Writes the letters of this reply, or tells of another one what there is to tell.
fn write_reply<C: Clock, W: Sink, F: Sink>(
    clock: &C,
    alloc: Global,
    following: &Following<'_>,
    reply: BorrowedReply<'_>,
    followed: &mut Followed,
    output: &mut W,
    notes: &mut F,
) -> Result<(), Stop>
    ensures ok { (it : replies) → Shows reply.entry it → OnOk result (IsSettled
        (manner_of following.now) followed.old followed.new
        (F.contents notes.old) (F.contents notes.new) (F.faults notes.old) (F.faults notes.new)
        (W.contents output.old) (W.contents output.new) it) }
    ensures err { IfErr result (FailsToWrite (manner_of following.now) followed.old
        (W.contents output.old) (W.contents output.new)) }
{
    match reply {
        BorrowedReply::Got(letters) => {
            let letters = written_of(following, letters);
            write_letters(clock, alloc, following, followed, letters, output)
        }
        BorrowedReply::Hit(letters) => {
            write_letters(clock, alloc, following, followed, letters, output)
        }
        BorrowedReply::End => {
            followed.is_over = true;
            Ok(())
        }
        BorrowedReply::Evicted => Ok(tell(alloc, followed.name.as_str(), "evicted", notes)?),
        BorrowedReply::No(refusal) => {
            Ok(tell_refusal(alloc, followed.name.as_str(), refusal, notes)?)
        }
        _ => Ok(()),
    }
}

// How a follow goes on after letters.
fn after_letters(following: &Following<'_>) -> Result<bool, Stop>
    ensures { result ≡ (if following.now.is_once
        then Err (stops.Reply outcome.Done) else Ok true) }
{
    if following.is_once {
        Err(Stop::Reply(Outcome::Done))
    } else {
        Ok(true)
    }
}

// How a follow goes on after this reply, which is written. Ok has whether letters came.
fn after_reply(following: &Following<'_>, reply: BorrowedReply<'_>) -> Result<bool, Stop>
    ensures { (it : replies) → Shows reply.entry it → MatchResult result
        (λ _. GoesOn following.now.is_once it) (StopsBy following.now.is_once it) }
{
    match reply {
        BorrowedReply::Got(_) | BorrowedReply::Hit(_) => after_letters(following),
        BorrowedReply::Late | BorrowedReply::End => Ok(false),
        BorrowedReply::Evicted => Err(Stop::Reply(Outcome::Nothing)),
        BorrowedReply::No(_) => Err(Stop::Reply(Outcome::Refused)),
        _ => Err(Stop::Fault(AskError::Unknown)),
    }
}

/// Takes what comes next of one fifodir, within so many turns, and writes it. Returns whether letters came.
pub(crate) fn take_and_write<H: Wait + Clock, SR: Replies, SW: Requests, W: Sink, F: Sink>(
    rt: &H,
    alloc: Global,
    following: &Following<'_>,
    turns: u64,
    followed: &mut Followed,
    peer: &mut Peer<SR, SW>,
    output: &mut W,
    notes: &mut F,
) -> Result<bool, Stop>
    ensures begun { peer.new.begun ≡ peer.old.begun }
    ensures ok { OnOk result ((reply : replies) × IsTaken
        (manner_of following.now) turns followed.old followed.new
        (streams SW.contents SR.remaining F.contents F.faults peer.old.client notes.old)
        (streams SW.contents SR.remaining F.contents F.faults peer.new.client notes.new)
        (W.contents output.old) (W.contents output.new) reply
        × GoesOn following.now.is_once reply) }
    ensures err { IfErr result (EndsTake
        (manner_of following.now) turns followed.old followed.new
        (streams SW.contents SR.remaining F.contents F.faults peer.old.client notes.old)
        (streams SW.contents SR.remaining F.contents F.faults peer.new.client notes.new)
        (W.contents output.old) (W.contents output.new)) }
{
    let id = followed.handle;
    let heard = ask_once(rt, alloc, Request::Next { id, turns }, peer)?;
    let reply = heard.reply();
    write_reply(rt, alloc, following, reply, followed, output, notes)?;
    after_reply(following, reply)
}
