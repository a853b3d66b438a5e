//! The beginning of a follow: a handle for each fifodir.
ghost use Rattle.std.specs.Prelude.{◌≡◌, ◌++◌, ◌∷◌, [], map, Ok, IfOk, IfErr, OnOk, MatchOption};
ghost use Rattle.hub_record.specs.declared.Status.{Status as status};
ghost use Rattle.hub_ask.specs.Lines.{joined};
ghost use Rattle.hub_look.specs.Stops.{IsOwnStop};
ghost use Rattle.hub_ask.specs.Streams.{streams};
ghost use Rattle.hub_look.specs.Subscribing.{AreBegun, IsBegun, IsCancelled, IsNumbered, IsSubscribed, IsTried, name_of};
ghost use Rattle.hub_look.specs.Tables.{IsJudged};

use crate::asking::{ask_about, handle_for, state_of};
use crate::following::Following;
use crate::peer::Peer;
use crate::stop::Stop;
use hub_ask::{AskError, Outcome, Replies, Requests};
use hub_io::Sink;
use hub_protocol::BorrowedReply;
use hub_requests::Request;
use hub_views::Form;
use std::alloc::{AllocError, Global};
use std::sync::Wait;

/// How often it tries to subscribe between two events, so that it knows the number of the next one.
const TRIES: u64 = 100;

/// A fifodir that is followed.
#[derive(Drop)]
pub(crate) struct Followed {
    pub(crate) name: String,
    /// The handle of the subscription or the listener.
    pub(crate) handle: u64,
    /// The number of the next event, if it is known.
    pub(crate) next: Option<u64>,
    /// Whether nothing will come any more.
    pub(crate) is_over: bool,
}

// How many events the fifodir has.
fn events_of<H: Wait, SR: Replies, SW: Requests, F: Sink>(
    rt: &H,
    alloc: Global,
    name: &str,
    peer: &mut Peer<SR, SW>,
    notes: &mut F,
) -> Result<u64, Stop>
    ensures begun { peer.new.begun ≡ peer.old.begun }
    ensures ok { IfOk result (λ number. (status : status) × IsJudged
        (streams SW.contents SR.remaining F.contents F.faults peer.old.client notes.old)
        (streams SW.contents SR.remaining F.contents F.faults peer.new.client notes.new)
        name.now (Ok status) × (number ≡ status.number)) }
    ensures err { IfErr result IsOwnStop }
{
    match state_of(rt, alloc, name, peer, notes)? {
        Ok(status) => Ok(status.number),
        Err(_) => Err(Stop::Reply(Outcome::Refused)),
    }
}

/// Subscribes, and knows the number of the next event: no event came between a look before and one after it. None if one came.
fn subscribe_between<H: Wait, SR: Replies, SW: Requests, F: Sink>(
    rt: &H,
    alloc: Global,
    name: &str,
    peer: &mut Peer<SR, SW>,
    notes: &mut F,
) -> Result<Option<Followed>, Stop>
    ensures begun { peer.new.begun ≡ peer.old.begun }
    ensures ok { IfOk result (λ it. MatchOption it
        (IsCancelled
        (streams SW.contents SR.remaining F.contents F.faults peer.old.client notes.old)
        (streams SW.contents SR.remaining F.contents F.faults peer.new.client notes.new) name.now)
        (IsNumbered
        (streams SW.contents SR.remaining F.contents F.faults peer.old.client notes.old)
        (streams SW.contents SR.remaining F.contents F.faults peer.new.client notes.new) name.now)) }
    ensures err { IfErr result IsOwnStop }
{
    let before = events_of(rt, alloc, name, peer, notes)?;
    let handle = handle_for(rt, alloc, &["sub", name], name, peer, notes)?;
    if events_of(rt, alloc, name, peer, notes)? == before {
        return Ok(Some(Followed {
            name: String::from_str(alloc, name)?,
            handle,
            next: Some(before),
            is_over: false,
        }));
    }
    let cancel = Request::Cancel { id: handle };
    let heard = ask_about(rt, alloc, cancel, name, peer, notes)?;
    match heard.reply() {
        BorrowedReply::Done | BorrowedReply::Number(_) => Ok(None),
        _ => Err(Stop::Fault(AskError::Unknown)),
    }
}

// Subscribes, and knows the number of the next event unless the fifodir is too busy.
fn subscribe_numbered<H: Wait, SR: Replies, SW: Requests, F: Sink>(
    rt: &H,
    alloc: Global,
    name: &str,
    peer: &mut Peer<SR, SW>,
    notes: &mut F,
) -> Result<Followed, Stop>
    ensures begun { peer.new.begun ≡ peer.old.begun }
    ensures ok { IfOk result (IsTried
        (streams SW.contents SR.remaining F.contents F.faults peer.old.client notes.old)
        (streams SW.contents SR.remaining F.contents F.faults peer.new.client notes.new)
        name.now) }
    ensures err { IfErr result IsOwnStop }
{
    'tries: for _ in 0..TRIES {
        if let Some(followed) = subscribe_between(rt, alloc, name, peer, notes)? {
            return Ok(followed);
        }
    }
    subscribe_by(rt, alloc, &["sub", name], name, peer, notes)
}

// Subscribes by the look that these words spell. The number of the next event isn't known.
fn subscribe_by<H: Wait, SR: Replies, SW: Requests, F: Sink>(
    rt: &H,
    alloc: Global,
    words: &[&str],
    name: &str,
    peer: &mut Peer<SR, SW>,
    notes: &mut F,
) -> Result<Followed, Stop>
    ensures begun { peer.new.begun ≡ peer.old.begun }
    ensures ok { IfOk result (IsSubscribed
        (streams SW.contents SR.remaining F.contents F.faults peer.old.client notes.old)
        (streams SW.contents SR.remaining F.contents F.faults peer.new.client notes.new)
        (joined (λ word. word.now) words.now) name.now) }
    ensures err { IfErr result IsOwnStop }
{
    let handle = handle_for(rt, alloc, words, name, peer, notes)?;
    Ok(Followed {
        name: String::from_str(alloc, name)?,
        handle,
        next: None,
        is_over: false,
    })
}

// Subscribes to the fifodir as it is to be followed.
fn subscribe<H: Wait, SR: Replies, SW: Requests, F: Sink>(
    rt: &H,
    alloc: Global,
    following: &Following<'_>,
    name: &str,
    peer: &mut Peer<SR, SW>,
    notes: &mut F,
) -> Result<Followed, Stop>
    ensures begun { peer.new.begun ≡ peer.old.begun }
    ensures ok { IfOk result (IsBegun
        (λ word. word.now) following.now.pattern following.now.form
        (streams SW.contents SR.remaining F.contents F.faults peer.old.client notes.old)
        (streams SW.contents SR.remaining F.contents F.faults peer.new.client notes.new)
        name.now) }
    ensures err { IfErr result IsOwnStop }
{
    match (following.pattern, following.form) {
        (Some(pattern), _) => {
            let words = ["listen", name, "repeat", pattern];
            subscribe_by(rt, alloc, &words, name, peer, notes)
        }
        (None, Form::Plain) => subscribe_by(rt, alloc, &["sub", name], name, peer, notes),
        (None, Form::Line | Form::Json) => subscribe_numbered(rt, alloc, name, peer, notes),
    }
}

// Puts one more behind these.
fn put(all: &mut Vec<Followed>, followed: Followed) -> Result<(), AllocError>
    ensures { OnOk result (all.new.items ≡ all.old.items ++ followed ∷ []) }
{
    all.push(followed)?;
    Ok(())
}

/// Subscribes to each fifodir.
pub(crate) fn subscribe_to_all<H: Wait, SR: Replies, SW: Requests, F: Sink>(
    rt: &H,
    alloc: Global,
    following: &Following<'_>,
    peer: &mut Peer<SR, SW>,
    notes: &mut F,
) -> Result<Vec<Followed>, Stop>
    ensures begun { peer.new.begun ≡ peer.old.begun }
    ensures names { IfOk result (λ all. map name_of all.items
        ≡ map (λ name. name.now) following.now.names.items) }
    ensures ok { IfOk result (λ all. AreBegun
        (λ word. word.now) following.now.pattern following.now.form
        (streams SW.contents SR.remaining F.contents F.faults peer.old.client notes.old)
        (streams SW.contents SR.remaining F.contents F.faults peer.new.client notes.new)
        (map (λ name. name.now) following.now.names.items) all.items) }
    ensures err { IfErr result IsOwnStop }
{
    let mut all = Vec::new(alloc);
    let names = following.names.as_slice();
    'names: for name in names {
        let followed = subscribe(rt, alloc, following, name, peer, notes)?;
        put(&mut all, followed)?;
    }
    Ok(all)
}
