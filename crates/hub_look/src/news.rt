//! The letters of fifodirs as they come.
ghost use Rattle.std.specs.Prelude.{◌≡◌, length, map, IfOk, IfErr, MatchBool, OnOk};
ghost use Rattle.std.specs.List.{list_all};
ghost use Rattle.hub_look.specs.Follows.{EndsByItself, EndsFollow, EndsLookAt, EndsLooks, EndsRounds, FailsToFollow, FollowsTo, IsSeenTo, LooksOn, again_line, begins_by, manner_of, names_of, scene};
ghost use Rattle.hub_look.specs.Stops.{IsOwnStop};
ghost use Rattle.hub_ask.specs.Streams.{IsToldTo, streams};
ghost use Rattle.hub_look.specs.Subscribing.{name_of};

use crate::following::Following;
use crate::peer::Peer;
use crate::stop::Stop;
use crate::subscribing::{Followed, subscribe_to_all};
use crate::taking::take_and_write;
use hub_ask::{AskError, Outcome, Replies, Requests, write_note};
use hub_io::Sink;
use std::alloc::Global;
use std::rt::Clock;
use std::sync::Wait;

/// What is said once they are followed again.
const AGAIN: &[u8] = b"ftrighub: following again; events may lie between\n";

/// How many turns it takes at most to look at each of several fifodirs once, if nothing comes.
const ROUND: u64 = 200;

/// How many turns a look at the only fifodir may take, if nothing comes. A hub that is stopped is noticed after that.
const LONGEST: u64 = 5_000;

// Looks once at one fifodir, unless it is over. Returns whether letters came.
fn look_at<H: Wait + Clock, SR: Replies, SW: Requests, W: Sink, F: Sink>(
    rt: &H,
    alloc: Global,
    following: &Following<'_>,
    turns: u64,
    followed: &mut Followed,
    peer: &mut Peer<SR, SW>,
    output: &mut W,
    notes: &mut F,
) -> Result<bool, Stop>
    ensures begun { peer.new.begun ≡ peer.old.begun }
    ensures ok { OnOk result (IsSeenTo (manner_of following.now) followed.old followed.new
        (streams SW.contents SR.remaining F.contents F.faults peer.old.client notes.old)
        (streams SW.contents SR.remaining F.contents F.faults peer.new.client notes.new)
        (W.contents output.old) (W.contents output.new)) }
    ensures err { IfErr result (EndsLookAt (manner_of following.now) followed.old followed.new
        (streams SW.contents SR.remaining F.contents F.faults peer.old.client notes.old)
        (streams SW.contents SR.remaining F.contents F.faults peer.new.client notes.new)
        (W.contents output.old) (W.contents output.new)) }
{
    if followed.is_over {
        return Ok(false);
    }
    take_and_write(rt, alloc, following, turns, followed, peer, output, notes)
}

// Looks once at each fifodir that isn't over. Returns whether letters of any of them came.
fn look_at_each<H: Wait + Clock, SR: Replies, SW: Requests, W: Sink, F: Sink>(
    rt: &H,
    alloc: Global,
    following: &Following<'_>,
    turns: u64,
    all: &mut [Followed],
    peer: &mut Peer<SR, SW>,
    output: &mut W,
    notes: &mut F,
) -> Result<bool, Stop>
    ensures begun { peer.new.begun ≡ peer.old.begun }
    ensures length { length all.new ≡ length all.old }
    ensures ok { OnOk result (LooksOn (manner_of following.now)
        (scene all.old (streams SW.contents SR.remaining F.contents F.faults
        peer.old.client notes.old) (W.contents output.old))
        (scene all.new (streams SW.contents SR.remaining F.contents F.faults
        peer.new.client notes.new) (W.contents output.new))) }
    ensures err { IfErr result (EndsLooks (manner_of following.now)
        (scene all.old (streams SW.contents SR.remaining F.contents F.faults
        peer.old.client notes.old) (W.contents output.old))
        (streams SW.contents SR.remaining F.contents F.faults peer.new.client notes.new)
        (W.contents output.new)) }
{
    let mut came = false;
    'followed: for at in 0..all.len() {
        let followed = &mut all[at];
        came |= look_at(rt, alloc, following, turns, followed, peer, output, notes)?;
    }
    Ok(came)
}

// For how many turns it may sleep at each of so many fifodirs. If letters of some came, more may be pending, so it doesn't sleep at
// the others.
fn turns_each(count: usize, came: bool) -> u64 {
    match (count, came) {
        (0 | 1, _) => LONGEST,
        (_, true) => 0,
        (_, false) => (ROUND / count as u64).max(1),
    }
}

// How many of them aren't over.
fn open_count(all: &[Followed]) -> usize {
    all.iter().filter(|followed| !followed.is_over).count()
}

// Whether nothing will come of any of them.
fn are_over(all: &[Followed]) -> bool
    ensures { result ≡ list_all (λ followed. followed.is_over) all.now }
{
    all.iter().all(|followed| followed.is_over)
}

// Subscribes to each, and says so if they were followed before.
fn begin<H: Wait, SR: Replies, SW: Requests, F: Sink>(
    rt: &H,
    alloc: Global,
    following: &Following<'_>,
    peer: &mut Peer<SR, SW>,
    notes: &mut F,
) -> Result<Vec<Followed>, Stop>
    ensures begun { peer.new.begun ≡ peer.old.begun }
    ensures names { IfOk result (λ all. map name_of all.items ≡ names_of following.now) }
    ensures ok { IfOk result (λ all. begins_by following.now
        (streams SW.contents SR.remaining F.contents F.faults peer.old.client notes.old)
        (streams SW.contents SR.remaining F.contents F.faults peer.new.client notes.new)
        (names_of following.now) all.items) }
    ensures err { IfErr result IsOwnStop }
{
    let all = subscribe_to_all(rt, alloc, following, peer, notes)?;
    say_again(following.is_again, notes);
    Ok(all)
}

// Says that they are followed again, if they are.
fn say_again<F: Sink>(is_again: bool, notes: &mut F)
    ensures { MatchBool is_again
        (IsToldTo (F.contents notes.old) (F.contents notes.new)
        (F.faults notes.old) (F.faults notes.new) again_line)
        (notes.new ≡ notes.old) }
{
    if is_again {
        write_note(AGAIN, notes);
    }
}

// Looks at each, round after round, until a reply ends that, or all are over, or its time.
fn look_on<H: Wait + Clock, SR: Replies, SW: Requests, W: Sink, F: Sink>(
    rt: &H,
    alloc: Global,
    following: &Following<'_>,
    all: &mut [Followed],
    peer: &mut Peer<SR, SW>,
    output: &mut W,
    notes: &mut F,
) -> Result<Outcome, Stop>
    ensures begun { peer.new.begun ≡ peer.old.begun }
    ensures ok { IfOk result (EndsRounds (manner_of following.now)
        (scene all.old (streams SW.contents SR.remaining F.contents F.faults
        peer.old.client notes.old) (W.contents output.old))
        (scene all.new (streams SW.contents SR.remaining F.contents F.faults
        peer.new.client notes.new) (W.contents output.new))) }
    ensures err { IfErr result (EndsLooks (manner_of following.now)
        (scene all.old (streams SW.contents SR.remaining F.contents F.faults
        peer.old.client notes.old) (W.contents output.old))
        (streams SW.contents SR.remaining F.contents F.faults peer.new.client notes.new)
        (W.contents output.new)) }
{
    let mut came = false;
    'rounds: for _ in rt.forever() {
        if are_over(all) {
            return Ok(Outcome::Nothing);
        }
        let Some(left) = following.millis_left(rt) else {
            return Ok(Outcome::Late);
        };
        let turns = turns_each(open_count(all), came).min(left);
        came = look_at_each(rt, alloc, following, turns, all, peer, output, notes)?;
    }
    unreachable!()
}

// Follows until a reply ends it, or all are over, or its time.
fn follow_on<H: Wait + Clock, SR: Replies, SW: Requests, W: Sink, F: Sink>(
    rt: &H,
    alloc: Global,
    following: &Following<'_>,
    peer: &mut Peer<SR, SW>,
    output: &mut W,
    notes: &mut F,
) -> Result<Outcome, Stop>
    ensures begun { peer.new.begun ≡ peer.old.begun }
    ensures ok { IfOk result (EndsByItself (manner_of following.now)
        (begins_by following.now
        (streams SW.contents SR.remaining F.contents F.faults peer.old.client notes.old))
        (names_of following.now)
        (streams SW.contents SR.remaining F.contents F.faults peer.new.client notes.new)
        (W.contents output.old) (W.contents output.new)) }
    ensures err { IfErr result (EndsFollow (manner_of following.now)
        (begins_by following.now
        (streams SW.contents SR.remaining F.contents F.faults peer.old.client notes.old))
        (names_of following.now)
        (streams SW.contents SR.remaining F.contents F.faults peer.new.client notes.new)
        (W.contents output.old) (W.contents output.new)) }
{
    let mut all = begin(rt, alloc, following, peer, notes)?;
    look_on(rt, alloc, following, &mut all, peer, output, notes)
}

/// Writes each letter of the fifodirs, or each hit, as it comes, until all of them are closed, or one of them evicts it, or its time
/// is over. That ends it by itself only between two looks: the peer's streams are [`Limited`](crate::Limited) as well. `notes` gets
/// a line on a name that the hub refuses, or that it was evicted from. With several fifodirs it looks at one after the other, and at
/// all of them within about a fifth of a second.
pub fn follow<H: Wait + Clock, SR: Replies, SW: Requests, W: Sink, F: Sink>(
    rt: &H,
    alloc: Global,
    following: &Following<'_>,
    peer: &mut Peer<SR, SW>,
    output: &mut W,
    notes: &mut F,
) -> Result<Outcome, AskError>
    // What it sends are looks (`Peer`).
    ensures begun { peer.new.begun ≡ peer.old.begun }
    // Each fifodir was subscribed to, in order. The letters of each reply were written once, in order, under the name of their
    // fifodir. The last reply tells the outcome.
    ensures ok { IfOk result (FollowsTo (manner_of following.now)
        (begins_by following.now
        (streams SW.contents SR.remaining F.contents F.faults peer.old.client notes.old))
        (names_of following.now)
        (streams SW.contents SR.remaining F.contents F.faults peer.new.client notes.new)
        (W.contents output.old) (W.contents output.new)) }
    ensures err { IfErr result (FailsToFollow (manner_of following.now)
        (begins_by following.now
        (streams SW.contents SR.remaining F.contents F.faults peer.old.client notes.old))
        (names_of following.now)
        (streams SW.contents SR.remaining F.contents F.faults peer.new.client notes.new)
        (W.contents output.old) (W.contents output.new)) }
{
    match follow_on(rt, alloc, following, peer, output, notes) {
        Ok(outcome) => Ok(outcome),
        Err(stop) => following.outcome_of(rt, stop),
    }
}
