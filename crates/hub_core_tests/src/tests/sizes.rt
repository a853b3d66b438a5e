//! Each size that a call may have, with ample memory. A refused growth is a failure here.
use crate::tests::fixtures::{SIZES_TRIED, run_of, size_at};
use crate::tests::passes::{publisher, ticket};
use hub_fifodir::{Enter, Fifodir, Locked, PassError};
use hub_letters::Letter;
use hub_record::{
    Call, Event, Kind, Letters, Limits, PubError, Record, Said, SubError, Taken, World, replay,
};
use std::alloc::{AllocError, Global};
use std::process::Abort;
use std::sync::Wait;
use std::test::Fail;

/// The most events that may be pending.
const MOST: usize = 4096;

/// Whether a record of so many pending events takes a message of that size, and then no letter, and gives it back; and the
/// same of a record behind a lock.
fn records_hold(
    alloc: Global,
    limits: Limits,
    message: &[Letter],
    out: &mut [Event],
) -> Result<bool, AllocError> {
    let whole = Ok(Taken::Got(out.len()));
    let mut record = Record::new(alloc, Kind::Plain, limits)?;
    let mut locked = Locked::new(alloc, Kind::Plain, limits)?;
    let given = (record.subscribe(), locked.subscribe());
    let sent = (record.publish(1, message), locked.publish(1, message));
    let one = [Letter::LEAST];
    let more = (record.publish(1, &one), locked.publish(1, &one));
    let taken = (record.take_into(1, out), locked.take_into(1, out));
    let full = Err(PubError::Full);
    Ok(
        given == (Ok((1, 0)), Ok((1, 0)))
            && sent == (Ok(0), Ok(0))
            && more == (full, full)
            && taken == (whole, whole),
    )
}

fn fifodir_holds<R: Abort + Wait + Enter>(
    rt: &R,
    alloc: Global,
    limits: Limits,
    message: &[Letter],
    out: &mut [Event],
) -> Result<bool, AllocError> {
    let whole = Taken::Got(out.len());
    let fifodir = Fifodir::new(alloc, Kind::Plain, limits)?;
    let mut sender = publisher(rt, &fifodir);
    let mut reader = ticket(rt, &fifodir);
    let sent = fifodir.publish(rt, &mut sender, message);
    let more = fifodir.publish(rt, &mut sender, &[Letter::LEAST]);
    let taken = fifodir.take_into(rt, &mut reader, out);
    fifodir.leave(rt, sender);
    fifodir.cancel(rt, reader);
    Ok(sent == Ok(0) && more == Err(PubError::Full) && taken == whole)
}

/// How many events may be pending in the first record or fifodir that holds another number of them.
fn room_unlike<R: Abort + Wait + Enter>(
    rt: &R,
    alloc: Global,
) -> Result<Option<usize>, AllocError> {
    let letters = run_of(alloc, b'a', MOST)?;
    let mut events = vec![in alloc; Event::FILLER; MOST]?;
    for place in 1..SIZES_TRIED {
        let waiting = size_at(place);
        let (Some(limits), Some(message)) = (
            Limits::of(waiting as u64, 1_000_000, 10),
            letters.get(..waiting),
        ) else {
            return Ok(Some(waiting));
        };
        let Some((out, _)) = events.as_mut_slice().split_at_mut_checked(waiting) else {
            return Ok(Some(waiting));
        };
        if !records_hold(alloc, limits, message, out)?
            || !fifodir_holds(rt, alloc, limits, message, out)?
        {
            return Ok(Some(waiting));
        }
    }
    Ok(None)
}

fn gives_up_to_1024(locked: &mut Locked) -> bool {
    for before in 0..1024 {
        let number: u64 = before + 1;
        if locked.publisher() != Ok(number) || locked.subscribe() != Ok((number, 0)) {
            return false;
        }
    }
    true
}

/// Whether there is room for one more publisher and subscription after one of each has gone, and which refusals come
/// before and after.
fn gives_and_refuses(alloc: Global, limits: Limits) -> Result<bool, AllocError> {
    let mut locked = Locked::new(alloc, Kind::Plain, limits)?;
    let is_full = gives_up_to_1024(&mut locked)
        && locked.publisher() == Err(PassError::Many)
        && locked.subscribe() == Err(SubError::Many);
    locked.leave(7);
    locked.leave(7);
    let has_room = locked.cancel(7) == Ok(())
        && locked.publisher() == Ok(1025)
        && locked.publisher() == Err(PassError::Many)
        && locked.subscribe() == Ok((1025, 0))
        && locked.subscribe() == Err(SubError::Many);
    locked.leave(8);
    let is_spent = locked.cancel(8) == Ok(())
        && locked.publisher() == Err(PassError::Spent)
        && locked.subscribe() == Err(SubError::Spent);
    Ok(is_full && has_room && is_spent && locked.front() == 0)
}

#[test]
fn room_of_each_size(rt: HostRuntime) -> Result<(), Fail> {
    let limits = Limits::of(2, 100, 1025).ok_or("no limits")?;
    assert_eq!(rt; room_unlike(&rt, rt.alloc())?, None);
    assert!(rt; gives_and_refuses(rt.alloc(), limits)?);
    Ok(())
}

/// So many calls: a subscription, and then messages of one letter, each of which is taken.
fn messages(alloc: Global, count: usize) -> Result<Vec<Call>, AllocError> {
    let mut calls = Vec::new(alloc);
    for place in 0..count {
        calls.push(if place == 0 {
            Call::Subscribe
        } else if place % 2 == 1 {
            Call::Publish {
                who: 7,
                letters: Letters::of(run_of(alloc, b'a', 1)?),
            }
        } else {
            Call::Take { id: 1, max: 1 }
        })?;
    }
    Ok(calls)
}

/// The reply to the call at this place of `messages`.
fn reply_among_messages(place: usize) -> Said {
    if place == 0 {
        Said::Subscribed(Ok((1, 0)))
    } else if place % 2 == 1 {
        Said::Published(Ok((place / 2) as u64))
    } else {
        Said::Took(Ok(Taken::Got(1)))
    }
}

/// So many subscriptions.
fn subscriptions(alloc: Global, count: usize) -> Result<Vec<Call>, AllocError> {
    let mut calls = Vec::new(alloc);
    for _ in 0..count {
        calls.push(Call::Subscribe)?;
    }
    Ok(calls)
}

fn reply_among_subscriptions(place: usize) -> Said {
    if place < 1024 {
        Said::Subscribed(Ok(((place as u64).wrapping_add(1), 0)))
    } else {
        Said::Subscribed(Err(SubError::Many))
    }
}

/// How many events the ids gathered.
fn count_gathered(world: &World) -> usize {
    let mut count: usize = 0;
    for (_, events) in world.gathered.iter() {
        count = count.wrapping_add(events.len());
    }
    count
}

/// Whether a run of these calls of `messages` goes so.
fn runs_with_messages(alloc: Global, limits: Limits, calls: &[Call]) -> Result<bool, AllocError> {
    let count = calls.len();
    let world = replay(alloc, Kind::Plain, limits, calls)?;
    for (place, said) in world.replies.iter().enumerate() {
        if *said != reply_among_messages(place) {
            return Ok(false);
        }
    }
    Ok(
        world.replies.len() == count
            && world.state.end() == (count / 2) as u64
            && world.gathered.len() == count.min(1)
            && count_gathered(&world) == count.saturating_sub(1) / 2,
    )
}

fn runs_with_subscriptions(
    alloc: Global,
    limits: Limits,
    calls: &[Call],
) -> Result<bool, AllocError> {
    let count = calls.len();
    let world = replay(alloc, Kind::Plain, limits, calls)?;
    for (place, said) in world.replies.iter().enumerate() {
        if *said != reply_among_subscriptions(place) {
            return Ok(false);
        }
    }
    Ok(world.replies.len() == count && world.gathered.len() == count.min(1024))
}

/// How many calls the first run has that goes otherwise.
fn run_unlike(alloc: Global, limits: Limits) -> Result<Option<usize>, AllocError> {
    let messages = messages(alloc, MOST)?;
    let subscriptions = subscriptions(alloc, MOST)?;
    for place in 0..SIZES_TRIED {
        let count = size_at(place);
        let (Some(some_messages), Some(some_subscriptions)) = (
            messages.get(..count),
            subscriptions.get(..count),
        ) else {
            return Ok(Some(count));
        };
        if !runs_with_messages(alloc, limits, some_messages)?
            || !runs_with_subscriptions(alloc, limits, some_subscriptions)?
        {
            return Ok(Some(count));
        }
    }
    Ok(None)
}

/// A subscription, a message of so many letters, and a take of it.
fn message_and_take(alloc: Global, count: usize) -> Result<Vec<Call>, AllocError> {
    let mut calls = Vec::new(alloc);
    calls.push(Call::Subscribe)?;
    calls.push(Call::Publish {
        who: 7,
        letters: Letters::of(run_of(alloc, b'a', count)?),
    })?;
    calls.push(Call::Take { id: 1, max: MOST })?;
    Ok(calls)
}

/// How many letters the first message has of which another number is gathered.
fn message_unlike(alloc: Global, limits: Limits) -> Result<Option<usize>, AllocError> {
    for place in 0..SIZES_TRIED {
        let count = size_at(place);
        let calls = message_and_take(alloc, count)?;
        let world = replay(alloc, Kind::Plain, limits, &calls)?;
        if count_gathered(&world) != count || world.state.base() != count as u64 {
            return Ok(Some(count));
        }
    }
    Ok(None)
}

/// How many events may be pending in the first record that isn't made.
fn record_refused(alloc: Global) -> Option<u64> {
    for waiting in 1..=MOST as u64 {
        let Some(limits) = Limits::of(waiting, 1_000_000, 10) else {
            return Some(waiting);
        };
        if Record::new(alloc, Kind::Plain, limits).is_err() {
            return Some(waiting);
        }
    }
    None
}

#[test]
fn records_of_each_room(rt: HostRuntime) -> Result<(), Fail> {
    assert_eq!(rt; record_refused(rt.alloc()), None);
    Ok(())
}

#[test]
fn replays_of_each_size(rt: HostRuntime) -> Result<(), Fail> {
    let limits = Limits::of(4096, 1_000_000, 2000).ok_or("no limits")?;
    let many = messages(rt.alloc(), 10_000)?;
    assert!(rt; runs_with_messages(rt.alloc(), limits, &many)?);
    assert_eq!(rt; run_unlike(rt.alloc(), limits)?, None);
    assert_eq!(rt; message_unlike(rt.alloc(), limits)?, None);
    Ok(())
}
