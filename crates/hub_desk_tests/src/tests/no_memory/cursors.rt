//! Calls of a record with eight subscriptions: its events go round the ring, fill it, and evict.
use crate::tests::no_memory::mark;
use hub_letters::Letter;
use hub_record::{Event, Kind, Limits, NoId, Policy, PubError, Record, SubError, Taken};
use std::alloc::Global;
use std::io;
use std::io::ErrorKind;

/// The last of the ids.
const LAST: u64 = 8;

/// A record in which so many events may be pending for the slowest of eight subscriptions.
fn record_of_eight(alloc: Global, policy: Policy) -> io::Result<Record> {
    let limits = Limits::new(4, 1_000, LAST).with(policy);
    let mut record = Record::new(alloc, Kind::Plain, limits)?;
    for before in 0..LAST {
        if record.subscribe() != Ok((before.wrapping_add(1), 0)) {
            return Err(ErrorKind::InvalidData.into());
        }
    }
    Ok(record)
}

/// Whether each of these ids takes so, into so much room.
fn each_takes(record: &mut Record, ids: &[u64], out: &mut [Event], wanted: Taken) -> bool {
    for id in ids.iter() {
        if record.peek_into(*id, out) != Ok(wanted) || record.take_into(*id, out) != Ok(wanted) {
            return false;
        }
    }
    true
}

/// Whether each of these ids is cancelled, once.
fn each_is_cancelled(record: &mut Record, ids: &[u64]) -> bool {
    for id in ids.iter() {
        if record.cancel(*id) != Ok(()) || record.cancel(*id) != Err(NoId) {
            return false;
        }
    }
    true
}

/// The calls of a record that holds: its events go round the ring, and fill it.
pub(crate) fn eight_hold(alloc: Global) -> io::Result<bool> {
    let mut record = record_of_eight(alloc, Policy::Hold)?;
    let (abc, ab) = ([Letter::LEAST; 3], [Letter::LEAST; 2]);
    let ids = [1, 2, 3, 4, 5, 6, 7, LAST];
    let slow = [6, 7, LAST];
    let (mut all, mut two) = ([Event::FILLER; 4], [Event::FILLER; 2]);
    mark();
    let first = record.publish(1, &abc);
    let none_left = each_takes(&mut record, &ids, &mut all, Taken::Got(3))
        && each_takes(&mut record, &ids, &mut all, Taken::Nothing);
    let round = record.publish(1, &abc);
    let some_left = each_takes(&mut record, &ids[..5], &mut all, Taken::Got(3))
        && each_takes(&mut record, &slow[..2], &mut two, Taken::Got(2));
    let full = (record.publish(1, &ab), record.publish(1, &ab[..1]));
    let seen = (record.load(), record.base(), record.active());
    let slowest = (record.waiting(LAST), record.waiting(7));
    let refused = record.subscribe();
    let caught_up = each_takes(&mut record, &[LAST], &mut two, Taken::Got(2))
        && each_takes(&mut record, &slow, &mut all, Taken::Got(2));
    let closed = record.close();
    let ended = each_takes(&mut record, &slow, &mut all, Taken::End)
        && each_is_cancelled(&mut record, &ids);
    mark();
    Ok(
        (first, round, none_left, some_left) == (Ok(0), Ok(3), true, true)
            && full == (Err(PubError::Full), Ok(6))
            && (seen, slowest) == ((4, 3, 8), (Some(4), Some(2)))
            && refused == Err(SubError::Spent)
            && (caught_up, closed, ended) == (true, Ok(()), true),
    )
}

/// The calls of a record that evicts some of its subscriptions, and then all that are left.
pub(crate) fn eight_are_evicted(alloc: Global) -> io::Result<bool> {
    let mut record = record_of_eight(alloc, Policy::Evict)?;
    let (long, abc) = ([Letter::LEAST; 5], [Letter::LEAST; 3]);
    let ids = [1, 2, 3, 4, 5, 6, 7, LAST];
    let mut all = [Event::FILLER; 4];
    mark();
    let first = record.publish(1, &abc);
    let some_took = each_takes(&mut record, &ids[..3], &mut all, Taken::Got(3));
    let second = record.publish(1, &abc);
    let some_evicted = each_takes(&mut record, &ids[3..], &mut all, Taken::Evicted);
    let seen = (record.active(), record.load(), record.waiting(LAST));
    let third = record.publish(1, &abc);
    let all_evicted = each_takes(&mut record, &ids, &mut all, Taken::Evicted);
    let alone = (record.publish(1, &long), record.load());
    let cancelled = each_is_cancelled(&mut record, &ids);
    mark();
    Ok(
        (first, second, third) == (Ok(0), Ok(3), Ok(6))
            && (some_took, some_evicted, all_evicted) == (true, true, true)
            && seen == (3, 3, None)
            && alone == (Ok(9), 0)
            && cancelled,
    )
}
