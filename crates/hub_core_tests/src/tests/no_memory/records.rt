//! Calls of letters, of a record and of the value behind a fifodir's lock.
use crate::tests::fixtures::word;
use crate::tests::no_memory::mark;
use hub_fifodir::Locked;
use hub_letters::{Flags, Letter, Stage, Want};
use hub_record::{
    Closed, Event, Kind, Letters, Limits, NoId, Policy, PubError, Record, SubError, Taken,
};
use std::alloc::Global;
use std::io;

/// Each call of `hub_letters` and of `Limits`.
pub(crate) fn letters_are_read() -> bool {
    mark();
    let letter = Letter::of(b'u').unwrap_or(Letter::LEAST);
    let stage = Stage::Idle.next(letter);
    let followed = Stage::Idle.follow(&[letter, letter]);
    let flags = Flags::none().after(letter).after_all(&[letter]);
    let code = flags.code();
    let again = Flags::of_code(code);
    let met = (Want::Up.met(flags, true, false), Want::Up.hopeless(flags));
    let limits = Limits::of(1, 1, 1);
    let policy = Limits::new(1, 1, 1).with(Policy::Evict).policy();
    mark();
    letter.byte() == b'u'
        && stage == Some(Stage::Starting)
        && followed == Err(1)
        && (code, again) == (1, Some(flags))
        && met == (true, false)
        && limits.is_some()
        && policy == Policy::Evict
}

/// Each call of a record that has a subscription, and `Letters`.
pub(crate) fn a_record_is_used(alloc: Global) -> io::Result<bool> {
    let Some(limits) = Limits::of(2, 4, 10) else {
        return Ok(false);
    };
    let (su, x) = (word(alloc, "su")?, word(alloc, "x")?);
    let long = word(alloc, "OOO")?;
    let mut record = Record::new(alloc, Kind::Service, limits)?;
    let subscribed = record.subscribe();
    let mut out = [Event::FILLER; 4];
    mark();
    let letters = Letters::of(su);
    let sent = record.publish(1, letters.items());
    let refused = (
        record.publish(1, letters.items()),
        record.publish(1, &[Letter::LEAST]),
        record.publish(1, x.as_slice()),
        record.publish(1, &long),
    );
    let seen = (
        record.end(),
        record.base(),
        record.waiting(1),
        record.flags().code(),
    );
    let taken = (record.take_into(1, &mut out), record.take_into(1, &mut out));
    let none = (
        record.take_into(2, &mut out),
        record.cancel(2),
        record.waiting(2),
    );
    let closed = (
        record.close(),
        record.close(),
        record.publish(1, letters.items()),
    );
    let end = (
        record.take_into(1, &mut out),
        record.stage(),
        record.closed(),
    );
    let cancelled = record.cancel(1);
    mark();
    Ok(
        subscribed == Ok((1, 0))
            && sent == Ok(0)
            && refused
                == (
                    Err(PubError::Full),
                    Err(PubError::Unlawful(0)),
                    Err(PubError::Full),
                    Err(PubError::Spent),
                )
            && seen == (2, 0, Some(2), 5)
            && taken == (Ok(Taken::Got(2)), Ok(Taken::Nothing))
            && none == (Err(NoId), Err(NoId), None)
            && closed == (Ok(()), Err(Closed), Err(PubError::Closed))
            && end == (Ok(Taken::End), Stage::Starting, true)
            && cancelled == Ok(()),
    )
}

/// The calls of a record that evicts the first of its two subscriptions.
pub(crate) fn a_record_evicts(alloc: Global) -> io::Result<bool> {
    let limits = Limits::new(2, 10, 10).with(Policy::Evict);
    let (ab, long) = (word(alloc, "ab")?, word(alloc, "abc")?);
    let mut record = Record::new(alloc, Kind::Plain, limits)?;
    let subscribed = (record.subscribe(), record.subscribe());
    let mut out = [Event::FILLER; 4];
    mark();
    let first = (record.publish(1, &ab), record.take_into(2, &mut out));
    let second = (record.publish(1, &ab), record.publish(1, &long));
    let evicted = (record.take_into(1, &mut out), record.waiting(1));
    let ended = (record.cancel(1), record.cancel(2));
    let alone = record.publish(1, &long);
    mark();
    Ok(
        subscribed == (Ok((1, 0)), Ok((2, 0)))
            && first == (Ok(0), Ok(Taken::Got(2)))
            && second == (Ok(2), Err(PubError::Full))
            && evicted == (Ok(Taken::Evicted), None)
            && ended == (Ok(()), Ok(()))
            && alone == Ok(4),
    )
}

/// Each call of a `Locked` that has a subscription and a publisher.
pub(crate) fn a_locked_is_used(alloc: Global) -> io::Result<bool> {
    let Some(limits) = Limits::of(2, 2, 10) else {
        return Ok(false);
    };
    let ab = word(alloc, "ab")?;
    let mut locked = Locked::new(alloc, Kind::Plain, limits)?;
    let given = (locked.publisher().is_ok(), locked.subscribe().is_ok());
    let mut out = [Event::FILLER; 4];
    mark();
    let sent = (locked.publish(1, &ab), locked.publish(1, &ab));
    let taken = (locked.take_into(1, &mut out), locked.take_into(2, &mut out));
    locked.leave(1);
    locked.leave(1);
    let ended = (
        locked.cancel(1),
        locked.cancel(1),
        locked.close(),
        locked.close(),
    );
    let refused = (locked.publish(1, &ab), locked.subscribe());
    let status = (locked.status().closed, locked.front());
    mark();
    Ok(
        given == (true, true)
            && sent == (Ok(0), Err(PubError::Spent))
            && taken == (Ok(Taken::Got(2)), Err(NoId))
            && ended == (Ok(()), Err(NoId), Ok(()), Err(Closed))
            && refused == (Err(PubError::Closed), Err(SubError::Closed))
            && status == (true, 2),
    )
}
