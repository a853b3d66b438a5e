//! Sleepers at a bell. They sleep until it rings, however long that takes, so one that isn't woken never comes to its end.
use crate::tests::busy::come_to_an_end;
use crate::tests::fixtures::run_of;
use crate::tests::passes::{Sender, Shared, look_before_a_ring, new_reader, new_sender, open};
use hub_fifodir::{Bell, Fifodir, Looked};
use hub_letters::Letter;
use hub_record::{Enter, Kind, Limits};
use std::alloc::Global;
use std::process::Abort;
use std::rt::Clock;
use std::sync::atomic::{AtomicU64, Ordering};
use std::sync::{Arc, Wait};
use std::test::Fail;
use std::thread::Threads;
use std::time::Duration;
use std::{io, thread};

/// How many sleep at once. One ring doesn't wake as many as the last by itself.
static SLEEPERS: [u64; 4] = [1, 2, 12, 25];

/// How many letters a message has that its publisher needs a while for.
const LONG: usize = 1_000_000;

/// How many messages each of them waits for.
const MESSAGES: u64 = 5;

/// How many seconds a sleep may take: more than a test.
const FOR_EVER: u64 = 100_000;

/// Sleeps until there are so many events.
fn sleep_until<R: Wait>(rt: &R, fifodir: &Shared, me: &mut Sender, number: u64) {
    let waiter = fifodir.admit();
    for _ in rt.forever() {
        let (found, looked) = me.look();
        if found >= number {
            break;
        }
        fifodir
            .bell()
            .sleep(rt, looked, Duration::from_secs(FOR_EVER));
    }
    fifodir.dismiss(waiter);
}

/// Sleeps until each message is there, of so many letters each. Counts in `awake` before the first one and after each.
fn sleep_for_each<R: Wait + Enter>(rt: &R, fifodir: Shared, length: u64, awake: &AtomicU64) {
    let Ok(shared) = Arc::try_clone(&fifodir) else {
        return;
    };
    let Ok(mut me) = Sender::of(rt, fifodir) else {
        return;
    };
    for message in 0..=MESSAGES {
        sleep_until(rt, &shared, &mut me, message.wrapping_mul(length));
        awake.fetch_add(1, Ordering::SeqCst);
    }
    me.leave(rt);
}

/// Rests since this look, and counts in `awake` that it rests no more.
fn rest<R: Wait>(rt: &R, fifodir: &Shared, looked: Looked, awake: &AtomicU64) {
    fifodir
        .bell()
        .rest(rt, looked, Duration::from_secs(FOR_EVER));
    awake.fetch_add(1, Ordering::SeqCst);
}

/// What a thread does at a bell.
#[derive(Clone, Copy)]
pub(crate) enum Sleep {
    /// It sleeps until each message of so many letters is there.
    UntilEach(u64),
    /// It rests since this look.
    Rest(Looked),
}

/// Starts so many threads that sleep, and count in `awake` when they are awake.
pub(crate) fn start<R: Threads + Wait + Enter + Copy + Send + 'static>(
    rt: &R,
    fifodir: &Shared,
    sleep: Sleep,
    count: u64,
    awake: &Arc<AtomicU64, Global>,
) -> io::Result<()> {
    let rt = *rt;
    for _ in 0..count {
        let fifodir = Arc::try_clone(fifodir)?;
        let awake = Arc::try_clone(awake)?;
        let _ = thread::spawn(&rt, move || match sleep {
            Sleep::UntilEach(length) => sleep_for_each(&rt, fifodir, length, &awake),
            Sleep::Rest(looked) => rest(&rt, &fifodir, looked, &awake),
        })?;
    }
    Ok(())
}

/// Gives sleepers the time to fall asleep, or to wake if somebody wakes them.
pub(crate) fn give_time<R: Clock>(rt: &R) {
    thread::sleep(rt, Duration::from_millis(20));
}

/// How many of the messages were sent before one of so many sleepers wasn't woken in time. Each is sent when all have had time to fall
/// asleep. Of a late bell, one fewer if at no message all slept on until it settled.
fn messages_heard<R: Wait + Clock>(
    rt: &R,
    fifodir: &Shared,
    is_late: bool,
    sender: &mut Sender,
    letters: &[Letter],
    count: u64,
    awake: &AtomicU64,
) -> u64 {
    let mut slept_on = !is_late;
    for message in 0..MESSAGES {
        let so_far = count.wrapping_mul(message.wrapping_add(1));
        if !come_to_an_end(rt, awake, so_far) {
            return message;
        }
        give_time(rt);
        let _ = sender.send(rt, letters);
        if is_late {
            give_time(rt);
            slept_on = slept_on || awake.load(Ordering::SeqCst) == so_far;
            fifodir.bell().settle();
        }
    }
    if come_to_an_end(rt, awake, count.wrapping_mul(MESSAGES.wrapping_add(1))) && slept_on {
        MESSAGES
    } else {
        MESSAGES.wrapping_sub(1)
    }
}

/// A fifodir whose bell wakes late, and of whose events so many may be pending.
fn open_late(alloc: Global, waiting: u64) -> Result<Shared, Fail> {
    let limits = Limits::of(waiting, 1_000, 100).ok_or("no limits")?;
    let bell = Arc::new(alloc, Bell::late())?;
    let fifodir = Fifodir::with_bell(alloc, Kind::Plain, limits, bell)?;
    Ok(Arc::new(alloc, fifodir)?)
}

/// How many messages of this length so many sleepers hear at this fifodir.
fn heard_at<R: Abort + Threads + Wait + Enter + Clock + Copy + Send + 'static>(
    rt: &R,
    alloc: Global,
    fifodir: &Shared,
    is_late: bool,
    count: u64,
    length: usize,
) -> Result<u64, Fail> {
    let letters = run_of(alloc, b'a', length)?;
    let awake = Arc::new(alloc, AtomicU64::new(0))?;
    let sleep = Sleep::UntilEach(length as u64);
    start(rt, fifodir, sleep, count, &awake)?;
    let mut sender = new_sender(rt, fifodir);
    let heard = messages_heard(rt, fifodir, is_late, &mut sender, &letters, count, &awake);
    sender.leave(rt);
    Ok(heard)
}

/// How many messages of this length so many sleepers hear.
fn heard_by<R: Abort + Threads + Wait + Enter + Clock + Copy + Send + 'static>(
    rt: &R,
    alloc: Global,
    count: u64,
    length: usize,
) -> Result<u64, Fail> {
    let fifodir = open(alloc, Kind::Plain, (64, 1_000_000_000, 100))?;
    heard_at(rt, alloc, &fifodir, false, count, length)
}

// The threads aren't joined, so that a test fails where one sleeps for ever.
#[test]
fn a_ring_wakes_all_sleepers(rt: HostRuntime) -> Result<(), Fail> {
    for count in SLEEPERS.iter() {
        let heard = heard_by(&rt, rt.alloc(), *count, 1)?;
        assert_eq!(rt; heard, MESSAGES, "{count} sleepers");
    }
    Ok(())
}

#[test]
fn a_late_bell_wakes_all_sleepers_when_it_settles(rt: HostRuntime) -> Result<(), Fail> {
    for count in SLEEPERS.iter() {
        let fifodir = open_late(rt.alloc(), 64)?;
        let heard = heard_at(&rt, rt.alloc(), &fifodir, true, *count, 1)?;
        assert_eq!(rt; heard, MESSAGES, "{count} sleepers");
    }
    Ok(())
}

/// How many are awake at a late bell after two of three letters, and whether the sleeper has woken after the third. A subscription takes
/// none of them, and four may be pending.
fn woken_by_three<R: Abort + Threads + Wait + Enter + Clock + Copy + Send + 'static>(
    rt: &R,
    alloc: Global,
) -> Result<(u64, bool), Fail> {
    let letters = run_of(alloc, b'a', 1)?;
    let fifodir = open_late(alloc, 4)?;
    let awake = Arc::new(alloc, AtomicU64::new(0))?;
    start(rt, &fifodir, Sleep::UntilEach(3), 1, &awake)?;
    let reader = new_reader(rt, &fifodir);
    let mut sender = new_sender(rt, &fifodir);
    let _ = come_to_an_end(rt, &awake, 1);
    for _ in 0..2 {
        give_time(rt);
        let _ = sender.send(rt, &letters);
    }
    give_time(rt);
    let after_two = awake.load(Ordering::SeqCst);
    let _ = sender.send(rt, &letters);
    let woken = come_to_an_end(rt, &awake, 2);
    reader.cancel(rt);
    sender.leave(rt);
    Ok((after_two, woken))
}

// Before more is pending than there is room for, a publisher that goes on would be refused.
#[test]
fn a_late_bell_wakes_at_once_where_it_is_half_full(rt: HostRuntime) -> Result<(), Fail> {
    assert_eq!(rt; woken_by_three(&rt, rt.alloc())?, (1, true));
    Ok(())
}

// A sleeper that is woken before the front shows the message looks, and sleeps again.
#[test]
fn a_bell_rings_after_a_long_message_is_there(rt: HostRuntime) -> Result<(), Fail> {
    assert_eq!(rt; heard_by(&rt, rt.alloc(), 1, LONG)?, MESSAGES);
    Ok(())
}

/// Sleeps at a bell that has rung meanwhile, and counts in `awake` that it woke.
fn sleep_too_late<R: Abort + Wait + Enter>(rt: &R, fifodir: &Shared, awake: &AtomicU64) {
    let looked = look_before_a_ring(rt, fifodir);
    fifodir
        .bell()
        .sleep(rt, looked, Duration::from_secs(FOR_EVER));
    awake.fetch_add(1, Ordering::SeqCst);
}

#[test]
fn who_missed_a_ring_does_not_sleep(rt: HostRuntime) -> Result<(), Fail> {
    let fifodir = open(rt.alloc(), Kind::Plain, (64, 1000, 10))?;
    let awake = Arc::new(rt.alloc(), AtomicU64::new(0))?;
    let (shared, counted) = (Arc::try_clone(&fifodir)?, Arc::try_clone(&awake)?);
    let _ = thread::spawn(&rt, move || { sleep_too_late(&rt, &shared, &counted) })?;
    assert!(rt;
        come_to_an_end(&rt, &awake, 1),
        "a sleep that began too late"
    );
    Ok(())
}

/// How many rest at once. A close doesn't wake as many by itself.
const RESTING: u64 = 12;

/// How many of those who rest are awake after a letter, whether all are after a close, and whether one is that missed the close.
fn woken_from_rest<R: Abort + Threads + Wait + Enter + Clock + Copy + Send + 'static>(
    rt: &R,
    alloc: Global,
) -> Result<(u64, bool, bool), Fail> {
    let fifodir = open(alloc, Kind::Plain, (64, 1000, 10))?;
    let awake = Arc::new(alloc, AtomicU64::new(0))?;
    let mut sender = new_sender(rt, &fifodir);
    let (_, looked) = sender.look();
    let waiter = fifodir.admit();
    let started = start(rt, &fifodir, Sleep::Rest(looked), RESTING, &awake);
    give_time(rt);
    let _ = sender.send(rt, &[Letter::LEAST]);
    give_time(rt);
    let after_letter = awake.load(Ordering::SeqCst);
    let _ = sender.close(rt);
    let woken = come_to_an_end(rt, &awake, RESTING);
    let started_late = start(rt, &fifodir, Sleep::Rest(looked), 1, &awake);
    let missed = come_to_an_end(rt, &awake, RESTING + 1);
    fifodir.dismiss(waiter);
    sender.leave(rt);
    started?;
    started_late?;
    Ok((after_letter, woken, missed))
}

#[test]
fn only_an_urgent_ring_wakes_who_rests(rt: HostRuntime) -> Result<(), Fail> {
    assert_eq!(rt; woken_from_rest(&rt, rt.alloc())?, (0, true, true));
    Ok(())
}
