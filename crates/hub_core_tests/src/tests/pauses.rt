//! The pause of a wait, over a clock whose time passes only while somebody sleeps.
use crate::tests::passes::{Shared, look_before_a_ring, new_sender, open};
use hub_fifodir::Enter;
use hub_record::Kind;
use hub_wait::{Go, Patience, Pause};
use std::alloc::Global;
use std::io;
use std::process::Abort;
use std::rt::Clock;
use std::sync::Wait;
use std::sync::atomic::{AtomicU64, Ordering};
use std::test::Fail;
use std::time::{Duration, Instant};

/// A clock that returns at once, and is then as much later as was slept. One that is broken tells no time.
#[derive(Drop)]
pub(crate) struct Slept {
    microseconds: AtomicU64,
    broken: bool,
}

impl Slept {
    pub(crate) fn new(broken: bool) -> Slept {
        Slept {
            microseconds: AtomicU64::new(0),
            broken,
        }
    }

    fn pass(&self, microseconds: u64) {
        self.microseconds.fetch_add(microseconds, Ordering::SeqCst);
    }

    fn microseconds(&self) -> u64 {
        self.microseconds.load(Ordering::SeqCst)
    }
}

impl Clock for Slept {
    fn monotonic(&self) -> io::Result<Duration> {
        if self.broken {
            return Err(io::Error::from(io::ErrorKind::Unsupported));
        }
        Ok(Duration::from_micros(self.microseconds()))
    }

    fn since_1970(&self) -> io::Result<Duration> {
        self.monotonic()
    }

    fn sleep(&self, duration: Duration) {
        self.pass(u64::try_from(duration.as_micros()).unwrap_or(u64::MAX));
    }
}

pub(crate) fn open_plain(alloc: Global) -> Result<Shared, Fail> {
    open(alloc, Kind::Plain, (64, 1000, 100))
}

/// So many looks of a wait with so many turns, while the bell rings before each; then how many milliseconds they took.
static RINGING: [(u64, u64, u64); 12] = [
    (1, 1, 1),
    (7, 1, 1),
    (8, 1, 0),
    (8, 2, 2),
    (8, 8, 8),
    (5_000, 1, 0),
    (5_000, 16, 0),
    (5_000, 17, 1),
    (5_000, 1_016, 1_000),
    (5_000, 4_900, 4_888),
    (5_000, 5_000, 5_000),
    (1_000_000, 100_000, 99_984),
];

/// How many milliseconds the first looks of a wait with so many turns take, while the bell rings before each. None if it
/// expires.
fn time_of_looks<R: Abort + Wait + Enter>(
    rt: &R,
    fifodir: &Shared,
    turns: u64,
    looks: u64,
    broken: bool,
) -> Option<u64> {
    let clock = Slept::new(broken);
    let looked = look_before_a_ring(rt, fifodir);
    let mut pause = Patience::new(&clock);
    for look in 0..looks {
        let left = turns.saturating_sub(look);
        if pause.pause_at(rt, fifodir.bell(), looked, left) != Go::Again {
            return None;
        }
    }
    Some(clock.microseconds() / 1000)
}

/// The first row that goes otherwise, with the time that it takes.
fn row_unlike<R: Abort + Wait + Enter>(
    rt: &R,
    fifodir: &Shared,
) -> Option<((u64, u64, u64), Option<u64>)> {
    for (turns, looks, milliseconds) in RINGING.iter() {
        let took = time_of_looks(rt, fifodir, *turns, *looks, false);
        if took != Some(*milliseconds) {
            return Some(((*turns, *looks, *milliseconds), took));
        }
    }
    None
}

/// Whether a wait of 50 turns goes on at its first look, then so many microseconds later, and then so many more.
fn goes_on_at<R: Abort + Wait + Enter>(
    rt: &R,
    fifodir: &Shared,
    first: u64,
    second: u64,
) -> (bool, bool, bool) {
    let clock = Slept::new(false);
    let (bell, looked) = (fifodir.bell(), look_before_a_ring(rt, fifodir));
    let mut pause = Patience::new(&clock);
    let at_once = pause.pause_at(rt, bell, looked, 50) == Go::Again;
    clock.pass(first);
    let later = pause.pause_at(rt, bell, looked, 49) == Go::Again;
    clock.pass(second);
    let last = pause.pause_at(rt, bell, looked, 48) == Go::Again;
    (at_once, later, last)
}

#[test]
fn looks_are_a_turn_apart_if_the_bell_rings_all_the_time(rt: HostRuntime) -> Result<(), Fail> {
    let fifodir = open_plain(rt.alloc())?;
    assert_eq!(rt; row_unlike(&rt, &fifodir), None);
    Ok(())
}

#[test]
fn a_wait_has_a_millisecond_for_each_turn(rt: HostRuntime) -> Result<(), Fail> {
    let fifodir = open_plain(rt.alloc())?;
    assert_eq!(rt; goes_on_at(&rt, &fifodir, 49_999, 0), (true, true, true));
    assert_eq!(rt; goes_on_at(&rt, &fifodir, 50_001, 0), (true, false, false));
    assert_eq!(rt;
        goes_on_at(&rt, &fifodir, 49_000, 1_001),
        (true, true, false)
    );
    Ok(())
}

/// When a second pause of a wait of 7 turns is over that begins so many microseconds after the first.
fn end_of_second_pause<R: Abort + Wait + Enter>(rt: &R, fifodir: &Shared, begins: u64) -> u64 {
    let clock = Slept::new(false);
    let looked = look_before_a_ring(rt, fifodir);
    let mut pause = Patience::new(&clock);
    let _ = pause.pause_at(rt, fifodir.bell(), looked, 7);
    clock.pass(begins.saturating_sub(clock.microseconds()));
    let _ = pause.pause_at(rt, fifodir.bell(), looked, 6);
    clock.microseconds()
}

#[test]
fn a_wait_that_ends_keeps_no_pace(rt: HostRuntime) -> Result<(), Fail> {
    let fifodir = open_plain(rt.alloc())?;
    assert_eq!(rt; end_of_second_pause(&rt, &fifodir, 5_000), 6_000);
    assert_eq!(rt; end_of_second_pause(&rt, &fifodir, 6_700), 7_000);
    Ok(())
}

#[test]
fn a_pause_without_a_clock_sleeps_a_turn(rt: HostRuntime) -> Result<(), Fail> {
    let fifodir = open_plain(rt.alloc())?;
    assert_eq!(rt; time_of_looks(&rt, &fifodir, 5_000, 7, true), Some(7));
    Ok(())
}

/// How many tries of a call that is refused the first pause is told of, as a will has them.
const TRIES: u64 = 60_000;

/// How many microseconds after the first pause began the second one begins, and whether it goes on to another try.
static TRIES_AT: [(u64, bool); 8] = [
    (1_000, true),
    (2_000, true),
    (30_000_000, true),
    (59_999_000, true),
    (60_000_000, true),
    (60_000_001, false),
    (60_001_000, false),
    (600_000_000, false),
];

/// Whether a second pause between tries goes on so many microseconds after the first one began, and how many both slept.
fn tries_on_at<R: Wait>(rt: &R, microseconds: u64) -> (bool, u64, u64) {
    let clock = Slept::new(false);
    let mut pause = Patience::new(&clock);
    let first = pause.pause_for(rt, TRIES) == Go::Again;
    let slept = clock.microseconds();
    clock.pass(microseconds.saturating_sub(slept));
    let second = pause.pause_for(rt, TRIES.saturating_sub(1)) == Go::Again;
    let slept_then = clock.microseconds().saturating_sub(microseconds);
    (first && second, slept, slept_then)
}

/// How many pauses between tries there are until one ends the tries, and how many microseconds they slept. At most so many are made.
fn pauses_between_tries<R: Wait>(rt: &R, broken: bool, most: u64) -> (u64, u64) {
    let clock = Slept::new(broken);
    let mut pause = Patience::new(&clock);
    for tried in 0..most {
        if pause.pause_for(rt, TRIES.saturating_sub(tried)) == Go::Expired {
            return (tried, clock.microseconds());
        }
    }
    (most, clock.microseconds())
}

#[test]
fn a_call_is_tried_each_millisecond_for_a_minute(rt: HostRuntime) {
    for (microseconds, goes_on) in TRIES_AT {
        let slept_then = if goes_on { 1_000 } else { 0 };
        assert_eq!(rt;
            tries_on_at(&rt, microseconds),
            (goes_on, 1_000, slept_then),
            "{microseconds}"
        );
    }
    assert_eq!(rt;
        pauses_between_tries(&rt, false, TRIES),
        (60_000, 60_000_000)
    );
    assert_eq!(rt; pauses_between_tries(&rt, true, 7), (7, 7_000));
}

/// How long a pause is in a wait of 20 seconds, by a clock that passes by itself. The bell has rung before, and then it doesn't.
fn silent_pause<R: Abort + Wait + Enter + Clock + Copy>(
    rt: &R,
    fifodir: &Shared,
) -> io::Result<Duration> {
    let _ = look_before_a_ring(rt, fifodir);
    let mut sender = new_sender(rt, fifodir);
    let (_, looked) = sender.look();
    sender.leave(rt);
    let begun = Instant::now(rt)?;
    let _ = Patience::new(*rt).pause_at(rt, fifodir.bell(), looked, 20_000);
    Ok(Instant::now(rt)?.duration_since(begun))
}

// A pause is half a second. A busy machine may take some seconds more.
#[test]
fn a_pause_that_hears_no_bell_ends_by_itself(rt: HostRuntime) -> Result<(), Fail> {
    let fifodir = open_plain(rt.alloc())?;
    let took = silent_pause(&rt, &fifodir)?;
    assert!(rt;
        took > Duration::from_millis(400) && took < Duration::from_secs(10),
        "{took:?}"
    );
    Ok(())
}
