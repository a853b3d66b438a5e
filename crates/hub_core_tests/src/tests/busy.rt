//! Calls while another thread is at the lock: wake-ups aren't lost, and a meeting doesn't wait.
use crate::tests::fixtures::run_of;
use crate::tests::passes::{Sender, Shared, open, publisher};
use hub_fifodir::{Enter, Fifodir};
use hub_letters::Letter;
use hub_record::Kind;
use std::alloc::{AllocError, Global};
use std::process::Abort;
use std::rt::Clock;
use std::sync::atomic::{AtomicBool, AtomicU64, Ordering};
use std::sync::{Arc, Wait};
use std::test::Fail;
use std::thread::Threads;
use std::time::Duration;
use std::{io, thread};

/// How many messages each of two threads sends.
const MESSAGES: u64 = 100_000;

/// How many milliseconds they have. A thread that misses its wake-up sleeps for ever.
const PATIENCE: u64 = 40_000;

/// Sends the messages, and counts in `done` that all were sent.
fn send_all<R: Wait + Enter>(rt: &R, fifodir: Shared, done: &AtomicU64) {
    let Ok(mut sender) = Sender::of(rt, fifodir) else {
        return;
    };
    let mut sent: u64 = 0;
    for _ in 0..MESSAGES {
        if sender.send(rt, &[Letter::LEAST]).is_ok() {
            sent = sent.wrapping_add(1);
        }
    }
    sender.leave(rt);
    if sent == MESSAGES {
        done.fetch_add(1, Ordering::SeqCst);
    }
}

/// Starts a thread that sends the messages.
fn start<R: Threads + Wait + Enter + Copy + Send + 'static>(
    rt: &R,
    fifodir: &Shared,
    done: &Arc<AtomicU64, Global>,
) -> io::Result<()> {
    let rt = *rt;
    let fifodir = Arc::try_clone(fifodir)?;
    let done = Arc::try_clone(done)?;
    let _ = thread::spawn(&rt, move || { send_all(&rt, fifodir, &done) })?;
    Ok(())
}

/// Whether so many threads come to their end in time.
pub(crate) fn come_to_an_end<R: Clock>(rt: &R, done: &AtomicU64, count: u64) -> bool {
    for _ in 0..PATIENCE {
        if done.load(Ordering::SeqCst) == count {
            return true;
        }
        thread::sleep(rt, Duration::from_millis(1));
    }
    false
}

// The threads aren't joined before they have ended, so that the test fails where one sleeps for ever.
#[test]
fn two_threads_that_publish_come_to_an_end(rt: HostRuntime) -> Result<(), Fail> {
    let fifodir = open(rt.alloc(), Kind::Plain, (4096, 1_000_000, 10))?;
    let done = Arc::new(rt.alloc(), AtomicU64::new(0))?;
    start(&rt, &fifodir, &done)?;
    start(&rt, &fifodir, &done)?;
    assert!(rt; come_to_an_end(&rt, &done, 2), "two threads in 40 s");
    Ok(())
}

/// How many letters one message has, so that its publisher holds the lock for some hundred milliseconds.
const LONG: usize = 64_000_000;

/// How many such messages there are at most: some minutes of them, so that a busy machine has its chance.
const ROUNDS: u64 = 1_000;

/// How the two threads know of each other.
#[derive(Drop)]
struct Progress {
    /// How many messages were begun.
    begun: AtomicU64,
    /// Whether two passes have met while one was being published.
    met: AtomicBool,
}

/// Sends the long message over and over, to no subscription, until two passes have met meanwhile.
fn send_long<R: Abort + Wait + Enter>(
    rt: &R,
    fifodir: &Fifodir,
    letters: &[Letter],
    progress: &Progress,
) {
    let mut sender = publisher(rt, fifodir);
    for _ in 0..ROUNDS {
        if progress.met.load(Ordering::SeqCst) {
            break;
        }
        progress.begun.fetch_add(1, Ordering::SeqCst);
        let _ = fifodir.publish(rt, &mut sender, letters);
    }
    fifodir.leave(rt, sender);
}

/// Has two passes meet over and over, until they did while a message was being published. They meet a millisecond after it was
/// begun, when its publisher has the lock, and then the front is still as it was.
fn meet_meanwhile<R: Abort + Wait + Enter + Clock>(rt: &R, fifodir: &Fifodir, progress: &Progress) {
    let mut one = publisher(rt, fifodir);
    let mut other = publisher(rt, fifodir);
    for _ in 0..1_000_000 {
        let begun = progress
            .begun
            .load(Ordering::SeqCst)
            .wrapping_mul(LONG as u64);
        let before = fifodir.front(&mut one);
        thread::sleep(rt, Duration::from_millis(1));
        fifodir.meet(rt, &mut one, &mut other);
        if before < begun && fifodir.front(&mut one) == before {
            progress.met.store(true, Ordering::SeqCst);
            break;
        }
        if before >= ROUNDS * LONG as u64 {
            break;
        }
    }
    fifodir.leave(rt, one);
    fifodir.leave(rt, other);
}

fn met_meanwhile<R: Abort + Threads + Wait + Enter + Clock + Sync>(
    rt: &R,
    alloc: Global,
    fifodir: &Fifodir,
) -> Result<bool, AllocError> {
    let letters = run_of(alloc, b'a', LONG)?;
    let progress = Progress {
        begun: AtomicU64::new(0),
        met: AtomicBool::new(false),
    };
    thread::join_mut(
        rt,
        &mut || { send_long(rt, fifodir, &letters, &progress) },
        &mut || { meet_meanwhile(rt, fifodir, &progress) },
    );
    Ok(progress.met.load(Ordering::SeqCst))
}

// A message lasts far longer than the sleep before a meeting. There are many, since a machine that is busy or whose clock is
// coarse may wake the sleeper only after a message; the first meeting ends the test.
#[test]
fn a_meeting_does_not_wait_for_the_lock(rt: HostRuntime) -> Result<(), Fail> {
    let fifodir = open(rt.alloc(), Kind::Plain, (64, 1_000_000_000_000, 10))?;
    let met = met_meanwhile(&rt, rt.alloc(), &fifodir)?;
    assert!(rt; met, "a meeting while a publisher has the lock");
    Ok(())
}
