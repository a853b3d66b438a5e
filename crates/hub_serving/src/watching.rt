//! What the operator of a hub learns of its sessions.

ghost use Rattle.std.specs.Prelude.{◌≡◌};
ghost use Rattle.hub_serving.specs.Pending.{line_if_stopped, rest_of};

use hub_endings::{Fault, HubLine, StopCause};
use hub_io::{FrontError, Sink, Source};
use hub_server::{Desks, Journal, Lines, ServeError, Session, Timed};
use std::alloc::{AllocError, Global};
use std::rt::Clock;
use std::sync::atomic::{AtomicBool, AtomicU64, Ordering};
use std::sync::{Arc, Condvar, CondvarTimeouts, Mutex, Wait};
use std::thread;
use std::time::{Duration, Instant};

/// How many lines are told at once. The rest are counted.
const MOST_TOLD: usize = 5;

/// How many milliseconds a thread waits before it tries again what failed.
const RETRY: u64 = 100;

/// For how many seconds who tells lines waits for one.
const MOMENT: u64 = 1;

/// Lines that weren't told yet.
#[derive(Clone, Copy, Drop)]
pub(crate) struct Pending {
    pub(crate) lines: [Option<HubLine>; MOST_TOLD],
    /// How many came when there was no more room.
    pub(crate) more: u64,
}

impl Pending {
    const NONE: Pending = Pending {
        lines: [None; MOST_TOLD],
        more: 0,
    };

    fn put(&mut self, line: HubLine) {
        for place in 0..MOST_TOLD {
            if self.lines[place].is_none() {
                self.lines[place] = Some(line);
                return;
            }
        }
        self.more = self.more.saturating_add(1);
    }

    pub(crate) fn has_lines(&self) -> bool {
        self.lines[0].is_some()
    }

    /// The line that counts those for which there was no more room, if there are any.
    pub(crate) fn rest(&self) -> Option<HubLine>
        ensures { result ≡ rest_of self.now.more }
    {
        match self.more {
            0 => None,
            sessions => Some(HubLine::More { sessions }),
        }
    }
}

/// What the threads of a hub share.
#[derive(Drop)]
struct Shared {
    begun: AtomicU64,
    /// How many sessions run.
    running: AtomicU64,
    /// Whether an accept failed, or the start of a thread, since the last session began.
    fails: AtomicBool,
    pending: Mutex<Pending>,
    came: Condvar,
}

/// Numbers sessions from 1, and keeps lines on those that stopped until somebody tells them. Each thread has a share.
#[derive(Drop)]
pub(crate) struct Watcher<C> {
    clock: C,
    /// When the session began that this thread serves, if it is known.
    since: Option<Instant>,
    shared: Arc<Shared, Global>,
}

impl<C: Clock + Copy> Watcher<C> {
    pub(crate) fn new(alloc: Global, clock: C) -> Result<Watcher<C>, AllocError> {
        let shared = Arc::new(
            alloc,
            Shared {
                begun: AtomicU64::new(0),
                running: AtomicU64::new(0),
                fails: AtomicBool::new(false),
                pending: Mutex::new(Pending::NONE),
                came: Condvar::new(),
            },
        )?;
        Ok(Watcher {
            clock,
            since: None,
            shared,
        })
    }

    fn put<H: Wait>(&self, rt: &H, line: HubLine) {
        self.shared.pending.lock(rt).put(line);
        self.shared.came.notify_one();
    }

    // Something failed that is tried again after a moment. It is told once, until a session begins.
    fn fail<H: Wait>(&self, rt: &H, fault: Fault) {
        if !self.shared.fails.swap(true, Ordering::Relaxed) {
            self.put(rt, HubLine::Failed(fault));
        }
        thread::sleep(&self.clock, Duration::from_millis(RETRY));
    }

    // For how many whole seconds this thread's session has run.
    fn seconds(&self) -> u64 {
        let time = match self.since {
            Some(begun) => begun.elapsed(&self.clock).unwrap_or(Duration::ZERO),
            None => Duration::ZERO,
        };
        time.as_secs()
    }

    /// How many sessions run.
    pub(crate) fn running(&self) -> u64 {
        self.shared.running.load(Ordering::Relaxed)
    }

    /// Waits until there are lines, or for a moment, and takes what there is.
    pub(crate) fn take<H: Clock + Wait>(&self, rt: &H) -> Pending {
        let mut pending = self.shared.pending.lock(rt);
        if !pending.has_lines() {
            let most = Duration::from_secs(MOMENT);
            pending = self.shared.came.wait_timeout(rt, pending, most).0;
        }
        let taken = *pending;
        *pending = Pending::NONE;
        taken
    }
}

// What is told of the session with this number, which ran for so many seconds and had so many lines, if it stopped.
fn line_on(
    number: u64,
    seconds: u64,
    lines: u64,
    ended: Result<u64, FrontError>,
    timed_out: bool,
) -> Option<HubLine>
    ensures { result ≡ line_if_stopped number seconds lines ended timed_out }
{
    match ended {
        Ok(_) => None,
        Err(error) => Some(HubLine::Stopped {
            number,
            seconds,
            lines,
            cause: StopCause::of(error, timed_out),
        }),
    }
}

// What threads share isn't seen by contracts: a watcher has the same share of it, and only when its session began changes.
impl<C: Clock + Copy, R: Source + Timed + Lines, W: Sink + Timed> Journal<R, W> for Watcher<C> {
    ghost numbers = { λ old _ new. (new.clock ≡ old.clock) × (new.shared ≡ old.shared) };

    ghost tells = { λ old _ _ _ _ new. new ≡ old };

    ghost fails = { λ old new. new ≡ old };

    fn share(&self) -> Result<Watcher<C>, AllocError> {
        let shared = Arc::try_clone(&self.shared)?;
        Ok(Watcher {
            clock: self.clock,
            since: None,
            shared,
        })
    }

    fn begins(&mut self) -> u64 {
        self.since = Instant::now(&self.clock).ok();
        self.shared.running.fetch_add(1, Ordering::Relaxed);
        self.shared.fails.store(false, Ordering::Relaxed);
        let before = self.shared.begun.fetch_add(1, Ordering::Relaxed);
        before.saturating_add(1)
    }

    fn ended<H: Wait, O: Desks>(
        &mut self,
        rt: &H,
        number: u64,
        _session: &Session<R, W, O>,
        ended: Result<u64, FrontError>,
        reader: &R,
        writer: &W,
    ) {
        self.shared.running.fetch_sub(1, Ordering::Relaxed);
        let timed_out = reader.has_timed_out() || writer.has_timed_out();
        let (seconds, lines) = (self.seconds(), reader.lines());
        if let Some(stopped) = line_on(number, seconds, lines, ended, timed_out) {
            self.put(rt, stopped);
        }
    }

    fn failed<H: Wait>(&mut self, rt: &H) {
        self.fail(rt, Fault::Accept);
    }

    fn unstarted<H: Wait>(&mut self, rt: &H, why: ServeError) {
        self.fail(rt, Fault::Serve(why));
    }
}
