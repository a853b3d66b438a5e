//! A pause by the clock.
ghost use Rattle.std.specs.Prelude.{◌≡◌};

use hub_fifodir::{Bell, Go, Looked, Pause};
use std::rt::Clock;
use std::sync::Wait;
use std::thread;
use std::time::{Duration, Instant};

/// How many milliseconds a turn is, as far as patience goes.
const TURN: u64 = 1;

/// How many milliseconds the longest sleep without a look is. A ring that nobody heard costs no more than this.
const LONGEST_SLEEP: u64 = 500;

/// How many looks may be ahead of their time, which is a turn each, if the bell rings so often.
const LOOKS_AHEAD: u64 = 16;

/// So many sleepers at one bell are a crowd. For each so many, looks are a turn further apart.
const CROWD: u64 = 64;

/// A pause by the clock. It sleeps until the bell rings, and at times ends by itself. It has the time of all turns of its wait,
/// a millisecond each: then it ends the wait, after a last look.
///
/// A bell that rings all the time doesn't shorten the wait. After `LOOKS_AHEAD` looks at once, or an eighth of the turns
/// that are left if that is less, further ones come a turn apart. In a crowd they come further apart, so that each ring doesn't
/// wake all, and in between only an urgent ring leads to a look.
///
/// Each wait starts with a copy of a new one.
#[derive(Clone, Copy, Debug)]
pub struct Patience<C> {
    /// The clock by which it sleeps.
    pub clock: C,
    /// When its first pause began, and how many turns were left then.
    begun: Option<(Instant, u64)>,
    /// When the next look is due, from the beginning on.
    due: Duration,
}

impl<C> Patience<C> {
    /// A pause for a wait that begins with its first pause.
    pub fn new(clock: C) -> Patience<C>
        ensures { result.clock ≡ clock }
    {
        Patience {
            clock,
            begun: None,
            due: Duration::ZERO,
        }
    }
}

impl<C: Clock> Patience<C> {
    /// How long ago it began, and how long its wait may take. None if the clock can't be read.
    fn times(&mut self, left: u64) -> Option<(Duration, Duration)>
        ensures { self.new.clock ≡ self.old.clock }
    {
        let now = Instant::now(&self.clock).ok()?;
        let (begin, turns) = *self.begun.get_or_insert((now, left));
        Some((now.duration_since(begin), Duration::from_millis(turns)))
    }

    /// How long it is until the next look is due, if so many sleep at the bell.
    fn until_due(&mut self, elapsed: Duration, left: u64, sleepers: u64) -> Duration
        ensures { self.new.clock ≡ self.old.clock }
    {
        let apart = TURN.saturating_add(sleepers / CROWD);
        let ahead = (left / 8).min(LOOKS_AHEAD.max(apart));
        self.due = self
            .due
            .max(elapsed)
            .saturating_add(Duration::from_millis(apart));
        self.due
            .saturating_sub(elapsed)
            .saturating_sub(Duration::from_millis(ahead))
    }

    /// Lets so much time pass. In a crowd an urgent ring ends it.
    fn keep_pace<R: Wait>(&self, rt: &R, bell: &Bell, looked: Looked, early: Duration) {
        if early.is_zero() {
            return;
        }
        if bell.sleepers() < CROWD {
            thread::sleep(&self.clock, early);
        } else {
            bell.rest(rt, looked, early);
        }
    }
}

impl<C: Clock> Pause for Patience<C> {
    fn pause<R: Wait>(&mut self, _rt: &R) -> Go
        ensures again { result ≡ Go.Again }
        ensures still { self.new ≡ self.old }
    {
        thread::sleep(&self.clock, Duration::from_millis(TURN));
        Go::Again
    }

    fn pause_at<R: Wait>(&mut self, rt: &R, bell: &Bell, looked: Looked, left: u64) -> Go
        ensures { self.new.clock ≡ self.old.clock }
    {
        let Some((elapsed, time)) = self.times(left) else {
            return self.pause(rt);
        };
        let Some(rest) = time.checked_sub(elapsed) else {
            return Go::Expired;
        };
        let early = self.until_due(elapsed, left, bell.sleepers()).min(rest);
        self.keep_pace(rt, bell, looked, early);
        bell.sleep(rt, looked, rest.min(Duration::from_millis(LONGEST_SLEEP)));
        Go::Again
    }

    fn pause_for<R: Wait>(&mut self, rt: &R, left: u64) -> Go
        ensures { self.new.clock ≡ self.old.clock }
    {
        let is_over = match self.times(left) {
            Some((elapsed, time)) => time.checked_sub(elapsed).is_none(),
            None => false,
        };
        if is_over {
            return Go::Expired;
        }
        self.pause(rt)
    }
}
