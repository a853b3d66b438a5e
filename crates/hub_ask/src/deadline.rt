//! A time by which something has to be done.

use std::rt::Clock;
use std::time::{Duration, Instant};

/// A time by which something has to be done. If the clock can't be read, it is over.
#[derive(Clone, Copy, Debug)]
pub struct Deadline {
    until: Option<Instant>,
}

impl Deadline {
    /// So many milliseconds from now.
    pub fn after<C: Clock>(clock: &C, millis: u64) -> Deadline {
        let until = match Instant::now(clock) {
            Ok(now) => now.checked_add(Duration::from_millis(millis)),
            Err(_) => None,
        };
        Deadline { until }
    }

    /// The time that is left. None if it is over.
    pub fn left<C: Clock>(&self, clock: &C) -> Option<Duration> {
        let left = self.until?.duration_since(Instant::now(clock).ok()?);
        if left.is_zero() { None } else { Some(left) }
    }
}
