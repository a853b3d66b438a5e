//! What is followed, and how it is written.
ghost use Rattle.std.specs.Prelude.{◌≡◌, IfNone, IfOk, MatchResult, is_some, true};
ghost use Rattle.hub_views.specs.EventLines.{IsTextOf};
ghost use Rattle.hub_look.specs.Stops.{StopsWith};
ghost use Rattle.hub_look.specs.declared.stop.Stop.TheVariants as stops;

use crate::limited::millis_left;
use crate::stop::Stop;
use hub_ask::{AskError, Deadline, Outcome};
use hub_views::{Form, hit_line, lines_of, stamp};
use std::alloc::{AllocError, Global};
use std::rt::Clock;

/// What is followed, and how it is written.
#[derive(Drop, Debug)]
pub struct Following<'a> {
    /// The fifodirs.
    pub names: Vec<&'a str>,
    /// The hits of this pattern are written, and not each letter.
    pub pattern: Option<&'a str>,
    /// How they are written.
    pub form: Form,
    /// It ends with the first letter, or the first hit.
    pub is_once: bool,
    /// By then it ends, if there is a time for it.
    pub until: Option<Deadline>,
    /// They were followed before. Once they are followed again, that is said.
    pub is_again: bool,
}

impl Following<'_> {
    /// How many milliseconds it has. None if its time is over.
    pub fn millis_left<C: Clock>(&self, clock: &C) -> Option<u64>
        ensures { IfNone result (is_some self.now.until ≡ true) }
    {
        millis_left(self.until, clock)
    }

    /// How it went that stopped so. If no answer came by its deadline, its time was over.
    pub(crate) fn outcome_of<C: Clock>(&self, clock: &C, stop: Stop) -> Result<Outcome, AskError>
        ensures { MatchResult result (λ it. StopsWith (is_some self.now.until) stop it)
            (λ error. stop ≡ stops.Fault error) }
    {
        match stop {
            Stop::Fault(AskError::NoAnswer) if self.millis_left(clock).is_none() => Ok(
                Outcome::Late,
            ),
            stop => stop.outcome(),
        }
    }

    /// The lines of these letters of a fifodir, or of this hit. `next` is the number of the first letter, if it is known.
    pub(crate) fn lines<C: Clock>(
        &self,
        clock: &C,
        alloc: Global,
        name: &str,
        next: Option<u64>,
        letters: &[u8],
    ) -> Result<Vec<u8>, AllocError>
        ensures { IfOk result (λ it. IsTextOf (is_some self.now.pattern) self.now.form
            name.now next letters.now it.items) }
    {
        let stamp = stamp(clock, alloc)?;
        if self.pattern.is_some() {
            hit_line(alloc, self.form, stamp.as_str(), name, letters)
        } else {
            lines_of(alloc, self.form, stamp.as_str(), name, next, letters)
        }
    }
}
