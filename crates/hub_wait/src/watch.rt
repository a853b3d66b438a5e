//! What a wait knows of one service.
ghost use Rattle.std.specs.Prelude.{◌≡◌, ◌+◌, ◌≤◌, length, true};
ghost use Rattle.hub_record.specs.declared.limits.TheConstants.{MOST_EVENTS};

use hub_letters::{Flags, Letter, Want};
use hub_record::Status;
use std::marker::Model;

/// What a wait wants of a service, and what it knows of it.
#[derive(Clone, Copy, Debug, PartialEq, Eq)]
pub struct Watch {
    want: Want,
    notifies: bool,
    since: u64,
    at: u64,
    flags: Flags,
    fell: bool,
    ended: bool,
}

impl Model for Watch {
    ghost use Rattle.hub_wait.specs.Watching.{Watching};

    ghost Value = { Watching };

    ghost use Rattle.hub_wait.specs.Inside.{watching_of, inside_of};

    ghost view = { watching_of };

    ghost inverse = { inside_of };
}

impl Watch {
    ghost use Rattle.hub_letters.specs.Wants.{is_hopeless};
    ghost use Rattle.hub_wait.specs.Watching.{new_watching, watching_after_step, renewed_by, is_met_at, is_lost_at};
    ghost use Rattle.hub_wait.specs.Histories.{BeginAtAnyStatus, FollowAnySlices};

    /// A watch that begins at a status. `notifies` says whether the service reports that it is ready.
    pub fn new(want: Want, notifies: bool, status: Status) -> Watch
        ensures { result ≡ new_watching want notifies status }
    {
        Watch {
            want,
            notifies,
            since: status.number,
            at: status.number,
            flags: status.flags,
            fell: false,
            ended: status.closed,
        }
    }

    /// How many events the service had when the watch began. What fell before doesn't count.
    pub fn since(&self) -> u64
        ensures { result ≡ self.now.since }
    {
        self.since
    }

    /// Follows letters that are numbered from `first`. Letters below `at()` are known already and are skipped.
    pub fn step(&mut self, first: u64, letters: &[Letter])
        requires overlaps { first ≤ self.old.at }
        requires small { first + length letters.now ≤ MOST_EVENTS }
        ensures { self.new ≡ watching_after_step self.old first letters.now }
    {
        let told = self.at - first;
        if told < letters.len() as u64 {
            let new = &letters[told as usize..];
            self.flags = self.flags.after_all(new);
            self.fell |= Letter::any_falls(new);
            self.at = first + letters.len() as u64;
        }
    }

    /// Goes on from a status of the service, so that it may miss the letters before that, and a fall among them. A closed
    /// one ends the watch.
    pub fn renew(&mut self, status: Status)
        requires { self.old.at ≤ status.number }
        ensures { self.new ≡ renewed_by self.old status }
    {
        self.at = status.number;
        self.flags = status.flags;
        self.ended = self.ended || status.closed;
    }

    /// How many of the service's events the watch knows.
    pub fn at(&self) -> u64
        ensures { result ≡ self.now.at }
    {
        self.at
    }

    /// Notes that the fifodir is closed and no event is pending.
    pub fn end(&mut self)
        ensures { self.new ≡ record self.old { ended = true } }
    {
        self.ended = true;
    }

    /// The flags of the events that the watch knows.
    pub fn flags(&self) -> Flags
        ensures { result ≡ self.now.flags }
    {
        self.flags
    }

    /// Whether what is wanted holds.
    pub fn met(&self) -> bool
        ensures { result ≡ is_met_at self.now }
    {
        self.want.met(self.flags, self.notifies, self.fell)
    }

    /// Whether a letter that falls was among those that it followed (`s`, `d` or `D`).
    pub fn fell(&self) -> bool
        ensures { result ≡ self.now.fell }
    {
        self.fell
    }

    /// Whether the service has failed for good, if that rules out what is wanted.
    pub fn hopeless(&self) -> bool
        ensures { result ≡ is_hopeless self.now.want self.now.flags }
    {
        self.want.hopeless(self.flags)
    }

    /// Whether the fifodir is closed and no event is pending.
    pub fn ended(&self) -> bool
        ensures { result ≡ self.now.ended }
    {
        self.ended
    }

    /// Whether no further event can bring what is wanted: it is hopeless or ended.
    pub(crate) fn is_lost(&self) -> bool
        ensures { result ≡ is_lost_at self.now }
    {
        self.hopeless() || self.ended
    }

    /// A law: a watch shows the flags of its service's history up to its number, however the history is cut, and whichever
    /// statuses it gets. It fell only if a letter falls since the watch began, and exactly then if it never was renewed.
    pub fn follow_any_slices()
        ensures begin { BeginAtAnyStatus }
        ensures follow { FollowAnySlices }
    {}
}
