//! How many sessions two doors have.
ghost use Rattle.std.specs.Prelude.{◌≡◌, ◌↔◌, ◌+◌, ◌≤◌, ◌<◌, IsTrue, IsSome, IfSome, IfNone};
ghost use Rattle.hub_server.specs.Quotas.{HasRoom, most_looking, one_less, one_more};

use crate::side::Side;

/// How many of so many sessions may only look. A quarter of all is kept for the first door, and one at least.
pub fn most_looking(sessions: u64) -> u64
    ensures { result ≡ most_looking sessions }
{
    let kept = 1u64.max(sessions / 4);
    sessions.saturating_sub(kept)
}

/// That a session was counted at this door. Only [`Taken`] makes one, and takes it back. So who gives one back has counted it.
#[derive(Drop)]
pub(crate) struct Admission {
    side: Side,
}

/// How many sessions two doors have, of those that there may be.
#[derive(Drop)]
pub(crate) struct Taken {
    /// How many sessions there may be at the same time.
    sessions: u64,
    /// How many there are at the first door.
    first: u64,
    /// How many there are at the one whose sessions only look.
    looking: u64,
    ghost all_are: { first + looking ≤ sessions },
    ghost looking_are: { looking ≤ most_looking sessions },
}

impl Taken {
    /// None of so many sessions is taken.
    pub(crate) fn none_of(sessions: u64) -> Taken
        ensures sessions { result.sessions ≡ sessions }
        ensures first { result.first ≡ 0 }
        ensures looking { result.looking ≡ 0 }
    {
        Taken {
            sessions,
            first: 0,
            looking: 0,
        }
    }

    /// Whether this door may have one session more.
    pub(crate) fn has_room(&self, side: Side) -> bool
        ensures { IsTrue result ↔ HasRoom side self.now.sessions self.now.first self.now.looking }
    {
        let is_free = self.first + self.looking < self.sessions;
        match side {
            Side::First => is_free,
            Side::Looking => is_free && self.looking < most_looking(self.sessions),
        }
    }

    /// Counts one session more at this door, if it may have one.
    pub(crate) fn admit(&mut self, side: Side) -> Option<Admission>
        ensures room { IsSome result ↔ HasRoom side self.old.sessions self.old.first self.old.looking }
        ensures side { IfSome result (λ it. it.side ≡ side) }
        ensures counted { IfSome result (λ _. (self.new.first, self.new.looking) ≡
            one_more side (self.old.first, self.old.looking)) }
        ensures full { IfNone result ((self.new.first ≡ self.old.first)
            × (self.new.looking ≡ self.old.looking)) }
        ensures sessions { self.new.sessions ≡ self.old.sessions }
    {
        if !self.has_room(side) {
            return None;
        }
        match side {
            Side::First => self.first += 1,
            Side::Looking => self.looking += 1,
        }
        Some(Admission { side })
    }

    /// The session that was admitted so is over.
    pub(crate) fn give_back(&mut self, admission: Admission)
        ensures counted { (self.new.first, self.new.looking) ≡
            one_less admission.side (self.old.first, self.old.looking) }
        ensures sessions { self.new.sessions ≡ self.old.sessions }
    {
        match admission.side {
            Side::First => self.first = self.first.saturating_sub(1),
            Side::Looking => self.looking = self.looking.saturating_sub(1),
        }
    }
}
