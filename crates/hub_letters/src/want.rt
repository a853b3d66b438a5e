//! The state that a wait asks for.
ghost use Rattle.std.specs.Prelude.{◌≡◌, ◌↔◌, ℕ, Bool, true, false, List, codes};
ghost use Rattle.hub_letters.specs.Wants.{is_met, is_hopeless, NeedsUp};
ghost use Rattle.hub_letters.specs.Flags.{flags_of};
ghost use Rattle.hub_letters.specs.Marks.{LastIs};
ghost use Rattle.hub_letters.specs.declared.want.Want.{Want};

use crate::flags::Flags;

/// The state of a service that a wait asks for, as in `s6-svwait` and `s6-svlisten`. Their `-r` and `-R` ask for a restart
/// too, but of a service that was up.
#[derive(Clone, Copy, Debug, PartialEq, Eq)]
pub enum Want {
    /// It is up (`-u`).
    Up,
    /// It is up and reported that it is ready (`-U`).
    Ready,
    /// It isn't up (`-d`).
    Down,
    /// It isn't up and has settled (`-D`): its finish script has ended (`D`), or a supervisor has started and no run
    /// process since (`s`).
    Finished,
    /// It is up, and it fell since the wait began.
    Restarted,
    /// It is ready, and it fell since the wait began.
    RestartedReady,
}

impl Want {
    /// Whether the flags show what is wanted. `notifies` says whether the service reports that it is ready. A service
    /// that doesn't report it counts as ready if it is up, as in `s6-svc -wU` (`s6-svwait -U` would never end for it).
    /// `fell` says whether a letter that falls has come since the wait began; only the restarted wants look at it.
    pub fn met(self, flags: Flags, notifies: bool, fell: bool) -> bool
        ensures { result ≡ is_met self flags notifies fell }
    {
        match self {
            Want::Up => flags.up,
            Want::Ready => flags.up && (flags.settled || !notifies),
            Want::Down => !flags.up,
            Want::Finished => !flags.up && flags.settled,
            Want::Restarted => fell && flags.up,
            Want::RestartedReady => fell && flags.up && (flags.settled || !notifies),
        }
    }

    /// Whether the want, if it isn't met yet, can't be met any more, since the service won't be restarted. A want may
    /// be both met and hopeless.
    pub fn hopeless(self, flags: Flags) -> bool
        ensures { result ≡ is_hopeless self flags }
    {
        match self {
            Want::Up | Want::Ready | Want::Restarted | Want::RestartedReady => flags.failed,
            Want::Down | Want::Finished => false,
        }
    }

    /// A law: a want is met by the last letter among `s u U d D`, and hopeless by the last among `O s u`.
    pub fn are_by_last_letters()
        ensures up { (word : List ℕ) (notifies fell : Bool)
            → (is_met Want.Up (flags_of word) notifies fell ≡ true)
            ↔ LastIs (codes "suUdD") (codes "uU") word }
        ensures ready { (word : List ℕ) (fell : Bool)
            → (is_met Want.Ready (flags_of word) true fell ≡ true)
            ↔ LastIs (codes "suUdD") (codes "U") word }
        ensures ready_by_up { (word : List ℕ) (fell : Bool)
            → (is_met Want.Ready (flags_of word) false fell ≡ true)
            ↔ LastIs (codes "suUdD") (codes "uU") word }
        ensures down { (word : List ℕ) (notifies fell : Bool)
            → (is_met Want.Down (flags_of word) notifies fell ≡ true)
            ↔ (LastIs (codes "suUdD") (codes "uU") word → ⊥) }
        ensures finished { (word : List ℕ) (notifies fell : Bool)
            → (is_met Want.Finished (flags_of word) notifies fell ≡ true)
            ↔ LastIs (codes "suUdD") (codes "sD") word }
        ensures hopeless { (word : List ℕ) (want : Want) → (is_hopeless want (flags_of word) ≡ true)
            ↔ (NeedsUp want × LastIs (codes "Osu") (codes "O") word) }
    {}

    /// A law: a restart is to be up, or ready, after a fall.
    pub fn restarts_are_by_falls()
        ensures up { (flags : Flags) (notifies fell : Bool)
            → (is_met Want.Restarted flags notifies fell ≡ true)
            ↔ ((is_met Want.Up flags notifies fell ≡ true) × (fell ≡ true)) }
        ensures ready { (flags : Flags) (notifies fell : Bool)
            → (is_met Want.RestartedReady flags notifies fell ≡ true)
            ↔ ((is_met Want.Ready flags notifies fell ≡ true) × (fell ≡ true)) }
    {}
}
