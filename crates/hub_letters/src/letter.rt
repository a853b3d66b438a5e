//! Letters.
ghost use Rattle.std.specs.Prelude.{◌≡◌, ◌↔◌, ◌≤◌, ◌++◌, ℕ, List, [], ◌∷◌, SomeIff, true, false};
ghost use Rattle.hub_letters.specs.Marks.{falls, has_fall};
ghost use Rattle.hub_letters.specs.Flags.{flags_of};

use std::marker::Model;

/// One byte from 0x21 (`!`) to 0x7E (`~`), as `s6-ftrig-notify` sends it. In contracts a letter is its byte.
#[derive(Clone, Copy, Debug, PartialEq, Eq)]
pub struct Letter {
    byte: u8,
}

impl Model for Letter {
    ghost use Rattle.std.specs.Prelude.{ℕ, ◌≤◌};

    ghost Value = { ℕ };

    ghost view = { λ l. l.byte };

    ghost inverse = { λ n. record { byte = n } };

    ghost invariant = { λ l. (33 ≤ l.byte) × (l.byte ≤ 126) };
}

impl Letter {
    /// The letter `!`, which fills a slice before letters are put into it.
    pub const LEAST: Letter = Letter { byte: b'!' };

    /// `s`: the supervisor started.
    pub(crate) const BEGAN: Letter = Letter { byte: b's' };

    /// `u`: the run process was started.
    pub(crate) const RAN: Letter = Letter { byte: b'u' };

    /// `U`: the service reported that it is ready.
    pub(crate) const REPORTED: Letter = Letter { byte: b'U' };

    /// `d`: the run process died.
    pub(crate) const DIED: Letter = Letter { byte: b'd' };

    /// `D`: the finish script ended.
    pub(crate) const FINISHED: Letter = Letter { byte: b'D' };

    /// `O`: the service won't be restarted.
    pub(crate) const GAVE_UP: Letter = Letter { byte: b'O' };

    /// `x`: the supervisor is about to exit.
    pub(crate) const EXITED: Letter = Letter { byte: b'x' };

    /// The letter with this byte. None if the byte isn't within 0x21 to 0x7E.
    pub fn of(byte: u8) -> Option<Letter>
        ensures { SomeIff result ((33 ≤ byte) × (byte ≤ 126)) byte }
    {
        if byte >= b'!' && byte <= b'~' {
            Some(Letter { byte })
        } else {
            None
        }
    }

    /// Its byte, from 0x21 to 0x7E.
    pub fn byte(self) -> u8
        ensures value { result ≡ self }
        ensures range { (33 ≤ result) × (result ≤ 126) }
    {
        self.byte
    }

    /// Whether it is `s`, `d` or `D`: no run of the service goes on after it.
    pub fn falls(self) -> bool
        ensures { result ≡ falls self }
    {
        matches!(self.byte, b's' | b'd' | b'D')
    }

    /// Whether one of the letters falls.
    pub fn any_falls(letters: &[Letter]) -> bool
        ensures { result ≡ has_fall letters.now }
    {
        letters.iter().any(|letter| letter.falls())
    }

    /// A law: a letter falls exactly if no service is up after it, whatever came before.
    #[tactic(auto, using(crate::proofs::Folded::end_every_run))]
    pub fn falls_end_every_run()
        ensures { (letter : ℕ) → (falls letter ≡ true)
            ↔ ((word : List ℕ) → (flags_of (word ++ letter ∷ [])).up ≡ false) }
    {}
}
