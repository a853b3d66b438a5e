//! The words of modes, spans, wants, states and wills.
ghost use Rattle.std.specs.Prelude.{◌≡◌, ◌≢◌, ℕ, List, MatchOption};
ghost use Rattle.hub_protocol.specs.Spelling.{text_of_mode, text_of_span, text_of_state, text_of_want, text_of_will};

use crate::meanings::meaning_of;
use hub_letters::{Mode, Span, State, Want};
use hub_requests::Will;

/// A type whose values are words of a line.
pub trait Spelled: Copy {
    /// The word of a value.
    ghost word: { Self → List ℕ };

    /// The word, as bytes.
    fn text(self) -> &'static [u8]
        ensures { result.now ≡ Self.word self };

    /// The value with this spelling.
    fn of_word(text: &[u8]) -> Option<Self>
        ensures { MatchOption result ((x : Self) → text.now ≢ Self.word x)
            (λ x. text.now ≡ Self.word x) };
}

const MODES: &[(&[u8], Mode)] = &[(b"once", Mode::Once), (b"repeat", Mode::Repeat)];

impl Spelled for Mode {
    ghost word = { text_of_mode };

    fn text(self) -> &'static [u8] {
        match self {
            Mode::Once => b"once",
            Mode::Repeat => b"repeat",
        }
    }

    fn of_word(text: &[u8]) -> Option<Mode> {
        meaning_of(MODES, text)
    }
}

const WANTS: &[(&[u8], Want)] = &[
    (b"up", Want::Up),
    (b"ready", Want::Ready),
    (b"down", Want::Down),
    (b"finished", Want::Finished),
    (b"restarted", Want::Restarted),
    (b"restarted-ready", Want::RestartedReady),
];

impl Spelled for Want {
    ghost word = { text_of_want };

    fn text(self) -> &'static [u8] {
        match self {
            Want::Up => b"up",
            Want::Ready => b"ready",
            Want::Down => b"down",
            Want::Finished => b"finished",
            Want::Restarted => b"restarted",
            Want::RestartedReady => b"restarted-ready",
        }
    }

    fn of_word(text: &[u8]) -> Option<Want> {
        meaning_of(WANTS, text)
    }
}

const SPANS: &[(&[u8], Span)] = &[(b"all", Span::All), (b"any", Span::Any)];

impl Spelled for Span {
    ghost word = { text_of_span };

    fn text(self) -> &'static [u8] {
        match self {
            Span::All => b"all",
            Span::Any => b"any",
        }
    }

    fn of_word(text: &[u8]) -> Option<Span> {
        meaning_of(SPANS, text)
    }
}

const STATES: &[(&[u8], State)] = &[
    (b"off", State::Off),
    (b"down", State::Down),
    (b"up", State::Up),
    (b"ready", State::Ready),
    (b"failed", State::Failed),
];

impl Spelled for State {
    ghost word = { text_of_state };

    fn text(self) -> &'static [u8] {
        match self {
            State::Off => b"off",
            State::Down => b"down",
            State::Up => b"up",
            State::Ready => b"ready",
            State::Failed => b"failed",
        }
    }

    fn of_word(text: &[u8]) -> Option<State> {
        meaning_of(STATES, text)
    }
}

const WILLS: &[(&[u8], Will)] = &[
    (b"off", Will::Off),
    (b"down", Will::Down),
    (b"failed", Will::Failed),
    (b"none", Will::None),
];

impl Spelled for Will {
    ghost word = { text_of_will };

    fn text(self) -> &'static [u8] {
        match self {
            Will::Off => b"off",
            Will::Down => b"down",
            Will::Failed => b"failed",
            Will::None => b"none",
        }
    }

    fn of_word(text: &[u8]) -> Option<Will> {
        meaning_of(WILLS, text)
    }
}
