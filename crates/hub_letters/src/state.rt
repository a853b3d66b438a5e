//! Where a service is, in a person's words.
ghost use Rattle.std.specs.Prelude.{◌≡◌, ◌↔◌, ◌++◌, ℕ, List, [], true};
ghost use Rattle.hub_letters.specs.Lawful.{IsLawful};
ghost use Rattle.hub_letters.specs.States.{is_at, word_to, word_behind, is_at_end};

use crate::flags::Flags;
use crate::letter::Letter;
use crate::stage::Stage;
use crate::word::Word;

/// Where somebody who publishes for a service says that it is. The letters that bring it there from where it is are the
/// word for the state.
#[derive(Clone, Copy, Debug, PartialEq, Eq)]
pub enum State {
    /// No supervisor runs, and nothing is left of what it started.
    Off,
    /// It is supervised and down.
    Down,
    /// It is up.
    Up,
    /// It is up and reported that it is ready.
    Ready,
    /// It is down, and won't be restarted.
    Failed,
}

impl State {
    /// Whether a service of this stage and these flags is where the state says.
    pub fn holds(self, stage: Stage, flags: Flags) -> bool
        ensures { result ≡ is_at self stage flags }
    {
        match self {
            State::Off => stage == Stage::Off && !flags.up,
            State::Down => stage == Stage::Idle,
            State::Up => stage == Stage::Starting || stage == Stage::Ready,
            State::Ready => stage == Stage::Ready,
            State::Failed => stage == Stage::Idle && flags.failed,
        }
    }

    /// The letters that bring a service of this stage and these flags to the state: none if the state holds already. A
    /// service goes down by `d` and `D`, and begins by `s` only if it is off.
    pub fn word(self, stage: Stage, flags: Flags) -> Word
        ensures { result ≡ word_to self stage flags }
    {
        if self.holds(stage, flags) {
            return Word::of(&[]);
        }
        match (self, stage) {
            (State::Off, Stage::Off) => Word::of(&[Letter::BEGAN, Letter::EXITED]),
            (State::Off, Stage::Idle) => Word::of(&[Letter::EXITED]),
            (State::Off, Stage::Ending) => Word::of(&[Letter::FINISHED, Letter::EXITED]),
            (State::Off, _) => Word::of(&[Letter::DIED, Letter::FINISHED, Letter::EXITED]),
            (State::Up, Stage::Off) => Word::of(&[Letter::BEGAN, Letter::RAN]),
            (State::Up, Stage::Ending) => Word::of(&[Letter::FINISHED, Letter::RAN]),
            (State::Up, _) => Word::of(&[Letter::RAN]),
            (State::Ready, Stage::Off) => Word::of(&[Letter::BEGAN, Letter::RAN, Letter::REPORTED]),
            (State::Ready, Stage::Idle) => Word::of(&[Letter::RAN, Letter::REPORTED]),
            (State::Ready, Stage::Ending) => {
                Word::of(&[Letter::FINISHED, Letter::RAN, Letter::REPORTED])
            }
            (State::Ready, _) => Word::of(&[Letter::REPORTED]),
            (State::Failed, Stage::Off) => Word::of(&[Letter::BEGAN, Letter::GAVE_UP]),
            (State::Failed, Stage::Idle) => Word::of(&[Letter::GAVE_UP]),
            (State::Failed, Stage::Ending) if !flags.failed => {
                Word::of(&[Letter::FINISHED, Letter::GAVE_UP])
            }
            (State::Failed, _) if !flags.failed => {
                Word::of(&[Letter::DIED, Letter::FINISHED, Letter::GAVE_UP])
            }
            (State::Down, Stage::Off) => Word::of(&[Letter::BEGAN]),
            (State::Down | State::Failed, Stage::Ending) => Word::of(&[Letter::FINISHED]),
            (State::Down | State::Failed, _) => Word::of(&[Letter::DIED, Letter::FINISHED]),
        }
    }

    /// A law: the word behind a lawful word is lawful there, and brings the service to the state. It has no letters exactly if
    /// the service is there already.
    pub fn words_bring_it_about()
        ensures lawful { (state : State) (word : List ℕ) → IsLawful word
            → IsLawful (word ++ word_behind state word) }
        ensures holds { (state : State) (word : List ℕ) → IsLawful word
            → is_at_end state (word ++ word_behind state word) ≡ true }
        ensures empty { (state : State) (word : List ℕ) → (word_behind state word ≡ [])
            ↔ (is_at_end state word ≡ true) }
    {}
}
