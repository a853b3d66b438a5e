//! The stages of a service.
ghost use Rattle.std.specs.Prelude.{◌≡◌, ℕ, List, Some};
ghost use Rattle.hub_letters.specs.Marks.{mark};
ghost use Rattle.hub_letters.specs.Lawful.{IsLawful};
ghost use Rattle.hub_letters.specs.Stages.{stage_of, next_by, stage_by_code, Follows};

use crate::letter::Letter;

/// The stage of a service in its lawful order. A record begins at `Off`.
#[derive(Clone, Copy, Debug, PartialEq, Eq)]
pub enum Stage {
    /// No supervisor: none has started, or the last has exited.
    Off,
    /// Supervised and down.
    Idle,
    /// The run process runs, and hasn't reported that it is ready.
    Starting,
    /// The run process runs, and reported that it is ready.
    Ready,
    /// The run process died, and the finish script hasn't ended.
    Ending,
}

impl Stage {
    /// The stage after one more letter. None if the letter is unlawful at this stage.
    pub fn next(self, letter: Letter) -> Option<Stage>
        ensures { result ≡ next_by self (mark letter) }
    {
        match (self, letter.byte()) {
            (Stage::Off, b's') => Some(Stage::Idle),
            (Stage::Off, _) => None,
            (_, b's') => Some(Stage::Idle),
            (_, b'x') => Some(Stage::Off),
            (_, b'O') => Some(self),
            (Stage::Idle, b'u') => Some(Stage::Starting),
            (Stage::Starting, b'U') => Some(Stage::Ready),
            (Stage::Starting, b'd') => Some(Stage::Ending),
            (Stage::Ready, b'd') => Some(Stage::Ending),
            (Stage::Ending, b'D') => Some(Stage::Idle),
            _ => None,
        }
    }

    /// The stage after the letters. An error is the least place, from 0, whose letter is unlawful.
    pub fn follow(self, letters: &[Letter]) -> Result<Stage, u64>
        ensures { (word : List ℕ) → IsLawful word → stage_of word ≡ self
            → Follows word letters.now result }
    {
        let mut stage = self;
        for (i, letter) in letters.iter().enumerate() {
            match stage.next(*letter) {
                Some(next) => stage = next,
                None => return Err(i as u64),
            }
        }
        Ok(stage)
    }

    /// A law: the stages, followed from `Off`, accept exactly the lawful words, and end in the word's stage.
    pub fn accept_just_the_lawful_words()
        ensures all { (word : List ℕ) → IsLawful word
            → stage_by_code Stage.Off word ≡ Some (stage_of word) }
        ensures only { (word : List ℕ) (stage : Stage) → stage_by_code Stage.Off word ≡ Some stage
            → IsLawful word × (stage ≡ stage_of word) }
    {}
}
