//! Words of a few letters.
ghost use Rattle.std.specs.Prelude.{◌≡◌, ◌≤◌, length};

use crate::letter::Letter;
use std::marker::Model;

/// At most three letters, which are published as one message. In contracts it is their list.
#[derive(Drop)]
pub struct Word {
    letters: [Letter; 3],
    count: usize,
}

impl Model for Word {
    ghost use Rattle.std.specs.Prelude.{List, ℕ, ◌≤◌, take};

    ghost Value = { List ℕ };

    ghost view = { λ w. take w.count w.letters };

    ghost invariant = { λ w. w.count ≤ 3 };
}

impl Word {
    /// The word of these letters.
    pub(crate) fn of(letters: &[Letter]) -> Word
        requires { length letters.now ≤ 3 }
        ensures { result ≡ letters.now }
    {
        let count = letters.len();
        let mut word = [Letter::LEAST; 3];
        word[..count].copy_from_slice(letters);
        Word {
            letters: word,
            count,
        }
    }

    /// The letters, borrowed.
    pub fn letters(&self) -> &[Letter]
        ensures { result.now ≡ self.now }
    {
        &self.letters[..self.count]
    }
}
