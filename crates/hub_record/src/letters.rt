//! An owned list of letters.
ghost use Rattle.std.specs.Prelude.{◌≡◌};

use hub_letters::Letter;
use std::marker::Model;

/// A list of letters. In contracts it is the list of their bytes.
#[derive(Drop)]
pub struct Letters {
    letters: Vec<Letter>,
}

impl Model for Letters {
    ghost use Rattle.std.specs.Prelude.{List, ℕ};

    ghost Value = { List ℕ };

    ghost view = { λ l. l.letters.items };
}

impl Letters {
    /// Wraps the vector, without an allocation.
    pub fn of(letters: Vec<Letter>) -> Letters
        ensures { result ≡ letters.items }
    {
        Letters { letters }
    }

    /// The letters, borrowed.
    pub fn items(&self) -> &[Letter]
        ensures { result.now ≡ self.now }
    {
        &self.letters
    }
}
