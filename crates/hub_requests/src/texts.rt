//! The lists in requests and replies. In contracts each is its list. Neither `of` nor `items` takes memory.
ghost use Rattle.std.specs.Prelude.{◌≡◌, ◌≤◌, ◌*◌, length, string_bytes, vec_len};
ghost use Rattle.std.specs.Fmt.{decimal};
ghost use Rattle.hub_letters.specs.declared.mode.TheConstants.{MOST_GATHERED};
ghost use Rattle.hub_requests.specs.Texts.{number_or_dash, numbers_text};
ghost use Rattle.hub_requests.specs.declared.bounds.TheConstants.{MOST_SERVICES};

use crate::name::Name;
use hub_letters::Letter;
use std::marker::Model;

/// The text of a listener's pattern, in the syntax of the crate `regex`. In contracts it is its bytes.
#[derive(Debug, Drop)]
pub struct PatternText {
    text: String,
}

impl Model for PatternText {
    ghost use Rattle.std.specs.Prelude.{List, ℕ, string_bytes};

    ghost Value = { List ℕ };

    ghost view = { λ p. string_bytes p.text };
}

impl PatternText {
    /// Wraps the text. It needn't be a pattern: a `listen` with another text is refused.
    pub fn of(text: String) -> PatternText
        ensures { result ≡ string_bytes text }
    {
        PatternText { text }
    }

    /// The text, borrowed.
    pub fn items(&self) -> &str
        ensures { result.now ≡ self.now }
    {
        self.text.as_str()
    }
}

/// The names of the services of a wait, in their order. A name may occur more than once.
#[derive(Debug, Drop)]
pub struct Names {
    names: Vec<Name>,
}

impl Model for Names {
    ghost use Rattle.std.specs.Prelude.{List, ℕ};

    ghost Value = { List (List ℕ) };

    ghost view = { λ n. n.names.items };
}

impl Names {
    /// The names, borrowed.
    pub fn items(&self) -> &[Name]
        ensures { result.now ≡ self.now }
    {
        &self.names
    }

    /// Wraps the names.
    pub fn of(names: Vec<Name>) -> Names
        ensures { result ≡ names.items }
    {
        Names { names }
    }
}

/// The letters that a reply shows: as many as a listener may gather, at most. In contracts it is the list of their bytes.
#[derive(Drop)]
pub struct Excerpt {
    letters: Vec<Letter>,
}

impl Model for Excerpt {
    ghost use Rattle.std.specs.Prelude.{◌≤◌, List, ℕ, vec_len};
    ghost use Rattle.hub_letters.specs.declared.mode.TheConstants.{MOST_GATHERED};

    ghost Value = { List ℕ };

    ghost view = { λ e. e.letters.items };

    ghost invariant = { λ e. vec_len e.letters ≤ MOST_GATHERED };
}

impl Excerpt {
    /// Wraps the letters.
    pub fn of(letters: Vec<Letter>) -> Excerpt
        requires { vec_len letters ≤ MOST_GATHERED }
        ensures { result ≡ letters.items }
    {
        Excerpt { letters }
    }

    /// The letters, borrowed.
    pub fn items(&self) -> &[Letter]
        ensures shown { result.now ≡ self.now }
        ensures few { length self.now ≤ MOST_GATHERED }
    {
        &self.letters
    }
}

/// What a wait found of each service, in the order of the names, of which there are at most 32: the number of events at
/// which it was as wanted, or none if it isn't.
#[derive(Debug, Drop)]
pub struct Numbers {
    numbers: Vec<Option<u64>>,
}

impl Model for Numbers {
    ghost use Rattle.std.specs.Prelude.{◌≤◌, List, ℕ, Option, vec_len};
    ghost use Rattle.hub_requests.specs.declared.bounds.TheConstants.{MOST_SERVICES};

    ghost Value = { List (Option ℕ) };

    ghost view = { λ n. n.numbers.items };

    ghost invariant = { λ n. vec_len n.numbers ≤ MOST_SERVICES };
}

impl Numbers {
    /// Wraps the numbers.
    pub fn of(numbers: Vec<Option<u64>>) -> Numbers
        requires { vec_len numbers ≤ MOST_SERVICES }
        ensures { result ≡ numbers.items }
    {
        Numbers { numbers }
    }

    /// The numbers, borrowed.
    pub fn items(&self) -> &[Option<u64>]
        ensures shown { result.now ≡ self.now }
        ensures few { length self.now ≤ MOST_SERVICES }
    {
        &self.numbers
    }

    /// A law: each number takes at most 20 digits, and a space before it.
    pub(crate) fn are_short(&self)
        ensures { length (numbers_text self.now) ≤ 21 * MOST_SERVICES }
    {
        for number in &self.numbers {
            number_or_dash_is_short(*number);
        }
    }
}

fn number_or_dash_is_short(number: Option<u64>)
    ensures { length (number_or_dash number) ≤ 20 }
{
    if let Some(number) = number {
        number_is_short(number);
    }
}

/// A law: a number of 64 bits has at most 20 digits.
pub(crate) fn number_is_short(number: u64)
    ensures { length (decimal number) ≤ 20 }
{}
