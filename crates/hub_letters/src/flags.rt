//! The flags of a service.
ghost use Rattle.std.specs.Prelude.{◌≡◌, ◌↔◌, ◌≤◌, ◌<◌, ◌++◌, ℕ, List, [], ◌∷◌, Some, map, codes, MatchOption, true, false};
ghost use Rattle.hub_letters.specs.Marks.{mark, LastIs};
ghost use Rattle.hub_letters.specs.Flags.{flags_of, flags_next, flags_folded, no_flags, code_of, sixteen_flags, coded_words};

use crate::letter::Letter;

/// What the letters so far say of the service. A flag is false if no letter bears on it.
#[derive(Clone, Copy, Debug, PartialEq, Eq)]
pub struct Flags {
    /// The run process runs: the last letter among `s u U d D` is `u` or `U`.
    pub up: bool,
    /// The service isn't on its way up or down: the last letter among `s u U d D` is `s`, `U` or `D`.
    pub settled: bool,
    /// A supervisor runs: the last letter among `s x` is `s`.
    pub supervised: bool,
    /// The service won't be restarted: there is an `O`, and no `s` or `u` after it.
    pub failed: bool,
}

impl Flags {
    /// The flags of no letters.
    pub fn none() -> Flags
        ensures { result ≡ no_flags }
    {
        Flags {
            up: false,
            settled: false,
            supervised: false,
            failed: false,
        }
    }

    /// Adds one more letter, and writes only the flags that it bears on.
    #[inline(always)]
    fn add(&mut self, letter: Letter)
        ensures { self.new ≡ flags_next self.old (mark letter) }
    {
        match letter.byte() {
            b's' => {
                self.up = false;
                self.settled = true;
                self.supervised = true;
                self.failed = false;
            }
            b'u' => {
                self.up = true;
                self.settled = false;
                self.failed = false;
            }
            b'U' => {
                self.up = true;
                self.settled = true;
            }
            b'd' => {
                self.up = false;
                self.settled = false;
            }
            b'D' => {
                self.up = false;
                self.settled = true;
            }
            b'x' => self.supervised = false,
            b'O' => self.failed = true,
            _ => {}
        }
    }

    /// Adds more letters.
    #[inline(always)]
    pub fn add_all(&mut self, letters: &[Letter])
        ensures { (word : List ℕ) → flags_of word ≡ self.old
            → self.new ≡ flags_of (word ++ letters.now) }
    {
        for letter in letters {
            self.add(*letter);
        }
    }

    /// The flags after one more letter.
    pub fn after(self, letter: Letter) -> Flags
        ensures { result ≡ flags_next self (mark letter) }
    {
        let mut flags = self;
        flags.add(letter);
        flags
    }

    /// The flags after more letters.
    pub fn after_all(self, letters: &[Letter]) -> Flags
        ensures { (word : List ℕ) → flags_of word ≡ self → result ≡ flags_of (word ++ letters.now) }
    {
        let mut flags = self;
        flags.add_all(letters);
        flags
    }

    /// A law: the flags folded over a word, letter by letter, are the flags of the word.
    #[tactic(auto, using(crate::proofs::Folded::flags_law))]
    pub fn fold_to_those_of_the_word()
        ensures { (word : List ℕ) → flags_folded no_flags (map mark word) ≡ flags_of word }
    {}

    /// A law: each flag is decided by the last of the letters that bear on it.
    pub fn are_by_last_letters()
        ensures up { (word : List ℕ) → ((flags_of word).up ≡ true)
            ↔ LastIs (codes "suUdD") (codes "uU") word }
        ensures settled { (word : List ℕ) → ((flags_of word).settled ≡ true)
            ↔ LastIs (codes "suUdD") (codes "sUD") word }
        ensures supervised { (word : List ℕ) → ((flags_of word).supervised ≡ true)
            ↔ LastIs (codes "sx") (codes "s") word }
        ensures failed { (word : List ℕ) → ((flags_of word).failed ≡ true)
            ↔ LastIs (codes "Osu") (codes "O") word }
    {}

    /// A law: these are the codes of all flags, and of some words.
    pub fn have_sixteen_codes()
        ensures codes { map code_of sixteen_flags
            ≡ 0 ∷ 1 ∷ 2 ∷ 3 ∷ 4 ∷ 5 ∷ 6 ∷ 7 ∷ 8 ∷ 9 ∷ 10 ∷ 11 ∷ 12 ∷ 13 ∷ 14 ∷ 15 ∷ [] }
        ensures words { map (λ row. code_of (flags_of row.0)) coded_words
            ≡ map (λ row. row.1) coded_words }
    {}

    /// The flags as a number below 16: up counts 1, settled 2, supervised 4 and failed 8.
    pub fn code(self) -> u64
        ensures value { result ≡ code_of self }
        ensures small { result < 16 }
    {
        let mut code = 0;
        if self.up {
            code += 1;
        }
        if self.settled {
            code += 2;
        }
        if self.supervised {
            code += 4;
        }
        if self.failed {
            code += 8;
        }
        code
    }

    /// The flags with this code. None if the code is 16 or more.
    pub fn of_code(code: u64) -> Option<Flags>
        ensures coded { MatchOption result (16 ≤ code) (λ flags. code_of flags ≡ code) }
        ensures back { (flags : Flags) → code_of flags ≡ code → result ≡ Some flags }
    {
        if code >= 16 {
            return None;
        }
        Some(Flags {
            up: code % 2 == 1,
            settled: code / 2 % 2 == 1,
            supervised: code / 4 % 2 == 1,
            failed: code / 8 % 2 == 1,
        })
    }
}
