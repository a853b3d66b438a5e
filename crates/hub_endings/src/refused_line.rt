//! The line of a setup that was refused.
ghost use Rattle.std.specs.Prelude.{Some};

use hub_requests::Refusal;
use std::fmt;

/// The first line of a setup that was refused.
#[derive(Clone, Copy, Debug, PartialEq, Eq)]
pub struct RefusedLine {
    /// Its place among all lines, from 1.
    pub number: u64,
    /// Why it was refused.
    pub refusal: Refusal,
}

// Its text is the word of a refusal.
#[derive(Clone, Copy)]
struct Word(Refusal);

impl fmt::Display for Word {
    ghost use Rattle.hub_requests.specs.Texts.{word_of};

    ghost output = { λ it. Some (word_of it.0) };

    fn fmt<W: fmt::Write>(&self, f: &mut fmt::Formatter<W>) -> fmt::Result {
        f.write_str(match self.0 {
            Refusal::Long => "long",
            Refusal::Text => "text",
            Refusal::Word => "word",
            Refusal::Form => "form",
            Refusal::Range => "range",
            Refusal::Right => "right",
            Refusal::Name => "name",
            Refusal::Exists => "exists",
            Refusal::Kind => "kind",
            Refusal::Id => "id",
            Refusal::Many => "many",
            Refusal::Spent => "spent",
            Refusal::Closed => "closed",
            Refusal::Unlawful(place) => return write!(f, "unlawful {place}"),
            Refusal::Full => "full",
            Refusal::Pattern => "pattern",
            Refusal::Overlong => "overlong",
            Refusal::Memory => "memory",
        })
    }
}

impl fmt::Display for RefusedLine {
    ghost use Rattle.hub_endings.specs.Faults.{refused_text};

    ghost output = { λ it. Some (refused_text it) };

    fn fmt<W: fmt::Write>(&self, f: &mut fmt::Formatter<W>) -> fmt::Result {
        let (number, word) = (self.number, Word(self.refusal));
        write!(f, "setup line {number}: no {word}")
    }
}
