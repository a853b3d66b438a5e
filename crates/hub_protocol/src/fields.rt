//! The fields of a line: the pieces between its spaces.
ghost use Rattle.std.specs.Prelude.{◌≡◌, ◌<◌, ◌≤◌, ◌↔◌, IsTrue, slice_index, ◌∷◌, [], length, count_by, All, Any, MatchBool, MatchOption};
ghost use Rattle.hub_protocol.specs.Spelling.{AreLetters, AreNames, IsName, IsPatternText, is_space, fields_of};
ghost use Rattle.hub_protocol.specs.Reading.{IsTextByte};
ghost use Rattle.hub_protocol.specs.Fields.{digits_from, IsNumeralOf};

use hub_requests::{MOST_SERVICES, Name};

/// The most digits of a numeral.
const MOST_DIGITS: usize = 13;
/// The most bytes of a pattern.
const LONGEST_PATTERN: usize = 200;

/// Whether each byte may be in a line: it is within 0x20 to 0x7E.
pub fn is_text(line: &[u8]) -> bool
    ensures { MatchBool result (All IsTextByte line.now) (Any (λ b. IsTextByte b → ⊥) line.now) }
{
    for b in line {
        if *b < b' ' || *b > b'~' {
            return false;
        }
    }
    true
}

/// The text before the first space, and the text after it. None if there is no space.
pub fn split_at_space(text: &[u8]) -> Option<(&[u8], &[u8])>
    ensures { MatchOption result
        (fields_of text.now ≡ text.now ∷ [])
        (λ p. fields_of text.now ≡ p.0.now ∷ fields_of p.1.now) }
{
    for i in 0..text.len() {
        if text[i] == b' ' {
            return Some((&text[..i], &text[i + 1..]));
        }
    }
    None
}

fn digits_value(text: &[u8]) -> Option<u64>
    requires { length text.now ≤ MOST_DIGITS }
    ensures { result ≡ digits_from 0 text.now }
{
    let mut value = 0u64;
    for b in text {
        if !b.is_ascii_digit() {
            return None;
        }
        value = 10 * value + u64::from(*b - b'0');
    }
    Some(value)
}

fn has_leading_zero(text: &[u8]) -> bool
    ensures { IsTrue result ↔ ((1 < length text.now) × (slice_index text.now 0 ≡ 48)) }
{
    text.len() > 1 && text[0] == b'0'
}

/// The number whose numeral the text is: 1 to 13 digits, without leading zeros. None if the text isn't a numeral.
pub fn numeral(text: &[u8]) -> Option<u64>
    ensures { IsNumeralOf text.now result }
{
    if text.is_empty() || text.len() > MOST_DIGITS || has_leading_zero(text) {
        return None;
    }
    digits_value(text)
}

/// Whether the text is one or more letters.
pub fn are_letters(text: &[u8]) -> bool
    ensures { MatchBool result (AreLetters text.now) (AreLetters text.now → ⊥) }
{
    if text.is_empty() {
        return false;
    }
    text.iter().all(|b| *b >= b'!' && *b <= b'~')
}

/// Whether the text may be the field of a pattern: 1 to 200 bytes of a line. Whether it is a pattern is found out
/// later, by the desk that is asked.
pub fn is_pattern(text: &[u8]) -> bool
    ensures { MatchBool result (IsPatternText text.now) (IsPatternText text.now → ⊥) }
{
    !text.is_empty() && text.len() <= LONGEST_PATTERN && is_text(text)
}

/// Whether the fields of the text are 1 to 32 names.
pub fn are_names(text: &[u8]) -> bool
    ensures { MatchBool result (AreNames (fields_of text.now)) (AreNames (fields_of text.now) → ⊥) }
{
    spaces(text) < MOST_SERVICES && fields_are_names(text)
}

pub fn spaces(text: &[u8]) -> usize
    ensures { result ≡ count_by is_space text.now }
{
    text.iter().filter(|b| **b == b' ').count()
}

pub fn fields_are_names(text: &[u8]) -> bool
    ensures { MatchBool result (All IsName (fields_of text.now))
        (All IsName (fields_of text.now) → ⊥) }
{
    text.split(|b| *b == b' ').all(Name::is_name)
}
