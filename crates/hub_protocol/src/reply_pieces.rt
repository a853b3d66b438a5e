//! What the pieces of a reply's line say.
ghost use Rattle.std.specs.Prelude.{◌≡◌, ◌≢◌, ◌∷◌, [], ℕ, Bool, List, All, MatchBool, MatchOption};
ghost use Rattle.std.specs.Fmt.{decimal};
ghost use Rattle.hub_requests.specs.Texts.{openness};
ghost use Rattle.hub_protocol.specs.Spelling.{fields_of};
ghost use Rattle.hub_protocol.specs.declared.reply_pieces.Head.{Head as head};
ghost use Rattle.hub_protocol.specs.Lines.{pieces_of};
ghost use Rattle.hub_protocol.specs.Replies.{IsLetter};
ghost use Rattle.hub_protocol.specs.ReplyLines.{AreCountTexts, IsCountOf, IsCountText, IsPlainOf, IsRefusalOf, text_of_head};

use crate::fields::spaces;
use crate::line::{Rest, first_piece};
use crate::meanings::meaning_of;
use hub_requests::{MOST_SERVICES, Refusal};
use itoa::Buffer;
use std::str;

/// The first word of a reply's line.
#[derive(Clone, Copy)]
pub enum Head {
    Done,
    Got,
    Hit,
    Nothing,
    End,
    Evicted,
    Yes,
    Never,
    Late,
    Listed,
    No,
}

const HEADS: &[(&[u8], Head)] = &[
    (b"ok", Head::Done),
    (b"got", Head::Got),
    (b"hit", Head::Hit),
    (b"none", Head::Nothing),
    (b"end", Head::End),
    (b"evicted", Head::Evicted),
    (b"yes", Head::Yes),
    (b"never", Head::Never),
    (b"late", Head::Late),
    (b"names", Head::Listed),
    (b"no", Head::No),
];

/// What this word begins. None if it begins no reply.
pub fn head_of(word: &[u8]) -> Option<Head>
    ensures { MatchOption result ((head : head) → word.now ≢ text_of_head head)
        (λ head. word.now ≡ text_of_head head) }
{
    meaning_of(HEADS, word)
}

/// Whether the last piece says `closed`. None if it says neither that nor `open`.
pub fn closed_in(rest: Rest<'_>) -> Option<bool>
    ensures { MatchOption result ((closed : Bool) → pieces_of rest.entry ≢ openness closed ∷ [])
        (λ closed. pieces_of rest.entry ≡ openness closed ∷ []) }
{
    match rest {
        Rest::Nothing => None,
        Rest::Text(text) => closed_of(text),
    }
}

// Whether each of these words says `closed`.
const OPENNESSES: &[(&[u8], bool)] = &[(b"open", false), (b"closed", true)];

fn closed_of(word: &[u8]) -> Option<bool>
    ensures { MatchOption result ((closed : Bool) → word.now ≢ openness closed)
        (λ closed. word.now ≡ openness closed) }
{
    meaning_of(OPENNESSES, word)
}

/// The letters that are all that is left. There may be none.
pub fn letters_in(rest: Rest<'_>) -> Option<&[u8]>
    ensures { MatchOption result
        ((letters : List ℕ) → All IsLetter letters → pieces_of rest.entry ≢ letters ∷ [])
        (λ text. All IsLetter text.now × (pieces_of rest.entry ≡ text.now ∷ [])) }
{
    match rest {
        Rest::Nothing => None,
        Rest::Text(text) => letters_of(text),
    }
}

fn letters_of(text: &[u8]) -> Option<&[u8]>
    ensures { MatchOption result
        ((letters : List ℕ) → All IsLetter letters → fields_of text.now ≢ letters ∷ [])
        (λ letters. All IsLetter letters.now × (fields_of text.now ≡ letters.now ∷ [])) }
{
    if are_all_letters(text) {
        Some(text)
    } else {
        None
    }
}

fn are_all_letters(text: &[u8]) -> bool
    ensures { MatchBool result (All IsLetter text.now) (All IsLetter text.now → ⊥) }
{
    text.iter().all(|b| *b >= b'!' && *b <= b'~')
}

/// Whether the text is at most 32 numbers or dashes.
pub fn are_counts(text: &[u8]) -> bool
    ensures { MatchBool result (AreCountTexts (fields_of text.now))
        (AreCountTexts (fields_of text.now) → ⊥) }
{
    spaces(text) < MOST_SERVICES && fields_are_counts(text)
}

fn fields_are_counts(text: &[u8]) -> bool
    ensures { MatchBool result (All IsCountText (fields_of text.now))
        (All IsCountText (fields_of text.now) → ⊥) }
{
    text.split(|b| *b == b' ').all(is_count)
}

fn is_count(text: &[u8]) -> bool
    ensures { MatchBool result (IsCountText text.now) (IsCountText text.now → ⊥) }
{
    text == b"-".as_slice() || number_of(text).is_some()
}

/// The refusal that is all that is left.
pub fn refusal_in(rest: Rest<'_>) -> Option<Refusal>
    ensures { IsRefusalOf (pieces_of rest.entry) result }
{
    let Rest::Text(text) = rest else {
        return None;
    };
    let (word, rest) = first_piece(text);
    match rest {
        Rest::Nothing => plain_refusal(word),
        Rest::Text(place) => placed_refusal(word, place),
    }
}

// The refusal that is this word and a place.
fn placed_refusal(word: &[u8], place: &[u8]) -> Option<Refusal>
    ensures { IsRefusalOf (word.now ∷ fields_of place.now) result }
{
    if word != b"unlawful".as_slice() {
        return None;
    }
    let place = number_of(place)?;
    Some(Refusal::Unlawful(place))
}

// The refusals that are one word.
const REFUSALS: &[(&[u8], Refusal)] = &[
    (b"long", Refusal::Long),
    (b"text", Refusal::Text),
    (b"word", Refusal::Word),
    (b"form", Refusal::Form),
    (b"range", Refusal::Range),
    (b"right", Refusal::Right),
    (b"name", Refusal::Name),
    (b"exists", Refusal::Exists),
    (b"kind", Refusal::Kind),
    (b"id", Refusal::Id),
    (b"many", Refusal::Many),
    (b"spent", Refusal::Spent),
    (b"closed", Refusal::Closed),
    (b"full", Refusal::Full),
    (b"pattern", Refusal::Pattern),
    (b"overlong", Refusal::Overlong),
    (b"memory", Refusal::Memory),
];

// The refusal that is this word alone.
fn plain_refusal(word: &[u8]) -> Option<Refusal>
    ensures { IsPlainOf word.now result }
{
    meaning_of(REFUSALS, word)
}

/// The number of 64 bits whose numeral the text is, without leading zeros. None if it isn't a numeral.
pub fn number_of(text: &[u8]) -> Option<u64>
    ensures { IsCountOf text.now result }
{
    let Ok(digits) = str::from_utf8(text) else {
        return None;
    };
    let Ok(number) = digits.parse::<u64>() else {
        return None;
    };
    if is_numeral_of(number, text) {
        Some(number)
    } else {
        None
    }
}

fn is_numeral_of(number: u64, text: &[u8]) -> bool
    ensures { MatchBool result (text.now ≡ decimal number) (text.now ≢ decimal number) }
{
    let mut digits = Buffer::new();
    text == digits.format(number).as_bytes()
}
