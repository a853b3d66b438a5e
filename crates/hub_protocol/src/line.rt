//! What a line says, read by its row of the table.
ghost use Rattle.std.specs.Prelude.{◌≡◌, ◌≢◌, ◌≤◌, ◌∷◌, [], ◌++◌, ℕ, List, length, map, MatchOption, MatchBool};
ghost use Rattle.std.specs.List.{AllZip};
ghost use Rattle.hub_protocol.specs.Spelling as spelled;
ghost use Rattle.hub_protocol.specs.Spelling.{IsOf, fields_of, text_of_field};
ghost use Rattle.hub_protocol.specs.Lines.{AreAllSound, AreRead, IsEnd, IsFieldOf, IsWithinKind, field_shown, fields_shown, pieces_of};

use crate::fields::{are_letters, are_names, is_pattern, numeral, split_at_space};
use crate::table::{Ending, Kind, MOST_FIELDS, Verb};
use crate::words::Spelled;
use hub_letters::{Mode, Span, State, Want};
use hub_requests::{Name, Will};

/// What a field says.
#[derive(Clone, Copy)]
pub enum Field<'a> {
    Name(&'a [u8]),
    Number(u64),
    Letters(&'a [u8]),
    Mode(Mode),
    Span(Span),
    Want(Want),
    State(State),
    Will(Will),
}

/// What the end of a line says. Names are as in the line, with one space between two.
#[derive(Clone, Copy)]
pub enum Last<'a> {
    Nothing,
    Names(&'a [u8]),
    Pattern(&'a [u8]),
    Evict(bool),
}

/// What is left of a line: nothing, or what is behind a space.
#[derive(Clone, Copy)]
pub enum Rest<'a> {
    Nothing,
    Text(&'a [u8]),
}

/// What a line says. Behind the fields of the verb's row are others, which say nothing.
#[derive(Clone, Copy)]
pub struct Line<'a> {
    pub verb: Verb,
    pub fields: &'a [Field<'a>],
    pub last: Last<'a>,
}

/// The text before the first space, and the rest behind it.
pub fn first_piece(text: &[u8]) -> (&[u8], Rest<'_>)
    ensures { fields_of text.now ≡ result.0.now ∷ pieces_of result.1 }
{
    match split_at_space(text) {
        Some((first, rest)) => (first, Rest::Text(rest)),
        None => (text, Rest::Nothing),
    }
}

/// What a field of this kind says by the text. None if such a field can't have the text.
fn field_of(kind: Kind, text: &[u8]) -> Option<Field<'_>>
    ensures { IsFieldOf kind text.now result }
{
    match kind {
        Kind::Name => name_field(text),
        Kind::Number(_, _) | Kind::Flag => Some(Field::Number(numeral(text)?)),
        Kind::Letters => letters_field(text),
        Kind::Mode => Some(Field::Mode(Mode::of_word(text)?)),
        Kind::Span => Some(Field::Span(Span::of_word(text)?)),
        Kind::Want => Some(Field::Want(Want::of_word(text)?)),
        Kind::State => Some(Field::State(State::of_word(text)?)),
        Kind::Will => Some(Field::Will(Will::of_word(text)?)),
    }
}

fn name_field(text: &[u8]) -> Option<Field<'_>>
    ensures { IsFieldOf Kind.Name text.now result }
{
    if Name::is_name(text) {
        Some(Field::Name(text))
    } else {
        None
    }
}

fn letters_field(text: &[u8]) -> Option<Field<'_>>
    ensures { IsFieldOf Kind.Letters text.now result }
{
    if are_letters(text) {
        Some(Field::Letters(text))
    } else {
        None
    }
}

fn next_field(kind: Kind, rest: Rest<'_>) -> Option<(Field<'_>, Rest<'_>)>
    ensures { MatchOption result
        ((field : spelled.Field) (more : List (List ℕ)) → IsOf kind field
        → pieces_of rest.entry ≢ text_of_field field ∷ more)
        (λ p. IsOf kind (field_shown p.0)
        × (pieces_of rest.entry ≡ text_of_field (field_shown p.0) ∷ pieces_of p.1)) }
{
    let Rest::Text(text) = rest else {
        return None;
    };
    let (text, rest) = first_piece(text);
    Some((field_of(kind, text)?, rest))
}

/// Reads fields of these kinds from the front of the rest, and returns what is left behind them. None if the rest doesn't begin with
/// such fields.
pub fn read_fields<'a>(kinds: &[Kind], rest: Rest<'a>, fields: &mut [Field<'a>]) -> Option<Rest<'a>>
    requires kinds { length kinds.now ≤ MOST_FIELDS }
    requires whole { length fields.old ≡ MOST_FIELDS }
    requires sound { AreAllSound fields.old }
    ensures { MatchOption result
        ((fields : List spelled.Field) (more : List (List ℕ)) → AllZip IsOf kinds.now fields
        → pieces_of rest.entry ≢ map text_of_field fields ++ more)
        (λ left. AreRead kinds.now rest.entry fields.new left) }
{
    let mut rest = rest;
    for i in 0..kinds.len() {
        let (field, behind) = next_field(kinds[i], rest)?;
        fields[i] = field;
        rest = behind;
    }
    Some(rest)
}

/// What the rest says, if a line may end so.
pub fn last_of(ending: Ending, rest: Rest<'_>) -> Option<Last<'_>>
    ensures { IsEnd ending (pieces_of rest.entry) result }
{
    match rest {
        Rest::Nothing => last_of_nothing(ending),
        Rest::Text(text) => last_of_text(ending, text),
    }
}

fn last_of_nothing<'a>(ending: Ending) -> Option<Last<'a>>
    ensures { IsEnd ending [] result }
{
    match ending {
        Ending::Nothing => Some(Last::Nothing),
        Ending::Evict => Some(Last::Evict(false)),
        Ending::Names | Ending::Pattern => None,
    }
}

fn last_of_text(ending: Ending, text: &[u8]) -> Option<Last<'_>>
    ensures { IsEnd ending (fields_of text.now) result }
{
    match ending {
        Ending::Nothing => None,
        Ending::Names => last_names(text),
        Ending::Pattern => last_pattern(text),
        Ending::Evict => last_evict(text),
    }
}

fn last_names(text: &[u8]) -> Option<Last<'_>>
    ensures { IsEnd Ending.Names (fields_of text.now) result }
{
    if are_names(text) {
        Some(Last::Names(text))
    } else {
        None
    }
}

fn last_pattern(text: &[u8]) -> Option<Last<'_>>
    ensures { IsEnd Ending.Pattern (fields_of text.now) result }
{
    if is_pattern(text) {
        Some(Last::Pattern(text))
    } else {
        None
    }
}

fn last_evict(text: &[u8]) -> Option<Last<'_>>
    ensures { IsEnd Ending.Evict (fields_of text.now) result }
{
    if text == b"evict".as_slice() {
        Some(Last::Evict(true))
    } else {
        None
    }
}

/// Whether each number is in the range that its kind has.
pub fn are_within(kinds: &[Kind], fields: &[Field<'_>]) -> bool
    requires { length kinds.now ≤ length fields.now }
    ensures { MatchBool result (AllZip IsWithinKind kinds.now (fields_shown kinds.now fields.now))
        (AllZip IsWithinKind kinds.now (fields_shown kinds.now fields.now) → ⊥) }
{
    for i in 0..kinds.len() {
        if !is_within(kinds[i], fields[i]) {
            return false;
        }
    }
    true
}

fn is_within(kind: Kind, field: Field<'_>) -> bool
    ensures { MatchBool result (IsWithinKind kind (field_shown field.entry))
        (IsWithinKind kind (field_shown field.entry) → ⊥) }
{
    match (kind, field) {
        (Kind::Number(least, most), Field::Number(number)) => least <= number && number <= most,
        (Kind::Flag, Field::Number(number)) => number <= 1,
        _ => true,
    }
}
