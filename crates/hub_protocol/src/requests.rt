//! The request of a line.
ghost use Rattle.std.specs.Prelude.{◌≡◌, ◌∷◌, [], length, IfOk, IfErr};
ghost use Rattle.hub_requests.specs.declared.reply.Refusal.TheVariants as no;
ghost use Rattle.hub_protocol.specs.Spelling as spelled;
ghost use Rattle.hub_protocol.specs.Spelling.{EndsSoundly, IsName, IsPatternText, IsForm, IsSound, AreLetters, AreNames, evict_in, fields_of, flag_in, form_of, letters_in, mode_in, name_in, names_in, number_in, pattern_in, span_in, state_in, want_in, will_in};
ghost use Rattle.hub_protocol.specs.Table.{word_of};
ghost use Rattle.hub_protocol.specs.declared.table.TheConstants.{MOST_FIELDS};
ghost use Rattle.hub_protocol.specs.Lines.{AreAllSound, AreWithinKinds, IsMadeOf, field_shown, form_shown, last_shown};

use crate::line::{Field, Last, Line};
use crate::table::{Verb, forms};
use hub_letters::{Letter, Mode, Span, State, Want};
use hub_record::Letters;
use hub_requests::{Name, Names, PatternText, Refusal, Request, Will};
use std::alloc::{AllocError, Global};

fn name_of(alloc: Global, text: &[u8]) -> Result<Name, AllocError>
    requires { IsName text.now }
    ensures { IfOk result (λ name. name ≡ text.now) }
{
    let name = Name::of(alloc, text)?;
    Ok(name.unwrap())
}

fn letters_of(alloc: Global, text: &[u8]) -> Result<Letters, AllocError>
    requires { AreLetters text.now }
    ensures { IfOk result (λ letters. letters ≡ text.now) }
{
    let mut letters = Vec::with_capacity(alloc, text.len())?;
    for b in text {
        letters.push_reserved(Letter::of(*b).unwrap());
    }
    Ok(Letters::of(letters))
}

fn pattern_of(alloc: Global, text: &[u8]) -> Result<PatternText, AllocError>
    requires { IsPatternText text.now }
    ensures { IfOk result (λ pattern. pattern ≡ text.now) }
{
    let text = str::from_utf8(text).unwrap();
    Ok(PatternText::of(String::from_str(alloc, text)?))
}

fn names_of(alloc: Global, text: &[u8]) -> Result<Names, AllocError>
    requires { AreNames (fields_of text.now) }
    ensures { IfOk result (λ names. names ≡ fields_of text.now) }
{
    let mut names = Vec::new(alloc);
    for name in text.split(|b| *b == b' ') {
        names.push(name_of(alloc, name)?)?;
    }
    Ok(Names::of(names))
}

fn name(alloc: Global, field: &Field<'_>) -> Result<Name, AllocError>
    requires { IsSound (field_shown field.now) }
    ensures { IfOk result (λ name. name ≡ name_in (field_shown field.now)) }
{
    match field {
        Field::Name(text) => name_of(alloc, text),
        _ => name_of(alloc, b"-"),
    }
}

fn letters(alloc: Global, field: &Field<'_>) -> Result<Letters, AllocError>
    requires { IsSound (field_shown field.now) }
    ensures { IfOk result (λ letters. letters ≡ letters_in (field_shown field.now)) }
{
    match field {
        Field::Letters(text) => letters_of(alloc, text),
        _ => Ok(Letters::of(Vec::new(alloc))),
    }
}

fn number(field: &Field<'_>) -> u64
    ensures { result ≡ number_in (field_shown field.now) }
{
    match field {
        Field::Number(number) => *number,
        _ => 0,
    }
}

fn flag(field: &Field<'_>) -> bool
    ensures { result ≡ flag_in (field_shown field.now) }
{
    number(field) == 1
}

fn mode(field: &Field<'_>) -> Mode
    ensures { result ≡ mode_in (field_shown field.now) }
{
    match field {
        Field::Mode(mode) => *mode,
        _ => Mode::Once,
    }
}

fn span(field: &Field<'_>) -> Span
    ensures { result ≡ span_in (field_shown field.now) }
{
    match field {
        Field::Span(span) => *span,
        _ => Span::All,
    }
}

fn want(field: &Field<'_>) -> Want
    ensures { result ≡ want_in (field_shown field.now) }
{
    match field {
        Field::Want(want) => *want,
        _ => Want::Up,
    }
}

fn state(field: &Field<'_>) -> State
    ensures { result ≡ state_in (field_shown field.now) }
{
    match field {
        Field::State(state) => *state,
        _ => State::Off,
    }
}

fn will(field: &Field<'_>) -> Will
    ensures { result ≡ will_in (field_shown field.now) }
{
    match field {
        Field::Will(will) => *will,
        _ => Will::None,
    }
}

fn names(alloc: Global, last: &Last<'_>) -> Result<Names, AllocError>
    requires { EndsSoundly (last_shown last.now) }
    ensures { IfOk result (λ names. names ≡ names_in (last_shown last.now)) }
{
    match last {
        Last::Names(text) => names_of(alloc, text),
        _ => Ok(Names::of(Vec::new(alloc))),
    }
}

fn pattern(alloc: Global, last: &Last<'_>) -> Result<PatternText, AllocError>
    requires { EndsSoundly (last_shown last.now) }
    ensures { IfOk result (λ pattern. pattern ≡ pattern_in (last_shown last.now)) }
{
    match last {
        Last::Pattern(text) => pattern_of(alloc, text),
        _ => Ok(PatternText::of(String::new(alloc))),
    }
}

fn evict(last: &Last<'_>) -> bool
    ensures { result ≡ evict_in (last_shown last.now) }
{
    matches!(last, Last::Evict(true))
}

/// The request of a line whose numbers are in their ranges. It is refused only if memory runs out.
pub fn request_of(alloc: Global, line: &Line<'_>) -> Result<Request, Refusal>
    requires formed { IsForm (form_shown line.now) }
    requires within { AreWithinKinds (form_shown line.now) }
    requires whole { length line.now.fields.now ≡ MOST_FIELDS }
    requires sound { AreAllSound line.now.fields.now }
    ensures ok { IfOk result (λ request. form_of request ≡ form_shown line.now) }
    ensures err { IfErr result (λ refusal. refusal ≡ no.Memory) }
{
    let fields = line.fields;
    let request = made_of(
        alloc, line.verb, &fields[0], &fields[1], &fields[2], &fields[3], &line.last,
    )?;
    Ok(request)
}

// What a field of a kind says.
macro_rules! read {
    (NAME $alloc:ident $field:ident) => { name($alloc, $field)? };
    (LETTERS $alloc:ident $field:ident) => { letters($alloc, $field)? };
    (MODE $alloc:ident $field:ident) => { mode($field) };
    (SPAN $alloc:ident $field:ident) => { span($field) };
    (WANT $alloc:ident $field:ident) => { want($field) };
    (STATE $alloc:ident $field:ident) => { state($field) };
    (WILL $alloc:ident $field:ident) => { will($field) };
    (REPORTS $alloc:ident $field:ident) => { flag($field) };
    ($number:ident $alloc:ident $field:ident) => { number($field) };
}

// What the end of a line says.
macro_rules! read_last {
    (Names $alloc:ident $last:ident) => { names($alloc, $last)? };
    (Pattern $alloc:ident $last:ident) => { pattern($alloc, $last)? };
    (Evict $alloc:ident $last:ident) => { evict($last) };
}

// A request, made of the fields and the end.
macro_rules! request {
    ($alloc:ident $end:ident $request:ident { $($field:ident: $place:ident $kind:ident),* } $ending:ident $(($last:ident))?) => {
        Ok(Request::$request {
            $($field: read!($kind $alloc $place),)*
            $($last: read_last!($ending $alloc $end),)?
        })
    };
}

// The request of the verb.
macro_rules! made {
    (($alloc:ident, $verb:ident, $fields:expr, $end:ident) ($a:ident $b:ident $c:ident $d:ident)
     $($word:literal $request:ident $read:tt $ending:ident $(($last:ident))?)*) => {{
        let ($a, $b, $c, $d) = $fields;
        match $verb {
            $(Verb::$request => request!($alloc $end $request $read $ending $(($last))?),)*
        }
    }};
}

fn made_of(
    alloc: Global,
    verb: Verb,
    a: &Field<'_>,
    b: &Field<'_>,
    c: &Field<'_>,
    d: &Field<'_>,
    last: &Last<'_>,
) -> Result<Request, AllocError>
    requires first { IsSound (field_shown a.now) }
    requires second { IsSound (field_shown b.now) }
    requires third { IsSound (field_shown c.now) }
    requires fourth { IsSound (field_shown d.now) }
    requires ending { EndsSoundly (last_shown last.now) }
    ensures ok { IfOk result (λ request. IsMadeOf (word_of verb)
        (field_shown a.now ∷ field_shown b.now ∷ field_shown c.now ∷ field_shown d.now ∷ [])
        (last_shown last.now) (form_of request)) }
{
    forms!(made(alloc, verb, (a, b, c, d), last))
}
