//! Writes the line of a request.
ghost use Rattle.std.specs.Prelude.{◌≡◌, ◌++◌, ◌+◌, ◌∷◌, ◌≤◌, length, map, OnOk, OnErr, IsOk, vec_len, vec_capacity};
ghost use Rattle.hub_requests.specs.Names.{names_text};
ghost use Rattle.hub_protocol.specs.Spelling.{form_of, pieces_of_last, says, spelling, text_of_field};
ghost use Rattle.hub_protocol.specs.Writing.{Appends, field_told, last_told, line_of_request, what_tells};

use crate::table::{MOST_FIELDS, forms};
use crate::words::Spelled;
use crate::writing::{Appended, append_letters, append_name, append_names, append_number};
use hub_letters::{Mode, Span, State, Want};
use hub_record::Letters;
use hub_requests::{Name, Names, PatternText, Request, Will};
use std::alloc::AllocError;

/// A field of a request.
#[derive(Clone, Copy)]
enum Told<'a> {
    Name(&'a Name),
    Number(u64),
    Letters(&'a Letters),
    Mode(Mode),
    Span(Span),
    Want(Want),
    State(State),
    Will(Will),
}

/// What ends the line of a request.
#[derive(Clone, Copy)]
enum End<'a> {
    Nothing,
    Names(&'a Names),
    Pattern(&'a PatternText),
    Evict(bool),
}

/// What the line of a request says. Behind the fields that count are others, which aren't told.
#[derive(Clone, Copy)]
struct ToldForm<'a> {
    word: &'static [u8],
    fields: [Told<'a>; MOST_FIELDS],
    count: usize,
    end: End<'a>,
}

const UNTOLD: Told<'static> = Told::Number(0);

/// Appends the line of the request, with its LF. An error says that memory ran out; `out` then has the same bytes as
/// before.
pub fn write_request(request: &Request, out: &mut Vec<u8>) -> Result<(), AllocError>
    ensures ok { OnOk result (out.new.items ≡ out.old.items ++ line_of_request request.now) }
    ensures err { OnErr result (out.new.items ≡ out.old.items) }
    ensures room { vec_len out.old + length (line_of_request request.now) ≤ vec_capacity out.old
        → IsOk result }
    ensures capacity { vec_capacity out.old ≤ vec_capacity out.new }
{
    let start = out.len();
    let written = append_line(request, out);
    if written.is_err() {
        out.truncate(start);
    }
    written
}

fn append_line(request: &Request, out: &mut Vec<u8>) -> Appended
    ensures { Appends out.old out.new result (line_of_request request.now) }
{
    append_request(request, out)?;
    out.push(b'\n')?;
    Ok(())
}

// A field of this kind.
macro_rules! told {
    (NAME $field:ident) => { Told::Name($field) };
    (LETTERS $field:ident) => { Told::Letters($field) };
    (MODE $field:ident) => { Told::Mode(*$field) };
    (SPAN $field:ident) => { Told::Span(*$field) };
    (WANT $field:ident) => { Told::Want(*$field) };
    (STATE $field:ident) => { Told::State(*$field) };
    (WILL $field:ident) => { Told::Will(*$field) };
    (REPORTS $field:ident) => { Told::Number(u64::from(*$field)) };
    ($number:ident $field:ident) => { Told::Number(*$field) };
}

// What ends the line of a request.
macro_rules! end {
    (Nothing) => { End::Nothing };
    (Names $last:ident) => { End::Names($last) };
    (Pattern $last:ident) => { End::Pattern($last) };
    (Evict $last:ident) => { End::Evict(*$last) };
}

// A form with 1 to 4 fields.
macro_rules! form {
    ($word:literal $end:expr, $a:expr) => {
        ToldForm { word: $word, fields: [$a, UNTOLD, UNTOLD, UNTOLD], count: 1, end: $end }
    };
    ($word:literal $end:expr, $a:expr, $b:expr) => {
        ToldForm { word: $word, fields: [$a, $b, UNTOLD, UNTOLD], count: 2, end: $end }
    };
    ($word:literal $end:expr, $a:expr, $b:expr, $c:expr) => {
        ToldForm { word: $word, fields: [$a, $b, $c, UNTOLD], count: 3, end: $end }
    };
    ($word:literal $end:expr, $a:expr, $b:expr, $c:expr, $d:expr) => {
        ToldForm { word: $word, fields: [$a, $b, $c, $d], count: 4, end: $end }
    };
}

// The word of the request, its fields and its end.
macro_rules! told_form {
    ($said:ident $places:tt
     $($word:literal $request:ident { $($field:ident: $place:ident $kind:ident),* } $ending:ident $(($last:ident))?)*) => {
        match $said {
            $(Request::$request { $($field,)* $($last)? } => {
                form!($word end!($ending $($last)?), $(told!($kind $field)),*)
            })*
        }
    };
}

fn append_request(request: &Request, out: &mut Vec<u8>) -> Appended
    ensures { Appends out.old out.new result (spelling (form_of request.now)) }
{
    let form = form_told(request);
    append_form(form.word, &form.fields[..form.count], form.end, out)
}

fn form_told(request: &Request) -> ToldForm<'_>
    ensures count { result.count ≤ length result.fields }
    ensures form { what_tells result ≡ form_of request.now }
{
    forms!(told_form request)
}

fn append_form(word: &[u8], fields: &[Told<'_>], end: End<'_>, out: &mut Vec<u8>) -> Appended
    ensures { Appends out.old out.new result
        (spelling (says word.now (map field_told fields.now) (last_told end.entry))) }
{
    append_pieces(word, fields, end, out)
}

// Each piece behind the word has a space before it.
fn append_pieces(word: &[u8], fields: &[Told<'_>], end: End<'_>, out: &mut Vec<u8>) -> Appended
    ensures { Appends out.old out.new result
        (word.now ++ (names_text (map text_of_field (map field_told fields.now))
        ++ names_text (pieces_of_last (last_told end.entry)))) }
{
    out.extend_from_slice(word)?;
    append_fields(fields, out)?;
    append_end(end, out)
}

fn append_fields(fields: &[Told<'_>], out: &mut Vec<u8>) -> Appended
    ensures { Appends out.old out.new result
        (names_text (map text_of_field (map field_told fields.now))) }
{
    for field in fields {
        append_field(*field, out)?;
    }
    Ok(())
}

fn append_field(field: Told<'_>, out: &mut Vec<u8>) -> Appended
    ensures { Appends out.old out.new result (32 ∷ text_of_field (field_told field.entry)) }
{
    match field {
        Told::Name(name) => append_name(name, out),
        Told::Number(number) => append_number(b" ", number, out),
        Told::Letters(letters) => append_letters(b" ", letters.items(), out),
        Told::Mode(mode) => append_word(mode, out),
        Told::Span(span) => append_word(span, out),
        Told::Want(want) => append_word(want, out),
        Told::State(state) => append_word(state, out),
        Told::Will(will) => append_word(will, out),
    }
}

fn append_word<T: Spelled>(word: T, out: &mut Vec<u8>) -> Appended
    ensures { Appends out.old out.new result (32 ∷ T.word word) }
{
    out.push(b' ')?;
    out.extend_from_slice(word.text())
}

fn append_end(end: End<'_>, out: &mut Vec<u8>) -> Appended
    ensures { Appends out.old out.new result (names_text (pieces_of_last (last_told end.entry))) }
{
    match end {
        End::Nothing | End::Evict(false) => Ok(()),
        End::Names(names) => append_names(names.items(), out),
        End::Pattern(pattern) => append_pattern(pattern, out),
        End::Evict(true) => out.extend_from_slice(b" evict"),
    }
}

fn append_pattern(pattern: &PatternText, out: &mut Vec<u8>) -> Appended
    ensures { Appends out.old out.new result (32 ∷ pattern.now) }
{
    out.push(b' ')?;
    out.extend_from_slice(pattern.items().as_bytes())
}
