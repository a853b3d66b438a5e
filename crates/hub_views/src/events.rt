//! The lines of letters that came.
ghost use Rattle.std.specs.Prelude.{◌≡◌, ◌++◌, ◌∷◌, [], IfOk, OnOk, true};
ghost use Rattle.std.specs.List.{list_all};
ghost use Rattle.std.specs.Option.{option_map};
ghost use Rattle.hub_requests.specs.Texts.{number_or_dash};
ghost use Rattle.hub_views.specs.EventLines.{IsStamp, behind, head_of, hit_line, is_stamp_byte, letter_line, lettering, line_of, lines_of, meaning_of, number_after, numbering, object_of, opening_of, saying};
ghost use Rattle.hub_views.specs.declared.form.Form.TheVariants as forms;

use crate::form::Form;
use crate::json::{put_number_or_null, put_string, put_string_or_null};
use jiff::Timestamp;
use std::alloc::{AllocError, Global};
use std::rt::Clock;

/// What a letter of a service says of it. None for other letters.
fn meaning_of(letter: u8) -> Option<&'static str>
    ensures { option_map (λ it. it.now) result ≡ meaning_of letter }
{
    match letter {
        b's' => Some("supervised"),
        b'u' => Some("up"),
        b'U' => Some("ready"),
        b'd' => Some("down"),
        b'D' => Some("finished"),
        b'O' => Some("failed"),
        b'x' => Some("unsupervised"),
        _ => None,
    }
}

// The clock's time to the second, by RFC 3339 and in UTC.
fn time_of<C: Clock>(clock: &C) -> Option<Timestamp> {
    let now = Timestamp::now(clock).ok()?;
    Timestamp::from_second(now.as_second()).ok()
}

fn is_stamp_byte(byte: u8) -> bool
    ensures { result ≡ is_stamp_byte byte }
{
    matches!(byte, b'0'..=b'9' | b'-' | b':' | b'T' | b'Z')
}

fn is_stamp(text: &[u8]) -> bool
    ensures { result ≡ list_all is_stamp_byte text.now }
{
    text.iter().all(|byte| is_stamp_byte(*byte))
}

/// The time now, such as `2026-11-23T10:15:02Z`. `-` if the clock can't be read. A text that has something else, such as a space or
/// an LF, is no time: it could pass for other letters.
pub fn stamp<C: Clock>(clock: &C, alloc: Global) -> Result<String, AllocError>
    ensures { IfOk result (λ it. IsStamp it.bytes.items) }
{
    if let Some(time) = time_of(clock) {
        let text = time.to_string(alloc)?;
        if is_stamp(text.as_bytes()) {
            return Ok(text);
        }
    }
    String::from_str(alloc, "-")
}

/// The beginning of a line: when something came, and whose it is.
fn put_head(stamp: &str, name: &str, lines: &mut Vec<u8>) -> Result<(), AllocError>
    ensures { OnOk result (lines.new.items ≡ lines.old.items ++ head_of stamp.now name.now) }
{
    lines.extend_from_slice(stamp.as_bytes())?;
    lines.extend_from_slice(b" ")?;
    lines.extend_from_slice(name.as_bytes())?;
    lines.extend_from_slice(b" ")
}

fn put_number(alloc: Global, number: Option<u64>, lines: &mut Vec<u8>) -> Result<(), AllocError>
    ensures { OnOk result (lines.new.items ≡ lines.old.items ++ number_or_dash number) }
{
    match number {
        Some(number) => lines.extend_from_slice(number.to_string(alloc)?.as_bytes()),
        None => lines.extend_from_slice(b"-"),
    }
}

// Puts a word behind these lines, with a space before it, if there is one.
fn put_behind(word: Option<&str>, lines: &mut Vec<u8>) -> Result<(), AllocError>
    ensures { OnOk result (lines.new.items
        ≡ lines.old.items ++ behind (option_map (λ it. it.now) word.entry)) }
{
    let Some(word) = word else {
        return Ok(());
    };
    lines.extend_from_slice(b" ")?;
    lines.extend_from_slice(word.as_bytes())
}

// Puts the line of a letter behind these lines.
fn put_line(
    alloc: Global,
    stamp: &str,
    name: &str,
    number: Option<u64>,
    letter: u8,
    lines: &mut Vec<u8>,
) -> Result<(), AllocError>
    ensures { OnOk result (lines.new.items
        ≡ lines.old.items ++ line_of stamp.now name.now number letter) }
{
    put_head(stamp, name, lines)?;
    put_number(alloc, number, lines)?;
    lines.extend_from_slice(&[b' ', letter])?;
    put_behind(meaning_of(letter), lines)?;
    lines.extend_from_slice(b"\n")
}

// The beginning of an object: when something came, and whose it is.
fn put_opening(stamp: &str, name: &str, lines: &mut Vec<u8>) -> Result<(), AllocError>
    ensures { OnOk result (lines.new.items ≡ lines.old.items ++ opening_of stamp.now name.now) }
{
    lines.extend_from_slice(b"{\"time\":")?;
    put_string(stamp.as_bytes(), lines)?;
    lines.extend_from_slice(b",\"name\":")?;
    put_string(name.as_bytes(), lines)
}

// The member for the number of a letter.
fn put_numbering(alloc: Global, number: Option<u64>, lines: &mut Vec<u8>) -> Result<(), AllocError>
    ensures { OnOk result (lines.new.items ≡ lines.old.items ++ numbering number) }
{
    lines.extend_from_slice(b",\"number\":")?;
    put_number_or_null(alloc, number, lines)
}

// The member for a letter.
fn put_lettering(letter: u8, lines: &mut Vec<u8>) -> Result<(), AllocError>
    ensures { OnOk result (lines.new.items ≡ lines.old.items ++ lettering letter) }
{
    lines.extend_from_slice(b",\"letter\":")?;
    put_string(&[letter], lines)
}

// The member for what a letter says.
fn put_saying(letter: u8, lines: &mut Vec<u8>) -> Result<(), AllocError>
    ensures { OnOk result (lines.new.items ≡ lines.old.items ++ saying letter) }
{
    lines.extend_from_slice(b",\"says\":")?;
    put_string_or_null(meaning_of(letter), lines)
}

// Puts a letter as an object behind these lines.
fn put_object(
    alloc: Global,
    stamp: &str,
    name: &str,
    number: Option<u64>,
    letter: u8,
    lines: &mut Vec<u8>,
) -> Result<(), AllocError>
    ensures { OnOk result (lines.new.items
        ≡ lines.old.items ++ object_of stamp.now name.now number letter) }
{
    put_opening(stamp, name, lines)?;
    put_numbering(alloc, number, lines)?;
    put_lettering(letter, lines)?;
    put_saying(letter, lines)?;
    lines.extend_from_slice(b"}\n")
}

// Puts a letter in this form behind these lines.
fn put_letter(
    alloc: Global,
    form: Form,
    stamp: &str,
    name: &str,
    number: Option<u64>,
    letter: u8,
    lines: &mut Vec<u8>,
) -> Result<(), AllocError>
    ensures { OnOk result (lines.new.items
        ≡ lines.old.items ++ letter_line form stamp.now name.now number letter) }
{
    match form {
        Form::Line => put_line(alloc, stamp, name, number, letter, lines),
        Form::Plain => lines.extend_from_slice(&[letter, b'\n']),
        Form::Json => put_object(alloc, stamp, name, number, letter, lines),
    }
}

/// The number of an event so many after the one of this number, if there is one.
pub fn number_after(number: Option<u64>, count: u64) -> Option<u64>
    ensures { result ≡ number_after number count }
{
    match number {
        Some(number) => number.checked_add(count),
        None => None,
    }
}

/// A line for each letter, in this form. `first` is the number of the first one, if it is known.
pub fn lines_of(
    alloc: Global,
    form: Form,
    stamp: &str,
    name: &str,
    first: Option<u64>,
    letters: &[u8],
) -> Result<Vec<u8>, AllocError>
    ensures { IfOk result (λ it. it.items ≡ lines_of form stamp.now name.now first letters.now) }
{
    let mut lines = Vec::new(alloc);
    let mut next = first;
    'letters: for letter in letters {
        put_letter(alloc, form, stamp, name, next, *letter, &mut lines)?;
        next = number_after(next, 1);
    }
    Ok(lines)
}

// Puts letters and an LF behind the line.
fn put_letters(letters: &[u8], line: &mut Vec<u8>) -> Result<(), AllocError>
    ensures { OnOk result (line.new.items ≡ line.old.items ++ (letters.now ++ 10 ∷ [])) }
{
    line.extend_from_slice(letters)?;
    line.extend_from_slice(b"\n")
}

// Puts a hit as an object behind the line.
fn put_hit_object(
    stamp: &str,
    name: &str,
    letters: &[u8],
    line: &mut Vec<u8>,
) -> Result<(), AllocError>
    ensures { OnOk result (line.new.items
        ≡ line.old.items ++ hit_line forms.Json stamp.now name.now letters.now) }
{
    put_opening(stamp, name, line)?;
    line.extend_from_slice(b",\"letters\":")?;
    put_string(letters, line)?;
    line.extend_from_slice(b"}\n")
}

// Puts the line of a hit, in this form, behind these lines.
fn put_hit(
    form: Form,
    stamp: &str,
    name: &str,
    letters: &[u8],
    line: &mut Vec<u8>,
) -> Result<(), AllocError>
    ensures { OnOk result (line.new.items
        ≡ line.old.items ++ hit_line form stamp.now name.now letters.now) }
{
    match form {
        Form::Line => {
            put_head(stamp, name, line)?;
            put_letters(letters, line)
        }
        Form::Plain => put_letters(letters, line),
        Form::Json => put_hit_object(stamp, name, letters, line),
    }
}

/// The line of a hit, in this form.
pub fn hit_line(
    alloc: Global,
    form: Form,
    stamp: &str,
    name: &str,
    letters: &[u8],
) -> Result<Vec<u8>, AllocError>
    ensures { IfOk result (λ it. it.items ≡ hit_line form stamp.now name.now letters.now) }
{
    let mut line = Vec::new(alloc);
    put_hit(form, stamp, name, letters, &mut line)?;
    Ok(line)
}
