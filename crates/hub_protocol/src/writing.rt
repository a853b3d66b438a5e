//! Writes the text of a reply.
ghost use Rattle.std.specs.Prelude.{◌≡◌, ◌++◌, ◌+◌, ◌∷◌, [], ◌≤◌, length, OnOk, OnErr, IsOk, vec_len, vec_capacity, codes};
ghost use Rattle.std.specs.Fmt.{decimal};
ghost use Rattle.hub_requests.specs.declared.reply.Reply.{Reply};
ghost use Rattle.hub_protocol.specs.Writing.{Appends, place_text};
ghost use Rattle.hub_requests.specs.Names.{names_text};
ghost use Rattle.hub_requests.specs.Texts.{line_of, number_or_dash, numbers_text, text_of, text_of_flag, word_of_kind, word_of_policy};

use hub_letters::Letter;
use hub_record::{Kind, Policy, Status};
use hub_requests::{About, Name, Refusal, Reply};
use itoa::Buffer;
use std::alloc::AllocError;

/// What comes of appending. An error says that memory ran out.
pub(crate) type Appended = Result<(), AllocError>;

/// Appends the text of the reply, with its LF. An error says that memory ran out; `out` then has the same bytes as
/// before.
pub fn write_reply(reply: &Reply, out: &mut Vec<u8>) -> Result<(), AllocError>
    ensures ok { OnOk result (out.new.items ≡ out.old.items ++ text_of reply.now) }
    ensures err { OnErr result (out.new.items ≡ out.old.items) }
    ensures room { vec_len out.old + length (text_of reply.now) ≤ vec_capacity out.old
        → IsOk result }
    ensures capacity { vec_capacity out.old ≤ vec_capacity out.new }
{
    let start = out.len();
    let written = append_text(reply, out);
    if written.is_err() {
        out.truncate(start);
    }
    written
}

fn append_text(reply: &Reply, out: &mut Vec<u8>) -> Appended
    ensures { Appends out.old out.new result (text_of reply.now) }
{
    append_line(reply, out)?;
    out.push(b'\n')?;
    Ok(())
}

fn append_line(reply: &Reply, out: &mut Vec<u8>) -> Appended
    ensures { Appends out.old out.new result (line_of reply.now) }
{
    match reply {
        Reply::Done => out.extend_from_slice(b"ok"),
        Reply::Number(number) => append_number(b"ok ", *number, out),
        Reply::State(status) => append_status(status, out),
        Reply::About(about) => append_about(about, out),
        Reply::Got(letters) => append_letters(b"got ", letters.items(), out),
        Reply::Hit(letters) => append_letters(b"hit ", letters.items(), out),
        Reply::Nothing => out.extend_from_slice(b"none"),
        Reply::End => out.extend_from_slice(b"end"),
        Reply::Evicted => out.extend_from_slice(b"evicted"),
        Reply::Yes(numbers) => append_yes(numbers.items(), out),
        Reply::Never => out.extend_from_slice(b"never"),
        Reply::Late => out.extend_from_slice(b"late"),
        Reply::Listed(names) => append_listed(names.items(), out),
        Reply::No(refusal) => append_refusal(*refusal, out),
    }
}

pub(crate) fn append_number(before: &[u8], number: u64, out: &mut Vec<u8>) -> Appended
    ensures { Appends out.old out.new result (before.now ++ decimal number) }
{
    let mut digits = Buffer::new();
    out.extend_from_slice(before)?;
    out.extend_from_slice(digits.format(number).as_bytes())
}

fn append_status(status: &Status, out: &mut Vec<u8>) -> Appended
    ensures { Appends out.old out.new result (line_of (Reply.State status.now)) }
{
    append_number(b"ok ", status.number, out)?;
    append_number(b" ", status.flags.code(), out)?;
    out.extend_from_slice(if status.closed { b" closed" } else { b" open" })
}

fn append_about(about: &About, out: &mut Vec<u8>) -> Appended
    ensures { Appends out.old out.new result (line_of (Reply.About about.now)) }
{
    append_kind(about.kind, out)?;
    append_flag(about.notifies, out)?;
    append_limits(about, out)?;
    append_usage(about, out)
}

fn append_kind(kind: Kind, out: &mut Vec<u8>) -> Appended
    ensures { Appends out.old out.new result (codes "ok " ++ word_of_kind kind) }
{
    match kind {
        Kind::Plain => out.extend_from_slice(b"ok dir"),
        Kind::Service => out.extend_from_slice(b"ok svc"),
    }
}

fn append_flag(flag: bool, out: &mut Vec<u8>) -> Appended
    ensures { Appends out.old out.new result (32 ∷ text_of_flag flag) }
{
    match flag {
        false => out.extend_from_slice(b" 0"),
        true => out.extend_from_slice(b" 1"),
    }
}

fn append_limits(about: &About, out: &mut Vec<u8>) -> Appended
    ensures { Appends out.old out.new result (names_text (decimal about.now.waiting
        ∷ decimal about.now.total ∷ word_of_policy about.now.policy ∷ [])) }
{
    append_number(b" ", about.waiting, out)?;
    append_number(b" ", about.total, out)?;
    append_policy(about.policy, out)
}

fn append_policy(policy: Policy, out: &mut Vec<u8>) -> Appended
    ensures { Appends out.old out.new result (32 ∷ word_of_policy policy) }
{
    match policy {
        Policy::Hold => out.extend_from_slice(b" hold"),
        Policy::Evict => out.extend_from_slice(b" evict"),
    }
}

fn append_usage(about: &About, out: &mut Vec<u8>) -> Appended
    ensures { Appends out.old out.new result (names_text (decimal about.now.subscriptions
        ∷ decimal about.now.publishers ∷ decimal about.now.pending ∷ [])) }
{
    append_number(b" ", about.subscriptions, out)?;
    append_number(b" ", about.publishers, out)?;
    append_number(b" ", about.pending, out)
}

pub(crate) fn append_letters(before: &[u8], letters: &[Letter], out: &mut Vec<u8>) -> Appended
    ensures { Appends out.old out.new result (before.now ++ letters.now) }
{
    out.extend_from_slice(before)?;
    let start = out.len();
    out.resize(start + letters.len(), 0)?;
    copy_letters(letters, &mut out[start..]);
    Ok(())
}

// A loop over a slice is compiled to a copy of the whole, and one that pushes each byte isn't.
fn copy_letters(letters: &[Letter], bytes: &mut [u8])
    requires { length bytes.old ≡ length letters.now }
    ensures { bytes.new ≡ letters.now }
{
    for i in 0..letters.len() {
        bytes[i] = letters[i].byte();
    }
}

fn append_yes(numbers: &[Option<u64>], out: &mut Vec<u8>) -> Appended
    ensures { Appends out.old out.new result (codes "yes" ++ numbers_text numbers.now) }
{
    out.extend_from_slice(b"yes")?;
    append_numbers(numbers, out)
}

fn append_numbers(numbers: &[Option<u64>], out: &mut Vec<u8>) -> Appended
    ensures { Appends out.old out.new result (numbers_text numbers.now) }
{
    for number in numbers {
        append_number_or_dash(*number, out)?;
    }
    Ok(())
}

fn append_number_or_dash(number: Option<u64>, out: &mut Vec<u8>) -> Appended
    ensures { Appends out.old out.new result (32 ∷ number_or_dash number) }
{
    match number {
        Some(number) => append_number(b" ", number, out),
        None => out.extend_from_slice(b" -"),
    }
}

fn append_listed(names: &[Name], out: &mut Vec<u8>) -> Appended
    ensures { Appends out.old out.new result (codes "names" ++ names_text names.now) }
{
    out.extend_from_slice(b"names")?;
    append_names(names, out)
}

pub(crate) fn append_names(names: &[Name], out: &mut Vec<u8>) -> Appended
    ensures { Appends out.old out.new result (names_text names.now) }
{
    for name in names {
        append_name(name, out)?;
    }
    Ok(())
}

pub(crate) fn append_name(name: &Name, out: &mut Vec<u8>) -> Appended
    ensures { Appends out.old out.new result (32 ∷ name.now) }
{
    out.push(b' ')?;
    out.extend_from_slice(name.bytes())
}

fn append_refusal(refusal: Refusal, out: &mut Vec<u8>) -> Appended
    ensures { Appends out.old out.new result (line_of (Reply.No refusal)) }
{
    let text = refusal_text(refusal);
    match refusal {
        Refusal::Unlawful(place) => append_number(text, place, out),
        _ => out.extend_from_slice(text),
    }
}

// The line of the refusal, up to the place if it tells one.
fn refusal_text(refusal: Refusal) -> &'static [u8]
    ensures { line_of (Reply.No refusal) ≡ result.now ++ place_text refusal }
{
    match refusal {
        Refusal::Long => b"no long",
        Refusal::Text => b"no text",
        Refusal::Word => b"no word",
        Refusal::Form => b"no form",
        Refusal::Range => b"no range",
        Refusal::Right => b"no right",
        Refusal::Name => b"no name",
        Refusal::Exists => b"no exists",
        Refusal::Kind => b"no kind",
        Refusal::Id => b"no id",
        Refusal::Many => b"no many",
        Refusal::Spent => b"no spent",
        Refusal::Closed => b"no closed",
        Refusal::Unlawful(_) => b"no unlawful ",
        Refusal::Full => b"no full",
        Refusal::Pattern => b"no pattern",
        Refusal::Overlong => b"no overlong",
        Refusal::Memory => b"no memory",
    }
}
