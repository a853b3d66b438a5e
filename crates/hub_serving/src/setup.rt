//! What a hub has from the start: the lines of a file, which it carries out before it listens.
ghost use Rattle.std.specs.Prelude.{◌≡◌, ◌⊎◌, ◌≤◌, ◌∷◌, [], true, OnOk, IfOk, IfErr, IfSome, IsNone, Some, vec_len};
ghost use Rattle.hub_front.specs.Serving.{AnswersLine};
ghost use Rattle.hub_io.specs.Lines.{lines_of};
ghost use Rattle.hub_requests.specs.declared.reply.Reply.TheVariants.{No};
ghost use Rattle.hub_serving.specs.Setup.{AreCarriedOut, AsksLines, SetsUp, asks_something};
ghost use Rattle.hub_endings.specs.declared.fault.Fault.TheVariants as fault;

use hub_endings::{Fault, RefusedLine};
use hub_io::first_line;
use hub_protocol::parse;
use hub_requests::{Desk, Enter, Refusal, Reply};
use std::alloc::Global;
use std::fs::{File, Files};
use std::io::{ErrorKind, Read};
use std::sync::Wait;

/// The most bytes of a setup. A file such as `/dev/zero` would never end.
const MOST_BYTES: u64 = 1_048_576;

// All that the reader has, if that isn't too much.
fn read_all<R: Read + Drop>(alloc: Global, reader: R) -> Result<Vec<u8>, Fault>
    ensures whole { IfOk result (λ text. IfSome (R.remaining reader) (λ bytes. text.items ≡ bytes)) }
    ensures most { IfOk result (λ text. vec_len text ≤ MOST_BYTES) }
    ensures err { IfErr result (λ error. (error ≡ fault.Setup) ⊎ (error ≡ fault.Memory)) }
{
    let mut text = Vec::new(alloc);
    match reader.take(MOST_BYTES + 1).read_to_end(&mut text) {
        Ok(_) if text.len() as u64 <= MOST_BYTES => Ok(text),
        Err(error) if error.kind() == ErrorKind::OutOfMemory => Err(Fault::Memory),
        _ => Err(Fault::Setup),
    }
}

/// The text of a setup, which has no line if there is no file. An error is `Setup` if the file couldn't be read or has too many bytes,
/// or `Memory`.
pub(crate) fn read_setup<H: Files<File = File>>(
    rt: &H,
    alloc: Global,
    path: Option<&str>,
) -> Result<Vec<u8>, Fault>
    ensures none { IsNone path.entry → IfOk result (λ text. text.items ≡ []) }
    ensures err { IfErr result (λ error. (error ≡ fault.Setup) ⊎ (error ≡ fault.Memory)) }
{
    let Some(path) = path else {
        return Ok(Vec::new(alloc));
    };
    match File::open(rt, path) {
        Ok(file) => read_all(alloc, file),
        Err(_) => Err(Fault::Setup),
    }
}

fn asks_something(line: &[u8]) -> bool
    ensures { result ≡ asks_something line.now }
{
    match line {
        [] => false,
        [first, ..] => *first != b'#',
    }
}

// Asks the desk what the line asks for, if it does.
fn ask_line<H: Wait + Enter, D: Desk>(
    rt: &H,
    alloc: Global,
    desk: &mut D,
    line: &[u8],
) -> Result<(), Refusal>
    ensures ok { OnOk result (AreCarriedOut D.asks desk.old (line.now ∷ []) desk.new) }
    ensures err { IfErr result (λ refusal. (asks_something line.now ≡ true)
        × AnswersLine D.asks desk.old line.now (No refusal) desk.new) }
{
    if !asks_something(line) {
        return Ok(());
    }
    let request = parse(alloc, line)?;
    match desk.ask(rt, &request) {
        Reply::No(refusal) => Err(refusal),
        _ => Ok(()),
    }
}

// Asks the desk line after line. The last one may have no LF.
fn ask_lines<H: Wait + Enter, D: Desk>(
    rt: &H,
    alloc: Global,
    desk: &mut D,
    text: &[u8],
) -> Result<(), RefusedLine>
    ensures { AsksLines D.asks desk.old (lines_of text.now) desk.new result }
{
    let mut left = text;
    let mut number = 1;
    'lines: while let Some((line, rest)) = first_line(left) {
        if let Err(refusal) = ask_line(rt, alloc, desk, line) {
            return Err(RefusedLine { number, refusal });
        }
        number += 1;
        left = rest;
    }
    match ask_line(rt, alloc, desk, left) {
        Ok(()) => Ok(()),
        Err(refusal) => Err(RefusedLine { number, refusal }),
    }
}

/// Carries out the lines of a text by this desk up to the first one that is refused, and ends the desk. A line that is empty or begins
/// with `#` asks for nothing. The last line may have no LF.
pub fn set_up<H: Wait + Enter, D: Desk>(
    rt: &H,
    alloc: Global,
    desk: &mut D,
    text: &[u8],
) -> Result<(), RefusedLine>
    // The desk is asked just what the lines spell, each once and in order, and nothing behind a line that is refused. That line is told
    // by its number among all lines.
    ensures { SetsUp D.asks D.ends desk.old (lines_of text.now) desk.new result }
{
    let asked = ask_lines(rt, alloc, desk, text);
    desk.end(rt);
    asked
}
