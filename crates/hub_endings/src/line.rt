//! A line on standard error.
ghost use Rattle.std.specs.Prelude.{OnOk, IfSome};
ghost use Rattle.std.specs.Io.KnownBytes.{Appends};
ghost use Rattle.hub_endings.specs.Faults.{line_with};

use std::alloc::Global;
use std::fmt;
use std::io::{self, Write};

/// Writes the line with this text in one write, so that the lines of several programs don't mix. Only if memory runs out is it
/// written in pieces.
pub(crate) fn tell_line<T: fmt::Display, W: Write>(
    alloc: Global,
    text: &T,
    out: &mut W,
) -> io::Result<()>
    ensures { OnOk result (IfSome (T.output text.now) (λ bytes. Appends (W.contents out.old)
        (W.contents out.new) (line_with bytes))) }
{
    match format!(in alloc; "ftrighub: {text}\n") {
        Ok(line) => out.write_all(line.as_bytes()),
        Err(_) => writeln!(out, "ftrighub: {text}"),
    }
}
