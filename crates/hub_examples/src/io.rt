// crates.txt: YOURS: hub_io
use hub_io::{FrontError, Sink, write_whole};

/// Greets somebody. At an error, only a part of the greeting was written.
pub fn greet<W: Sink>(out: &mut W, name: &str) -> Result<(), FrontError> {
    write_whole(out, b"hello ")?;
    write_whole(out, name.as_bytes())?;
    write_whole(out, b"\n")
}
