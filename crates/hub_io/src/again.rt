//! Retries reads and writes that a signal interrupted.
ghost use Rattle.std.specs.Prelude.{◌<◌, length};
ghost use Rattle.std.specs.Io.{ReadsAtMost, WritesAtMost};
ghost use Rattle.std.specs.Io.KnownBytes.{ReadConsumes, WriteAppends};

use std::io;
use std::io::{ErrorKind, Read, Write};

/// The most retries of one call. So many signals in a row aren't expected: after them the call's result is returned as
/// it is.
const TRIES: u32 = 1_000_000;

/// Reads, and retries if a signal interrupted the read.
pub(crate) fn read_again<R: Read>(reader: &mut R, buf: &mut [u8]) -> io::Result<usize>
    ensures bound { ReadsAtMost result buf.new }
    ensures bytes { ReadConsumes (R.remaining reader.old) (R.remaining reader.new) result buf.new }
{
    'tries: for _ in 0..TRIES {
        match reader.read(buf) {
            Err(error) if error.kind() == ErrorKind::Interrupted => {}
            result => return result,
        }
    }
    reader.read(buf)
}

/// Writes, and retries if a signal interrupted the write.
pub(crate) fn write_again<W: Write>(writer: &mut W, bytes: &[u8]) -> io::Result<usize>
    requires { 0 < length bytes.now }
    ensures bound { WritesAtMost result bytes.now }
    ensures bytes { WriteAppends (W.contents writer.old) (W.contents writer.new) result bytes.now }
{
    'tries: for _ in 0..TRIES {
        match writer.write(bytes) {
            Err(error) if error.kind() == ErrorKind::Interrupted => {}
            result => return result,
        }
    }
    writer.write(bytes)
}
