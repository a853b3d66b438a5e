//! The notes of a command.
ghost use Rattle.std.specs.Prelude.{None};

use hub_io::Sink;
use std::io::{self, Write};

/// Writes notes to a writer, such as standard error: each whole, unless the writer fails. How often it failed isn't counted.
#[derive(Drop)]
pub struct Notes<F> {
    writer: F,
}

impl<F: Write> Notes<F> {
    /// Notes that this writer writes.
    pub fn new(writer: F) -> Notes<F> {
        Notes { writer }
    }
}

impl<F: Write> Write for Notes<F> {
    fn write(&mut self, buf: &[u8]) -> io::Result<usize> {
        self.writer.write(buf)
    }

    fn flush(&mut self) -> io::Result<()> {
        self.writer.flush()
    }
}

impl<F: Write> Sink for Notes<F> {
    ghost faults = { λ _. None };

    fn push(&mut self, bytes: &[u8]) -> io::Result<usize> {
        self.writer.write_all(bytes)?;
        Ok(bytes.len())
    }
}
