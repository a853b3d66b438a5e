//! A bare echo of lines: the cost of reading and writing lines for a proved program that does nothing else.

use anyhow::Result;
use std::alloc::Global;
use std::io::{BufRead, BufReader, Read, Write};

/// The size of the reader's buffer.
const CHUNK: usize = 65_536;

/// Writes each line of the reader back, each in one write, until the reader ends.
pub fn echo<R: Read + Drop, W: Write>(alloc: Global, reader: R, writer: &mut W) -> Result<()> {
    let mut lines = BufReader::with_capacity(alloc, CHUNK, reader)?;
    let mut line = Vec::new(alloc);
    for _ in 0..u64::MAX {
        line.clear();
        if lines.read_until(b'\n', &mut line)? == 0 {
            break;
        }
        writer.write_all(&line)?;
    }
    Ok(())
}
