//! Writers that take few bytes at a time, fail once, or take nothing.
ghost use Rattle.std.specs.Prelude.{◌≡◌, ◌<◌, ◌≤◌, if◌then◌else◌, Some, None};

use hub_io::Sink;
use std::io;
use std::io::{ErrorKind, Write};

/// Takes at most `most` bytes at each write, of which it holds the first 64, and fails once: at write number `fails_at`,
/// counted from 1.
#[derive(Drop)]
pub struct Narrow {
    held: [u8; 64],
    len: usize,
    most: usize,
    /// How many writes were made.
    pub writes: u64,
    fails_at: u64,
    failed: bool,
    ghost within: { len ≤ 64 },
    ghost some: { 0 < most },
}

impl Narrow {
    /// At `fails_at` 0 no write fails.
    pub fn new(most: usize, fails_at: u64) -> Narrow
        requires { 0 < most }
    {
        Narrow {
            held: [0; 64],
            len: 0,
            most,
            writes: 0,
            fails_at,
            failed: false,
        }
    }

    /// What it took, up to 64 bytes.
    pub fn bytes_held(&self) -> &[u8] {
        &self.held[..self.len]
    }

    fn hold(&mut self, bytes: &[u8])
        ensures { self.new.failed ≡ self.old.failed }
    {
        let n = bytes.len().min(64 - self.len);
        let end = self.len + n;
        self.held[self.len..end].copy_from_slice(&bytes[..n]);
        self.len = end;
    }
}

impl Write for Narrow {
    fn write(&mut self, buf: &[u8]) -> io::Result<usize> {
        if buf.is_empty() {
            return Ok(0);
        }
        self.push(buf)
    }

    fn flush(&mut self) -> io::Result<()> {
        Ok(())
    }
}

impl Sink for Narrow {
    ghost faults = { λ it. Some (if it.failed then 1 else 0) };

    fn push(&mut self, bytes: &[u8]) -> io::Result<usize> {
        self.writes = self.writes.saturating_add(1);
        if self.writes == self.fails_at && !self.failed {
            self.failed = true;
            return Err(io::Error::from(ErrorKind::Other));
        }
        let n = bytes.len().min(self.most);
        self.hold(&bytes[..n]);
        Ok(n)
    }
}

/// Takes nothing.
#[derive(Drop)]
pub struct Stuck {
    /// How many writes were made.
    pub writes: u64,
}

impl Write for Stuck {
    fn write(&mut self, _buf: &[u8]) -> io::Result<usize> {
        self.writes = self.writes.saturating_add(1);
        Ok(0)
    }

    fn flush(&mut self) -> io::Result<()> {
        Ok(())
    }
}

impl Sink for Stuck {
    ghost faults = { λ _. None };

    fn push(&mut self, bytes: &[u8]) -> io::Result<usize> {
        self.write(bytes)
    }
}
