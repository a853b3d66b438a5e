//! Readers that give few bytes at a time, fail once, or never end.
ghost use Rattle.std.specs.Prelude.{if◌then◌else◌, Some, None};

use hub_io::Source;
use std::io;
use std::io::{ErrorKind, Read};

/// Gives at most `most` bytes at each read, and fails once: at read number `fails_at`, counted from 1.
#[derive(Drop)]
pub struct Dripping<'a> {
    rest: &'a [u8],
    most: usize,
    /// How many reads were made.
    pub reads: u64,
    fails_at: u64,
    failed: bool,
}

impl Dripping<'_> {
    /// At `fails_at` 0 no read fails.
    pub fn new(input: &[u8], most: usize, fails_at: u64) -> Dripping<'_> {
        Dripping {
            rest: input,
            most,
            reads: 0,
            fails_at,
            failed: false,
        }
    }
}

impl Read for Dripping<'_> {
    fn read(&mut self, buf: &mut [u8]) -> io::Result<usize> {
        self.pull(buf)
    }
}

impl Source for Dripping<'_> {
    ghost reads = { λ _. None };

    ghost faults = { λ it. Some (if it.failed then 1 else 0) };

    fn pull(&mut self, buf: &mut [u8]) -> io::Result<usize> {
        self.reads = self.reads.saturating_add(1);
        if self.reads == self.fails_at && !self.failed {
            self.failed = true;
            return Err(io::Error::from(ErrorKind::Other));
        }
        let n = buf.len().min(self.most).min(self.rest.len());
        let (given, rest) = self.rest.split_at(n);
        buf[..n].copy_from_slice(given);
        self.rest = rest;
        Ok(n)
    }
}

/// Gives one `a` at each read, for ever.
#[derive(Drop)]
pub struct Endless {
    /// How many reads were made.
    pub reads: u64,
}

impl Read for Endless {
    fn read(&mut self, buf: &mut [u8]) -> io::Result<usize> {
        self.pull(buf)
    }
}

impl Source for Endless {
    ghost reads = { λ _. None };

    ghost faults = { λ _. Some 0 };

    fn pull(&mut self, buf: &mut [u8]) -> io::Result<usize> {
        self.reads = self.reads.saturating_add(1);
        if buf.is_empty() {
            return Ok(0);
        }
        buf[0] = b'a';
        Ok(1)
    }
}
