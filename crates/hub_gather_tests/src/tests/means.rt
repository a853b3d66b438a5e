//! Means that note what a session does, and a desk that is told nothing by a test.
ghost use Rattle.std.specs.Prelude.{None};

use hub_gather::{Enter, Means, Sink, Source, Stay, serve_by};
use hub_io::{FrontError, write_whole};
use hub_requests::{Desk, Refusal, Reply, Request};
use std::alloc::{AllocError, Global};
use std::io;
use std::sync::Wait;

/// Notes each step as a word, with a space between two: `R` for a read, the request's word or `-` for a line that is answered, and
/// in brackets what is written, with a `;` for each LF. A `!` follows a read or a write that fails.
#[derive(Drop)]
pub struct Noting {
    /// The steps.
    pub steps: Vec<u8>,
    /// How many bytes each write had.
    pub sizes: Vec<usize>,
    /// How many lines were answered.
    pub answered: u64,
}

impl Noting {
    /// Nothing was done yet.
    pub fn new(alloc: Global) -> Result<Noting, AllocError> {
        Ok(Noting {
            steps: Vec::with_capacity(alloc, 1_024)?,
            sizes: Vec::with_capacity(alloc, 64)?,
            answered: 0,
        })
    }

    fn note(&mut self, word: &str) {
        if !self.steps.is_empty() {
            let _ = self.steps.push(b' ');
        }
        let _ = self.steps.extend_from_slice(word.as_bytes());
    }

    fn note_bytes(&mut self, bytes: &[u8]) {
        self.note("[");
        for byte in bytes {
            let shown = if *byte == b'\n' { b';' } else { *byte };
            let _ = self.steps.push(shown);
        }
        let _ = self.steps.push(b']');
    }

    fn note_fault(&mut self) {
        let _ = self.steps.push(b'!');
    }
}

/// A session by means that note its steps, of which a test knows nothing.
pub fn run<H: Wait + Enter, D: Desk, R: Source, W: Sink>(
    rt: &H,
    alloc: Global,
    means: &mut Noting,
    desk: &mut D,
    reader: &mut R,
    writer: &mut W,
) -> Result<u64, FrontError> {
    serve_by::<H, D, R, W, Noting>(rt, alloc, Stay::Long, means, desk, reader, writer)
}

/// The word of a request that a test here makes.
fn word_of(request: &Request) -> &'static str {
    match request {
        Request::Dir { .. } => "dir",
        Request::Sub { .. } => "sub",
        Request::Pub { .. } => "pub",
        Request::Take { .. } => "take",
        Request::Listen { .. } => "listen",
        Request::Poll { .. } => "poll",
        Request::Status { .. } => "status",
        Request::Close { .. } => "close",
        Request::Names { .. } => "names",
        Request::Wait { .. } => "wait",
        Request::Await { .. } => "await",
        Request::Next { .. } => "next",
        _ => "other",
    }
}

impl<D: Desk, R: Source, W: Sink> Means<D, R, W> for Noting {
    ghost asks = { D.asks };

    ghost remaining = { R.remaining };

    ghost reads = { R.reads };

    ghost failed_reads = { R.faults };

    ghost contents = { W.contents };

    ghost failed_writes = { W.faults };

    ghost history = { λ _. None };

    fn read(&mut self, reader: &mut R, buf: &mut [u8]) -> io::Result<usize> {
        self.note("R");
        let read = reader.pull(buf);
        if read.is_err() {
            self.note_fault();
        }
        read
    }

    fn answer<H: Wait + Enter>(
        &mut self,
        rt: &H,
        desk: &mut D,
        line: &Result<Request, Refusal>,
    ) -> Reply {
        self.answered = self.answered.saturating_add(1);
        match line {
            Ok(request) => {
                self.note(word_of(request));
                desk.ask(rt, request)
            }
            Err(refusal) => {
                self.note("-");
                Reply::No(*refusal)
            }
        }
    }

    fn write(&mut self, writer: &mut W, bytes: &[u8]) -> Result<(), FrontError> {
        self.note_bytes(bytes);
        let _ = self.sizes.push(bytes.len());
        let written = write_whole(writer, bytes);
        if written.is_err() {
            self.note_fault();
        }
        written
    }
}

/// Replies by what is asked, and counts how often it was asked and ended.
#[derive(Drop)]
pub struct PlainDesk {
    /// How often it was asked.
    pub asked: u64,
    /// How often it was ended.
    pub ended: u64,
}

impl Desk for PlainDesk {
    ghost asks = { λ old request reply new. Unit {0} };

    ghost ends = { λ old new. Unit {0} };

    fn ask<H: Wait>(&mut self, _rt: &H, request: &Request) -> Reply {
        self.asked = self.asked.saturating_add(1);
        match request {
            Request::Status { .. } | Request::Poll { .. } | Request::Take { .. } => Reply::Nothing,
            Request::Close { .. } => Reply::End,
            Request::Wait { .. } | Request::Await { .. } | Request::Next { .. } => Reply::Late,
            _ => Reply::Done,
        }
    }

    fn end<H: Wait>(&mut self, _rt: &H) {
        self.ended = self.ended.saturating_add(1);
    }
}
