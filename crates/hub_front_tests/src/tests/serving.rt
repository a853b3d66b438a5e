//! Sessions over memory, with readers that drip and writers that fail.

use hub_fakes::{Dripping, Endless, Narrow, Stuck};
use hub_front::serve;
use hub_io::{FrontError, Sink, Source};
use hub_requests::{Desk, Enter, Reply, Request};
use std::alloc::{AllocGlobal, Global};
use std::process::Abort;
use std::sync::Wait;
use std::test::Fail;

/// Replies by what is asked, and notes how often it was asked and that it was ended.
#[derive(Drop)]
struct PlainDesk {
    asked: u64,
    ended: bool,
}

impl PlainDesk {
    fn new() -> PlainDesk {
        PlainDesk {
            asked: 0,
            ended: false,
        }
    }
}

impl Desk for PlainDesk {
    ghost asks = { λ old request reply new. Unit {0} };

    ghost ends = { λ old new. Unit {0} };

    fn ask<H: Wait>(&mut self, _rt: &H, request: &Request) -> Reply {
        self.asked = self.asked.saturating_add(1);
        match request {
            Request::Status { .. } => Reply::Nothing,
            Request::Close { .. } => Reply::End,
            _ => Reply::Done,
        }
    }

    fn end<H: Wait>(&mut self, _rt: &H) {
        self.ended = true;
    }
}

/// A session, of which a test knows nothing.
fn run<H: Wait + Enter, R: Source, W: Sink>(
    rt: &H,
    alloc: Global,
    desk: &mut PlainDesk,
    reader: &mut R,
    writer: &mut W,
) -> Result<u64, FrontError> {
    serve(rt, alloc, desk, reader, writer)
}

/// What a session answers, how often its desk is asked, how many writes it makes, and what it writes.
type Outcome = (Result<u64, FrontError>, u64, u64, &'static str);

/// Serves the reader with a new desk. Where that comes to something else, `at` says which row it was.
fn expect<H: AllocGlobal + Abort + Wait + Enter>(
    rt: &H,
    mut reader: Dripping<'_>,
    mut writer: Narrow,
    outcome: &Outcome,
    at: u64,
) {
    let mut desk = PlainDesk::new();
    let served = run(rt, rt.alloc(), &mut desk, &mut reader, &mut writer);
    assert_eq!(rt; served, outcome.0, "row {at}");
    assert_eq!(rt; desk.asked, outcome.1, "row {at}");
    assert_eq!(rt; writer.writes, outcome.2, "row {at}");
    assert_eq!(rt; writer.bytes_held(), outcome.3.as_bytes(), "row {at}");
    assert!(rt; desk.ended, "row {at}");
}

/// An input, and what it comes to where each write takes a whole reply.
static CUTS: [(&str, Outcome); 7] = [
    ("", (Ok(0), 0, 0, "")),
    ("\n\n", (Ok(2), 0, 2, "no word\nno word\n")),
    (
        "sub w\nstatus w\n\nclose w\n",
        (Ok(4), 3, 4, "ok\nnone\nno word\nend\n"),
    ),
    (
        "sub w\nstatus w\n\nclose w",
        (Ok(4), 3, 4, "ok\nnone\nno word\nend\n"),
    ),
    ("sub w\nstatus w", (Ok(2), 2, 2, "ok\nnone\n")),
    ("sub w\r\nsub w\n", (Ok(2), 1, 2, "no text\nok\n")),
    (" \nsub w", (Ok(2), 1, 2, "no word\nok\n")),
];

#[test]
fn each_reply_is_one_write_however_the_lines_are_cut(rt: HostRuntime) {
    for (row, (input, outcome)) in (0u64..).zip(&CUTS) {
        for most in [64, 1] {
            let reader = Dripping::new(input.as_bytes(), most, 0);
            expect(&rt, reader, Narrow::new(64, 0), outcome, row);
        }
    }
}

/// So many times `a`, and what follows them.
static LENGTHS: [(usize, &str, Outcome); 4] = [
    (512, "", (Ok(1), 0, 1, "no word\n")),
    (513, "", (Ok(1), 0, 1, "no long\n")),
    (513, "\nsub w\n", (Ok(2), 1, 2, "no long\nok\n")),
    (70_000, "\nsub w\n", (Ok(2), 1, 2, "no long\nok\n")),
];

#[test]
fn a_line_of_more_than_512_bytes(rt: HostRuntime) -> Result<(), Fail> {
    for (row, (size, end, outcome)) in (0u64..).zip(&LENGTHS) {
        let mut input = vec![in rt.alloc(); b'a'; *size]?;
        input.extend_from_slice(end.as_bytes())?;
        let reader = Dripping::new(input.as_slice(), 100_000, 0);
        expect(&rt, reader, Narrow::new(64, 0), outcome, row);
    }
    Ok(())
}

/// The read and the write that fail, 0 for none, and what a session has come to by then. A read gives one byte where one
/// fails, and a write takes two. Reads number 6, 15 and 21 are those of an LF, and 29 finds the end.
static FAULTS: [([u64; 2], Outcome); 16] = [
    ([1, 0], (Err(FrontError::Read), 0, 0, "")),
    ([6, 0], (Err(FrontError::Read), 0, 0, "")),
    ([7, 0], (Err(FrontError::Read), 1, 1, "ok\n")),
    ([15, 0], (Err(FrontError::Read), 1, 1, "ok\n")),
    ([16, 0], (Err(FrontError::Read), 2, 2, "ok\nnone\n")),
    ([21, 0], (Err(FrontError::Read), 2, 2, "ok\nnone\n")),
    ([22, 0], (Err(FrontError::Read), 3, 3, "ok\nnone\nok\n")),
    ([29, 0], (Err(FrontError::Read), 3, 3, "ok\nnone\nok\n")),
    ([0, 1], (Err(FrontError::Write), 1, 1, "")),
    ([0, 2], (Err(FrontError::Write), 1, 2, "ok")),
    ([0, 3], (Err(FrontError::Write), 2, 3, "ok\n")),
    ([0, 4], (Err(FrontError::Write), 2, 4, "ok\nno")),
    ([0, 5], (Err(FrontError::Write), 2, 5, "ok\nnone")),
    ([0, 6], (Err(FrontError::Write), 3, 6, "ok\nnone\n")),
    ([0, 7], (Err(FrontError::Write), 3, 7, "ok\nnone\nok")),
    ([0, 0], (Ok(4), 4, 4, "ok\nnone\nok\nend\n")),
];

#[test]
fn a_read_or_a_write_that_fails(rt: HostRuntime) {
    for (row, ([read, write], outcome)) in (0u64..).zip(&FAULTS) {
        let given = if *read == 0 { 64 } else { 1 };
        let taken = if *write == 0 { 64 } else { 2 };
        let reader = Dripping::new(b"sub w\nstatus w\nsub w\nclose w", given, *read);
        expect(&rt, reader, Narrow::new(taken, *write), outcome, row);
    }
}

#[test]
fn a_writer_that_takes_nothing(rt: HostRuntime) {
    let mut desk = PlainDesk::new();
    let mut writer = Stuck { writes: 0 };
    let mut reader = Dripping::new(b"sub w\n", 64, 0);
    let served = run(&rt, rt.alloc(), &mut desk, &mut reader, &mut writer);
    assert_eq!(rt; served, Err(FrontError::Write));
    assert_eq!(rt; writer.writes, 1);
    assert!(rt; desk.ended);
}

#[test]
fn reads_without_end(rt: HostRuntime) {
    let mut desk = PlainDesk::new();
    let mut writer = Narrow::new(64, 0);
    let mut reader = Endless { reads: 0 };
    let served = run(&rt, rt.alloc(), &mut desk, &mut reader, &mut writer);
    assert_eq!(rt; served, Err(FrontError::Turns));
    assert_eq!(rt; reader.reads, 10_000_000);
    assert_eq!(rt; writer.writes, 0);
    assert!(rt; desk.ended);
}

/// What may be written where one growth is refused after the first read.
static WITHOUT_MEMORY: [&str; 3] = ["ok\nnone\n", "no memory\nnone\n", "ok\nno memory\n"];

// Passes with ample memory, and with any one growth refused.
#[test]
fn a_refused_growth(rt: HostRuntime) {
    let mut desk = PlainDesk::new();
    let mut writer = Narrow::new(64, 0);
    let mut reader = Dripping::new(b"sub w\nstatus w\n", 64, 0);
    let served = run(&rt, rt.alloc(), &mut desk, &mut reader, &mut writer);
    if served == Err(FrontError::Memory) {
        assert_eq!(rt; reader.reads, 0);
        assert_eq!(rt; writer.writes, 0);
    } else {
        assert_eq!(rt; served, Ok(2));
        let is_one = WITHOUT_MEMORY
            .iter()
            .any(|text| text.as_bytes() == writer.bytes_held());
        assert!(rt; is_one);
    }
    assert!(rt; desk.ended);
}
