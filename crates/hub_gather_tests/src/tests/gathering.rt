//! Sessions that write their replies in batches: in which order they read, answer and write.
ghost use Rattle.std.specs.Prelude.{None};

use crate::tests::means::{Noting, PlainDesk, run};
use hub_gather::Enter;
use hub_io::Source;
use std::alloc::AllocGlobal;
use std::io;
use std::io::Read;
use std::process::Abort;
use std::sync::Wait;
use std::test::Fail;

/// Gives one of these pieces at each read. No piece is longer than the bytes for which a read asks.
#[derive(Drop)]
struct Pieces {
    all: &'static [&'static str],
    given: usize,
}

impl Read for Pieces {
    fn read(&mut self, buf: &mut [u8]) -> io::Result<usize> {
        let Some(piece) = self.all.get(self.given) else {
            return Ok(0);
        };
        self.given = self.given.saturating_add(1);
        let n = piece.len().min(buf.len());
        buf[..n].copy_from_slice(&piece.as_bytes()[..n]);
        Ok(n)
    }
}

impl Source for Pieces {
    ghost reads = { λ _. None };

    ghost faults = { λ _. None };

    fn pull(&mut self, buf: &mut [u8]) -> io::Result<usize> {
        self.read(buf)
    }
}

/// What the reads give, how many lines that are, and the session's steps.
type Row = (&'static [&'static str], u64, &'static str);

/// Whether a session over the pieces, with a new desk, takes these steps. A session by means doesn't end its desk.
fn takes_steps<H: AllocGlobal + Wait + Enter>(rt: &H, row: &Row) -> Result<bool, Fail> {
    let alloc = rt.alloc();
    let mut means = Noting::new(alloc)?;
    let mut desk = PlainDesk { asked: 0, ended: 0 };
    let mut reader = Pieces {
        all: row.0,
        given: 0,
    };
    let mut written: Vec<u8> = Vec::new(alloc);
    let served = run(rt, alloc, &mut means, &mut desk, &mut reader, &mut written);
    Ok(
        served == Ok(row.1)
            && means.answered == row.1
            && means.steps.as_slice() == row.2.as_bytes()
            && desk.ended == 0,
    )
}

fn expect_steps<H: AllocGlobal + Abort + Wait + Enter>(rt: &H, rows: &[Row]) -> Result<(), Fail> {
    for row in rows {
        assert!(rt; takes_steps(rt, row)?, "{row:?}");
    }
    Ok(())
}

/// Three lines of four bytes, cut in each way.
static CUTS: [Row; 8] = [
    (&["\r\n\nx"], 3, "R - - [no text;no word;] R - [no word;]"),
    (
        &["\r", "\n\nx"],
        3,
        "R R - - [no text;no word;] R - [no word;]",
    ),
    (
        &["\r\n", "\nx"],
        3,
        "R - [no text;] R - [no word;] R - [no word;]",
    ),
    (
        &["\r\n\n", "x"],
        3,
        "R - - [no text;no word;] R R - [no word;]",
    ),
    (
        &["\r", "\n", "\nx"],
        3,
        "R R - [no text;] R - [no word;] R - [no word;]",
    ),
    (
        &["\r", "\n\n", "x"],
        3,
        "R R - - [no text;no word;] R R - [no word;]",
    ),
    (
        &["\r\n", "\n", "x"],
        3,
        "R - [no text;] R - [no word;] R R - [no word;]",
    ),
    (
        &["\r", "\n", "\n", "x"],
        3,
        "R R - [no text;] R - [no word;] R R - [no word;]",
    ),
];

#[test]
fn the_replies_of_a_read_are_one_write_before_the_next_read(rt: HostRuntime) -> Result<(), Fail> {
    expect_steps(&rt, CUTS.as_slice())
}

/// Inputs of more lines and of fewer, and with and without an LF at the end.
static INPUTS: [Row; 9] = [
    (&[], 0, "R"),
    (&["\n"], 1, "R - [no word;] R"),
    (&["sub w"], 1, "R R sub [ok;]"),
    (&["sub w\n"], 1, "R sub [ok;] R"),
    (&["sub", " w\n"], 1, "R R sub [ok;] R"),
    (
        &["sub w\nstatus w\n\nclose w\n"],
        4,
        "R sub status - close [ok;none;no word;end;] R",
    ),
    (
        &["sub w\nstatus w\n\nclose w"],
        4,
        "R sub status - [ok;none;no word;] R close [end;]",
    ),
    (
        &["sub w\nsub w\nsta", "tus w\nclose w\ns", "ub w\n"],
        5,
        "R sub sub [ok;ok;] R status close [none;end;] R sub [ok;] R",
    ),
    (
        &["sub w\n", "status w\n", "close w\n"],
        3,
        "R sub [ok;] R status [none;] R close [end;] R",
    ),
];

#[test]
fn all_is_written_at_the_end(rt: HostRuntime) -> Result<(), Fail> {
    expect_steps(&rt, INPUTS.as_slice())
}

/// Requests that may sleep, behind and before others, also with no turns. No line is begun behind one before its reply is written. A line
/// that is refused never sleeps, whatever its word is.
static SLEEPS: [Row; 15] = [
    (
        &["sub w\nnext 1 0\nsub w\n"],
        3,
        "R sub [ok;] next [late;] sub [ok;] R",
    ),
    (
        &["sub w\nawait 1 0\nsub w\n"],
        3,
        "R sub [ok;] await [late;] sub [ok;] R",
    ),
    (
        &["sub w\nwait all up 0 w\nsub w\n"],
        3,
        "R sub [ok;] wait [late;] sub [ok;] R",
    ),
    (
        &["sub w\nnext 1 1000000\nsub w\n"],
        3,
        "R sub [ok;] next [late;] sub [ok;] R",
    ),
    (
        &["sub w\nawait 1 1000000\nsub w\n"],
        3,
        "R sub [ok;] await [late;] sub [ok;] R",
    ),
    (
        &["sub w\nwait any down 1000000 w v\nsub w\n"],
        3,
        "R sub [ok;] wait [late;] sub [ok;] R",
    ),
    (&["next 1 0\n"], 1, "R next [late;] R"),
    (
        &["next 1 0\nawait 1 0\nwait all up 0 w\n"],
        3,
        "R next [late;] await [late;] wait [late;] R",
    ),
    (
        &["sub w\n\nclose w\nnext 1 5"],
        4,
        "R sub - close [ok;no word;end;] R next [late;]",
    ),
    (
        &["sub w\nnext 1", " 5\nclose w\n"],
        3,
        "R sub [ok;] R next [late;] close [end;] R",
    ),
    (
        &["sub w\nnext\nsub w\n"],
        3,
        "R sub - sub [ok;no form;ok;] R",
    ),
    (
        &["sub w\nawait 1 1000001\nsub w\n"],
        3,
        "R sub - sub [ok;no range;ok;] R",
    ),
    (
        &["sub w\nwait all up 0\nsub w\n"],
        3,
        "R sub - sub [ok;no form;ok;] R",
    ),
    (
        &["sub w\ntake 1 1\nsub w\n"],
        3,
        "R sub take sub [ok;none;ok;] R",
    ),
    (
        &["sub w\npoll 1\nnames 0\npub w a\n"],
        4,
        "R sub poll names pub [ok;none;ok;ok;] R",
    ),
];

#[test]
fn all_is_written_before_and_after_a_request_that_may_sleep(rt: HostRuntime) -> Result<(), Fail> {
    expect_steps(&rt, SLEEPS.as_slice())
}
