//! The first run of the manual, whole, cut into bytes, and with one read or one write that fails.

use hub_fakes::{Dripping, Narrow};
use hub_io::{FrontError, Sink, Source};
use hub_script::{Enter, script};
use std::alloc::{AllocGlobal, Global};
use std::process::Abort;
use std::sync::Wait;

const INPUT: &[u8] = b"dir web 64 1000\nsub web\npub web ab\ntake 1 10\n";

const OUTPUT: &[u8] = b"ok\nok 1\nok 0\ngot ab\n";

/// A script, of which a test knows nothing.
fn run<H: Wait + Enter, R: Source, W: Sink>(
    rt: &H,
    alloc: Global,
    reader: &mut R,
    writer: &mut W,
) -> Result<u64, FrontError> {
    script(rt, alloc, reader, writer)
}

/// How a script ends, how many reads and writes it made, and how many bytes of the output it wrote.
type Outcome = (Result<u64, FrontError>, u64, u64, usize);

/// Runs the script over these streams.
fn expect<H: AllocGlobal + Abort + Wait + Enter>(
    rt: &H,
    mut reader: Dripping<'_>,
    mut writer: Narrow,
    outcome: Outcome,
) {
    let (want, reads, writes, size) = outcome;
    let served = run(rt, rt.alloc(), &mut reader, &mut writer);
    assert_eq!(rt; served, want, "{reads} reads, {writes} writes");
    assert_eq!(rt; reader.reads, reads, "{reads} reads, {writes} writes");
    assert_eq!(rt; writer.writes, writes, "{reads} reads, {writes} writes");
    assert_eq!(rt;
        writer.bytes_held().len(),
        size,
        "{reads} reads, {writes} writes"
    );
    assert!(rt;
        OUTPUT.starts_with(writer.bytes_held()),
        "{reads} reads, {writes} writes"
    );
}

/// How many replies are written, and how many bytes of them, to the lines that are complete where so many bytes were read.
fn replies_after(read: u64) -> (u64, usize) {
    match read {
        0..=15 => (0, 0),
        16..=23 => (1, 3),
        24..=34 => (2, 8),
        35..=44 => (3, 13),
        _ => (4, 20),
    }
}

// A read gives one byte. The 46th finds the end of the input, and there is none after it.
#[test]
fn each_read_fails_in_turn(rt: HostRuntime) {
    for read in 0..46u64 {
        let (writes, size) = replies_after(read);
        let reader = Dripping::new(INPUT, 1, read + 1);
        let outcome = (Err(FrontError::Read), read + 1, writes, size);
        expect(&rt, reader, Narrow::new(64, 0), outcome);
    }
    let reader = Dripping::new(INPUT, 1, 47);
    expect(&rt, reader, Narrow::new(64, 0), (Ok(4), 46, 4, 20));
}

/// The write that fails, and how many bytes were written by then.
static WRITES: [(u64, usize); 12] = [
    (1, 0),
    (2, 2),
    (3, 3),
    (4, 5),
    (5, 7),
    (6, 8),
    (7, 10),
    (8, 12),
    (9, 13),
    (10, 15),
    (11, 17),
    (12, 19),
];

// A write takes two bytes, and never any of the next reply. There is none after the last reply.
#[test]
fn each_write_fails_in_turn(rt: HostRuntime) {
    for (fails_at, size) in &WRITES {
        let outcome = (Err(FrontError::Write), 1, *fails_at, *size);
        expect(
            &rt,
            Dripping::new(INPUT, 64, 0),
            Narrow::new(2, *fails_at),
            outcome,
        );
    }
    expect(
        &rt,
        Dripping::new(INPUT, 64, 0),
        Narrow::new(2, 13),
        (Ok(4), 2, 12, 20),
    );
}

#[test]
fn the_first_run_whole(rt: HostRuntime) {
    expect(
        &rt,
        Dripping::new(INPUT, 64, 0),
        Narrow::new(64, 0),
        (Ok(4), 2, 4, 20),
    );
}
