//! Relays over memory, with readers that drip and streams that fail.
ghost use Rattle.std.specs.Prelude.{◌<◌};

use hub_client::{RelayError, relay};
use hub_fakes::{Dripping, Endless, Narrow, Stuck};
use hub_io::{Sink, Source};
use std::alloc::AllocGlobal;
use std::process::Abort;
use std::sync::Wait;
use std::test::Fail;

/// The relay, of which a test knows nothing.
pub fn run<H: AllocGlobal + Wait, R: Source, W: Sink, SR: Source, SW: Sink>(
    rt: &H,
    input: &mut R,
    output: &mut W,
    receiver: &mut SR,
    sender: &mut SW,
) -> Result<u64, RelayError> {
    relay(rt, rt.alloc(), input, output, receiver, sender)
}

/// The four streams of a relay.
#[derive(Drop)]
struct Streams {
    input: Dripping<'static>,
    output: Narrow,
    receiver: Dripping<'static>,
    sender: Narrow,
}

/// What a relay answers, what it sends and what it writes.
type Outcome<'a> = (Result<u64, RelayError>, &'a [u8], &'a [u8]);

/// Relays. Where that comes to something else, `row` says which row it was.
fn expect<H: AllocGlobal + Abort + Wait>(rt: &H, streams: Streams, outcome: Outcome<'_>, row: u64) {
    let Streams {
        mut input,
        mut output,
        mut receiver,
        mut sender,
    } = streams;
    let relayed = run(rt, &mut input, &mut output, &mut receiver, &mut sender);
    let (wanted, sent, written) = outcome;
    assert_eq!(rt; relayed, wanted, "row {row}");
    assert_eq!(rt; sender.bytes_held(), sent, "row {row}");
    assert_eq!(rt; output.bytes_held(), written, "row {row}");
}

/// An input, the peer's replies, and what they come to.
static CUTS: [(&str, &str, Result<u64, RelayError>, &str, &str); 9] = [
    (
        "status web",
        "ok 0 0 open\n",
        Ok(1),
        "status web\n",
        "ok 0 0 open\n",
    ),
    ("", "ok 0 0 open\n", Ok(0), "", ""),
    (
        "status web",
        "ok",
        Err(RelayError::Ended),
        "status web\n",
        "",
    ),
    ("a\nb\n", "x\ny\nz\n", Ok(2), "a\nb\n", "x\ny\n"),
    ("a\nb", "xyz\n\n", Ok(2), "a\nb\n", "xyz\n\n"),
    ("\n\n", "x\ny\n", Ok(2), "\n\n", "x\ny\n"),
    ("a\n\n", "x\n", Err(RelayError::Ended), "a\n\n", "x\n"),
    ("a\r\nb", "x\ny", Err(RelayError::Ended), "a\r\nb\n", "x\n"),
    ("a\nb", "", Err(RelayError::Ended), "a\n", ""),
];

#[test]
fn one_reply_for_each_line_however_it_is_cut(rt: HostRuntime) {
    for (row, (input, replies, relayed, sent, taken)) in (0u64..).zip(&CUTS) {
        for (read, written) in [(64, 64), (1, 3)] {
            let streams = Streams {
                input: Dripping::new(input.as_bytes(), read, 0),
                output: Narrow::new(written, 0),
                receiver: Dripping::new(replies.as_bytes(), read, 0),
                sender: Narrow::new(written, 0),
            };
            let outcome = (*relayed, sent.as_bytes(), taken.as_bytes());
            expect(&rt, streams, outcome, row);
        }
    }
}

const LINES: &[u8] = b"ab\nc\n";

const ANSWERS: &[u8] = b"x\nyz\n";

/// What fails, each at its first five calls, where a call takes one byte; and how many bytes were sent and written by then.
static FAULTS: [(RelayError, [usize; 5], [usize; 5]); 4] = [
    (RelayError::Input, [0, 1, 2, 3, 4], [0, 0, 0, 2, 2]),
    (RelayError::Receive, [3, 3, 5, 5, 5], [0, 0, 2, 2, 2]),
    (RelayError::Send, [0, 1, 2, 3, 4], [0, 0, 0, 2, 2]),
    (RelayError::Output, [3, 3, 5, 5, 5], [0, 1, 2, 3, 4]),
];

/// The call at which a stream fails, 0 for none.
fn fails_at(fault: RelayError, of: RelayError, call: u64) -> u64 {
    if fault == of { call } else { 0 }
}

/// How many bytes a call moves: one at the stream that fails, and as many as there are at the others.
fn piece(fails_at: u64) -> usize
    ensures { 0 < result }
{
    if fails_at == 0 { 64 } else { 1 }
}

/// Relays where this fails at its call, if it makes so many.
fn expect_fault<H: AllocGlobal + Abort + Wait>(
    rt: &H,
    fault: RelayError,
    call: u64,
    outcome: Outcome<'_>,
) {
    let input = fails_at(fault, RelayError::Input, call);
    let output = fails_at(fault, RelayError::Output, call);
    let receiver = fails_at(fault, RelayError::Receive, call);
    let sender = fails_at(fault, RelayError::Send, call);
    let streams = Streams {
        input: Dripping::new(b"ab\nc", piece(input), input),
        output: Narrow::new(piece(output), output),
        receiver: Dripping::new(ANSWERS, piece(receiver), receiver),
        sender: Narrow::new(piece(sender), sender),
    };
    expect(rt, streams, outcome, call);
}

#[test]
fn each_stream_fails_in_turn(rt: HostRuntime) {
    for (fault, sent, written) in &FAULTS {
        for (call, (sent, written)) in (1u64..).zip(sent.iter().zip(written)) {
            let sent = LINES.get(..*sent).unwrap_or(LINES);
            let written = ANSWERS.get(..*written).unwrap_or(ANSWERS);
            expect_fault(&rt, *fault, call, (Err(*fault), sent, written));
        }
        expect_fault(&rt, *fault, 6, (Ok(2), LINES, ANSWERS));
    }
}

/// Relays two lines to a peer whose stream is this one.
fn expect_replies<H: AllocGlobal + Abort + Wait>(
    rt: &H,
    receiver: Dripping<'static>,
    fault: RelayError,
    cut: u64,
) {
    let streams = Streams {
        input: Dripping::new(b"a\nb\n", 64, 0),
        output: Narrow::new(64, 0),
        receiver,
        sender: Narrow::new(64, 0),
    };
    let (sent, written) = if cut < 6 {
        ("a\n", "")
    } else {
        ("a\nb\n", "yes 1\n")
    };
    let outcome = (Err(fault), sent.as_bytes(), written.as_bytes());
    expect(rt, streams, outcome, cut);
}

const REPLIES: &[u8] = b"yes 1\nyes 12 7\n";

// The peer's stream ends after each number of its bytes, or fails there. The first reply has 6 bytes, the second 9.
#[test]
fn replies_that_are_cut_at_each_byte(rt: HostRuntime) {
    for (cut, size) in (0u64..15).zip(0usize..15) {
        let ends = REPLIES.get(..size).unwrap_or(REPLIES);
        expect_replies(&rt, Dripping::new(ends, 64, 0), RelayError::Ended, cut);
        let fails = Dripping::new(REPLIES, 1, cut.saturating_add(1));
        expect_replies(&rt, fails, RelayError::Receive, cut);
    }
}

#[test]
fn writers_that_take_nothing(rt: HostRuntime) {
    let mut taken = Narrow::new(64, 0);
    let mut lines = Dripping::new(b"ab\nc", 64, 0);
    let mut replies = Dripping::new(b"x\nyz\n", 64, 0);
    let mut stuck = Stuck { writes: 0 };
    let relayed = run(&rt, &mut lines, &mut taken, &mut replies, &mut stuck);
    assert_eq!(rt; relayed, Err(RelayError::Send));
    assert_eq!(rt; taken.writes, 0);

    let mut lines = Dripping::new(b"ab\nc", 64, 0);
    let relayed = run(&rt, &mut lines, &mut stuck, &mut replies, &mut taken);
    assert_eq!(rt; relayed, Err(RelayError::Output));
    assert_eq!(rt; taken.bytes_held(), b"ab\n".as_slice());
}

#[test]
fn a_reply_without_end(rt: HostRuntime) {
    let mut to_peer = Narrow::new(64, 0);
    let mut output = Narrow::new(64, 0);
    let mut lines = Dripping::new(b"status web\n", 1, 0);
    let mut replies = Endless { reads: 0 };
    let relayed = run(&rt, &mut lines, &mut output, &mut replies, &mut to_peer);
    assert_eq!(rt; relayed, Err(RelayError::Turns));
    assert_eq!(rt; lines.reads, 11);
    assert_eq!(rt; replies.reads, 9_999_989);
    assert_eq!(rt; to_peer.bytes_held(), b"status web\n".as_slice());
    // 152 buffers of 65,536 bytes filled, each in 1,024 writes of 64 bytes. The 38,517 bytes after them weren't written.
    assert_eq!(rt; output.writes, 155_648);
    assert!(rt; output.bytes_held().iter().all(|byte| *byte == b'a'));
    assert_eq!(rt; output.bytes_held().len(), 64);
}

// Passes with ample memory, and with any one growth refused.
#[test]
fn a_refused_growth(rt: HostRuntime) {
    let mut to_peer = Narrow::new(64, 0);
    let mut output = Narrow::new(64, 0);
    let mut lines = Dripping::new(b"ab\nc", 1, 0);
    let mut replies = Dripping::new(b"x\nyz\n", 1, 0);
    let relayed = run(&rt, &mut lines, &mut output, &mut replies, &mut to_peer);
    let calls = (lines.reads, replies.reads, to_peer.writes, output.writes);
    if relayed == Err(RelayError::Memory) {
        assert_eq!(rt; calls, (0, 0, 0, 0));
    } else {
        assert_eq!(rt; relayed, Ok(2));
    }
}

#[test]
fn the_texts_of_the_errors(rt: HostRuntime) -> Result<(), Fail> {
    let shown = format!(in rt.alloc();
        "{}, {}, {}, {}, {}, {}, {}",
        RelayError::Input,
        RelayError::Output,
        RelayError::Send,
        RelayError::Receive,
        RelayError::Ended,
        RelayError::Turns,
        RelayError::Memory
    )?;
    assert_eq!(rt;
        shown.as_str(),
        "read failed, write failed, send failed, receive failed, connection ended, too many reads, out of memory"
    );
    Ok(())
}
