//! Lines and replies of a megabyte, and replies about the size of the buffer.

use crate::tests::relays::run;
use hub_client::RelayError;
use hub_fakes::Dripping;
use hub_io::Source;
use std::alloc::{AllocError, AllocGlobal, Global};
use std::process::Abort;
use std::sync::Wait;
use std::test::Fail;

/// What a relay answers, what it sent and what it wrote.
type Relayed = (Result<u64, RelayError>, Vec<u8>, Vec<u8>);

fn run_whole<H: AllocGlobal + Wait, R: Source>(
    rt: &H,
    mut input: &[u8],
    replies: &mut R,
) -> Relayed {
    let mut sent: Vec<u8> = Vec::new(rt.alloc());
    let mut written: Vec<u8> = Vec::new(rt.alloc());
    let relayed = run(rt, &mut input, &mut written, replies, &mut sent);
    (relayed, sent, written)
}

/// A front, so many times a letter, and an end.
pub fn text_of(
    alloc: Global,
    front: &str,
    letter: u8,
    size: usize,
    end: &str,
) -> Result<Vec<u8>, AllocError> {
    let mut text: Vec<u8> = Vec::new(alloc);
    text.extend_from_slice(front.as_bytes())?;
    text.extend_from_slice(vec![in alloc; letter; size]?.as_slice())?;
    text.extend_from_slice(end.as_bytes())?;
    Ok(text)
}

// A line of 1,000,000 bytes and a reply of 1,500,000.
#[test]
fn a_long_line_and_a_long_reply(rt: HostRuntime) -> Result<(), Fail> {
    let input = text_of(rt.alloc(), "", b'a', 1_000_000, "")?;
    let peer = text_of(rt.alloc(), "", b'b', 1_500_000, "\nleft")?;
    let (relayed, sent, written) = run_whole(&rt, input.as_slice(), &mut peer.as_slice());
    assert_eq!(rt; relayed, Ok(1));
    assert_eq!(rt; sent.len(), 1_000_001);
    assert!(rt; sent.ends_with(b"a\n"));
    assert_eq!(rt; written.len(), 1_500_001);
    assert!(rt; written.ends_with(b"b\n"));
    Ok(())
}

#[test]
fn a_megabyte_of_lines(rt: HostRuntime) -> Result<(), Fail> {
    let mut input: Vec<u8> = Vec::new(rt.alloc());
    let mut peer: Vec<u8> = Vec::new(rt.alloc());
    for _ in 0..100_000 {
        input.extend_from_slice(b"status web\n")?;
        peer.extend_from_slice(b"ok 0 0 open\n")?;
    }
    let (relayed, sent, written) = run_whole(&rt, input.as_slice(), &mut peer.as_slice());
    assert_eq!(rt; relayed, Ok(100_000));
    assert!(rt; sent.as_slice() == input.as_slice());
    assert!(rt; written.as_slice() == peer.as_slice());
    Ok(())
}

/// The size of a reply and its end, whether it is whole, and how many bytes of it are written.
static SIZES: [(usize, &str, bool, usize); 8] = [
    (65_535, "", false, 0),
    (65_535, "\n", true, 65_535),
    (65_536, "", false, 65_536),
    (65_536, "\n", true, 65_536),
    (65_537, "", false, 65_536),
    (65_537, "\n", true, 65_537),
    (131_071, "", false, 65_536),
    (131_072, "", false, 131_072),
];

/// Relays these lines where a reply of that size comes after these replies.
fn expect_size<H: AllocGlobal + Abort + Wait>(
    rt: &H,
    row: (usize, &str, bool, usize),
    (input, before, count): (&str, &str, u64),
) -> Result<(), AllocError> {
    let (size, end, is_whole, passed) = row;
    let peer = text_of(rt.alloc(), before, b'x', size, end)?;
    let expected = text_of(rt.alloc(), before, b'x', passed, end)?;
    let (relayed, sent, written) = run_whole(rt, input.as_bytes(), &mut peer.as_slice());
    let wanted = if is_whole {
        Ok(count)
    } else {
        Err(RelayError::Ended)
    };
    let are_same = sent.as_slice() == input.as_bytes() && written.as_slice() == expected.as_slice();
    assert_eq!(rt; relayed, wanted, "{size} bytes, {count} lines");
    assert!(rt; are_same, "{size} bytes, {count} lines");
    Ok(())
}

// The reply comes first, or after shorter replies, so that it begins within the buffer.
#[test]
fn replies_about_the_size_of_the_buffer(rt: HostRuntime) -> Result<(), Fail> {
    for row in &SIZES {
        expect_size(&rt, *row, ("a\n", "", 1))?;
        expect_size(&rt, *row, ("a\nb\n\n", "\nok 12\n", 3))?;
    }
    Ok(())
}

/// The read that fails, and how many bytes of the reply are written.
static DRIPS: [(u64, usize); 3] = [(65_536, 0), (65_537, 65_536), (65_538, 65_536)];

// The peer's stream gives one byte a read, and fails at the read behind so many bytes of the reply.
#[test]
fn a_long_reply_that_drips_and_fails(rt: HostRuntime) -> Result<(), Fail> {
    let peer = vec![in rt.alloc(); b'x'; 65_537]?;
    for (fails_at, passed) in &DRIPS {
        let mut replies = Dripping::new(peer.as_slice(), 1, *fails_at);
        let (relayed, _sent, written) = run_whole(&rt, b"a\n", &mut replies);
        assert_eq!(rt; relayed, Err(RelayError::Receive), "at {fails_at}");
        assert_eq!(rt; written.len(), *passed, "at {fails_at}");
    }
    Ok(())
}
