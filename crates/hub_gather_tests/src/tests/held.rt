//! How much a session holds back that writes its replies in batches.

use crate::tests::means::{Noting, run};
use hub_gather::Enter;
use hub_local::LocalDesk;
use std::alloc::{AllocGlobal, Global};
use std::process::Abort;
use std::sync::Wait;
use std::test::Fail;

/// A read's lines: so many empty ones, and what follows them. Then how many bytes the writes have.
type Row = (usize, &'static str, &'static [usize]);

/// The reply to an empty line has eight bytes. A reply may have 4,101 bytes, and 16,384 is the most that is held: so of more than 12,283
/// bytes all is written before a line.
static MANY: [Row; 8] = [
    (1_535, "", &[12_280]),
    (1_536, "", &[12_288]),
    (1_537, "", &[12_288, 8]),
    (8_192, "", &[12_288, 12_288, 12_288, 12_288, 12_288, 4_096]),
    (
        509,
        "dir a 1 1\ndir b 1 1\ndir c 1 1\npoll 1\npoll 2\npoll 3\n",
        &[16_384],
    ),
    (
        509,
        "poll 4\npoll 4\npoll 1\npoll 2\npoll 3\n",
        &[12_284, 4_101],
    ),
    (0, "poll 1\npoll 2\npoll 3\npoll 4\n", &[12_303, 5]),
    (
        0,
        "next 1 0\nnext 2 0\nnext 3 0\nnext 4 0\n",
        &[4_101, 4_101, 4_101, 5],
    ),
];

/// What the session before such a read asks, with 4,095 letters `a` where the `@` is: three listeners have a hit of 4,096 letters,
/// which is a reply of 4,101 bytes, and a fourth one has none.
static BEFORE: [&str; 3] = [
    "dir w 4096 1000000\nlisten w repeat z\nlisten w repeat z\nlisten w repeat z\n",
    "pub w z\n",
    "listen w repeat z\n",
];

/// Adds publications of so many letters `a`, at most 455 of them in one.
fn add_letters(input: &mut Vec<u8>, times: usize) -> Result<(), Fail> {
    for _ in 0..times {
        input.extend_from_slice(b"pub w ")?;
        let letters = [b'a'; 455];
        input.extend_from_slice(letters.as_slice())?;
        input.push(b'\n')?;
    }
    Ok(())
}

/// The lines of the session before such a read: 9 publications have 4,095 letters.
fn lines_before(alloc: Global) -> Result<Vec<u8>, Fail> {
    let mut input = Vec::new(alloc);
    input.extend_from_slice(BEFORE[0].as_bytes())?;
    add_letters(&mut input, 9)?;
    input.extend_from_slice(BEFORE[1].as_bytes())?;
    input.extend_from_slice(BEFORE[2].as_bytes())?;
    Ok(input)
}

/// Whether these lines make the session before such a read: each of 15 is answered.
fn sets_up<H: AllocGlobal + Wait + Enter>(rt: &H, desk: &mut LocalDesk) -> Result<bool, Fail> {
    let alloc = rt.alloc();
    let before = lines_before(alloc)?;
    let mut means = Noting::new(alloc)?;
    let mut reader = before.as_slice();
    let mut written: Vec<u8> = Vec::new(alloc);
    let served = run(rt, alloc, &mut means, desk, &mut reader, &mut written);
    Ok(served == Ok(15))
}

/// The lines of such a read.
fn lines_of(alloc: Global, row: &Row) -> Result<Vec<u8>, Fail> {
    let mut input = vec![in alloc; b'\n'; row.0]?;
    input.extend_from_slice(row.1.as_bytes())?;
    Ok(input)
}

/// Whether such a read is served by writes of these sizes, by a desk whose listeners have their hits.
fn writes_so<H: AllocGlobal + Wait + Enter>(
    rt: &H,
    desk: &mut LocalDesk,
    row: &Row,
) -> Result<bool, Fail> {
    let alloc = rt.alloc();
    let input = lines_of(alloc, row)?;
    let mut means = Noting::new(alloc)?;
    let mut reader = input.as_slice();
    let mut written: Vec<u8> = Vec::new(alloc);
    let served = run(rt, alloc, &mut means, desk, &mut reader, &mut written);
    Ok(
        served.is_ok()
            && means.sizes.as_slice() == row.2
            && begins_with_refusals(written.as_slice(), row.0),
    )
}

/// Whether the bytes begin with so many replies `no word`.
fn begins_with_refusals(bytes: &[u8], count: usize) -> bool {
    let mut left = bytes;
    for _ in 0..count {
        let Some(rest) = left.strip_prefix(b"no word\n".as_slice()) else {
            return false;
        };
        left = rest;
    }
    true
}

#[test]
fn no_more_than_16_384_bytes_are_held(rt: HostRuntime) -> Result<(), Fail> {
    for row in &MANY {
        let mut desk = LocalDesk::new(rt.alloc())?;
        assert!(rt; sets_up(&rt, &mut desk)?, "{row:?}");
        assert!(rt; writes_so(&rt, &mut desk, row)?, "{row:?}");
    }
    Ok(())
}
