//! Sessions that write their replies in batches, and a write or a read that fails.

use crate::tests::means::{Noting, PlainDesk, run};
use hub_fakes::{Dripping, Narrow};
use hub_gather::Enter;
use hub_io::FrontError;
use std::alloc::{AllocGlobal, Global};
use std::process::Abort;
use std::sync::Wait;
use std::test::Fail;

/// How many bytes the writer takes at once, which of its writes fails, and what a session has come to by then: how many lines it has
/// answered and how many reads it has made, and what is written.
type Lost = (usize, u64, u64, u64, &'static str);

/// What each of three reads gives, from one line to five, whose replies are held. A write of the whole batch fails, or one of two of its
/// bytes.
static LOST: [(&str, &[Lost]); 5] = [
    (
        "\n",
        &[
            (64, 1, 1, 1, ""),
            (64, 2, 2, 2, "no word\n"),
            (64, 3, 3, 3, "no word\nno word\n"),
            (2, 1, 1, 1, ""),
            (2, 2, 1, 1, "no"),
            (2, 4, 1, 1, "no wor"),
            (2, 5, 2, 2, "no word\n"),
            (2, 6, 2, 2, "no word\nno"),
        ],
    ),
    (
        "sub w\n\n",
        &[
            (64, 1, 2, 1, ""),
            (64, 2, 4, 2, "ok\nno word\n"),
            (64, 3, 6, 3, "ok\nno word\nok\nno word\n"),
            (2, 2, 2, 1, "ok"),
            (2, 3, 2, 1, "ok\nn"),
            (2, 6, 2, 1, "ok\nno word"),
            (2, 7, 4, 2, "ok\nno word\n"),
            (2, 8, 4, 2, "ok\nno word\nok"),
        ],
    ),
    (
        "sub w\n\nclose w\n",
        &[
            (64, 1, 3, 1, ""),
            (64, 2, 6, 2, "ok\nno word\nend\n"),
            (64, 3, 9, 3, "ok\nno word\nend\nok\nno word\nend\n"),
            (2, 8, 3, 1, "ok\nno word\nend"),
            (2, 9, 6, 2, "ok\nno word\nend\n"),
            (2, 10, 6, 2, "ok\nno word\nend\nok"),
        ],
    ),
    (
        "sub w\n\nclose w\nstatus w\n",
        &[
            (64, 1, 4, 1, ""),
            (64, 2, 8, 2, "ok\nno word\nend\nnone\n"),
            (
                64,
                3,
                12,
                3,
                "ok\nno word\nend\nnone\nok\nno word\nend\nnone\n",
            ),
            (2, 3, 4, 1, "ok\nn"),
            (2, 10, 4, 1, "ok\nno word\nend\nnon"),
            (2, 11, 8, 2, "ok\nno word\nend\nnone\n"),
        ],
    ),
    (
        "sub w\n\nclose w\nstatus w\n\n",
        &[
            (64, 1, 5, 1, ""),
            (64, 2, 10, 2, "ok\nno word\nend\nnone\nno word\n"),
            (
                64,
                3,
                15,
                3,
                "ok\nno word\nend\nnone\nno word\nok\nno word\nend\nnone\nno word\n",
            ),
            (2, 1, 5, 1, ""),
            (2, 2, 5, 1, "ok"),
            (2, 14, 5, 1, "ok\nno word\nend\nnone\nno wor"),
            (2, 15, 10, 2, "ok\nno word\nend\nnone\nno word\n"),
            (2, 16, 10, 2, "ok\nno word\nend\nnone\nno word\nok"),
        ],
    ),
];

/// What three such reads give.
fn thrice(alloc: Global, lines: &str) -> Result<Vec<u8>, Fail> {
    let mut input = Vec::new(alloc);
    for _ in 0..3 {
        input.extend_from_slice(lines.as_bytes())?;
    }
    Ok(input)
}

/// Whether three such reads are served until a write fails, which is the last step.
fn is_lost<H: AllocGlobal + Wait + Enter>(
    rt: &H,
    lines: &'static str,
    row: &Lost,
) -> Result<bool, Fail> {
    let alloc = rt.alloc();
    let input = thrice(alloc, lines)?;
    let mut means = Noting::new(alloc)?;
    let mut desk = PlainDesk { asked: 0, ended: 0 };
    let mut reader = Dripping::new(input.as_slice(), lines.len(), 0);
    let mut writer = Narrow::new(row.0.max(1), row.1);
    let served = run(rt, alloc, &mut means, &mut desk, &mut reader, &mut writer);
    Ok(
        served == Err(FrontError::Write)
            && (writer.writes, means.answered, reader.reads) == (row.1, row.2, row.3)
            && writer.bytes_held() == row.4.as_bytes()
            && means.steps.ends_with(b"]!"),
    )
}

#[test]
fn nothing_follows_a_write_that_fails(rt: HostRuntime) -> Result<(), Fail> {
    for (lines, rows) in &LOST {
        for row in rows.iter() {
            assert!(rt; is_lost(&rt, lines, row)?, "{lines:?}, {row:?}");
        }
    }
    Ok(())
}

/// The session's input, which of its writes fails, and its steps.
type Asleep = (&'static str, u64, &'static str);

/// Writes that fail before a request that may sleep, or behind one: no further line is answered.
static ASLEEP: [Asleep; 5] = [
    ("sub w\nnext 1 0\nsub w\n", 1, "R sub [ok;]!"),
    ("sub w\n\nawait 1 5\nsub w\n", 1, "R sub - [ok;no word;]!"),
    (
        "sub w\nwait all up 0 w\nsub w\n",
        2,
        "R sub [ok;] wait [late;]!",
    ),
    ("await 1 5\nclose w\n\nsub w\n", 1, "R await [late;]!"),
    ("next 1 0\nnext 1 0\n", 1, "R next [late;]!"),
];

/// Whether a session takes these steps until a write fails.
fn stops_so<H: AllocGlobal + Wait + Enter>(rt: &H, row: &Asleep) -> Result<bool, Fail> {
    let alloc = rt.alloc();
    let mut means = Noting::new(alloc)?;
    let mut desk = PlainDesk { asked: 0, ended: 0 };
    let mut reader = Dripping::new(row.0.as_bytes(), 64, 0);
    let mut writer = Narrow::new(64, row.1);
    let served = run(rt, alloc, &mut means, &mut desk, &mut reader, &mut writer);
    Ok(served == Err(FrontError::Write) && means.steps.as_slice() == row.2.as_bytes())
}

#[test]
fn no_line_is_begun_after_a_fault_beside_a_sleep(rt: HostRuntime) -> Result<(), Fail> {
    for row in &ASLEEP {
        assert!(rt; stops_so(&rt, row)?, "{row:?}");
    }
    Ok(())
}

// All is written before the read that fails, which is the last step.
#[test]
fn a_read_that_fails(rt: HostRuntime) -> Result<(), Fail> {
    let alloc: Global = rt.alloc();
    let mut means = Noting::new(alloc)?;
    let mut desk = PlainDesk { asked: 0, ended: 0 };
    let mut reader = Dripping::new(b"sub w\n\nstatus w\n", 8, 3);
    let mut written: Vec<u8> = Vec::new(alloc);
    let served = run(&rt, alloc, &mut means, &mut desk, &mut reader, &mut written);
    let steps = b"R sub - [ok;no word;] R status [none;] R!".as_slice();
    assert_eq!(rt;
        (served, means.steps.as_slice()),
        (Err(FrontError::Read), steps)
    );
    Ok(())
}
