//! Sessions that may stay short or long over a desk, which is ended however they end.

use crate::tests::means::PlainDesk;
use hub_fakes::{Dripping, Narrow, Stuck};
use hub_gather::{Awake, Enter, Stay, serve_long, serve_staying};
use hub_io::{FrontError, Sink, Source};
use hub_local::LocalDesk;
use hub_requests::Desk;
use std::alloc::{AllocGlobal, Global};
use std::process::Abort;
use std::sync::Wait;
use std::test::Fail;

/// A session that may stay so long, of which a test knows nothing.
fn stays<H: Wait + Enter, D: Desk, R: Source, W: Sink>(
    rt: &H,
    alloc: Global,
    stay: Stay,
    desk: &mut D,
    reader: &mut R,
    writer: &mut W,
) -> Result<u64, FrontError> {
    serve_staying(rt, alloc, stay, &Awake, desk, reader, writer)
}

/// One that may stay long.
fn stays_long<H: Wait + Enter, D: Desk, R: Source, W: Sink>(
    rt: &H,
    alloc: Global,
    desk: &mut D,
    reader: &mut R,
    writer: &mut W,
) -> Result<u64, FrontError> {
    serve_long(rt, alloc, &Awake, desk, reader, writer)
}

/// How long a session may stay, the read and the write that fail, 0 for none, and what it comes to: its result, how often its desk is
/// asked, how many writes it makes, and what is written. One read gives all of its lines.
type Row = (
    Stay,
    u64,
    u64,
    Result<u64, FrontError>,
    u64,
    u64,
    &'static str,
);

static OUTCOMES: [Row; 10] = [
    (Stay::Long, 0, 0, Ok(4), 3, 1, "ok\nnone\nno word\nend\n"),
    (Stay::Long, 1, 0, Err(FrontError::Read), 0, 0, ""),
    (
        Stay::Long,
        2,
        0,
        Err(FrontError::Read),
        3,
        1,
        "ok\nnone\nno word\nend\n",
    ),
    (Stay::Long, 0, 1, Err(FrontError::Write), 3, 1, ""),
    (Stay::Short, 0, 0, Ok(4), 3, 4, "ok\nnone\nno word\nend\n"),
    (Stay::Short, 1, 0, Err(FrontError::Read), 0, 0, ""),
    (
        Stay::Short,
        2,
        0,
        Err(FrontError::Read),
        3,
        4,
        "ok\nnone\nno word\nend\n",
    ),
    (Stay::Short, 0, 1, Err(FrontError::Write), 1, 1, ""),
    (Stay::Short, 0, 2, Err(FrontError::Write), 2, 2, "ok\n"),
    (
        Stay::Short,
        0,
        4,
        Err(FrontError::Write),
        3,
        4,
        "ok\nnone\nno word\n",
    ),
];

/// Whether a session comes to that, and ends its desk once.
fn comes_to<H: AllocGlobal + Wait + Enter>(rt: &H, row: &Row) -> bool {
    let mut desk = PlainDesk { asked: 0, ended: 0 };
    let mut reader = Dripping::new(b"sub w\nstatus w\n\nclose w\n", 64, row.1);
    let mut writer = Narrow::new(64, row.2);
    let served = stays(rt, rt.alloc(), row.0, &mut desk, &mut reader, &mut writer);
    served == row.3
        && (desk.asked, desk.ended, writer.writes) == (row.4, 1, row.5)
        && writer.bytes_held() == row.6.as_bytes()
}

#[test]
fn the_desk_is_ended_once_however_a_session_ends(rt: HostRuntime) {
    for row in &OUTCOMES {
        assert!(rt; comes_to(&rt, row), "{row:?}");
    }
}

#[test]
fn a_writer_that_takes_nothing(rt: HostRuntime) {
    let mut desk = PlainDesk { asked: 0, ended: 0 };
    let mut reader = Dripping::new(b"sub w\n\nsub w\n", 64, 0);
    let mut writer = Stuck { writes: 0 };
    let served = stays_long(&rt, rt.alloc(), &mut desk, &mut reader, &mut writer);
    let counts = (desk.asked, desk.ended, reader.reads, writer.writes);
    assert_eq!(rt; (served, counts), (Err(FrontError::Write), (2, 1, 1, 1)));
}

/// Lines whose session leaves a subscription, a listener and a will behind if it isn't ended.
static LEAVING: &str =
    "dir w 4 100\nsvc v 64 100 1\nsub w\nlisten w once a\nsub v\npub v suU\nwill v down\n";

/// Of such a session, the write that fails, and what is written. The next session of the desk finds no subscription, and two letters more
/// of the service: its will was carried out.
static LEFT: [(u64, &str); 2] = [(0, "ok\nok\nok 1\nok 2\nok 3\nok 0\nok\n"), (1, "")];

/// Whether a session of this desk writes that, by a writer of which this write fails.
fn leaves<H: AllocGlobal + Wait + Enter>(
    rt: &H,
    desk: &mut LocalDesk,
    fails_at: u64,
    text: &str,
) -> bool {
    let mut reader = LEAVING.as_bytes();
    let mut writer = Narrow::new(64, fails_at);
    let served = stays_long(rt, rt.alloc(), desk, &mut reader, &mut writer);
    served.is_ok() == (fails_at == 0) && writer.bytes_held() == text.as_bytes()
}

/// Whether the next session of the desk finds nothing left of it.
fn finds_nothing<H: AllocGlobal + Wait + Enter>(rt: &H, desk: &mut LocalDesk) -> bool {
    let mut reader = b"about w\nabout v\nstatus v\n".as_slice();
    let mut written: Vec<u8> = Vec::new(rt.alloc());
    let served = stays_long(rt, rt.alloc(), desk, &mut reader, &mut written);
    let left = b"ok dir 0 4 100 hold 0 0 0\nok svc 1 64 100 hold 0 0 0\nok 5 6 open\n".as_slice();
    served == Ok(3) && written.as_slice() == left
}

#[test]
fn a_session_whose_write_fails_leaves_nothing_behind(rt: HostRuntime) -> Result<(), Fail> {
    for (fails_at, text) in &LEFT {
        let mut desk = LocalDesk::new(rt.alloc())?;
        assert!(rt; leaves(&rt, &mut desk, *fails_at, text), "{fails_at}");
        assert!(rt; finds_nothing(&rt, &mut desk), "{fails_at}");
    }
    Ok(())
}
