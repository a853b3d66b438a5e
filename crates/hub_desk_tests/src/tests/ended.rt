//! Sessions one after the other: what one held when it ended holds the next one up in nothing.

use crate::tests::desks::{Session, new_hub, session};
use crate::tests::rows::run;
use hub_fakes::{Dripping, Narrow};
use hub_front::serve;
use hub_io::FrontError;
use hub_requests::{Desk, Enter};
use std::alloc::{AllocGlobal, Global};
use std::process::Abort;
use std::sync::Wait;

/// Its subscription is the only one, and what waits for it fills the fifodir.
const SUBSCRIBES: &[u8] = b"dir web 2 100\nsub web\npub web ab\npub web c\n";

/// The same of a listener.
const LISTENS: &[u8] = b"dir web 2 100\nlisten web repeat c\npub web ab\npub web c\n";

const SECOND: &[u8] = b"pub web c\nstatus web\n";

/// The replies to the second session.
const ROOM: &[u8] = b"ok 2\nok 3 0 open\n";

/// Serves a session, of which a test knows nothing.
fn serve_once<H: Wait + Enter>(
    rt: &H,
    alloc: Global,
    desk: &mut Session,
    reader: &mut Dripping<'_>,
    writer: &mut Narrow,
) -> Result<u64, FrontError> {
    serve(rt, alloc, desk, reader, writer)
}

/// The read or the write of a first session that fails, 0 for none, what the session ends with, and its replies.
type First = (
    &'static str,
    u64,
    u64,
    Result<u64, FrontError>,
    &'static str,
);

static FIRSTS: [First; 3] = [
    (
        "ended with its input",
        0,
        0,
        Ok(4),
        "ok\nok 1\nok 0\nno full\n",
    ),
    (
        "its read failed",
        2,
        0,
        Err(FrontError::Read),
        "ok\nok 1\nok 0\nno full\n",
    ),
    (
        "its fourth reply was not written",
        0,
        4,
        Err(FrontError::Write),
        "ok\nok 1\nok 0\n",
    ),
];

fn next_finds_room<H: AllocGlobal + Abort + Wait + Enter>(rt: &H, input: &[u8], first: &First) {
    let (name, read, write, result, written) = first;
    let hub = new_hub(rt);
    let mut desk = session(rt, &hub);
    let mut reader = Dripping::new(input, 64, *read);
    let mut writer = Narrow::new(64, *write);
    let ended = serve_once(rt, rt.alloc(), &mut desk, &mut reader, &mut writer);
    assert_eq!(rt; ended, *result, "{name}");
    assert_eq!(rt; writer.bytes_held(), written.as_bytes(), "{name}");
    finds_room(rt, session(rt, &hub), name);
    desk.release(rt);
}

fn finds_room<H: AllocGlobal + Abort + Wait + Enter>(rt: &H, mut desk: Session, name: &str) {
    let mut reader = Dripping::new(SECOND, 64, 0);
    let mut writer = Narrow::new(64, 0);
    let ended = serve_once(rt, rt.alloc(), &mut desk, &mut reader, &mut writer);
    assert_eq!(rt; ended, Ok(2), "{name}");
    assert_eq!(rt; writer.bytes_held(), ROOM, "{name}");
    desk.release(rt);
}

#[test]
fn the_next_session_finds_room(rt: HostRuntime) {
    for first in &FIRSTS {
        next_finds_room(&rt, SUBSCRIBES, first);
        next_finds_room(&rt, LISTENS, first);
    }
}

static MAKES: &str = "dir web 64 1000 -> ok";

/// A session that has a subscription, a listener and a publisher.
static HOLDS: &str = "
    sub web -> ok 1
    listen web once a -> ok 2
    status web -> ok 0 0 open
";

/// What another one sees of it.
static SEES: &str = "status web -> ok 0 0 open";

// A fifodir has room for 1,024 subscriptions and for as many publishers at one time.
#[test]
fn many_sessions_end_one_after_the_other(rt: HostRuntime) {
    let hub = new_hub(&rt);
    let mut last = session(&rt, &hub);
    run(&rt, &mut last, MAKES);
    for _ in 0..1025 {
        let mut desk = session(&rt, &hub);
        run(&rt, &mut desk, HOLDS);
        desk.end(&rt);
        run(&rt, &mut last, SEES);
        desk.release(&rt);
    }
    run(&rt, &mut last, HOLDS);
    last.release(&rt);
}
