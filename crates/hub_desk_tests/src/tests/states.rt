//! What a session is answered at a fifodir in each of its states, and what is there afterwards. The replies are those of the
//! manual's pages on requests.
mod endings;
mod replies;

use crate::tests::desks::{Session, new_hub, session};
use crate::tests::rows::run;
use hub_requests::{Desk, Enter};
use replies::{
    ANYWHERE, CLOSED, ENDED, EVICTED, FAILED, FRESH, FULL, LONG, PLAIN, READY, SPENT, WRAPPED,
};
use std::alloc::{AllocError, AllocGlobal, Global};
use std::process::Abort;
use std::sync::Wait;

/// What came at the fifodir `db`.
#[derive(Clone, Copy)]
enum Came {
    /// The session that asks later asked these rows.
    Own(&'static str),
    /// Another session asked these.
    Other(&'static str),
    /// The other session published `udD` so often behind the letter `s`, and the first one took and heard it each time.
    Cycles(u64),
}

use Came::{Cycles, Other, Own};

/// A service with room for 8 events. The session has a subscription and a listener.
static SERVICE: Came = Own(
    "
    svc db 8 10000 1 -> ok
    sub db -> ok 1
    listen db repeat [sD] -> ok 2
",
);

/// Its supervisor starts, and the session takes and hears that.
static STARTS: Came = Other("pub db s -> ok 0");

static TAKES_START: Came = Own(
    "
    take 1 8 -> got s
    poll 2 -> hit s
",
);

fn try_row(alloc: Global, start: &str, number: u64) -> Result<String, AllocError> {
    format!(in alloc; "{start} -> ok {number}")
}

/// Asks a line whose reply is this number.
fn ask_numbered<H: AllocGlobal + Abort + Wait + Enter>(
    rt: &H,
    desk: &mut Session,
    line: &str,
    number: u64,
) {
    let row = try_row(rt.alloc(), line, number).expect(rt, "a row");
    run(rt, desk, &row);
}

fn go_round<H: AllocGlobal + Abort + Wait + Enter>(
    rt: &H,
    own: &mut Session,
    other: &mut Session,
    cycles: u64,
) {
    for cycle in 0..cycles {
        ask_numbered(
            rt,
            other,
            "pub db udD",
            cycle.saturating_mul(3).saturating_add(1),
        );
        run(rt, own, "take 1 8 -> got udD; poll 2 -> hit udD");
    }
}

fn come_to<H: AllocGlobal + Abort + Wait + Enter>(
    rt: &H,
    own: &mut Session,
    other: &mut Session,
    came: &[Came],
) {
    for step in came {
        match step {
            Own(rows) => run(rt, own, rows),
            Other(rows) => run(rt, other, rows),
            Cycles(cycles) => go_round(rt, own, other, *cycles),
        }
    }
}

fn try_status_row(alloc: Global, status: &str) -> Result<String, AllocError> {
    format!(in alloc; "status db -> ok {status}")
}

/// Wants this status.
fn expect_status<H: AllocGlobal + Abort + Wait + Enter>(rt: &H, desk: &mut Session, status: &str) {
    let row = try_status_row(rt.alloc(), status).expect(rt, "a row");
    run(rt, desk, &row);
}

/// Asks each row of the text in this state, over a hub of its own, and looks what is there then, and after the session's end. Without
/// a double arrow that is what was there before.
fn answers<H: AllocGlobal + Abort + Wait + Enter>(rt: &H, came: &[Came], before: &str, rows: &str) {
    for row in rows.trim().lines() {
        let hub = new_hub(rt);
        let mut own = session(rt, &hub);
        let mut other = session(rt, &hub);
        come_to(rt, &mut own, &mut other, came);
        let (asked, left) = row.split_once(" => ").unwrap_or((row, before));
        let (after, at_end) = left.split_once(" => ").unwrap_or((left, left));
        run(rt, &mut own, asked);
        expect_status(rt, &mut other, after);
        own.release(rt);
        expect_status(rt, &mut other, at_end);
        other.release(rt);
    }
}

/// What is answered anywhere, and what in this state, by two texts.
fn expect_answers<H: AllocGlobal + Abort + Wait + Enter>(
    rt: &H,
    came: &[Came],
    before: &str,
    rows: [&str; 2],
) {
    answers(rt, came, before, ANYWHERE);
    answers(rt, came, before, endings::ANYWHERE);
    let [first, second] = rows;
    answers(rt, came, before, first);
    answers(rt, came, before, second);
}

#[test]
fn a_fresh_one_answers(rt: HostRuntime) {
    expect_answers(&rt, &[SERVICE], "0 0 open", [FRESH, endings::FRESH]);
}

#[test]
fn one_whose_room_was_used_again_answers(rt: HostRuntime) {
    let came = [SERVICE, STARTS, TAKES_START, Cycles(7)];
    expect_answers(&rt, &came, "22 6 open", [WRAPPED, endings::WRAPPED]);
}

#[test]
fn one_with_over_5000_events_answers(rt: HostRuntime) {
    let came = [SERVICE, STARTS, TAKES_START, Cycles(1_700)];
    expect_answers(&rt, &came, "5101 6 open", [LONG, endings::LONG]);
}

#[test]
fn a_full_one_answers(rt: HostRuntime) {
    let fills = Other("pub db sudDsudD -> ok 1");
    expect_answers(
        &rt,
        &[SERVICE, STARTS, TAKES_START, fills],
        "9 6 open",
        [FULL, endings::FULL],
    );
}

#[test]
fn a_closed_one_answers(rt: HostRuntime) {
    let closes = Other("pub db ud -> ok 1; close db -> ok");
    expect_answers(
        &rt,
        &[SERVICE, STARTS, TAKES_START, closes],
        "3 4 closed",
        [CLOSED, endings::CLOSED],
    );
}

#[test]
fn one_whose_end_is_known_answers(rt: HostRuntime) {
    let closes = Other("close db -> ok");
    let ends = Own("take 1 8 -> end; poll 2 -> end");
    expect_answers(
        &rt,
        &[SERVICE, STARTS, TAKES_START, closes, ends],
        "1 6 closed",
        [ENDED, endings::ENDED],
    );
}

#[test]
fn one_that_evicts_answers(rt: HostRuntime) {
    let evicting = Own(
        "
        svc db 8 10000 1 evict -> ok
        sub db -> ok 1
        listen db repeat [sD] -> ok 2
    ",
    );
    let evicts = Other("pub db udDudDud -> ok 1; pub db D -> ok 9");
    expect_answers(
        &rt,
        &[evicting, STARTS, TAKES_START, evicts],
        "10 6 open",
        [EVICTED, endings::EVICTED],
    );
}

#[test]
fn a_failed_one_answers(rt: HostRuntime) {
    let fails = Other("pub db O -> ok 1");
    let takes = Own("take 1 8 -> got O; poll 2 -> none");
    expect_answers(
        &rt,
        &[SERVICE, STARTS, TAKES_START, fails, takes],
        "2 14 open",
        [FAILED, endings::FAILED],
    );
}

#[test]
fn a_ready_one_answers(rt: HostRuntime) {
    let starts = Other("pub db uU -> ok 1");
    let takes = Own("take 1 8 -> got uU; poll 2 -> none");
    expect_answers(
        &rt,
        &[SERVICE, STARTS, TAKES_START, starts, takes],
        "3 7 open",
        [READY, endings::READY],
    );
}

#[test]
fn a_spent_one_answers(rt: HostRuntime) {
    let of_four = Own(
        "
        svc db 8 4 1 -> ok
        sub db -> ok 1
        listen db repeat [sD] -> ok 2
    ",
    );
    expect_answers(
        &rt,
        &[of_four, STARTS, TAKES_START, Cycles(1)],
        "4 6 open",
        [SPENT, endings::SPENT],
    );
}

#[test]
fn a_plain_one_answers(rt: HostRuntime) {
    let plain = Own(
        "
        dir db 8 10000 -> ok
        sub db -> ok 1
        listen db repeat [sD] -> ok 2
    ",
    );
    expect_answers(
        &rt,
        &[plain, STARTS, TAKES_START],
        "1 6 open",
        [PLAIN, endings::PLAIN],
    );
}
