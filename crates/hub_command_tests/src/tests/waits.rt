//! Waits at hubs that don't answer, which take longer than a test may.
use crate::tests::dialing::Hubs;
use hub_commands::wait_as_told;
use hub_endings::{Ending, end_status};
use hub_options::Wish;
use std::alloc::Global;
use std::rt::Clock;
use std::sync::Wait;
use std::test::Fail;

/// What a wait is for, its time limit, whether it is to end at once, what the hubs reply in turn, and its status and how many connections
/// it makes.
type Case = (
    &'static str,
    Option<&'static str>,
    bool,
    &'static [Option<&'static [u8]>],
    (u8, usize),
);

static CASES: [Case; 8] = [
    ("up", None, false, &[None, Some(b"yes 3\n")], (0, 2)),
    (
        "ready",
        None,
        false,
        &[None, None, None, Some(b"never\n")],
        (4, 4),
    ),
    (
        "down",
        None,
        false,
        &[Some(b"late\n"), None, Some(b"yes 3\n")],
        (0, 3),
    ),
    ("up", Some("1h"), false, &[None, Some(b"yes 3\n")], (0, 2)),
    ("up", Some("999s"), false, &[None, Some(b"yes 3\n")], (1, 1)),
    ("up", None, true, &[None, Some(b"yes 3\n")], (1, 1)),
    ("restarted", None, false, &[None, Some(b"yes 3\n")], (1, 1)),
    (
        "restarted-ready",
        None,
        false,
        &[None, Some(b"yes 3\n")],
        (1, 1),
    ),
];

/// The status of a wait at these hubs, and how many connections it made.
fn waited<H: Wait + Clock>(
    rt: &H,
    alloc: Global,
    wish: &Wish<'_>,
    replies: &'static [Option<&'static [u8]>],
) -> (u8, usize) {
    let mut hubs = Hubs::new(replies);
    let mut output = Vec::new(alloc);
    let mut notes = Vec::new(alloc);
    let ended: Result<u8, Ending> = wait_as_told(
        rt,
        alloc,
        &mut hubs,
        "s",
        wish,
        &mut output,
        &mut notes,
    );
    (end_status(&ended), hubs.connections)
}

#[test]
fn a_wait_without_an_end_outlasts_a_hub_that_is_stopped(rt: HostRuntime) -> Result<(), Fail> {
    let alloc: Global = rt.alloc();
    for (want, timeout, is_now, replies, wanted) in &CASES {
        let wish = Wish {
            span: "all",
            want,
            timeout: *timeout,
            is_now: *is_now,
            is_quiet: true,
            names: vec![in alloc; "db"]?,
        };
        let found = waited(&rt, alloc, &wish, replies);
        assert_eq!(rt; found, *wanted, "{want}, {timeout:?}");
    }
    Ok(())
}
