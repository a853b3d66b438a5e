//! What requests are answered, line by line of a session, and the limits of one.
use crate::tests::desks::{new_hub, new_local, run_anew, run_each, session};
use crate::tests::rows::Step::{AllHandles, End, Rows};
use crate::tests::rows::{answer_to, expect_number, request, run};
use hub_local::LocalDesk;
use hub_requests::{Desk, Enter, Request};
use std::alloc::{AllocError, AllocGlobal, Global};
use std::process::Abort;
use std::sync::Wait;

/// Each request about a plain fifodir carried out, and refused.
static PLAIN: &str = "
    sub web -> no name
    dir web 64 1000 -> ok
    dir web 4 10 -> no exists
    sub web -> ok 1
    pub web ab -> ok 0
    take 1 10 -> got ab
    take 1 10 -> none
    status web -> ok 2 0 open
    close web -> ok
    close web -> no closed
    take 1 10 -> end
    pub web c -> no closed
    sub web -> no closed
    status web -> ok 2 0 closed
    cancel 1 -> ok
    cancel 1 -> no id
    take 1 5 -> no id
";

/// Nothing is there, and a refused request uses no number.
static NOTHING: &str = "
    pub web a -> no name
    close web -> no name
    status web -> no name
    take 1 1 -> no id
    cancel 1 -> no id
    sub web -> no name
    dir web 64 1000 -> ok
    svc web 64 1000 1 -> no exists
    sub web -> ok 1
    sub web -> ok 2
";

/// What a subscription holds is free once it is cancelled, by its handle or by its listener's one hit.
static FREES: &str = "
    dir web 2 1000 -> ok
    sub web -> ok 1
    pub web ab -> ok 0
    pub web c -> no full
    cancel 1 -> ok
    pub web cd -> ok 2
    listen web once a -> ok 2
    pub web ab -> ok 4
    pub web ab -> no full
    poll 2 -> hit a
    pub web ab -> ok 6
";

/// Handles are of two sorts, and a request that is refused uses no number.
static HANDLES: &str = "
    sub web -> no name
    dir web 64 1000 -> ok
    dir web 4 10 -> no exists
    listen web repeat ( -> no pattern
    sub web -> ok 1
    listen web once b -> ok 2
    pub web abcb -> ok 0
    take 2 3 -> no id
    poll 1 -> no id
    take 1 3 -> got abc
    poll 2 -> hit ab
    poll 2 -> no id
    cancel 2 -> no id
    take 1 3 -> got b
    take 1 3 -> none
    close web -> ok
    close web -> no closed
    take 1 3 -> end
    pub web d -> no closed
    sub web -> no closed
    status web -> ok 4 0 closed
    cancel 1 -> ok
    dir db 64 1000 -> ok
    sub db -> ok 3
";

#[test]
fn plain_fifodirs_are_served(rt: HostRuntime) {
    run_each(&rt, &[PLAIN, NOTHING, FREES, HANDLES]);
}

/// Letters in their order.
static SERVICE: &str = "
    svc web 4 10 1 -> ok
    sub web -> ok 1
    pub web sU -> no unlawful 1
    pub web suU -> ok 0
    pub web dD -> no full
    take 1 2 -> got su
";

/// The session has ended, and its desk serves on.
static AFTER_THE_END: &str = "
    take 1 2 -> no id
    pub web dDudD -> ok 3
    pub web uUd -> no spent
    sub web -> ok 2
    status web -> ok 8 6 open
";

#[test]
fn a_desk_serves_on_after_the_end(rt: HostRuntime) {
    run_anew(&rt, &[Rows(SERVICE), End, Rows(AFTER_THE_END)]);
}

fn try_row(alloc: Global, number: u64) -> Result<String, AllocError> {
    format!(in alloc; "dir n{number} 1 1 -> ok")
}

/// Makes the names n0 to n255.
fn make_names<H: AllocGlobal + Abort + Wait + Enter, D: Desk>(rt: &H, desk: &mut D) {
    for number in 0..256u64 {
        let row = try_row(rt.alloc(), number).expect(rt, "a row");
        run(rt, desk, &row);
    }
}

/// 256 names are there.
static ALL_THERE: &str = "
    dir more 1 1 -> no many
    svc more 1 1 1 -> no many
    dir n7 1 1 -> no exists
";

#[test]
fn names_are_limited(rt: HostRuntime) {
    let mut local = new_local(&rt);
    make_names(&rt, &mut local);
    run(&rt, &mut local, ALL_THERE);
    let hub = new_hub(&rt);
    let mut maker = session(&rt, &hub);
    make_names(&rt, &mut maker);
    maker.release(&rt);
    let mut other = session(&rt, &hub);
    run(&rt, &mut other, ALL_THERE);
    other.release(&rt);
}

static WEB: &str = "dir web 1 1 -> ok";

/// 256 subscriptions are current.
static ALL_ACTIVE: &str = "
    sub web -> no many
    sub db -> no name
    cancel 5 -> ok
    sub web -> ok 257
";

#[test]
fn current_handles_are_limited(rt: HostRuntime) {
    run_anew(&rt, &[Rows(WEB), AllHandles(0), Rows(ALL_ACTIVE)]);
}

fn cancel<H: Wait + Enter>(rt: &H, desk: &mut LocalDesk, id: u64) {
    let _ = answer_to(rt, desk, &Request::Cancel { id });
}

/// Subscribes and cancels until every number was given.
fn spend_handles<H: AllocGlobal + Abort + Wait + Enter>(rt: &H, desk: &mut LocalDesk) {
    let sub = request(rt, rt.alloc(), "sub web");
    for id in 1..1_000_001 {
        expect_number(rt, desk, &sub, id);
        cancel(rt, desk, id);
    }
}

/// No number is left, and no handle is current.
static ALL_SPENT: &str = "
    sub web -> no spent
    sub db -> no name
    cancel 1000000 -> no id
";

#[test]
fn handles_are_spent(rt: HostRuntime) {
    let mut desk = new_local(&rt);
    run(&rt, &mut desk, WEB);
    spend_handles(&rt, &mut desk);
    run(&rt, &mut desk, ALL_SPENT);
}
