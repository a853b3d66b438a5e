//! Wills of one session, up to as many as a hub has names.
use crate::tests::desks::{new_hub, new_local, session};
use crate::tests::rows::run;
use hub_requests::{Desk, Enter};
use std::alloc::{AllocError, AllocGlobal, Global};
use std::process::Abort;
use std::sync::Wait;

/// How many wills a session leaves: powers of two with their neighbours, up to as many as a hub has names.
static COUNTS: [u64; 19] = [
    1, 2, 3, 4, 5, 7, 8, 9, 15, 16, 17, 31, 32, 33, 63, 64, 65, 255, 256,
];

/// A row for the service of this number: what comes before its name, and what comes after it.
fn try_row(alloc: Global, before: &str, number: u64, after: &str) -> Result<String, AllocError> {
    format!(in alloc; "{before} s{number} {after}")
}

fn run_row<H: AllocGlobal + Abort + Wait + Enter, D: Desk>(
    rt: &H,
    desk: &mut D,
    (before, number, after): (&str, u64, &str),
) {
    let row = try_row(rt.alloc(), before, number, after).expect(rt, "a row");
    run(rt, desk, &row);
}

/// Makes and starts so many services, and leaves each a will. The last one comes first.
fn leave_wills<H: AllocGlobal + Abort + Wait + Enter, D: Desk>(rt: &H, desk: &mut D, count: u64) {
    for number in 0..count {
        run_row(rt, desk, ("svc", number, "64 1000 1 -> ok"));
        run_row(rt, desk, ("pub", number, "su -> ok 0"));
    }
    for place in 0..count {
        let number = count.saturating_sub(1).saturating_sub(place);
        run_row(rt, desk, ("will", number, "failed -> ok"));
    }
}

/// Wants each of so many services to have failed: three letters came, `dDO`.
fn expect_failed<H: AllocGlobal + Abort + Wait + Enter, D: Desk>(rt: &H, desk: &mut D, count: u64) {
    for number in 0..count {
        run_row(rt, desk, ("status", number, "-> ok 5 14 open"));
    }
}

#[test]
fn each_of_many_wills_is_carried_out(rt: HostRuntime) {
    for count in COUNTS {
        let mut local = new_local(&rt);
        leave_wills(&rt, &mut local, count);
        local.end(&rt);
        expect_failed(&rt, &mut local, count);
        let hub = new_hub(&rt);
        let mut first = session(&rt, &hub);
        let mut second = session(&rt, &hub);
        leave_wills(&rt, &mut first, count);
        first.end(&rt);
        assert_eq!(rt; first.lost_wills(), 0);
        first.release(&rt);
        expect_failed(&rt, &mut second, count);
        second.release(&rt);
    }
}
