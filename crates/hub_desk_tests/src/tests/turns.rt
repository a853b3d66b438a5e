//! How often a session pauses in a wait, in an await and in a next.
use crate::tests::desks::new_hub;
use crate::tests::rows::run;
use hub_shared::SharedDesk;
use hub_wait::{Go, Pause};
use std::sync::Wait;
use std::sync::atomic::{AtomicU64, Ordering};
use std::test::Fail;

/// Counts its pauses, and never loses patience.
#[derive(Clone, Copy)]
struct Counting<'a> {
    pauses: &'a AtomicU64,
}

impl Pause for Counting<'_> {
    fn pause<R: Wait>(&mut self, _rt: &R) -> Go {
        self.pauses.fetch_add(1, Ordering::SeqCst);
        Go::Again
    }
}

static BEGUN: &str = "
    svc web 64 1000 1 -> ok
    sub web -> ok 1
    listen web repeat b -> ok 2
";

/// Requests with their replies, and how often there was a pause so far.
static PAUSES: [(&str, u64); 16] = [
    ("await 1 3 -> late", 3),
    ("await 2 2 -> late", 5),
    ("await 1 0 -> late", 5),
    ("wait all up 4 web -> late", 9),
    ("wait any up 0 web -> late", 9),
    ("await 3 5 -> no id", 9),
    ("pub web su -> ok 0", 9),
    ("await 1 5 -> ok", 9),
    ("wait all up 5 web -> yes 2", 9),
    ("next 1 5 -> got su", 9),
    ("next 1 3 -> late", 12),
    ("next 1 0 -> late", 12),
    ("next 2 4 -> late", 16),
    ("next 2 2 -> late", 18),
    ("next 3 5 -> no id", 18),
    ("next 2 0 -> late", 18),
];

#[test]
fn a_turn_is_one_pause(rt: HostRuntime) -> Result<(), Fail> {
    let pauses = AtomicU64::new(0);
    let counting = Counting { pauses: &pauses };
    let mut desk = SharedDesk::new(rt.alloc(), new_hub(&rt), counting)?;
    run(&rt, &mut desk, BEGUN);
    for (rows, count) in PAUSES {
        run(&rt, &mut desk, rows);
        assert_eq!(rt; pauses.load(Ordering::SeqCst), count, "{rows}");
    }
    desk.release(&rt);
    Ok(())
}
