//! What a session's services are told when it ends.
use crate::tests::desks::{new_hub, run_anew, session};
use crate::tests::rows::{Step, run};
use hub_requests::Desk;
use hub_shared::SharedDesk;
use hub_wait::{Go, Pause};
use std::sync::atomic::{AtomicU64, Ordering};
use std::sync::{Arc, Wait};
use std::test::Fail;

/// What a session does, and the status of a service after its end, by the manual's table of `tell`.
static ENDS: [(&str, &str); 39] = [
    // Where the service is: off, up when it went off, down, failed, up, ready, failed while up, and ending.
    (
        "pub web sx -> ok 0; will web off -> ok",
        "status web -> ok 2 2 open",
    ),
    (
        "pub web sx -> ok 0; will web down -> ok",
        "status web -> ok 3 6 open",
    ),
    (
        "pub web sx -> ok 0; will web failed -> ok",
        "status web -> ok 4 14 open",
    ),
    (
        "pub web sux -> ok 0; will web off -> ok",
        "status web -> ok 5 2 open",
    ),
    (
        "pub web sux -> ok 0; will web down -> ok",
        "status web -> ok 4 6 open",
    ),
    (
        "pub web sux -> ok 0; will web failed -> ok",
        "status web -> ok 5 14 open",
    ),
    (
        "pub web s -> ok 0; will web off -> ok",
        "status web -> ok 2 2 open",
    ),
    (
        "pub web s -> ok 0; will web down -> ok",
        "status web -> ok 1 6 open",
    ),
    (
        "pub web s -> ok 0; will web failed -> ok",
        "status web -> ok 2 14 open",
    ),
    (
        "pub web sO -> ok 0; will web off -> ok",
        "status web -> ok 3 10 open",
    ),
    (
        "pub web sO -> ok 0; will web down -> ok",
        "status web -> ok 2 14 open",
    ),
    (
        "pub web sO -> ok 0; will web failed -> ok",
        "status web -> ok 2 14 open",
    ),
    (
        "pub web su -> ok 0; will web off -> ok",
        "status web -> ok 5 2 open",
    ),
    (
        "pub web su -> ok 0; will web down -> ok",
        "status web -> ok 4 6 open",
    ),
    (
        "pub web su -> ok 0; will web failed -> ok",
        "status web -> ok 5 14 open",
    ),
    (
        "pub web suU -> ok 0; will web off -> ok",
        "status web -> ok 6 2 open",
    ),
    (
        "pub web suU -> ok 0; will web down -> ok",
        "status web -> ok 5 6 open",
    ),
    (
        "pub web suU -> ok 0; will web failed -> ok",
        "status web -> ok 6 14 open",
    ),
    (
        "pub web suO -> ok 0; will web off -> ok",
        "status web -> ok 6 10 open",
    ),
    (
        "pub web suO -> ok 0; will web down -> ok",
        "status web -> ok 5 14 open",
    ),
    (
        "pub web suO -> ok 0; will web failed -> ok",
        "status web -> ok 5 14 open",
    ),
    (
        "pub web sud -> ok 0; will web off -> ok",
        "status web -> ok 5 2 open",
    ),
    (
        "pub web sud -> ok 0; will web down -> ok",
        "status web -> ok 4 6 open",
    ),
    (
        "pub web sud -> ok 0; will web failed -> ok",
        "status web -> ok 5 14 open",
    ),
    // Nothing was published yet, or it is after the will.
    ("will web down -> ok", "status web -> ok 0 0 open"),
    (
        "will web down -> ok; pub web su -> ok 0",
        "status web -> ok 4 6 open",
    ),
    (
        "will web down -> ok; status web -> ok 0 0 open",
        "status web -> ok 0 0 open",
    ),
    // A later will, none, and one behind none.
    (
        "pub web su -> ok 0; will web down -> ok; will web off -> ok",
        "status web -> ok 5 2 open",
    ),
    (
        "pub web su -> ok 0; will web down -> ok; will web none -> ok",
        "status web -> ok 2 5 open",
    ),
    (
        "pub web su -> ok 0; will web none -> ok",
        "status web -> ok 2 5 open",
    ),
    (
        "pub web su -> ok 0; will web off -> ok; will web none -> ok; will web down -> ok",
        "status web -> ok 4 6 open",
    ),
    // The will of another name.
    (
        "pub web su -> ok 0; will db down -> ok",
        "status web -> ok 2 5 open",
    ),
    (
        "pub web su -> ok 0; will gone down -> no name",
        "status web -> ok 2 5 open",
    ),
    (
        "pub web su -> ok 0; will log down -> no kind",
        "status web -> ok 2 5 open",
    ),
    (
        "pub web su -> ok 0; pub db su -> ok 0; will db down -> ok",
        "status web -> ok 2 5 open",
    ),
    // A fifodir that is closed, full before the session's own subscription ends, or takes no more events.
    (
        "pub web su -> ok 0; will web down -> ok; close web -> ok",
        "status web -> ok 2 5 closed",
    ),
    (
        "sub few -> ok 1; pub few su -> ok 0; will few down -> ok",
        "status few -> ok 4 6 open",
    ),
    (
        "pub few suUd -> ok 0; will few failed -> ok",
        "status few -> ok 4 4 open",
    ),
    // A will of another name behind one that isn't carried out.
    (
        "pub few suUd -> ok 0; will few failed -> ok; pub db s -> ok 0; will db off -> ok",
        "status db -> ok 2 2 open",
    ),
];

static BEGUN: &str = "
    svc web 64 1000 1 -> ok
    svc db 64 1000 1 -> ok
    dir log 64 1000 -> ok
    svc few 2 5 1 -> ok
";

#[test]
fn a_service_is_told_its_will_at_the_end(rt: HostRuntime) {
    for (rows, after) in ENDS {
        let steps = [
            Step::Rows(BEGUN),
            Step::Rows(rows),
            Step::End,
            Step::Rows(after),
            // A second end has no wills.
            Step::End,
            Step::Rows(after),
        ];
        run_anew(&rt, &steps);
    }
}

/// What another session does before the first one ends, and what it sees afterwards. The first one has published `su`.
static SUCCESSORS: [(&str, &str); 5] = [
    ("status web -> ok 2 5 open", "status web -> ok 4 6 open"),
    ("pub web U -> ok 2", "status web -> ok 3 7 open"),
    ("tell web down -> ok 2", "status web -> ok 4 6 open"),
    ("tell web up -> ok 2", "status web -> ok 4 6 open"),
    ("will web off -> ok", "status web -> ok 4 6 open"),
];

#[test]
fn a_successor_is_not_talked_over(rt: HostRuntime) {
    for (meanwhile, after) in SUCCESSORS {
        let hub = new_hub(&rt);
        let mut first = session(&rt, &hub);
        let mut second = session(&rt, &hub);
        run(
            &rt,
            &mut first,
            "svc web 64 1000 1 -> ok; pub web su -> ok 0; will web down -> ok",
        );
        run(&rt, &mut second, meanwhile);
        first.release(&rt);
        run(&rt, &mut second, after);
        // Its own will, if it left one, is of no event of its own.
        second.end(&rt);
        run(&rt, &mut second, after);
        second.release(&rt);
    }
}

/// Counts its pauses.
#[derive(Clone, Copy)]
struct Counting<'a> {
    pauses: &'a AtomicU64,
}

impl Pause for Counting<'_> {
    fn pause<R: Wait>(&mut self, _rt: &R) -> Go {
        self.pauses.fetch_add(1, Ordering::SeqCst);
        Go::Again
    }
}

// The first will finds no room in 60,000 tries more, the second is carried out, and the third finds no room for its letters.
#[test]
fn a_will_that_finds_no_room_is_counted(rt: HostRuntime) -> Result<(), Fail> {
    let pauses = AtomicU64::new(0);
    let counting = Counting { pauses: &pauses };
    let hub = new_hub(&rt);
    let mut first = SharedDesk::new(rt.alloc(), Arc::try_clone(&hub)?, counting)?;
    let mut second = session(&rt, &hub);
    run(
        &rt,
        &mut first,
        "svc full 1 1000 1 -> ok; svc web 64 1000 1 -> ok; svc few 64 2 1 -> ok",
    );
    run(&rt, &mut second, "sub full -> ok 1");
    run(
        &rt,
        &mut first,
        "pub full s -> ok 0; pub web su -> ok 0; pub few su -> ok 0",
    );
    run(
        &rt,
        &mut first,
        "will full off -> ok; will web down -> ok; will few down -> ok",
    );
    first.end(&rt);
    assert_eq!(rt; first.lost_wills(), 2);
    assert_eq!(rt; pauses.load(Ordering::SeqCst), 60_000);
    run(
        &rt,
        &mut second,
        "status full -> ok 1 6 open; status web -> ok 4 6 open; status few -> ok 2 5 open",
    );
    first.end(&rt);
    assert_eq!(rt; first.lost_wills(), 0);
    first.release(&rt);
    run(&rt, &mut second, "status full -> ok 1 6 open");
    second.release(&rt);
    Ok(())
}
