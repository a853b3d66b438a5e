//! What `about` says of a fifodir: of one desk's own, and of a hub's.
use crate::tests::desks::{alone, new_hub, new_local, run_each, session};
use crate::tests::rows::run;
use std::test::Fail;

/// What is made, who subscribes, and what `about` refuses, where nobody publishes.
static MADE: &str = "
    about web -> no name
    dir web 64 1000 -> ok
    about web -> ok dir 0 64 1000 hold 0 0 0
    dir log 1 1 evict -> ok
    about log -> ok dir 0 1 1 evict 0 0 0
    svc db 4096 1000000000000 0 -> ok
    about db -> ok svc 0 4096 1000000000000 hold 0 0 0
    svc up 7 8 1 evict -> ok
    about up -> ok svc 1 7 8 evict 0 0 0
    sub web -> ok 1
    about web -> ok dir 0 64 1000 hold 1 0 0
    listen web repeat a -> ok 2
    about web -> ok dir 0 64 1000 hold 2 0 0
    about log -> ok dir 0 1 1 evict 0 0 0
    cancel 1 -> ok
    about web -> ok dir 0 64 1000 hold 1 0 0
    cancel 2 -> ok
    about web -> ok dir 0 64 1000 hold 0 0 0
    wait all up 0 db -> late
    about db -> ok svc 0 4096 1000000000000 hold 0 0 0
";

/// Two fifodirs that are made alike, and that one session finds.
static ALIKE: &str = "
    dir web 8 100 -> ok
    dir log 8 100 -> ok
    sub log -> ok 1
    sub log -> ok 2
    sub web -> ok 3
    about web -> ok dir 0 8 100 hold 1 0 0
    about log -> ok dir 0 8 100 hold 2 0 0
    cancel 3 -> ok
    about log -> ok dir 0 8 100 hold 2 0 0
    about web -> ok dir 0 8 100 hold 0 0 0
";

/// The slowest of two subscriptions, which take and end.
static HELD: &str = "
    dir web 64 1000 -> ok
    sub web -> ok 1
    sub web -> ok 2
    pub web abc -> ok 0
    about web -> ok dir 0 64 1000 hold 2 0 3
    take 1 2 -> got ab
    about web -> ok dir 0 64 1000 hold 2 0 3
    take 2 1 -> got a
    about web -> ok dir 0 64 1000 hold 2 0 2
    cancel 2 -> ok
    about web -> ok dir 0 64 1000 hold 1 0 1
    close web -> ok
    about web -> ok dir 0 64 1000 hold 1 0 1
    take 1 9 -> got c
    about web -> ok dir 0 64 1000 hold 1 0 0
";

/// One that is evicted isn't counted, and nothing is pending for it.
static EVICTED: &str = "
    svc db 2 5 0 evict -> ok
    sub db -> ok 1
    pub db su -> ok 0
    sub db -> ok 2
    about db -> ok svc 0 2 5 evict 2 0 2
    pub db U -> ok 2
    about db -> ok svc 0 2 5 evict 1 0 1
    take 1 1 -> evicted
    cancel 1 -> ok
    about db -> ok svc 0 2 5 evict 1 0 1
    cancel 2 -> ok
    about db -> ok svc 0 2 5 evict 0 0 0
";

/// The same in a session of a hub, which is a publisher once it publishes.
static HELD_IN_A_HUB: &str = "
    dir web 64 1000 -> ok
    sub web -> ok 1
    sub web -> ok 2
    about web -> ok dir 0 64 1000 hold 2 0 0
    pub web abc -> ok 0
    about web -> ok dir 0 64 1000 hold 2 1 3
    take 1 2 -> got ab
    about web -> ok dir 0 64 1000 hold 2 1 3
    take 2 1 -> got a
    about web -> ok dir 0 64 1000 hold 2 1 2
    cancel 2 -> ok
    about web -> ok dir 0 64 1000 hold 1 1 1
    close web -> ok
    about web -> ok dir 0 64 1000 hold 1 1 1
    take 1 9 -> got c
    about web -> ok dir 0 64 1000 hold 1 1 0
";

/// A service that two sessions publish to, and to which both subscribe: first what one does, then the other.
static ONE: &str = "
    svc db 2 1000 1 evict -> ok
    about db -> ok svc 1 2 1000 evict 0 0 0
    sub db -> ok 1
    pub db s -> ok 0
    about db -> ok svc 1 2 1000 evict 1 1 1
";

static OTHER: &str = "
    about db -> ok svc 1 2 1000 evict 1 1 1
    about db -> ok svc 1 2 1000 evict 1 1 1
    listen db repeat U -> ok 1
    about db -> ok svc 1 2 1000 evict 2 1 1
    tell db up -> ok 1
    about db -> ok svc 1 2 1000 evict 2 2 2
    pub db U -> ok 2
    about db -> ok svc 1 2 1000 evict 1 2 2
    poll 1 -> hit uU
    about db -> ok svc 1 2 1000 evict 1 2 0
";

/// What one sees after the other has ended.
static LEFT: &str = "
    about db -> ok svc 1 2 1000 evict 0 1 0
    take 1 1 -> evicted
    cancel 1 -> ok
    about db -> ok svc 1 2 1000 evict 0 1 0
";

#[test]
fn a_fifodir_is_told_as_it_was_made(rt: HostRuntime) {
    run_each(&rt, &[MADE, ALIKE]);
}

#[test]
fn a_desk_tells_what_is_pending(rt: HostRuntime) {
    for rows in [HELD, EVICTED] {
        run(&rt, &mut new_local(&rt), rows);
    }
}

#[test]
fn a_session_is_counted_once_it_publishes(rt: HostRuntime) {
    let mut desk = alone(&rt);
    run(&rt, &mut desk, HELD_IN_A_HUB);
    desk.release(&rt);
}

#[test]
fn a_hub_counts_the_passes_of_all_sessions(rt: HostRuntime) -> Result<(), Fail> {
    let hub = new_hub(&rt);
    let mut one = session(&rt, &hub);
    let mut other = session(&rt, &hub);
    run(&rt, &mut one, ONE);
    run(&rt, &mut other, OTHER);
    other.release(&rt);
    run(&rt, &mut one, LEFT);
    one.release(&rt);
    Ok(())
}
