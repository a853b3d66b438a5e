//! What sessions have a right to, line by line: those that only look, and those that make few fifodirs.
use crate::tests::desks::new_local;
use crate::tests::rows::run;
use hub_requests::Desk;
use hub_rights::{Limited, Onlooker};

/// What another session made before: fifodirs of both kinds and both policies. `kept` holds publishers up.
static MADE: &str = "
    dir kept 4 1000 -> ok; dir web 4 1000 evict -> ok
    svc held 4 1000 1 -> ok; svc db 4 1000 1 evict -> ok
    pub web a -> ok 0; pub kept a -> ok 0; tell held up -> ok 0
";

/// Each request that changes something, of names that are there and of one that isn't.
static CHANGES: &str = "
    dir web 4 1000 -> no right; dir new 4 1000 -> no right; dir new 4 1000 evict -> no right
    svc db 4 1000 1 -> no right; svc new 4 1000 1 evict -> no right
    pub web b -> no right; pub kept b -> no right; pub new b -> no right; pub held U -> no right
    tell db up -> no right; tell held ready -> no right; tell web up -> no right; tell new up -> no right
    will db down -> no right; will held none -> no right; will new down -> no right
    close web -> no right; close kept -> no right; close new -> no right
    status web -> ok 1 0 open; status kept -> ok 1 0 open; status held -> ok 2 5 open; status db -> ok 0 0 open
    names 0 -> names kept web held db
";

/// A subscription, or a listener, only where who is slow is evicted. A refused one gives no handle.
static SUBSCRIPTIONS: &str = "
    sub kept -> no right; listen kept once a -> no right; sub held -> no right; listen held repeat U -> no right
    sub new -> no name; listen new once a -> no name
    about kept -> ok dir 0 4 1000 hold 0 0 0
    take 1 1 -> no id
    sub web -> ok 1; listen web once a -> ok 2; sub db -> ok 3; listen db repeat U -> ok 4
    listen web once ( -> no pattern; listen kept once ( -> no right; listen new once ( -> no name
    about web -> ok dir 0 4 1000 evict 2 0 0
    take 1 1 -> none; poll 2 -> none; await 3 0 -> late; next 4 0 -> late
    cancel 1 -> ok; cancel 2 -> ok; cancel 1 -> no id; take 3 1 -> none
";

/// What only looks is asked as it is.
static LOOKS: &str = "
    status new -> no name; about new -> no name; names 2 -> names held db; names 9 -> none
    wait all up 0 held -> yes 2; wait all up 0 db -> late; wait any up 0 web -> no kind; wait all up 0 new -> no name
    take 9 1 -> no id; poll 9 -> no id; await 9 0 -> no id; next 9 0 -> no id; cancel 9 -> no id
";

/// As for a session that may all: the fifodirs have what they had.
static AFTERWARDS: &str = "
    status web -> ok 1 0 open; status kept -> ok 1 0 open; status held -> ok 2 5 open; status db -> ok 0 0 open
    about kept -> ok dir 0 4 1000 hold 0 0 0; about web -> ok dir 0 4 1000 evict 0 0 0
    pub kept bcde -> ok 1; pub web bcde -> ok 1; tell held ready -> ok 2; tell db ready -> ok 0
    close web -> ok; dir new 4 1000 -> ok
";

#[test]
fn onlookers_change_nothing(rt: HostRuntime) {
    let mut desk = new_local(&rt);
    run(&rt, &mut desk, MADE);
    let mut session = Onlooker::over(desk);
    for rows in [CHANGES, SUBSCRIPTIONS, LOOKS, CHANGES] {
        run(&rt, &mut session, rows);
    }
    session.end(&rt);
    let Onlooker { below: mut desk } = session;
    run(&rt, &mut desk, AFTERWARDS);
    desk.end(&rt);
}

/// Two of its own. Those that are there, and those that are refused, don't count.
static SHARE: &str = "
    dir web 4 1000 -> ok; dir web 4 1000 -> no exists; svc web 4 1000 1 -> no exists
    pub web a -> ok 0; sub web -> ok 1
    svc db 4 1000 1 -> ok
    dir new 4 1000 -> no many; svc new 4 1000 0 evict -> no many; svc web 4 1000 0 -> no exists; dir db 4 1000 -> no exists
    names 0 -> names web db
    pub new a -> no name; tell db up -> ok 0; sub db -> ok 2; close web -> ok
    dir web 4 1000 -> no exists; dir other 4 1000 -> no many
";

static NO_SHARE: &str = "
    dir new 4 1000 -> no many; svc new 4 1000 1 -> no many; dir web 4 1000 -> no exists; names 0 -> names web db
    status db -> ok 2 5 open
";

#[test]
fn sessions_keep_to_their_share(rt: HostRuntime) {
    let mut session = Limited::over(new_local(&rt), 2);
    run(&rt, &mut session, SHARE);
    session.end(&rt);
    run(&rt, &mut session, "dir new 4 1000 -> no many");
    let mut second = Limited::over(session.into_below(), 0);
    run(&rt, &mut second, NO_SHARE);
    second.end(&rt);
    let mut third = Limited::over(second.into_below(), 1);
    run(
        &rt,
        &mut third,
        "dir web 4 1000 -> no exists; dir new 4 1000 -> ok; dir other 4 1000 -> no many",
    );
    third.end(&rt);
    drop(third.into_below());
}
