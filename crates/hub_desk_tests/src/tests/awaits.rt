//! Awaits, line by line of a session. Where the reply is `late`, nobody publishes meanwhile.
use crate::tests::desks::{new_local, run_anew, run_each};
use crate::tests::rows::Step::{AllHandles, End, Letters, Rows};
use crate::tests::rows::run;

/// It takes nothing: what is pending stays so, however often it is asked.
static PENDING: &str = "
    await 1 2 -> no id
    dir web 64 1000 -> ok
    pub web a -> ok 0
    sub web -> ok 1
    await 1 0 -> late; await 1 3 -> late
    pub web bcd -> ok 1
    await 1 0 -> ok; await 1 1000000 -> ok
    take 1 2 -> got bc
    await 1 1000000 -> ok
    take 1 2 -> got d
    await 1 2 -> late
    take 1 2 -> none
    status web -> ok 4 0 open
";

/// Each handle has its own events, at the fifodir that it is for. The second of a sort, and of the other sort.
static EACH_ITS_OWN: &str = "
    dir web 64 1000 -> ok; svc db 64 1000 1 -> ok
    sub web -> ok 1; sub db -> ok 2; listen db repeat U -> ok 3
    listen web once z -> ok 4; sub db -> ok 5
    pub db su -> ok 0
    await 1 2 -> late; await 2 2 -> ok; await 3 2 -> ok; await 4 2 -> late; await 5 2 -> ok
    take 2 9 -> got su
    await 2 2 -> late; await 3 2 -> ok; await 5 2 -> ok
    poll 3 -> none
    await 3 2 -> late; await 5 2 -> ok
    pub web z -> ok 0
    await 1 2 -> ok; await 2 2 -> late; await 4 2 -> ok
    cancel 1 -> ok
    await 1 2 -> no id; await 4 2 -> ok
    poll 4 -> hit z
    await 4 2 -> no id; await 5 2 -> ok
";

/// A close is told for good, to both sorts, whether or not letters are pending.
static CLOSED: &str = "
    dir web 64 1000 -> ok
    dir db 64 1000 -> ok
    sub web -> ok 1
    listen web repeat b -> ok 2
    sub db -> ok 3
    close web -> ok
    await 1 1000000 -> ok; await 2 1000000 -> ok; await 3 2 -> late
    take 1 1 -> end
    poll 2 -> end
    await 1 1000000 -> ok; await 2 1000000 -> ok
    pub db a -> ok 0
    close db -> ok
    await 3 1000000 -> ok
    take 3 1 -> got a
    await 3 1000000 -> ok
    cancel 3 -> ok
    await 3 1000000 -> no id
";

/// An eviction is told for good, also after the close, and only to who was evicted.
static EVICTED: &str = "
    dir log 2 1000 evict -> ok
    sub log -> ok 1
    listen log repeat z -> ok 2
    sub log -> ok 3
    pub log ab -> ok 0
    take 3 9 -> got ab
    pub log c -> ok 2
    await 1 1000000 -> ok; await 2 1000000 -> ok; await 3 1000000 -> ok
    take 1 1 -> evicted
    poll 2 -> evicted
    take 3 9 -> got c
    await 1 1000000 -> ok; await 2 1000000 -> ok; await 3 2 -> late
    close log -> ok
    await 1 1000000 -> ok; await 3 1000000 -> ok
";

#[test]
fn awaits_tell_what_comes(rt: HostRuntime) {
    run_each(&rt, &[PENDING, EACH_ITS_OWN, CLOSED, EVICTED]);
}

/// The session has ended. Its handles are gone, and the next ones are awaited by their own numbers.
static AFTER_THE_END: &str = "
    await 1 2 -> no id; await 2 2 -> no id
    sub web -> ok 3
    await 3 2 -> late
    pub web b -> ok 1
    await 3 2 -> ok
";

static BEFORE_THE_END: &str = "
    dir web 64 1000 -> ok
    sub web -> ok 1
    listen web repeat b -> ok 2
    pub web a -> ok 0
    await 1 2 -> ok
";

#[test]
fn no_handle_is_awaited_after_the_end(rt: HostRuntime) {
    run_anew(&rt, &[Rows(BEFORE_THE_END), End, Rows(AFTER_THE_END)]);
}

static WEB: &str = "dir web 4096 1000000 -> ok";

/// 4,096 letters are pending, of which a listener gathers all.
static MANY: &str = "
    await 1 2 -> ok; await 256 2 -> ok
    poll 1 -> none
    await 1 2 -> late; await 256 2 -> ok
    pub web b -> no full
    cancel 256 -> ok
    await 256 2 -> no id; await 255 2 -> ok
    poll 1 -> no overlong
    await 1 2 -> late
";

#[test]
fn each_handle_is_awaited(rt: HostRuntime) {
    run_anew(&rt, &[Rows(WEB), AllHandles(1), Letters(4096), Rows(MANY)]);
}

/// A desk of one thread answers at once, however many turns there are.
static AT_ONCE: &str = "
    dir web 64 1000 -> ok
    sub web -> ok 1
    await 1 1000000 -> late; await 1 1000000 -> late
    pub web a -> ok 0
    await 1 1000000 -> ok
";

#[test]
fn a_local_desk_answers_at_once(rt: HostRuntime) {
    run(&rt, &mut new_local(&rt), AT_ONCE);
}
