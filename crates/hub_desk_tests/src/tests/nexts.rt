//! Nexts, line by line of a session. Where the reply is `late`, nobody publishes meanwhile.
use crate::tests::desks::{new_local, run_anew, run_each};
use crate::tests::rows::Step::{End, Letters, Rows};
use crate::tests::rows::run;

/// It takes all that is pending for a subscription, and nothing of another one.
static TAKES: &str = "
    next 1 2 -> no id
    dir web 64 1000 -> ok
    pub web a -> ok 0
    sub web -> ok 1; sub web -> ok 2
    next 1 0 -> late; next 1 3 -> late
    pub web bcd -> ok 1
    take 1 1 -> got b
    next 1 0 -> got cd
    next 1 2 -> late; take 1 2 -> none; await 1 2 -> late
    next 2 1000000 -> got bcd
    cancel 1 -> ok
    next 1 2 -> no id; next 2 2 -> late
";

/// It polls a listener. What is heard without a hit stays gathered, and after a hit in mode once the handle is gone.
static POLLS: &str = "
    dir web 64 1000 -> ok
    listen web repeat b -> ok 1; listen web once c -> ok 2
    next 1 2 -> late; next 2 0 -> late
    pub web a -> ok 0
    next 1 2 -> late; next 2 2 -> late; await 1 2 -> late
    pub web bb -> ok 1
    next 1 2 -> hit ab; next 1 2 -> hit b; next 1 2 -> late
    pub web c -> ok 3
    next 2 2 -> hit abbc
    next 2 2 -> no id; poll 2 -> no id; cancel 2 -> no id
    next 1 2 -> late; pub web b -> ok 4; poll 1 -> hit cb
";

/// A close and an eviction are told for good.
static ENDS: &str = "
    dir web 64 1000 -> ok
    sub web -> ok 1; listen web repeat b -> ok 2
    pub web a -> ok 0
    close web -> ok
    next 1 1000000 -> got a; next 1 1000000 -> end; next 1 0 -> end
    next 2 1000000 -> end; next 2 0 -> end
    dir log 2 1000 evict -> ok
    sub log -> ok 3; listen log repeat z -> ok 4; listen log once b -> ok 5
    pub log ab -> ok 0
    next 5 2 -> hit ab
    pub log c -> ok 2
    next 3 1000000 -> evicted; next 3 0 -> evicted
    next 4 1000000 -> evicted; next 4 0 -> evicted
    close log -> ok
    next 3 0 -> evicted; next 4 0 -> evicted
";

#[test]
fn nexts_take_and_poll(rt: HostRuntime) {
    run_each(&rt, &[TAKES, POLLS, ENDS]);
}

static BEFORE_THE_END: &str = "
    dir web 64 1000 -> ok
    sub web -> ok 1
    listen web repeat b -> ok 2
    pub web a -> ok 0
    next 1 2 -> got a
";

static AFTER_THE_END: &str = "
    next 1 2 -> no id; next 2 2 -> no id
    sub web -> ok 3
    pub web b -> ok 1
    next 3 2 -> got b
";

#[test]
fn no_handle_is_next_after_the_end(rt: HostRuntime) {
    run_anew(&rt, &[Rows(BEFORE_THE_END), End, Rows(AFTER_THE_END)]);
}

static LISTENS: &str =
    "dir web 4096 1000000 -> ok; listen web repeat z -> ok 1; listen web once z -> ok 2";

/// 4,096 letters are pending: the next that gathers the last of them says that there is no room.
static FULL: &str = "
    next 1 1000000 -> no overlong; next 1 0 -> no overlong; poll 1 -> no overlong
    cancel 1 -> ok
    close web -> ok
    next 2 1000000 -> no overlong; next 2 0 -> no overlong
";

#[test]
fn a_full_listener_is_told_at_once(rt: HostRuntime) {
    run_anew(&rt, &[Rows(LISTENS), Letters(4096), Rows(FULL)]);
}

/// A desk of one thread answers at once, however many turns there are.
static AT_ONCE: &str = "
    dir web 64 1000 -> ok
    sub web -> ok 1; listen web repeat b -> ok 2
    next 1 1000000 -> late; next 2 1000000 -> late
    pub web b -> ok 0
    next 1 1000000 -> got b; next 2 1000000 -> hit b
";

#[test]
fn a_local_desk_answers_at_once(rt: HostRuntime) {
    run(&rt, &mut new_local(&rt), AT_ONCE);
}
