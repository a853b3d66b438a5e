//! Listeners, line by line of a session.
use crate::tests::desks::{run_anew, run_each};
use crate::tests::rows::Step::{AllHandles, End, Letters, Rows};

/// A hit over letters of several messages. What was heard before it is gone.
static AGAIN: &str = "
    dir web 64 1000 -> ok
    listen web repeat u.*U -> ok 1
    pub web su -> ok 0
    poll 1 -> none
    pub web U -> ok 2
    poll 1 -> hit suU
    pub web U -> ok 3
    poll 1 -> none
";

/// Letters behind a hit begin the next one.
static BEHIND: &str = "
    dir web 64 100 -> ok
    listen web repeat u.*U -> ok 1
    pub web suUu -> ok 0
    poll 1 -> hit suU
    poll 1 -> none
    pub web dU -> ok 4
    poll 1 -> hit udU
    close web -> ok
    poll 1 -> end
    cancel 1 -> ok
";

/// One hit and many, what is behind a hit, and the end.
static ONCE_AND_AGAIN: &str = "
    dir web 64 1000 -> ok
    listen web once d -> ok 1
    listen web repeat d -> ok 2
    pub web udd -> ok 0
    poll 1 -> hit ud
    poll 1 -> no id
    poll 2 -> hit ud
    poll 2 -> hit d
    poll 2 -> none
    take 2 1 -> no id
    close web -> ok
    poll 2 -> end
    listen web once ( -> no pattern
    listen web once d -> no closed
    cancel 2 -> ok
    poll 2 -> no id
";

#[test]
fn hits_are_found(rt: HostRuntime) {
    run_each(&rt, &[AGAIN, BEHIND, ONCE_AND_AGAIN]);
}

/// A poll that lacks memory leaves each letter to the next one.
static HELD: &str = "
    dir web 64 1000 -> ok
    listen web repeat u.*U -> ok 1
    pub web su -> ok 0
    pub web U -> ok 2
    poll 1 -> hit suU
    poll 1 -> none
";

/// The letter that is held is heard before the end.
static HELD_AT_THE_END: &str = "
    dir web 64 1000 -> ok
    pub web d -> ok 0
    listen web repeat u -> ok 1
    pub web du -> ok 1
    close web -> ok
    poll 1 -> hit du
    poll 1 -> end
    poll 1 -> end
";

#[test]
fn no_letter_is_lost(rt: HostRuntime) {
    run_each(&rt, &[HELD, HELD_AT_THE_END]);
}

/// Until its hit a listener in mode once holds what it hasn't heard, and then nothing; its handle is gone.
static ONCE_FREES: &str = "
    dir web 2 1000 -> ok
    listen web once b -> ok 1
    pub web ab -> ok 0
    pub web c -> no full
    poll 1 -> hit ab
    cancel 1 -> no id
    pub web cd -> ok 2
    pub web ef -> ok 4
    sub web -> ok 2
    take 2 9 -> none
";

/// What is behind a hit goes on being held.
static HIT_HOLDS: &str = "
    dir web 3 1000 -> ok
    listen web repeat b -> ok 1
    pub web abc -> ok 0
    poll 1 -> hit ab
    pub web cab -> no full
    pub web db -> ok 3
    poll 1 -> hit cdb
    cancel 1 -> ok
    poll 1 -> no id
";

#[test]
fn a_hit_frees_what_was_heard(rt: HostRuntime) {
    run_each(&rt, &[ONCE_FREES, HIT_HOLDS]);
}

/// A listener that is refused has no number.
static REFUSED: &str = "
    listen web once ( -> no name
    dir web 2 10 -> ok
    listen web once ( -> no pattern
    sub web -> ok 1
    poll 1 -> no id
    listen web once b -> ok 2
    pub web ab -> ok 0
    take 1 2 -> got ab
    pub web c -> no full
";

/// The end of a session gives a listener's room back.
static AFTER_THE_END: &str = "
    poll 2 -> no id
    pub web c -> ok 2
    listen web once b -> ok 3
";

#[test]
fn the_end_cancels_listeners(rt: HostRuntime) {
    run_anew(&rt, &[Rows(REFUSED), End, Rows(AFTER_THE_END)]);
}

static WEB: &str = "dir web 1 1 -> ok";

/// 128 listeners and 128 subscriptions are current.
static ALL_ACTIVE: &str = "
    sub web -> no many
    listen web once ( -> no many
    listen db once ( -> no name
    cancel 5 -> ok
    listen web once ( -> no pattern
    listen web once a -> ok 257
";

#[test]
fn current_handles_are_limited(rt: HostRuntime) {
    run_anew(&rt, &[Rows(WEB), AllHandles(128), Rows(ALL_ACTIVE)]);
}

static HEARS_B: &str = "
    dir web 4096 1000000 -> ok
    listen web repeat b -> ok 1
";

/// 4,096 letters are gathered, and then nothing is taken, not even a letter that would be a hit: it holds its place.
static OVERLONG: &str = "
    poll 1 -> none
    pub web b -> ok 4096
    poll 1 -> no overlong
    close web -> ok
    poll 1 -> no overlong
    cancel 1 -> ok
    poll 1 -> no id
";

#[test]
fn a_listener_gathers_so_many_letters(rt: HostRuntime) {
    run_anew(&rt, &[Rows(HEARS_B), Letters(4096), Rows(OVERLONG)]);
}

/// 4,095 letters are gathered at the end.
static LESS: &str = "
    close web -> ok
    poll 1 -> end
    poll 1 -> end
";

#[test]
fn one_letter_less_is_not_overlong(rt: HostRuntime) {
    run_anew(&rt, &[Rows(HEARS_B), Letters(4095), Rows(LESS)]);
}
