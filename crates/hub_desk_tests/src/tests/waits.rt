//! Waits, line by line of a session, with what other requests show of them afterwards.
use crate::tests::desks::{run_anew, run_each};
use crate::tests::rows::Step::{AllHandles, Rows};

/// Without a turn, and for a name that is given twice.
static ZERO_TURNS: &str = "
    svc web 64 1000 1 -> ok
    wait all up 0 web -> late
    pub web su -> ok 0
    wait all up 0 web -> yes 2
    wait all up 0 web web -> yes 2 2
";

/// Waits for two services, one of which fails and is closed.
static TWO: &str = "
    wait any up 0 a b -> no name
    svc a 2 100 0 -> ok
    svc b 2 100 0 -> ok
    pub a su -> ok 0
    wait all up 3 a b -> late
    pub b su -> ok 0
    wait any up 0 a b -> yes 2 2
    pub a dDu -> ok 2
    pub b dDO -> ok 2
    wait any up 0 a b -> yes 5 -
    wait all up 0 a b -> never
    close b -> ok
    wait any up 0 a b -> no closed
    pub a dDu -> ok 5
    dir web 2 100 -> ok
    wait any up 0 b web -> no kind
";

/// A service that failed for good.
static FAILED: &str = "
    svc web 64 1000 1 -> ok
    pub web suOdD -> ok 0
    wait any up 3 web -> never
    wait all finished 3 web -> yes 5
    status web -> ok 5 14 open
";

/// Ready is up for a service that doesn't report its readiness, and for one that does it is what was reported.
static READINESS: &str = "
    svc a 64 1000 0 -> ok
    svc b 64 1000 1 -> ok
    pub a su -> ok 0
    pub b su -> ok 0
    wait all ready 2 a -> yes 2
    wait all ready 2 b -> late
    wait any ready 2 b a -> yes - 2
    pub b U -> ok 2
    wait all ready 5000 a b -> yes 2 3
";

#[test]
fn waits_are_answered(rt: HostRuntime) {
    run_each(&rt, &[ZERO_TURNS, TWO, FAILED, READINESS]);
}

/// One failure is never for all, and for any only beside another failure. What is met goes before what is hopeless.
static VERDICTS: &str = "
    svc a 64 1000 1 -> ok
    svc b 64 1000 1 -> ok
    wait all down 0 a b -> yes 0 0
    wait all finished 0 a -> late
    pub a suO -> ok 0
    wait all up 0 a -> yes 3
    pub a dD -> ok 3
    wait any up 0 a b -> late
    wait any up 0 b a -> late
    wait all up 0 b a -> never
    pub b sO -> ok 0
    wait any up 0 a b -> never
    wait any down 0 a b -> yes 5 2
";

/// One that is met makes the yes for any, though the others failed.
static MET_BESIDE_FAILED: &str = "
    svc a 64 1000 1 -> ok
    svc b 64 1000 1 -> ok
    pub a sO -> ok 0
    pub b su -> ok 0
    wait any up 0 a b -> yes - 2
    wait all up 0 a b -> never
";

#[test]
fn verdicts_are_given_in_time(rt: HostRuntime) {
    run_each(&rt, &[VERDICTS, MET_BESIDE_FAILED]);
}

/// A name that isn't there before a plain fifodir, and that before a closed one, whichever is named first.
static REFUSALS: &str = "
    svc db 64 1000 1 -> ok
    dir web 4 10 -> ok
    pub db su -> ok 0
    wait all up 1 web -> no kind
    wait all up 1 web gone -> no name
    wait all up 1 gone web -> no name
    close db -> ok
    wait all up 1 db gone -> no name
    wait all up 1 db web -> no kind
    wait all up 1 web db -> no kind
    wait all up 1 db -> no closed
    wait any down 1 db db -> no closed
    close web -> ok
    wait all up 1 web -> no kind
";

#[test]
fn refusals_have_their_order(rt: HostRuntime) {
    run_each(&rt, &[REFUSALS]);
}

/// A wait gives its posts back: what is published then waits for none. So does one that is refused at a later post. No
/// wait uses a handle's number.
static GIVEN_BACK: &str = "
    svc a 2 1000 1 -> ok
    svc b 2 1000 1 -> ok
    pub a su -> ok 0
    pub b su -> ok 0
    wait any up 0 a b -> yes 2 2
    pub a dDu -> ok 2
    pub b dDu -> ok 2
    wait any up 0 a b -> yes 5 5
    close b -> ok
    wait any up 0 a b -> no closed
    pub a dDu -> ok 5
    sub a -> ok 1
";

/// A wait leaves alone what is current.
static OTHERS_ACTIVE: &str = "
    svc web 2 1000 1 -> ok
    sub web -> ok 1
    pub web su -> ok 0
    wait all up 0 web -> yes 2
    pub web U -> no full
    take 1 9 -> got su
    pub web U -> ok 2
";

#[test]
fn a_wait_leaves_nothing_behind(rt: HostRuntime) {
    run_each(&rt, &[GIVEN_BACK, OTHERS_ACTIVE]);
}

static WEB: &str = "svc web 64 1000 1 -> ok";

/// 256 handles are current; a wait needs none.
static ALL_ACTIVE: &str = "
    sub web -> no many
    pub web su -> ok 0
    wait all up 0 web web -> yes 2 2
    sub web -> no many
";

#[test]
fn a_wait_works_beside_all_handles(rt: HostRuntime) {
    run_anew(&rt, &[Rows(WEB), AllHandles(0), Rows(ALL_ACTIVE)]);
}
