//! Verdicts over several watches.
use crate::tests::fixtures::none_is_unlike;
use crate::tests::watches::watch_at;
use hub_letters::{Flags, Want};
use hub_record::Status;
use hub_wait::{Span, Tally, Verdict, Watch};

fn a_closed_status_makes_an_ended_watch() -> bool {
    let status = Status {
        number: 0,
        flags: Flags::none(),
        closed: true,
    };
    Watch::new(Want::Up, false, status).ended()
}

/// Codes of the flags of watches for readiness, and whether each is ended; then the verdicts for all and for any.
type Row = (
    &'static str,
    &'static [(u64, bool)],
    (Option<Verdict>, Option<Verdict>),
);

const YES: Option<Verdict> = Some(Verdict::Yes);

const NEVER: Option<Verdict> = Some(Verdict::Never);

const READY: (u64, bool) = (7, false);

const STARTING: (u64, bool) = (5, false);

const FAILED: (u64, bool) = (14, false);

const CLOSED: (u64, bool) = (4, true);

static VERDICTS: [Row; 11] = [
    ("over none", &[], (YES, NEVER)),
    ("both ready", &[READY, READY], (YES, YES)),
    ("one ready", &[READY, STARTING], (None, YES)),
    ("none yet", &[STARTING, STARTING], (None, None)),
    ("failed before the wait", &[FAILED, FAILED], (NEVER, NEVER)),
    (
        "one failed, the other starting",
        &[FAILED, STARTING],
        (NEVER, None),
    ),
    (
        "one failed, the other ready",
        &[FAILED, READY],
        (NEVER, YES),
    ),
    (
        "one closed, the other starting",
        &[STARTING, CLOSED],
        (NEVER, None),
    ),
    (
        "one closed, the other failed",
        &[CLOSED, FAILED],
        (NEVER, NEVER),
    ),
    ("ready and then closed", &[(7, true), (7, true)], (YES, YES)),
    (
        "ready, and won't be restarted",
        &[(15, false), READY],
        (YES, YES),
    ),
];

fn verdicts(watches: &[(u64, bool)]) -> (Option<Verdict>, Option<Verdict>) {
    let mut all = Tally::new(Span::All);
    let mut any = Tally::new(Span::Any);
    for (code, ended) in watches {
        if let Some(mut watch) = watch_at(Want::Ready, 4, *code) {
            if *ended {
                watch.end();
            }
            all.add(&watch);
            any.add(&watch);
        }
    }
    (all.answer(), any.answer())
}

/// The name of the first row with another verdict.
fn first_judged_otherwise() -> Option<&'static str> {
    for (name, watches, wanted) in VERDICTS.iter() {
        if verdicts(watches) != *wanted {
            return Some(*name);
        }
    }
    None
}

#[test]
fn verdicts_over_several_watches(rt: HostRuntime) {
    none_is_unlike(&rt, first_judged_otherwise());
    assert!(rt;
        a_closed_status_makes_an_ended_watch(),
        "a closed status makes an ended watch"
    );
}
