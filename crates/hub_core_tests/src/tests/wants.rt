use crate::tests::fixtures::none_is_unlike;
use hub_letters::{Flags, Want};

/// A code of flags; whether up, ready with a report, ready without one, down and finished are met; whether up, ready,
/// down, finished, restarted and restarted-ready are hopeless.
type Row = (&'static str, u64, [bool; 5], [bool; 6]);

const UP: [bool; 5] = [true, false, true, false, false];

const READY: [bool; 5] = [true, true, true, false, false];

const DOWN: [bool; 5] = [false, false, false, true, false];

const FINISHED: [bool; 5] = [false, false, false, true, true];

const HOPE: [bool; 6] = [false, false, false, false, false, false];

const NO_HOPE: [bool; 6] = [true, true, false, false, true, true];

static ROWS: [Row; 9] = [
    ("nothing was heard", 0, DOWN, HOPE),
    ("its supervisor exited when it was down", 2, FINISHED, HOPE),
    ("its supervisor exited when it was ready", 3, READY, HOPE),
    ("it ends", 4, DOWN, HOPE),
    ("it starts", 5, UP, HOPE),
    ("it is down", 6, FINISHED, HOPE),
    ("it is ready", 7, READY, HOPE),
    ("it starts for the last time", 13, UP, NO_HOPE),
    ("it has failed", 14, FINISHED, NO_HOPE),
];

/// Restarted, restarted-ready with a report, and restarted-ready without one.
fn restarts(flags: Flags, fell: bool) -> [bool; 3] {
    [
        Want::Restarted.met(flags, true, fell),
        Want::RestartedReady.met(flags, true, fell),
        Want::RestartedReady.met(flags, false, fell),
    ]
}

/// Whether a service with these flags that fell, or didn't fall, meets these wants. A restart is to be up, or ready, after
/// a fall.
fn are_met(flags: Flags, fell: bool, met: [bool; 5]) -> bool {
    let are_met = [
        Want::Up.met(flags, true, fell),
        Want::Ready.met(flags, true, fell),
        Want::Ready.met(flags, false, fell),
        Want::Down.met(flags, true, fell),
        Want::Finished.met(flags, true, fell),
    ];
    let [up, ready, ready_by_up, ..] = met;
    let restarted = if fell {
        [up, ready, ready_by_up]
    } else {
        [false, false, false]
    };
    are_met == met && restarts(flags, fell) == restarted
}

fn is_so(flags: Flags, met: [bool; 5], hopeless: [bool; 6]) -> bool {
    let are_hopeless = [
        Want::Up.hopeless(flags),
        Want::Ready.hopeless(flags),
        Want::Down.hopeless(flags),
        Want::Finished.hopeless(flags),
        Want::Restarted.hopeless(flags),
        Want::RestartedReady.hopeless(flags),
    ];
    are_met(flags, false, met) && are_met(flags, true, met) && are_hopeless == hopeless
}

/// The name of the first row that isn't so.
fn first_unlike() -> Option<&'static str> {
    for (name, code, met, hopeless) in ROWS.iter() {
        match Flags::of_code(*code) {
            Some(flags) if is_so(flags, *met, *hopeless) => {}
            _ => return Some(*name),
        }
    }
    None
}

#[test]
fn wants_by_code(rt: HostRuntime) {
    none_is_unlike(&rt, first_unlike());
}
