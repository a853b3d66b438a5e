use crate::tests::fixtures::{none_is_unlike, word};
use hub_letters::{Flags, Want};
use hub_record::Status;
use hub_wait::Watch;
use std::alloc::Global;
use std::io;
use std::test::Fail;

/// A watch that begins at an open status.
pub(crate) fn watch_at(want: Want, number: u64, code: u64) -> Option<Watch> {
    let flags = Flags::of_code(code)?;
    let status = Status {
        number,
        flags,
        closed: false,
    };
    Some(Watch::new(want, true, status))
}

/// Gives a watch the letters of a text, as far as they leave no gap.
fn give(alloc: Global, watch: &mut Watch, first: u64, text: &str) -> io::Result<()> {
    let letters = word(alloc, text)?;
    if first <= watch.at() && letters.len() < 100 && first < 100 {
        watch.step(first, letters.as_slice());
    }
    Ok(())
}

/// The first letter's number and the letters, and then the watch's number and the code of its flags.
type Piece = (u64, &'static str, u64, u64);

/// A watch begins at a number and the flags of a code, and hears pieces; then what is wanted is met or not. It is never
/// hopeless.
type Heard = (&'static str, Want, (u64, u64), &'static [Piece], bool);

static HEARD: [Heard; 4] = [
    // Nothing was heard since the status.
    ("no piece", Want::Ready, (2, 5), &[], false),
    // Letters that the status tells are passed over.
    (
        "an old piece",
        Want::Ready,
        (2, 5),
        &[(0, "suU", 3, 7)],
        true,
    ),
    // The mark is 2, and the letter after it was read by the status.
    ("one letter", Want::Up, (3, 4), &[(2, "d", 3, 4)], false),
    // What s6-supervise was seen to send, in pieces that overlap.
    (
        "pieces that overlap",
        Want::Finished,
        (0, 0),
        &[
            (0, "s", 1, 6),
            (0, "su", 2, 5),
            (2, "", 2, 5),
            (1, "uUd", 4, 4),
            (2, "U", 4, 4),
            (3, "dODuU", 8, 7),
        ],
        false,
    ),
];

fn hears(alloc: Global, watch: &mut Watch, pieces: &[Piece]) -> io::Result<bool> {
    for (first, text, at, code) in pieces {
        give(alloc, watch, *first, text)?;
        if watch.at() != *at || watch.flags().code() != *code {
            return Ok(false);
        }
    }
    Ok(true)
}

/// The name of the first row that isn't so.
fn first_unlike(alloc: Global) -> io::Result<Option<&'static str>> {
    for (name, want, (number, code), pieces, met) in HEARD.iter() {
        let Some(mut watch) = watch_at(*want, *number, *code) else {
            return Ok(Some(*name));
        };
        let hears = hears(alloc, &mut watch, pieces)?;
        if !hears || watch.met() != *met || watch.hopeless() || !ends(watch) {
            return Ok(Some(*name));
        }
    }
    Ok(None)
}

/// A watch begins at a number and the flags of a code, and hears pieces, each from a number on; then it fell or not.
type Falling = (
    &'static str,
    (u64, u64),
    &'static [(u64, &'static str)],
    bool,
);

static FALLINGS: [Falling; 9] = [
    ("nothing was heard", (4, 4), &[], false),
    ("it died", (3, 7), &[(3, "d")], true),
    ("its finish script ended", (4, 4), &[(4, "D")], true),
    ("a new supervisor", (3, 7), &[(3, "s")], true),
    ("no letter that falls", (1, 6), &[(1, "uUOx")], false),
    (
        "a fall that the status tells",
        (4, 4),
        &[(0, "suUd")],
        false,
    ),
    ("the last letter doesn't fall", (3, 7), &[(3, "dDuU")], true),
    (
        "a fall in an early piece",
        (3, 7),
        &[(3, "d"), (4, "Du")],
        true,
    ),
    ("a fall behind letters told", (3, 7), &[(1, "uUdDu")], true),
];

/// The name of the first row that isn't so. A status of the service leaves what fell.
fn first_fallen_otherwise(alloc: Global) -> io::Result<Option<&'static str>> {
    for (name, (number, code), pieces, fell) in FALLINGS.iter() {
        let Some(mut watch) = watch_at(Want::Restarted, *number, *code) else {
            return Ok(Some(*name));
        };
        for (first, text) in pieces.iter() {
            give(alloc, &mut watch, *first, text)?;
        }
        let fallen = watch.fell();
        watch.renew(Status {
            number: watch.at(),
            flags: Flags::none(),
            closed: false,
        });
        if fallen != *fell || watch.fell() != *fell || watch.since() != *number {
            return Ok(Some(*name));
        }
    }
    Ok(None)
}

/// A watch at a number and the flags of a code gets the status of a second pair, and then letters from a number on; then
/// it is at the third pair.
type Renewal = (
    &'static str,
    (u64, u64),
    (u64, u64),
    (u64, &'static str),
    (u64, u64),
);

static RENEWALS: [Renewal; 3] = [
    ("missed letters", (1, 6), (7, 7), (7, ""), (7, 7)),
    ("letters told", (1, 6), (5, 6), (3, "dDu"), (6, 5)),
    ("nothing new", (3, 7), (3, 7), (3, "d"), (4, 4)),
];

/// A watch of the first pair after a status of the second one.
fn watch_after_status(old: (u64, u64), told: (u64, u64), closed: bool) -> Option<Watch> {
    let mut watch = watch_at(Want::Ready, old.0, old.1)?;
    let flags = Flags::of_code(told.1)?;
    if told.0 < watch.at() {
        return None;
    }
    watch.renew(Status {
        number: told.0,
        flags,
        closed,
    });
    Some(watch)
}

/// The name of the first row that isn't so.
fn first_renewed_otherwise(alloc: Global) -> io::Result<Option<&'static str>> {
    for (name, old, told, text, new) in RENEWALS.iter() {
        let Some(mut watch) = watch_after_status(*old, *told, false) else {
            return Ok(Some(*name));
        };
        give(alloc, &mut watch, text.0, text.1)?;
        if (watch.at(), watch.flags().code()) != *new || watch.ended() {
            return Ok(Some(*name));
        }
    }
    Ok(None)
}

/// Whether a closed status ends a watch, and an open one doesn't go on from an end.
fn a_closed_status_ends_a_watch() -> bool {
    let status = Status {
        number: 3,
        flags: Flags::none(),
        closed: false,
    };
    let mut ended = Watch::new(Want::Ready, true, status);
    ended.end();
    ended.renew(status);
    let closed = watch_after_status((1, 6), (3, 7), true);
    ended.ended() && closed.is_some_and(|watch| watch.ended() && watch.at() == 3)
}

/// Whether the watch isn't ended, and is after `end`, with the number and the flags that it had.
fn ends(watch: Watch) -> bool {
    let mut ended = watch;
    ended.end();
    !watch.ended() && ended.ended() && ended.at() == watch.at() && ended.flags() == watch.flags()
}

#[test]
fn watches_follow_their_letters(rt: HostRuntime) -> Result<(), Fail> {
    none_is_unlike(&rt, first_unlike(rt.alloc())?);
    none_is_unlike(&rt, first_fallen_otherwise(rt.alloc())?);
    Ok(())
}

#[test]
fn watches_go_on_from_a_status(rt: HostRuntime) -> Result<(), Fail> {
    none_is_unlike(&rt, first_renewed_otherwise(rt.alloc())?);
    assert!(rt;
        a_closed_status_ends_a_watch(),
        "a closed status ends a watch"
    );
    Ok(())
}
