//! A `next` of a handle, beside a pause that does something at one of its calls.
use crate::tests::fixtures::word;
use crate::tests::passes::{Shared, new_sender, open_with};
use crate::tests::waits::{Deed, Doing, letters_of};
use hub_handles::Handles;
use hub_letters::{Letter, Mode};
use hub_record::{Enter, Kind, Policy};
use hub_requests::{Name, PatternText, Reply};
use std::alloc::Global;
use std::process::Abort;
use std::sync::{Arc, Wait};
use std::test::Fail;

/// What a handle is told.
#[derive(Clone, Copy)]
enum Told {
    Got(&'static str),
    Hit(&'static str),
    End,
    Evicted,
    Late,
}

/// Which handle it is, 1 for a subscription and 2 for a listener for `b`; what waits already; what the pause does, and at which call;
/// how many turns there are; then what is told, and after how many pauses.
type Row = (u64, [&'static str; 2], Deed, u64, u64, Told, u64);

const SUBSCRIPTION: u64 = 1;

const LISTENER: u64 = 2;

const NOTHING: [&str; 2] = ["", ""];

const SENDS_A: Deed = Deed::Send("a");

const SENDS_AB: Deed = Deed::Send("ab");

static ROWS: [Row; 22] = [
    // Something waits: it is given whole, and at once.
    (
        SUBSCRIPTION,
        ["ba", "a"],
        SENDS_A,
        1,
        5,
        Told::Got("baa"),
        0,
    ),
    (
        SUBSCRIPTION,
        ["ba", "a"],
        SENDS_A,
        1,
        0,
        Told::Got("baa"),
        0,
    ),
    (LISTENER, ["aa", "b"], SENDS_A, 1, 5, Told::Hit("aab"), 0),
    // Something comes in the third of five turns, in the last one, and too late.
    (SUBSCRIPTION, NOTHING, SENDS_AB, 3, 5, Told::Got("ab"), 3),
    (SUBSCRIPTION, NOTHING, SENDS_AB, 5, 5, Told::Got("ab"), 5),
    (SUBSCRIPTION, NOTHING, SENDS_AB, 6, 5, Told::Late, 5),
    (SUBSCRIPTION, NOTHING, SENDS_AB, 1, 0, Told::Late, 0),
    (LISTENER, NOTHING, SENDS_AB, 3, 5, Told::Hit("ab"), 3),
    (LISTENER, NOTHING, SENDS_AB, 5, 5, Told::Hit("ab"), 5),
    (LISTENER, NOTHING, SENDS_AB, 6, 5, Told::Late, 5),
    (LISTENER, ["a", "a"], SENDS_AB, 2, 5, Told::Hit("aaab"), 2),
    // What a listener hears on the way is no hit, and it has five turns in all.
    (LISTENER, NOTHING, SENDS_A, 1, 5, Told::Late, 5),
    (LISTENER, NOTHING, SENDS_A, 3, 5, Told::Late, 5),
    (LISTENER, NOTHING, SENDS_A, 5, 5, Told::Late, 5),
    (LISTENER, ["a", "aa"], SENDS_A, 4, 5, Told::Late, 5),
    (LISTENER, ["a", "aa"], SENDS_A, 1, 0, Told::Late, 0),
    // The fifodir is closed, and the patience ends.
    (SUBSCRIPTION, NOTHING, Deed::Close, 2, 5, Told::End, 2),
    (LISTENER, ["a", ""], Deed::Close, 5, 5, Told::End, 5),
    (SUBSCRIPTION, NOTHING, Deed::Expire, 2, 5, Told::Late, 2),
    (LISTENER, ["a", ""], Deed::Expire, 2, 5, Told::Late, 2),
    // It is evicted.
    (
        SUBSCRIPTION,
        ["aaaaaa", "aaaaaa"],
        SENDS_A,
        1,
        5,
        Told::Evicted,
        0,
    ),
    (
        LISTENER,
        ["aaaaaa", "aaaaaa"],
        SENDS_A,
        1,
        5,
        Told::Evicted,
        0,
    ),
];

fn spells(letters: &[Letter], text: &str) -> bool {
    let mut bytes = text.as_bytes();
    for letter in letters {
        let Some((byte, rest)) = bytes.split_first() else {
            return false;
        };
        if letter.byte() != *byte {
            return false;
        }
        bytes = rest;
    }
    bytes.is_empty()
}

fn is_told(reply: &Reply, told: Told) -> bool {
    match (reply, told) {
        (Reply::Got(letters), Told::Got(text)) | (Reply::Hit(letters), Told::Hit(text)) => {
            spells(letters.items(), text)
        }
        (Reply::End, Told::End) | (Reply::Evicted, Told::Evicted) | (Reply::Late, Told::Late) => {
            true
        }
        _ => false,
    }
}

/// The handles of a session with a subscription, and a listener for `b`.
fn new_handles<R: Abort + Wait + Enter>(
    rt: &R,
    alloc: Global,
    fifodir: &Shared,
) -> Result<Handles, Fail> {
    let name = Name::of(alloc, b"web")?.ok_or("no name")?;
    let pattern = PatternText::of(String::from_str(alloc, "b")?);
    let (one, other) = (Arc::try_clone(fifodir)?, Arc::try_clone(fifodir)?);
    let mut handles = Handles::new(alloc)?;
    let _ = handles.subscribe(rt, &name, one);
    let _ = handles.listen(rt, &name, other, Mode::Repeat, &pattern);
    Ok(handles)
}

fn nexts_so<R: Abort + Wait + Enter>(rt: &R, alloc: Global, row: &Row) -> Result<bool, Fail> {
    let (id, [first, second], deed, at_call, turns, told, pauses) = *row;
    let letters = letters_of(alloc, deed)?;
    let before = [word(alloc, first)?, word(alloc, second)?];
    let fifodir = open_with(alloc, Kind::Plain, (8, 1000, 10), Policy::Evict)?;
    let mut handles = new_handles(rt, alloc, &fifodir)?;
    let mut sender = new_sender(rt, &fifodir);
    for message in &before {
        let _ = sender.send(rt, message);
    }
    let mut pause = Doing::new(sender, deed, letters, at_call);
    let reply = handles.next(rt, id, turns, &mut pause);
    handles.release(rt);
    Ok(pause.end(rt) == pauses && is_told(&reply, told))
}

/// The place of the first row that goes otherwise.
fn first_unlike<R: Abort + Wait + Enter>(rt: &R, alloc: Global) -> Result<Option<usize>, Fail> {
    for (place, row) in ROWS.iter().enumerate() {
        if !nexts_so(rt, alloc, row)? {
            return Ok(Some(place));
        }
    }
    Ok(None)
}

#[test]
fn a_next_has_its_turns_in_all(rt: HostRuntime) -> Result<(), Fail> {
    assert_eq!(rt; first_unlike(&rt, rt.alloc())?, None);
    Ok(())
}

/// Both handles are awaited, and learn of `a` in the second pause. Then `ab` comes, and each is told all in its `next`.
fn looks_anew<R: Abort + Wait + Enter>(rt: &R, alloc: Global) -> Result<[bool; 4], Fail> {
    let letters = letters_of(alloc, SENDS_A)?;
    let more = word(alloc, "ab")?;
    let fifodir = open_with(alloc, Kind::Plain, (8, 1000, 10), Policy::Hold)?;
    let mut handles = new_handles(rt, alloc, &fifodir)?;
    let mut pause = Doing::new(new_sender(rt, &fifodir), SENDS_A, letters, 2);
    let first = handles.await_more(rt, SUBSCRIPTION, 5, &mut pause);
    let second = handles.await_more(rt, LISTENER, 5, &mut pause);
    let _ = pause.supervisor.send(rt, &more);
    let got = handles.next(rt, SUBSCRIPTION, 5, &mut pause);
    let hit = handles.next(rt, LISTENER, 5, &mut pause);
    handles.release(rt);
    Ok([
        matches!((first, second), (Reply::Done, Reply::Done)),
        is_told(&got, Told::Got("aab")),
        is_told(&hit, Told::Hit("aab")),
        pause.end(rt) == 2,
    ])
}

#[test]
fn a_next_after_an_await_gives_all_that_came(rt: HostRuntime) -> Result<(), Fail> {
    assert_eq!(rt; looks_anew(&rt, rt.alloc())?, [true; 4]);
    Ok(())
}

/// What a listener hears in a `next` without a hit is a part of its next hit.
fn keeps_what_it_heard<R: Abort + Wait + Enter>(rt: &R, alloc: Global) -> Result<[bool; 3], Fail> {
    let letters = letters_of(alloc, SENDS_A)?;
    let more = word(alloc, "ab")?;
    let fifodir = open_with(alloc, Kind::Plain, (8, 1000, 10), Policy::Hold)?;
    let mut handles = new_handles(rt, alloc, &fifodir)?;
    let mut pause = Doing::new(new_sender(rt, &fifodir), SENDS_A, letters, 2);
    let late = handles.next(rt, LISTENER, 3, &mut pause);
    let _ = pause.supervisor.send(rt, &more);
    let hit = handles.next(rt, LISTENER, 3, &mut pause);
    handles.release(rt);
    Ok([
        is_told(&late, Told::Late),
        is_told(&hit, Told::Hit("aab")),
        pause.end(rt) == 3,
    ])
}

#[test]
fn a_next_without_a_hit_keeps_what_it_heard(rt: HostRuntime) -> Result<(), Fail> {
    assert_eq!(rt; keeps_what_it_heard(&rt, rt.alloc())?, [true; 3]);
    Ok(())
}
