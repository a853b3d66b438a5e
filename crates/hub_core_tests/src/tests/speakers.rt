//! Who speaks for a service: the publisher of its last event tells where it is, and no other.
use crate::tests::fixtures::{are_events, word};
use crate::tests::passes::{Reader, new_reader, new_sender, open};
use hub_fifodir::Enter;
use hub_letters::{Letter, State};
use hub_record::{Event, Kind, Taken};
use std::alloc::{AllocError, Global};
use std::process::Abort;
use std::sync::Wait;
use std::test::Fail;

/// What a service may be told to be.
static STATES: [State; 5] = [
    State::Off,
    State::Down,
    State::Up,
    State::Ready,
    State::Failed,
];

/// The letters of a service, in each stage, and those by which it is told to be each of the states then.
static WORDS: [(&str, [&str; 5]); 10] = [
    ("sx", ["", "s", "su", "suU", "sO"]),
    ("sux", ["sx", "s", "su", "suU", "sO"]),
    ("s", ["x", "", "u", "uU", "O"]),
    ("sO", ["x", "", "u", "uU", ""]),
    ("su", ["dDx", "dD", "", "U", "dDO"]),
    ("suO", ["dDx", "dD", "", "U", "dD"]),
    ("suU", ["dDx", "dD", "", "", "dDO"]),
    ("suUO", ["dDx", "dD", "", "", "dD"]),
    ("suUd", ["Dx", "D", "Du", "DuU", "DO"]),
    ("suUdO", ["Dx", "D", "Du", "DuU", "D"]),
];

/// The events of two publishers: the first one published all letters but the last, and the second one the rest.
fn events_of(
    alloc: Global,
    before: &[Letter],
    rest: &[Letter],
) -> Result<Vec<(u64, u8)>, AllocError> {
    let mut events = Vec::new(alloc);
    for letter in before {
        events.push((1, letter.byte()))?;
    }
    for letter in rest {
        events.push((2, letter.byte()))?;
    }
    Ok(events)
}

/// Whether these are the events that the reader takes.
fn takes<R: Wait>(rt: &R, reader: &mut Reader, wanted: &[(u64, u8)]) -> bool {
    let mut out = [Event::FILLER; 16];
    let taken = reader.take(rt, &mut out);
    match out.get(..wanted.len()) {
        Some(events) => taken == Taken::Got(wanted.len()) && are_events(events, wanted),
        None => false,
    }
}

/// Whether a service with these letters is told so by the second of two publishers, who published the last of the letters, or
/// isn't told by the first one, who published the others.
fn is_told_so<R: Abort + Wait + Enter>(
    rt: &R,
    alloc: Global,
    letters: &[Letter],
    state: State,
    told: Option<&[Letter]>,
) -> Result<bool, Fail> {
    let Some((last, before)) = letters.split_last() else {
        return Ok(false);
    };
    let mut rest = Vec::new(alloc);
    rest.push(*last)?;
    rest.extend_from_slice(told.unwrap_or(&[]))?;
    let wanted = events_of(alloc, before, &rest)?;
    let fifodir = open(alloc, Kind::Service, (64, 1_000, 10))?;
    let mut reader = new_reader(rt, &fifodir);
    let mut first = new_sender(rt, &fifodir);
    let mut second = new_sender(rt, &fifodir);
    let sent = (first.send(rt, before), second.send(rt, &[*last]));
    let answer = match told {
        Some(_) => second.tell_as_last(rt, state),
        None => first.tell_as_last(rt, state),
    };
    let are_there = takes(rt, &mut reader, &wanted);
    first.leave(rt);
    second.leave(rt);
    reader.cancel(rt);
    let end = letters.len() as u64;
    Ok(sent == (Ok(0), Ok(before.len() as u64)) && answer == told.map(|_| Ok(end)) && are_there)
}

#[test]
fn who_published_last_tells_a_service_in_each_stage(rt: HostRuntime) -> Result<(), Fail> {
    let alloc = rt.alloc();
    for (letters, words) in WORDS.iter() {
        let letters = word(alloc, letters)?;
        for (state, told) in STATES.iter().zip(words.iter()) {
            let told = word(alloc, told)?;
            assert!(rt;
                is_told_so(&rt, alloc, &letters, *state, Some(&told))?,
                "{state:?} by the last publisher"
            );
            assert!(rt;
                is_told_so(&rt, alloc, &letters, *state, None)?,
                "{state:?} by another one"
            );
        }
    }
    Ok(())
}
