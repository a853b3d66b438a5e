//! A receive that waits, beside a pause that does something at one of its calls.
use crate::tests::fixtures::word;
use crate::tests::passes::{Held, new_reader, new_sender, open, open_with};
use crate::tests::waits::{Deed, Doing, letters_of};
use hub_record::{Enter, Event, Kind, Policy, Taken};
use hub_wait::Patience;
use std::alloc::Global;
use std::process::Abort;
use std::rt::Clock;
use std::sync::Wait;
use std::test::Fail;

/// What waits already; what the pause does, and at which call; how many turns there are; then what is received, and after how
/// many pauses.
type Row = (Before, Deed, u64, u64, Taken, u64);

type Before = [&'static str; 2];

const NOTHING: Before = ["", ""];

const SENDS: Deed = Deed::Send("ba");

const CLOSES: Deed = Deed::Close;

static ROWS: [Row; 11] = [
    // Something waits, and more than there is room for.
    (["ab", "a"], CLOSES, 1, 5, Taken::Got(3), 0),
    (["abab", "ab"], CLOSES, 1, 5, Taken::Got(4), 0),
    // Something comes in the third of five turns, in the last one, and too late.
    (NOTHING, SENDS, 3, 5, Taken::Got(2), 3),
    (NOTHING, SENDS, 5, 5, Taken::Got(2), 5),
    (NOTHING, SENDS, 6, 5, Taken::Nothing, 5),
    // Without turns it only takes.
    (NOTHING, SENDS, 1, 0, Taken::Nothing, 0),
    (["a", ""], SENDS, 1, 0, Taken::Got(1), 0),
    // The fifodir is closed in the second turn, and in the last one.
    (NOTHING, CLOSES, 2, 5, Taken::End, 2),
    (NOTHING, CLOSES, 1, 1, Taken::End, 1),
    // Its patience ends in the second turn.
    (NOTHING, Deed::Expire, 2, 5, Taken::Nothing, 2),
    // It is evicted.
    (["ababab", "ababab"], CLOSES, 1, 5, Taken::Evicted, 0),
];

fn receives_so<R: Abort + Wait + Enter>(rt: &R, alloc: Global, row: &Row) -> Result<bool, Fail> {
    let ([first, second], deed, at_call, turns, taken, pauses) = *row;
    let letters = letters_of(alloc, deed)?;
    let before = [word(alloc, first)?, word(alloc, second)?];
    let fifodir = open_with(alloc, Kind::Plain, (8, 1000, 10), Policy::Evict)?;
    let mut reader = new_reader(rt, &fifodir);
    let mut sender = new_sender(rt, &fifodir);
    for message in &before {
        let _ = sender.send(rt, message);
    }
    let mut pause = Doing::new(sender, deed, letters, at_call);
    let mut out = [Event::FILLER; 4];
    let received = reader.receive(rt, &mut out, turns, &mut pause);
    reader.cancel(rt);
    Ok((received, pause.end(rt)) == (taken, pauses))
}

/// The place of the first row that goes otherwise.
fn first_unlike<R: Abort + Wait + Enter>(rt: &R, alloc: Global) -> Result<Option<usize>, Fail> {
    for (place, row) in ROWS.iter().enumerate() {
        if !receives_so(rt, alloc, row)? {
            return Ok(Some(place));
        }
    }
    Ok(None)
}

#[test]
fn a_receive_waits_until_something_comes(rt: HostRuntime) -> Result<(), Fail> {
    assert_eq!(rt; first_unlike(&rt, rt.alloc())?, None);
    Ok(())
}

/// What a receive of one turn is told, and then the id of the next ticket and the number of the next publisher.
fn next_after_a_receive<R: Abort + Wait + Enter + Clock + Copy>(
    rt: &R,
    alloc: Global,
) -> Result<(Taken, u64, u64), Fail> {
    let fifodir = open(alloc, Kind::Plain, (8, 1000, 2))?;
    let mut reader = new_reader(rt, &fifodir);
    let mut out = [Event::FILLER; 4];
    let received = reader.receive(rt, &mut out, 1, &mut Patience::new(*rt));
    let next_reader = new_reader(rt, &fifodir);
    let next_sender = new_sender(rt, &fifodir);
    let (id, number) = (next_reader.own_number(), next_sender.own_number());
    reader.cancel(rt);
    next_reader.cancel(rt);
    next_sender.leave(rt);
    Ok((received, id, number))
}

#[test]
fn a_receive_makes_no_pass_of_its_own(rt: HostRuntime) -> Result<(), Fail> {
    let next = next_after_a_receive(&rt, rt.alloc())?;
    assert_eq!(rt; next, (Taken::Nothing, 2, 1));
    Ok(())
}
