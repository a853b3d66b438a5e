//! How much there is in each state that a fifodir may be in, as it tells by one look under its lock.
use super::scene::{Scene, Words};
use super::{Counts, STATES, State, come_to, counts_of, open_in, pass_by};
use crate::tests::passes::{Shared, new_reader, new_sender, open, open_with};
use hub_fifodir::Enter;
use hub_letters::Letter;
use hub_record::{Event, Kind, Policy};
use std::alloc::Global;
use std::process::Abort;
use std::sync::{Arc, Wait};
use std::test::Fail;

/// What it tells in this state, twice, and then once all have left. So many publishers and tickets came and went before.
fn usages<R: Abort + Wait + Enter>(
    rt: &R,
    alloc: Global,
    words: &Words,
    passes: u64,
    state: State,
) -> Result<[Counts; 3], Fail> {
    let fifodir = open_in(alloc, state)?;
    pass_by(rt, &fifodir, passes);
    let shared = Arc::try_clone(&fifodir)?;
    let there = open(alloc, Kind::Plain, (8, 100, 10))?;
    let mut scene = Scene::new(rt, alloc, shared, there);
    come_to(rt, &mut scene, words, state);
    let first = fifodir.usage(rt);
    let second = fifodir.usage(rt);
    scene.end(rt);
    let last = fifodir.usage(rt);
    Ok([counts_of(first), counts_of(second), counts_of(last)])
}

#[test]
fn its_usage_is_told_in_each_state(rt: HostRuntime) -> Result<(), Fail> {
    let words = Words::new(rt.alloc())?;
    for (state, _, usage) in STATES.iter() {
        for passes in [0, 1, 40] {
            let told = usages(&rt, rt.alloc(), &words, passes, *state)?;
            let wanted = [*usage, *usage, (0, 0, 0, 0)];
            assert_eq!(rt; told, wanted, "{state:?} behind {passes} passes");
        }
    }
    Ok(())
}

/// What is there once three tickets came, by the policy: when 2 events are pending for each, when the third has taken them and one
/// more came or was refused, and as the first, the second and the third are cancelled.
static CANCELLED: [(Policy, [Counts; 5]); 2] = [
    (
        Policy::Evict,
        [
            (3, 1, 2, 0),
            (1, 1, 1, 2),
            (1, 1, 1, 1),
            (1, 1, 1, 0),
            (0, 1, 0, 0),
        ],
    ),
    (
        Policy::Hold,
        [
            (3, 1, 2, 0),
            (3, 1, 2, 0),
            (2, 1, 2, 0),
            (1, 1, 0, 0),
            (0, 1, 0, 0),
        ],
    ),
];

fn counts_as_they_leave<R: Abort + Wait + Enter>(rt: &R, fifodir: &Shared) -> [Counts; 5] {
    let mut sender = new_sender(rt, fifodir);
    let (first, second) = (new_reader(rt, fifodir), new_reader(rt, fifodir));
    let mut third = new_reader(rt, fifodir);
    let _ = sender.send(rt, &[Letter::LEAST; 2]);
    let pending = counts_of(fifodir.usage(rt));
    third.take(rt, &mut [Event::FILLER; 2]);
    let _ = sender.send(rt, &[Letter::LEAST]);
    let more = counts_of(fifodir.usage(rt));
    first.cancel(rt);
    let two_left = counts_of(fifodir.usage(rt));
    second.cancel(rt);
    let one_left = counts_of(fifodir.usage(rt));
    third.cancel(rt);
    let none_left = counts_of(fifodir.usage(rt));
    sender.leave(rt);
    [pending, more, two_left, one_left, none_left]
}

#[test]
fn evicted_tickets_are_counted_until_they_are_cancelled(rt: HostRuntime) -> Result<(), Fail> {
    let cancelled = CANCELLED;
    for (policy, wanted) in cancelled.iter() {
        let fifodir = open_with(rt.alloc(), Kind::Plain, (2, 100, 10), *policy)?;
        let told = counts_as_they_leave(&rt, &fifodir);
        assert_eq!(rt; told, *wanted, "{policy:?}");
    }
    Ok(())
}
