//! What a call leaves behind in each state that a fifodir may be in. The passes of the call are there before, so that it can be
//! made where no new ones are given.
mod scene;
mod table;
mod usages;

use crate::tests::passes::{Shared, new_reader, new_sender, next_id, open, open_with};
use hub_fifodir::{Enter, Usage};
use hub_record::{Event, Kind, Policy};
use scene::{Scene, Words};
use std::alloc::Global;
use std::process::Abort;
use std::sync::{Arc, Wait};
use std::test::Fail;
use std::thread::Threads;
use table::{CALLS, Call, Counts, Found, STATES, State, wanted};

/// So many publishers and tickets come and go.
fn pass_by<R: Abort + Wait + Enter>(rt: &R, fifodir: &Shared, count: u64) {
    for _ in 0..count {
        new_sender(rt, fifodir).leave(rt);
        new_reader(rt, fifodir).cancel(rt);
    }
}

fn come_to<R: Abort + Wait + Enter>(rt: &R, scene: &mut Scene, words: &Words, state: State) {
    scene.post(rt, 1);
    scene.pass_on(rt, &words.start, 1);
    match state {
        State::Fresh => {}
        State::Wrapped => scene.pass_on(rt, &words.start, 20),
        State::Long => scene.pass_on(rt, &words.start, 5_100),
        State::Busy => pass_by(rt, &scene.fifodir, 40),
        State::Three => scene.post(rt, 2),
        State::Awaited => scene.post(rt, 25),
        State::Full => scene.send(rt, &words.many),
        State::Evicted => {
            scene.send(rt, &words.many);
            scene.wait(rt, Call::CatchUp);
            scene.send(rt, &words.start);
        }
        State::Closed => {
            scene.send(rt, &words.start);
            scene.send(rt, &words.start);
            scene.close(rt);
        }
        State::Ended => {
            scene.pass_on(rt, &words.start, 2);
            scene.close(rt);
            scene.take(rt, &mut [Event::FILLER; 4]);
        }
        State::Failed => scene.pass_on(rt, &words.failed, 1),
    }
}

fn does<R: Abort + Threads + Wait + Enter + Sync>(
    rt: &R,
    scene: &mut Scene,
    words: &Words,
    call: Call,
) {
    match call {
        Call::Nothing => {}
        Call::Publish => scene.send(rt, &words.start),
        Call::PublishNothing => scene.send(rt, &[]),
        Call::PublishTooMuch => scene.send(rt, &words.too_many),
        Call::PublishUnlawful => scene.send(rt, &words.unlawful),
        Call::TellDown => scene.tell(rt, hub_letters::State::Down),
        Call::TellUp => scene.tell(rt, hub_letters::State::Up),
        Call::TellUpAsLast => scene.tell_as_last(rt, hub_letters::State::Up),
        Call::TellDownAsLast => scene.tell_as_last(rt, hub_letters::State::Down),
        Call::TellAsAnother => scene.tell_as_another(rt, hub_letters::State::Up),
        Call::Close => scene.close(rt),
        Call::CloseTwice => {
            scene.close(rt);
            scene.close(rt);
        }
        Call::SendBoth => scene.send_both(rt, &words.start),
        Call::SendHere => scene.send_here(rt, &words.start),
        Call::SendOn => scene.send_on(rt),
        Call::Take => scene.take(rt, &mut [Event::FILLER; 4]),
        Call::TakeNone => scene.take(rt, &mut []),
        Call::Status | Call::Front | Call::HasMore => scene.look(call),
        Call::Usage => scene.count(rt),
        Call::Meet => scene.meet(rt),
        Call::Await => scene.await_more(rt),
        Call::Receive => scene.receive(rt),
        Call::CatchUp | Call::SvWait | Call::SvListen => scene.wait(rt, call),
        Call::Publisher => scene.join(rt),
        Call::Ticket => scene.subscribe(rt),
        Call::Post => scene.open(rt),
    }
}

/// A fifodir that can come to this state.
fn open_in(alloc: Global, state: State) -> Result<Shared, Fail> {
    let policy = if state == State::Evicted {
        Policy::Evict
    } else {
        Policy::Hold
    };
    open_with(alloc, Kind::Service, (8, 10_000, 100), policy)
}

fn counts_of(usage: Usage) -> Counts {
    (
        usage.subscriptions,
        usage.publishers,
        usage.pending,
        usage.evicted,
    )
}

/// What a publisher that comes is told.
fn status_of<R: Abort + Wait + Enter>(rt: &R, fifodir: &Shared) -> (u64, (u64, u64, bool)) {
    let mut next = new_sender(rt, fifodir);
    let (number, status) = (next.me.number(), next.status());
    next.leave(rt);
    (number, (status.number, status.flags.code(), status.closed))
}

/// What is there after this call in this state. So many publishers and tickets came and went before those that make the call.
fn found<R: Abort + Threads + Wait + Enter + Sync>(
    rt: &R,
    alloc: Global,
    words: &Words,
    passes: u64,
    state: State,
    call: Call,
) -> Result<Found, Fail> {
    let fifodir = open_in(alloc, state)?;
    pass_by(rt, &fifodir, passes);
    let shared = Arc::try_clone(&fifodir)?;
    let there = open(alloc, Kind::Plain, (8, 100, 10))?;
    let mut scene = Scene::new(rt, alloc, shared, there);
    come_to(rt, &mut scene, words, state);
    let before = fifodir.bell().rings();
    does(rt, &mut scene, words, call);
    let rings = fifodir.bell().rings().wrapping_sub(before);
    let taken = scene.reader.next();
    let counts = counts_of(fifodir.usage(rt));
    let (next, status) = status_of(rt, &fifodir);
    let id = next_id(rt, &fifodir);
    scene.end(rt);
    let (_, last) = status_of(rt, &fifodir);
    let (number, code, closed) = status;
    Ok((
        (number, code, closed, next, id, taken, rings),
        counts,
        last,
        counts_of(fifodir.usage(rt)),
    ))
}

#[test]
fn a_call_leaves_behind_what_it_says_in_each_state(rt: HostRuntime) -> Result<(), Fail> {
    let words = Words::new(rt.alloc())?;
    for before in STATES.iter() {
        for call in CALLS.iter() {
            let found = found(&rt, rt.alloc(), &words, 0, before.0, call.0)?;
            assert_eq!(rt;
                found,
                wanted(*before, *call),
                "{:?} at {:?}",
                call.0,
                before.0
            );
        }
    }
    Ok(())
}

#[test]
fn a_call_by_any_pass_leaves_behind_what_it_says(rt: HostRuntime) -> Result<(), Fail> {
    let words = Words::new(rt.alloc())?;
    for passes in 0..40u64 {
        let (next, id) = (passes.saturating_add(3), passes.saturating_add(3));
        let left = (1, 6, false, next, Some(id), 1, 0);
        let before = (State::Fresh, left, (2, 2, 0, 0));
        for call in CALLS.iter() {
            let found = found(&rt, rt.alloc(), &words, passes, State::Fresh, call.0)?;
            assert_eq!(rt;
                found,
                wanted(before, *call),
                "{:?} behind {passes} passes",
                call.0
            );
        }
    }
    Ok(())
}
