//! What a call leaves behind at a fifodir. A call that made a pass of its own besides, published or closed by it, and let it
//! leave, would leave an event, a close, a number or an id that nobody asked for.
use crate::tests::passes::{Shared, next_id, open, publisher, ticket};
use crate::tests::waits::open_post;
use hub_fifodir::together::{send_both, send_on};
use hub_fifodir::{Enter, Fifodir};
use hub_letters::{Letter, Want};
use hub_record::{Event, Kind};
use hub_wait::{Go, Pause, SLICE, Span, receive, svlisten, svwait};
use std::alloc::Global;
use std::process::Abort;
use std::sync::{Arc, Wait};
use std::test::Fail;
use std::thread::Threads;

/// A call, by passes that are there for it alone.
#[derive(Clone, Copy, Debug)]
enum Call {
    Nothing,
    Publish,
    PublishTooMuch,
    CloseTwice,
    Take,
    Look,
    Usage,
    Meet,
    Await,
    Receive,
    Open,
    CatchUp,
    SvWait,
    SvListen,
    SendBoth,
    SendOn,
}

/// What is at a fifodir: how many events, whether it is closed, the number of the next publisher, the id of the next ticket,
/// which a closed one doesn't give, and how often its bell has rung for somebody who waits.
type State = (u64, bool, u64, Option<u64>, u64);

const UNTOUCHED: State = (0, false, 1, Some(1), 0);

/// What is at a fifodir after a call there, and at another one that the call may also have to do with.
static ROWS: [(Call, State, State); 16] = [
    (Call::Nothing, UNTOUCHED, UNTOUCHED),
    (Call::Publish, (1, false, 2, Some(1), 1), UNTOUCHED),
    (Call::PublishTooMuch, (0, false, 2, Some(2), 0), UNTOUCHED),
    (Call::CloseTwice, (0, true, 2, None, 1), UNTOUCHED),
    (Call::Take, (1, false, 2, Some(2), 1), UNTOUCHED),
    (Call::Look, (0, false, 2, Some(2), 0), UNTOUCHED),
    (Call::Usage, (1, false, 2, Some(2), 1), UNTOUCHED),
    (Call::Meet, (0, false, 2, Some(2), 0), UNTOUCHED),
    (Call::Await, (0, false, 1, Some(2), 0), UNTOUCHED),
    (Call::Receive, (0, false, 1, Some(2), 0), UNTOUCHED),
    (Call::Open, (0, false, 1, Some(2), 0), UNTOUCHED),
    (Call::CatchUp, (0, false, 1, Some(2), 0), UNTOUCHED),
    (Call::SvWait, (0, false, 1, Some(2), 0), UNTOUCHED),
    (Call::SvListen, (0, false, 1, Some(2), 0), UNTOUCHED),
    (Call::SendBoth, (2, false, 3, Some(1), 2), UNTOUCHED),
    (
        Call::SendOn,
        (1, false, 2, Some(2), 1),
        (1, false, 2, Some(1), 1),
    ),
];

/// A pause that ends at once.
#[derive(Drop)]
struct AtOnce;

impl Pause for AtOnce {
    fn pause<R: Wait>(&mut self, _rt: &R) -> Go {
        Go::Again
    }
}

/// Publishes these letters.
fn publishes<R: Abort + Wait + Enter>(rt: &R, fifodir: &Fifodir, letters: &[Letter]) {
    let mut one = publisher(rt, fifodir);
    let _ = fifodir.publish(rt, &mut one, letters);
    fifodir.leave(rt, one);
}

/// Publishes more than may be pending.
fn publishes_too_much<R: Abort + Wait + Enter>(rt: &R, fifodir: &Fifodir) {
    let held_up = ticket(rt, fifodir);
    publishes(rt, fifodir, &[Letter::LEAST; 9]);
    fifodir.cancel(rt, held_up);
}

fn closes_twice<R: Abort + Wait + Enter>(rt: &R, fifodir: &Fifodir) {
    let mut one = publisher(rt, fifodir);
    let _ = fifodir.close(rt, &mut one);
    let _ = fifodir.close(rt, &mut one);
    fifodir.leave(rt, one);
}

/// Takes an event, and then finds that there is none.
fn takes<R: Abort + Wait + Enter>(rt: &R, fifodir: &Fifodir) {
    let mut reader = ticket(rt, fifodir);
    publishes(rt, fifodir, &[Letter::LEAST]);
    let mut out = [Event::FILLER; 4];
    fifodir.take_into(rt, &mut reader, &mut out);
    fifodir.take_into(rt, &mut reader, &mut out);
    fifodir.cancel(rt, reader);
}

fn looks<R: Abort + Wait + Enter>(rt: &R, fifodir: &Fifodir) {
    let mut one = publisher(rt, fifodir);
    let mut reader = ticket(rt, fifodir);
    let _ = fifodir.status(&mut one);
    let _ = fifodir.front(&mut one);
    let _ = fifodir.status(&mut reader);
    let _ = fifodir.has_more(&mut reader);
    fifodir.leave(rt, one);
    fifodir.cancel(rt, reader);
}

/// Asks how much there is, with an event, a publisher and a ticket.
fn counts<R: Abort + Wait + Enter>(rt: &R, fifodir: &Fifodir) {
    let mut one = publisher(rt, fifodir);
    let reader = ticket(rt, fifodir);
    let _ = fifodir.publish(rt, &mut one, &[Letter::LEAST]);
    for _ in 0..3 {
        let usage = fifodir.usage(rt);
        assert_eq!(rt;
            (
                usage.subscriptions,
                usage.publishers,
                usage.pending,
                usage.evicted
            ),
            (1, 1, 1, 0)
        );
    }
    fifodir.leave(rt, one);
    fifodir.cancel(rt, reader);
}

fn meets<R: Abort + Wait + Enter>(rt: &R, fifodir: &Fifodir) {
    let mut one = publisher(rt, fifodir);
    let mut reader = ticket(rt, fifodir);
    fifodir.meet(rt, &mut one, &mut reader);
    fifodir.leave(rt, one);
    fifodir.cancel(rt, reader);
}

fn awaits<R: Abort + Wait + Enter>(rt: &R, fifodir: &Fifodir) {
    let mut reader = ticket(rt, fifodir);
    fifodir.await_more(rt, &mut reader, 1, &mut AtOnce);
    fifodir.cancel(rt, reader);
}

fn receives<R: Abort + Wait + Enter>(rt: &R, fifodir: &Fifodir) {
    let mut reader = ticket(rt, fifodir);
    let mut out = [Event::FILLER; 4];
    receive(rt, fifodir, &mut reader, &mut out, 1, &mut AtOnce);
    fifodir.cancel(rt, reader);
}

fn catches_up<R: Abort + Wait + Enter>(rt: &R, fifodir: Shared) {
    let mut post = open_post(rt, fifodir, Want::Up, true);
    post.catch_up(rt, &mut [Event::FILLER; SLICE]);
    post.end(rt);
}

fn waits<R: Abort + Wait + Enter>(rt: &R, fifodir: Shared) {
    let mut posts = [open_post(rt, fifodir, Want::Up, true)];
    svwait(rt, &mut posts, Span::All, 1, &mut AtOnce);
    let [post] = posts;
    post.end(rt);
}

fn listens<R: Abort + Wait + Enter>(rt: &R, fifodir: Shared) {
    let mut posts = [open_post(rt, fifodir, Want::Up, true)];
    svlisten(rt, &mut posts, Span::All, 1, &mut AtOnce, |_posts| 7);
    let [post] = posts;
    post.end(rt);
}

fn sends_both<R: Abort + Threads + Wait + Enter + Sync>(rt: &R, fifodir: &Fifodir) {
    let one = publisher(rt, fifodir);
    let other = publisher(rt, fifodir);
    let letter = [Letter::LEAST];
    let ((one, _), (other, _)) = send_both(rt, fifodir, one, other, &letter, &letter);
    fifodir.leave(rt, one);
    fifodir.leave(rt, other);
}

/// Publishes a letter, and sends it on.
fn sends_on<R: Abort + Wait + Enter>(rt: &R, from: &Fifodir, to: &Fifodir) {
    let mut reader = ticket(rt, from);
    let mut one = publisher(rt, to);
    publishes(rt, from, &[Letter::LEAST]);
    let _ = send_on(rt, from, &mut reader, to, &mut one);
    from.cancel(rt, reader);
    to.leave(rt, one);
}

fn does<R: Abort + Threads + Wait + Enter + Sync>(
    rt: &R,
    here: Shared,
    there: &Fifodir,
    call: Call,
) {
    match call {
        Call::Nothing => {}
        Call::Publish => publishes(rt, &here, &[Letter::LEAST]),
        Call::PublishTooMuch => publishes_too_much(rt, &here),
        Call::CloseTwice => closes_twice(rt, &here),
        Call::Take => takes(rt, &here),
        Call::Look => looks(rt, &here),
        Call::Usage => counts(rt, &here),
        Call::Meet => meets(rt, &here),
        Call::Await => awaits(rt, &here),
        Call::Receive => receives(rt, &here),
        Call::Open => open_post(rt, here, Want::Up, true).end(rt),
        Call::CatchUp => catches_up(rt, here),
        Call::SvWait => waits(rt, here),
        Call::SvListen => listens(rt, here),
        Call::SendBoth => sends_both(rt, &here),
        Call::SendOn => sends_on(rt, &here, there),
    }
}

fn state_of<R: Abort + Wait + Enter>(rt: &R, fifodir: &Fifodir) -> State {
    let rings = fifodir.bell().rings();
    let mut next = publisher(rt, fifodir);
    let number = next.number();
    let status = fifodir.status(&mut next);
    fifodir.leave(rt, next);
    (
        status.number,
        status.closed,
        number,
        next_id(rt, fifodir),
        rings,
    )
}

fn left_behind<R: Abort + Threads + Wait + Enter + Sync>(
    rt: &R,
    alloc: Global,
    call: Call,
) -> Result<(State, State), Fail> {
    let here = open(alloc, Kind::Plain, (8, 1000, 10))?;
    let there = open(alloc, Kind::Plain, (8, 1000, 10))?;
    let shared = Arc::try_clone(&here)?;
    let (one, other) = (here.admit(), there.admit());
    does(rt, shared, &there, call);
    here.dismiss(one);
    there.dismiss(other);
    Ok((state_of(rt, &here), state_of(rt, &there)))
}

#[test]
fn a_call_leaves_behind_what_it_says(rt: HostRuntime) -> Result<(), Fail> {
    for (call, here, there) in ROWS.iter() {
        let found = left_behind(&rt, rt.alloc(), *call)?;
        assert_eq!(rt; found, (*here, *there), "{call:?}");
    }
    Ok(())
}
