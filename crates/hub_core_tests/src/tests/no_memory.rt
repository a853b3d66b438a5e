//! Calls that take no memory. Whether they take none is counted by `tests/no-memory`, which runs this program over a
//! `malloc` that counts (`tests/count.c`): it counts between two marks.
ghost use Rattle.hub_fifodir.specs.Passes.{IsPublisherOf};

mod records;

use crate::tests::fixtures::word;
use crate::tests::no_memory::records::{
    a_locked_is_used, a_record_evicts, a_record_is_used, letters_are_read,
};
use crate::tests::passes::{new_sender, open, open_with, publisher, ticket};
use crate::tests::waits::{Deed, Doing, open_post};
use hub_fifodir::{Enter, Fifodir, Publisher};
use hub_letters::{Flags, Letter, MOST_GATHERED, State, Want};
use hub_listen::{Feed, FeedError, Listener, Mode};
use hub_record::{Closed, Event, Kind, Policy, PubError, Status, Taken};
use hub_wait::{Post, SLICE, Span, Tally, Verdict, Watch, svlisten, svwait};
use std::alloc::Global;
use std::process::Abort;
use std::sync::Wait;
use std::test::Fail;
use std::{io, thread};

/// The counting `malloc` knows a mark by the call of the system that it makes.
pub(crate) fn mark() {
    thread::yield_now();
}

/// Publishes the same letters twice.
fn sent_twice<R: Wait>(
    rt: &R,
    fifodir: &Fifodir,
    me: &mut Publisher,
    ab: &[Letter],
) -> (Result<u64, PubError>, Result<u64, PubError>)
    requires { IsPublisherOf fifodir.now me.old }
    ensures { IsPublisherOf fifodir.now me.new }
{
    let first = fifodir.publish(rt, me, ab);
    (first, fifodir.publish(rt, me, ab))
}

/// Each call of a fifodir's two publishers and its ticket.
fn passes_are_used<R: Abort + Wait + Enter>(rt: &R, alloc: Global) -> Result<bool, Fail> {
    let (fifodir, ab) = (open(alloc, Kind::Plain, (2, 100, 10))?, word(alloc, "ab")?);
    let mut one = publisher(rt, &fifodir);
    let mut other = publisher(rt, &fifodir);
    let mut reader = ticket(rt, &fifodir);
    let mut out = [Event::FILLER; 4];
    mark();
    let sent = sent_twice(rt, &fifodir, &mut one, &ab);
    fifodir.meet(rt, &mut one, &mut reader);
    let seen = (fifodir.status(&mut reader).number, fifodir.front(&mut one));
    let taken = fifodir.take_into(rt, &mut reader, &mut out);
    let nothing = fifodir.take_into(rt, &mut reader, &mut out);
    let closed = (fifodir.close(rt, &mut one), fifodir.close(rt, &mut other));
    let end = fifodir.take_into(rt, &mut reader, &mut out);
    let numbers = (one.number(), reader.id(), reader.mark(), reader.next());
    let kind = fifodir.kind();
    fifodir.leave(rt, one);
    fifodir.leave(rt, other);
    fifodir.cancel(rt, reader);
    mark();
    Ok(
        sent == (Ok(0), Err(PubError::Full))
            && seen == (2, 2)
            && (taken, nothing, end) == (Taken::Got(2), Taken::Nothing, Taken::End)
            && closed == (Ok(()), Err(Closed))
            && numbers == (1, 1, 0, 2)
            && kind == Kind::Plain,
    )
}

/// The calls of a publisher and of a ticket that it evicts.
fn a_ticket_is_evicted<R: Abort + Wait + Enter>(rt: &R, alloc: Global) -> Result<bool, Fail> {
    let fifodir = open_with(alloc, Kind::Plain, (2, 100, 10), Policy::Evict)?;
    let ab = word(alloc, "ab")?;
    let mut one = publisher(rt, &fifodir);
    let mut reader = ticket(rt, &fifodir);
    let mut out = [Event::FILLER; 4];
    mark();
    let sent = sent_twice(rt, &fifodir, &mut one, &ab);
    let taken = fifodir.take_into(rt, &mut reader, &mut out);
    let seen = (
        fifodir.status(&mut reader).number,
        fifodir.front(&mut reader),
    );
    fifodir.leave(rt, one);
    fifodir.cancel(rt, reader);
    mark();
    Ok(sent == (Ok(0), Ok(2)) && taken == Taken::Evicted && seen == (4, 4))
}

/// The calls of a publisher that are refused because its fifodir is closed, has given its total, or finds the letters
/// unlawful.
fn publishers_are_refused<R: Abort + Wait + Enter>(rt: &R, alloc: Global) -> Result<bool, Fail> {
    let fifodir = open(alloc, Kind::Service, (2, 2, 10))?;
    let (su, x) = (word(alloc, "su")?, word(alloc, "x")?);
    let mut one = publisher(rt, &fifodir);
    mark();
    let unlawful = fifodir.publish(rt, &mut one, &x);
    let sent = fifodir.publish(rt, &mut one, &su);
    let spent = fifodir.publish(rt, &mut one, &x);
    let closed = (
        fifodir.close(rt, &mut one),
        fifodir.close(rt, &mut one),
        fifodir.publish(rt, &mut one, &x),
    );
    fifodir.leave(rt, one);
    mark();
    let sent = (unlawful, sent, spent);
    Ok(
        sent == (Err(PubError::Unlawful(0)), Ok(0), Err(PubError::Spent))
            && closed == (Ok(()), Err(Closed), Err(PubError::Closed)),
    )
}

/// The calls of two publishers that tell where a service is. The first letters are those of a start.
fn a_service_is_told<R: Abort + Wait + Enter>(rt: &R, alloc: Global) -> Result<bool, Fail> {
    let fifodir = open(alloc, Kind::Service, (64, 100, 10))?;
    let mut one = new_sender(rt, &fifodir);
    let mut other = new_sender(rt, &fifodir);
    mark();
    let told = (
        one.tell(rt, State::Up),
        one.tell(rt, State::Up),
        other.tell_as_last(rt, State::Down),
        one.tell_as_last(rt, State::Ready),
    );
    let closed = (
        one.close(rt),
        other.tell(rt, State::Down),
        one.tell_as_last(rt, State::Down),
    );
    one.leave(rt);
    other.leave(rt);
    mark();
    let refused = Some(Err(PubError::Closed));
    Ok(
        told == (Some(Ok(0)), Some(Ok(2)), None, Some(Ok(2)))
            && closed == (Ok(()), refused, refused),
    )
}

/// The calls of a listener.
fn a_listener_is_used(alloc: Global) -> io::Result<bool> {
    let letters = word(alloc, "aba")?;
    let Ok(mut listener) = Listener::new(alloc, "b", Mode::Repeat) else {
        return Ok(false);
    };
    mark();
    let heard = (
        listener.feed(&letters),
        listener.feed(&[Letter::LEAST]),
        listener.feed(&[Letter::LEAST; MOST_GATHERED]),
    );
    let shown = (listener.text().len(), listener.hit().len());
    mark();
    Ok(heard == (Ok(Feed::Hit(2)), Ok(Feed::Quiet), Err(FeedError::Overlong)) && shown == (1, 2))
}

/// Each call of a watch and of a tally.
fn a_watch_is_judged() -> bool {
    mark();
    let status = Status {
        number: 0,
        flags: Flags::none(),
        closed: false,
    };
    let mut watch = Watch::new(Want::Up, true, status);
    watch.step(0, &[Letter::LEAST]);
    watch.renew(Status {
        number: 1,
        ..status
    });
    let seen = (
        watch.at(),
        watch.flags().code(),
        watch.met(),
        watch.hopeless(),
    );
    watch.end();
    let mut tally = Tally::new(Span::All);
    tally.add(&watch);
    let answer = (tally.answer(), watch.ended());
    mark();
    seen == (1, 0, false, false) && answer == (Some(Verdict::Never), true)
}

/// A post catches up once more, and ends.
fn post_ends<R: Wait>(rt: &R, mut post: Post) {
    let mut room = [Event::FILLER; SLICE];
    post.catch_up(rt, &mut room);
    post.end(rt);
}

/// Waits at a post that catches up, and its end.
fn posts_are_used<R: Abort + Wait + Enter>(rt: &R, alloc: Global) -> Result<bool, Fail> {
    let (first, letters) = (word(alloc, "s")?, word(alloc, "u")?);
    let service = open(alloc, Kind::Service, (64, 100, 10))?;
    let mut supervisor = new_sender(rt, &service);
    let _ = supervisor.send(rt, &first);
    let mut pause = Doing::new(supervisor, Deed::Send("u"), letters, 1);
    let mut posts = [open_post(rt, service, Want::Up, true)];
    mark();
    let heard = svlisten(rt, &mut posts, Span::All, 0, &mut pause, |_posts| 7);
    let verdict = svwait(rt, &mut posts, Span::All, 1, &mut pause);
    let seen = (posts[0].watch().at(), posts[0].mark());
    let [post] = posts;
    post_ends(rt, post);
    mark();
    let calls = pause.end(rt);
    Ok(heard == (7, Verdict::Late) && verdict == Verdict::Yes && seen == (2, 1) && calls == 1)
}

/// A call that takes memory, by which `tests/no-memory` sees that it counts.
fn memory_is_taken(alloc: Global) -> io::Result<bool> {
    mark();
    let letters = word(alloc, "ab")?;
    mark();
    Ok(letters.len() == 2)
}

#[test]
fn these_calls_take_no_memory(rt: HostRuntime) -> Result<(), Fail> {
    assert!(rt; memory_is_taken(rt.alloc())?);
    assert!(rt; letters_are_read());
    assert!(rt; a_record_is_used(rt.alloc())?);
    assert!(rt; a_record_evicts(rt.alloc())?);
    assert!(rt; a_locked_is_used(rt.alloc())?);
    assert!(rt; passes_are_used(&rt, rt.alloc())?);
    assert!(rt; a_ticket_is_evicted(&rt, rt.alloc())?);
    assert!(rt; publishers_are_refused(&rt, rt.alloc())?);
    assert!(rt; a_service_is_told(&rt, rt.alloc())?);
    assert!(rt; a_listener_is_used(rt.alloc())?);
    assert!(rt; a_watch_is_judged());
    assert!(rt; posts_are_used(&rt, rt.alloc())?);
    Ok(())
}
