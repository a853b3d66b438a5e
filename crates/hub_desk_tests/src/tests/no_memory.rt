//! The end of a desk, which carries out a will, an `await`, an `about` and a `tell` of a name that the desk knows, what lends the parts of a request, and a shared desk's
//! `take`, `poll` and `next` where nothing waits take no memory. Nor does any call of a record with eight subscriptions, or what eight
//! of a session are told, but the letters of a reply. It is counted by `tests/no-memory`, which runs this program over a `malloc` that
//! counts (`tests/count.c`): it counts between two marks.
mod cursors;

use crate::tests::desks::{alone, new_local};
use crate::tests::no_memory::cursors::{eight_are_evicted, eight_hold};
use crate::tests::rows::{many_letters, name_of, run};
use hub_letters::{Letter, State};
use hub_requests::{
    Desk, Enter, Excerpt, Name, Names, Numbers, PatternText, Refusal, Reply, Request,
};
use std::alloc::{AllocError, AllocGlobal, Global};
use std::process::Abort;
use std::sync::Wait;
use std::test::Fail;
use std::thread;

/// The counting `malloc` knows a mark by the call of the system that it makes.
pub(crate) fn mark() {
    thread::yield_now();
}

/// A session with two publishers, a will, two subscriptions and a listener.
static HOLDS: &str = "
    dir web 64 1000 -> ok
    svc db 64 1000 1 -> ok
    tell db down -> ok 0
    will db failed -> ok
    sub web -> ok 1
    sub db -> ok 2
    listen web repeat b -> ok 3
    pub web aab -> ok 0
    poll 3 -> hit aab
";

/// Whether a subscription and a listener for which nothing waits are told so.
fn nothing_waits<H: Wait + Enter, D: Desk>(rt: &H, desk: &mut D) -> bool {
    mark();
    let replies = (
        desk.ask(rt, &Request::Take { id: 2, max: 256 }),
        desk.ask(rt, &Request::Poll { id: 3 }),
        desk.ask(rt, &Request::Next { id: 2, turns: 0 }),
        desk.ask(rt, &Request::Next { id: 3, turns: 0 }),
    );
    mark();
    matches!(
        replies,
        (Reply::Nothing, Reply::Nothing, Reply::Late, Reply::Late)
    )
}

/// Whether a subscription with events is told so, and one without and a listener without too.
fn awaits<H: Wait + Enter, D: Desk>(rt: &H, desk: &mut D) -> bool {
    mark();
    let replies = (
        desk.ask(rt, &Request::Await { id: 1, turns: 0 }),
        desk.ask(rt, &Request::Await { id: 2, turns: 0 }),
        desk.ask(rt, &Request::Await { id: 3, turns: 0 }),
    );
    mark();
    matches!(replies, (Reply::Done, Reply::Late, Reply::Late))
}

fn name<H: AllocGlobal + Abort>(rt: &H, text: &str) -> Name {
    name_of(rt, rt.alloc(), text).expect(rt, "memory")
}

/// Whether the desk tells about a fifodir that it knows.
fn tells<H: AllocGlobal + Abort + Wait + Enter, D: Desk>(rt: &H, desk: &mut D) -> bool {
    let about = Request::About {
        name: name(rt, "web"),
    };
    mark();
    let reply = desk.ask(rt, &about);
    mark();
    matches!(reply, Reply::About(_))
}

/// Whether the desk tells where the service is to be, and that it is there already.
fn is_told<H: AllocGlobal + Abort + Wait + Enter, D: Desk>(rt: &H, desk: &mut D) -> bool {
    let tell = Request::Tell {
        name: name(rt, "db"),
        state: State::Ready,
    };
    mark();
    let replies = (desk.ask(rt, &tell), desk.ask(rt, &tell));
    mark();
    matches!(replies, (Reply::Number(1), Reply::Number(3)))
}

/// A session with eight subscriptions to a fifodir for which three letters are pending.
static EIGHT: &str = "
    dir web 4 1000 -> ok
    sub web -> ok 1; sub web -> ok 2; sub web -> ok 3; sub web -> ok 4
    sub web -> ok 5; sub web -> ok 6; sub web -> ok 7; sub web -> ok 8
    pub web aaa -> ok 0
";

static OTHERS_TAKE: &str = "
    take 2 9 -> got aaa; take 3 9 -> got aaa; take 4 9 -> got aaa
    take 5 9 -> got aaa; take 6 9 -> got aaa; take 7 9 -> got aaa
";

/// Whether a subscription takes what is pending for it.
fn takes<H: Wait + Enter, D: Desk>(rt: &H, desk: &mut D, id: u64) -> bool {
    let take = Request::Take { id, max: 256 };
    mark();
    let reply = desk.ask(rt, &take);
    mark();
    matches!(reply, Reply::Got(_))
}

/// Whether letters are pending for eight subscriptions, and then for seven.
fn eight_are_served<H: AllocGlobal + Abort + Wait + Enter, D: Desk>(rt: &H, desk: &mut D) -> bool {
    let message = many_letters(rt, rt.alloc(), 2);
    mark();
    let sent = (desk.ask(rt, &message), desk.ask(rt, &message));
    let full = desk.ask(rt, &message);
    let replies = (
        desk.ask(rt, &Request::Await { id: 8, turns: 0 }),
        desk.ask(rt, &Request::Cancel { id: 8 }),
        desk.ask(rt, &Request::Cancel { id: 8 }),
    );
    mark();
    matches!(sent, (Reply::Number(3), Reply::Number(5)))
        && matches!(full, Reply::No(Refusal::Full))
        && matches!(replies, (Reply::Done, Reply::Done, Reply::No(Refusal::Id)))
}

/// Whether a session serves its eight subscriptions so.
fn eight_of_a_session<H: AllocGlobal + Abort + Wait + Enter>(rt: &H) -> bool {
    let mut desk = alone(rt);
    run(rt, &mut desk, EIGHT);
    let first = takes(rt, &mut desk, 1);
    let last = takes(rt, &mut desk, 8);
    run(rt, &mut desk, OTHERS_TAKE);
    let are_served = eight_are_served(rt, &mut desk);
    desk.release(rt);
    first && last && are_served
}

fn end<H: Wait, D: Desk>(rt: &H, desk: &mut D) {
    mark();
    desk.end(rt);
    mark();
}

/// Whether a local desk answers so.
fn local_answers<H: AllocGlobal + Abort + Wait + Enter>(rt: &H) -> bool {
    let mut desk = new_local(rt);
    run(rt, &mut desk, HOLDS);
    let answers = awaits(rt, &mut desk) && tells(rt, &mut desk) && is_told(rt, &mut desk);
    end(rt, &mut desk);
    answers
}

/// Whether a shared desk answers so.
fn shared_answers<H: AllocGlobal + Abort + Wait + Enter>(rt: &H) -> bool {
    let mut desk = alone(rt);
    run(rt, &mut desk, HOLDS);
    let are_awaited = nothing_waits(rt, &mut desk) && awaits(rt, &mut desk);
    let answers = are_awaited && tells(rt, &mut desk) && is_told(rt, &mut desk);
    end(rt, &mut desk);
    desk.release(rt);
    answers
}

/// The parts of requests are made of what holds them, and lent.
fn parts_are_lent(alloc: Global, name: Name) -> Result<bool, AllocError> {
    let text = String::from_str(alloc, "ab")?;
    let mut list = Vec::with_capacity(alloc, 1)?;
    list.push_reserved(name);
    let list_of_letters = vec![in alloc; Letter::LEAST; 2]?;
    let list_of_numbers = Vec::from_array(alloc, [Some(7u64), None])?;
    mark();
    let pattern = PatternText::of(text);
    let names = Names::of(list);
    let numbers = Numbers::of(list_of_numbers);
    let letters = Excerpt::of(list_of_letters);
    let lent = (
        pattern.items().len(),
        numbers.items().len(),
        letters.items().len(),
    );
    let bytes = match names.items().first() {
        Some(name) => name.bytes().len(),
        None => 0,
    };
    mark();
    Ok(lent == (2, 2, 2) && bytes == 3)
}

#[test]
fn these_calls_take_no_memory(rt: HostRuntime) -> Result<(), Fail> {
    assert!(rt; parts_are_lent(rt.alloc(), name(&rt, "web"))?);
    assert!(rt; eight_hold(rt.alloc())?, "a record that holds");
    assert!(rt; eight_are_evicted(rt.alloc())?, "a record that evicts");
    assert!(rt; eight_of_a_session(&rt), "eight of a session");
    assert!(rt; local_answers(&rt), "a local desk");
    assert!(rt; shared_answers(&rt), "a shared desk");
    Ok(())
}
