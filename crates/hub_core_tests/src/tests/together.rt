//! Passes that meet, letters that go on to another fifodir, and threads that publish.
use crate::tests::fixtures::word;
use crate::tests::passes::{Reader, Sender, new_reader, new_sender, open, publisher, ticket};
use crate::tests::scenes::status_by;
use hub_fifodir::together::{Unsent, send_both, send_on};
use hub_fifodir::{Enter, Fifodir};
use hub_letters::Letter;
use hub_record::{Event, Kind, PubError, Taken};
use std::alloc::Global;
use std::process::Abort;
use std::sync::Wait;
use std::test::Fail;
use std::thread;

/// Whether two publishers and two tickets that meet in turn know of the event that one of them published.
fn all_meet<R: Abort + Wait + Enter>(rt: &R, fifodir: &Fifodir) -> bool {
    let mut one = publisher(rt, fifodir);
    let mut other = publisher(rt, fifodir);
    let mut early = ticket(rt, fifodir);
    let mut late = ticket(rt, fifodir);
    let published = fifodir.publish(rt, &mut one, &[Letter::LEAST]);
    fifodir.meet(rt, &mut one, &mut other);
    fifodir.meet(rt, &mut other, &mut early);
    fifodir.meet(rt, &mut early, &mut late);
    let publishers = (fifodir.front(&mut one), fifodir.front(&mut other));
    let tickets = (fifodir.front(&mut early), fifodir.front(&mut late));
    fifodir.leave(rt, one);
    fifodir.leave(rt, other);
    fifodir.cancel(rt, early);
    fifodir.cancel(rt, late);
    published == Ok(0) && publishers == (1, 1) && tickets == (1, 1)
}

fn letters_go_on<R: Abort + Wait + Enter>(rt: &R, alloc: Global) -> Result<bool, Fail> {
    let letters = word(alloc, "ab")?;
    let from = open(alloc, Kind::Plain, (64, 1000, 10))?;
    let to = open(alloc, Kind::Plain, (64, 1, 10))?;
    let mut ticket = new_reader(rt, &from);
    let mut source = new_sender(rt, &from);
    let mut sink = new_sender(rt, &to);
    let published = source.send(rt, &letters);
    let is_so = published == Ok(0) && second_is_refused(rt, &mut ticket, &mut sink);
    ticket.cancel(rt);
    source.leave(rt);
    sink.leave(rt);
    Ok(is_so)
}

fn goes_on<R: Wait>(rt: &R, from: &mut Reader, to: &mut Sender) -> Result<Taken, Unsent> {
    send_on(rt, &from.fifodir, &mut from.me, &to.fifodir, &mut to.me)
}

/// Whether the first letter goes on, and the second, one more than the total, comes back.
fn second_is_refused<R: Wait>(rt: &R, from: &mut Reader, to: &mut Sender) -> bool {
    let event = Event {
        who: 1,
        letter: Letter::of(b'b').unwrap_or(Letter::LEAST),
    };
    let why = PubError::Spent;
    goes_on(rt, from, to) == Ok(Taken::Got(1))
        && goes_on(rt, from, to) == Err(Unsent { event, why })
        && goes_on(rt, from, to) == Ok(Taken::Nothing)
        && to.front() == 1
}

#[test]
fn passes_meet_and_letters_go_on(rt: HostRuntime) -> Result<(), Fail> {
    let fifodir = open(rt.alloc(), Kind::Plain, (64, 1000, 10))?;
    assert!(rt;
        all_meet(&rt, &fifodir),
        "two publishers and two tickets meet"
    );
    assert!(rt;
        letters_go_on(&rt, rt.alloc())?,
        "letters go on to another fifodir"
    );
    Ok(())
}

#[test]
fn a_status_is_fresh_after_a_thread_published(rt: HostRuntime) -> Result<(), Fail> {
    let fifodir = open(rt.alloc(), Kind::Service, (64, 1000, 10))?;
    let letters = word(rt.alloc(), "su")?;
    let mut ticket = new_reader(&rt, &fifodir);
    let before = status_by(&mut ticket);
    let child = thread::spawn(&rt, move || -> Result<u64, PubError> {
        match Sender::of(&rt, fifodir) {
            Ok(mut sender) => {
                let sent = sender.send(&rt, &letters);
                sender.leave(&rt);
                sent
            }
            Err(_) => Err(PubError::Closed),
        }
    })
    .expect(&rt, "a thread");
    let sent = child.join(&rt);
    let after = status_by(&mut ticket);
    ticket.cancel(&rt);
    assert!(rt; before == (0, 0, false) && sent == Ok(0) && after == (2, 5, false));
    Ok(())
}

/// Whether two messages that are sent at once are both whole.
#[test]
fn two_send_at_once(rt: HostRuntime) -> Result<(), Fail> {
    let fifodir = open(rt.alloc(), Kind::Plain, (64, 1000, 10))?;
    let one = publisher(&rt, &fifodir);
    let other = publisher(&rt, &fifodir);
    let a = [Letter::of(b'a').unwrap_or(Letter::LEAST); 100];
    let b = [Letter::of(b'b').unwrap_or(Letter::LEAST); 100];
    let ((mut one, first), (other, second)) = send_both(&rt, &fifodir, one, other, &a, &b);
    let is_so = matches!((first, second), (Ok(0), Ok(100)) | (Ok(100), Ok(0)));
    let number = fifodir.front(&mut one);
    fifodir.leave(&rt, one);
    fifodir.leave(&rt, other);
    assert!(rt; is_so && number == 200, "two messages of a hundred letters");
    Ok(())
}
