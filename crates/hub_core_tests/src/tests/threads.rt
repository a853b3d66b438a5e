use crate::tests::passes::{Reader, Sender, new_reader, new_sender, open};
use hub_letters::Letter;
use hub_record::{Event, Kind, Taken};
use std::alloc::{AllocError, Global};
use std::sync::Wait;
use std::test::Fail;
use std::thread;
use std::thread::Threads;

// The letters that a publisher sends, in their order: the alphabet over and over.
fn nth(first: u8, place: usize) -> Letter {
    let turn = (place % 26) as u8;
    Letter::of(first.wrapping_add(turn)).unwrap_or(Letter::LEAST)
}

// The messages after the first, of one to three letters each.
fn send_rest<R: Wait>(rt: &R, me: &mut Sender, first: u8) {
    let mut sent: usize = 1;
    for message in 1..200 {
        let next = [
            nth(first, sent),
            nth(first, sent.wrapping_add(1)),
            nth(first, sent.wrapping_add(2)),
        ];
        let count: usize = message % 3 + 1;
        if me.send(rt, &next[..count]).is_ok() {
            sent = sent.wrapping_add(count);
        }
    }
}

// Both publishers send at once, and one closes when both are through.
fn send_and_close<R: Threads + Wait + Sync>(rt: &R, one: &mut Sender, other: &mut Sender) {
    thread::join_mut(
        rt,
        &mut || { send_rest(rt, one, b'a') },
        &mut || { send_rest(rt, other, b'A') },
    );
    let _ = one.close(rt);
}

type Gathered = Result<Vec<Event>, AllocError>;

// What a ticket takes until the end.
fn gather<R: Wait>(rt: &R, alloc: Global, me: &mut Reader) -> Gathered {
    let mut all = Vec::new(alloc);
    for _ in rt.forever() {
        let mut out = [Event::FILLER; 7];
        match me.take(rt, &mut out) {
            Taken::Got(count) => all.extend_from_slice(&out[..count])?,
            Taken::Nothing => thread::yield_now(),
            Taken::End | Taken::Evicted => return Ok(all),
        }
    }
    unreachable!()
}

fn gather_both<R: Threads + Wait + Sync>(
    rt: &R,
    alloc: Global,
    early: &mut Reader,
    late: &mut Reader,
) -> (Gathered, Gathered) {
    thread::join_mut(
        rt,
        &mut || -> Gathered { gather(rt, alloc, early) },
        &mut || -> Gathered { gather(rt, alloc, late) },
    )
}

fn send_and_gather<R: Threads + Wait + Sync>(
    rt: &R,
    alloc: Global,
    senders: (&mut Sender, &mut Sender),
    readers: (&mut Reader, &mut Reader),
) -> (Gathered, Gathered) {
    let (one, other) = senders;
    let (early, late) = readers;
    let ((), gathered) = thread::join_mut(
        rt,
        &mut || { send_and_close(rt, one, other) },
        &mut || -> (Gathered, Gathered) { gather_both(rt, alloc, early, late) },
    );
    gathered
}

// How many letters of a publisher are in the list, if they are its own in their order; otherwise none.
fn in_order(list: &[Event], who: u64, first: u8) -> usize {
    let mut count: usize = 0;
    for event in list {
        if event.who == who {
            if event.letter != nth(first, count) {
                return 0;
            }
            count = count.wrapping_add(1);
        }
    }
    count
}

/// Whether both lists have each letter in its publisher's order, and the later list lacks the first event alone.
fn are_one_list(all: &[Event], some: &[Event]) -> bool {
    all.len() == 798
        && some.len() == 797
        && all.ends_with(some)
        && in_order(all, 1, b'a') == 399
        && in_order(all, 2, b'A') == 399
}

fn gathered_one_list(gathered: (Gathered, Gathered)) -> Result<bool, AllocError> {
    let (all, some) = (gathered.0?, gathered.1?);
    Ok(are_one_list(all.as_slice(), some.as_slice()))
}

#[test]
fn threads_see_one_list(rt: HostRuntime) -> Result<(), Fail> {
    let fifodir = open(rt.alloc(), Kind::Plain, (4096, 10_000, 10))?;
    let mut one = new_sender(&rt, &fifodir);
    let mut early = new_reader(&rt, &fifodir);
    let mut other = new_sender(&rt, &fifodir);
    let first = one.send(&rt, &[nth(b'a', 0)]);
    let mut late = new_reader(&rt, &fifodir);
    let second = other.send(&rt, &[nth(b'A', 0)]);
    let given = (one.me.number(), early.me.id(), late.me.mark());
    let gathered = send_and_gather(
        &rt,
        rt.alloc(),
        (&mut one, &mut other),
        (&mut early, &mut late),
    );
    let ends = (other.front(), early.me.next(), late.me.next());
    one.leave(&rt);
    other.leave(&rt);
    early.cancel(&rt);
    late.cancel(&rt);
    let is_one_list = gathered_one_list(gathered)?;
    assert!(rt;
        given == (1, 1, 1) && first == Ok(0) && second == Ok(1),
        "before the threads"
    );
    assert!(rt; ends == (798, 798, 798), "how many events there are");
    assert!(rt; is_one_list, "one list");
    Ok(())
}
