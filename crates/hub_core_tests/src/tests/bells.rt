//! The bell of a fifodir. While somebody waits for changes of that fifodir, it rings after each change, and otherwise never.
use crate::tests::fixtures::word;
use crate::tests::passes::{Sender, Shared, new_reader, new_sender};
use crate::tests::waits::open_post;
use hub_fifodir::{Bell, Enter, Fifodir, Looked};
use hub_letters::{Letter, Want};
use hub_record::{Kind, Limits};
use hub_wait::{Go, Patience, Pause, Span, svwait};
use std::alloc::Global;
use std::process::Abort;
use std::rt::Clock;
use std::sync::{Arc, Wait};
use std::test::Fail;

/// A fifodir whose changes ring this bell.
fn open_with_bell(alloc: Global, bell: &Arc<Bell, Global>) -> Result<Shared, Fail> {
    let limits = Limits::of(64, 10_000, 100).ok_or("no limits")?;
    let bell = Arc::try_clone(bell)?;
    let fifodir = Fifodir::with_bell(alloc, Kind::Plain, limits, bell)?;
    Ok(Arc::new(alloc, fifodir)?)
}

/// How often the bell of two fifodirs has rung: after a letter that nobody waits for; for a waiter of the first one, after a
/// letter there and after one at the second; if one of two waiters is left, after a letter and after a close; and at the second
/// one, after a letter that somebody waits for and one that nobody waits for.
fn rings_of_two<R: Abort + Wait + Enter>(rt: &R, alloc: Global) -> Result<[u64; 7], Fail> {
    let letters = word(alloc, "a")?;
    let bell = Arc::new(alloc, Bell::new())?;
    let one = open_with_bell(alloc, &bell)?;
    let other = open_with_bell(alloc, &bell)?;
    Ok(rings_at(rt, &bell, &one, &other, &letters))
}

fn rings_at<R: Abort + Wait + Enter>(
    rt: &R,
    bell: &Bell,
    one: &Shared,
    other: &Shared,
    letters: &[Letter],
) -> [u64; 7] {
    let mut here = new_sender(rt, one);
    let mut there = new_sender(rt, other);
    let _ = here.send(rt, letters);
    let unheard = bell.rings();
    let first = one.admit();
    let _ = here.send(rt, letters);
    let heard = bell.rings();
    let _ = there.send(rt, letters);
    let elsewhere = bell.rings();
    let second = one.admit();
    one.dismiss(first);
    let _ = here.send(rt, letters);
    let by_one = bell.rings();
    let _ = here.close(rt);
    let closed = bell.rings();
    one.dismiss(second);
    let waiter = other.admit();
    let _ = there.send(rt, letters);
    let at_other = bell.rings();
    other.dismiss(waiter);
    let _ = there.send(rt, letters);
    let left = bell.rings();
    here.leave(rt);
    there.leave(rt);
    [unheard, heard, elsewhere, by_one, closed, at_other, left]
}

/// How often the bell of a fifodir has rung after a letter each: after an await that is over, while a post is there, and after
/// its end.
fn rings_for_each<R: Abort + Wait + Enter + Clock + Copy>(
    rt: &R,
    alloc: Global,
) -> Result<[u64; 3], Fail> {
    let letters = word(alloc, "a")?;
    let bell = Arc::new(alloc, Bell::new())?;
    let fifodir = open_with_bell(alloc, &bell)?;
    let shared = Arc::try_clone(&fifodir)?;
    let mut reader = new_reader(rt, &fifodir);
    let mut sender = new_sender(rt, &fifodir);
    let _ = reader.await_more(rt, 1, &mut Patience::new(*rt));
    let _ = sender.send(rt, &letters);
    let awaited = bell.rings();
    let post = open_post(rt, shared, Want::Up, true);
    let _ = sender.send(rt, &letters);
    let posted = bell.rings();
    post.end(rt);
    let _ = sender.send(rt, &letters);
    let ended = bell.rings();
    reader.cancel(rt);
    sender.leave(rt);
    Ok([awaited, posted, ended])
}

/// How often the bell of a fifodir has rung while somebody waits for 1,100 letters, and after one that nobody waits for.
fn rings_of_a_long_wait<R: Abort + Wait + Enter>(rt: &R, alloc: Global) -> Result<[u64; 2], Fail> {
    let letters = word(alloc, "a")?;
    let bell = Arc::new(alloc, Bell::new())?;
    let fifodir = open_with_bell(alloc, &bell)?;
    let mut sender = new_sender(rt, &fifodir);
    let waiter = fifodir.admit();
    for _ in 0..1_100 {
        let _ = sender.send(rt, &letters);
    }
    let heard = bell.rings();
    fifodir.dismiss(waiter);
    let _ = sender.send(rt, &letters);
    sender.leave(rt);
    Ok([heard, bell.rings()])
}

/// How often the bell of a fifodir has rung for somebody after a letter and the close of a publisher. So many came and went before
/// it.
fn rings_of_a_later_one<R: Abort + Wait + Enter>(
    rt: &R,
    alloc: Global,
    before: u64,
) -> Result<u64, Fail> {
    let letters = word(alloc, "a")?;
    let bell = Arc::new(alloc, Bell::new())?;
    let fifodir = open_with_bell(alloc, &bell)?;
    for _ in 0..before {
        new_sender(rt, &fifodir).leave(rt);
    }
    let waiter = fifodir.admit();
    let mut sender = new_sender(rt, &fifodir);
    let _ = sender.send(rt, &letters);
    let _ = sender.close(rt);
    sender.leave(rt);
    fifodir.dismiss(waiter);
    Ok(bell.rings())
}

/// How often the bell of a fifodir has rung after an await in whose only pause a letter comes.
fn rings_of_an_await<R: Abort + Wait + Enter>(rt: &R, alloc: Global) -> Result<u64, Fail> {
    let letters = word(alloc, "a")?;
    let bell = Arc::new(alloc, Bell::new())?;
    let fifodir = open_with_bell(alloc, &bell)?;
    let sender = new_sender(rt, &fifodir);
    let mut reader = new_reader(rt, &fifodir);
    let mut pause = Hearing::new(sender, letters);
    let _ = reader.await_more(rt, 3, &mut pause);
    reader.cancel(rt);
    let _ = pause.end(rt);
    Ok(bell.rings())
}

/// What the pauses of three turns are told: how often the bell had rung before the last look and how often it has by now, and how
/// many turns are left.
type Told = [(u64, u64, u64); 3];

/// Before the first turn the bell has rung once, and in each pause it rings once more.
const TOLD: Told = [(1, 1, 3), (2, 2, 2), (3, 3, 1)];

/// A pause that sends a letter at each call, and notes what it was told.
struct Hearing {
    sender: Sender,
    letters: Vec<Letter>,
    calls: usize,
    told: Told,
}

impl Pause for Hearing {
    fn pause<R: Wait>(&mut self, _rt: &R) -> Go {
        Go::Again
    }

    fn pause_at<R: Wait>(&mut self, rt: &R, bell: &Bell, looked: Looked, left: u64) -> Go {
        if let Some(told) = self.told.get_mut(self.calls) {
            *told = (looked.rings(), bell.rings(), left);
        }
        self.calls = self.calls.wrapping_add(1);
        let _ = self.sender.send(rt, &self.letters);
        Go::Again
    }
}

impl Hearing {
    fn new(sender: Sender, letters: Vec<Letter>) -> Hearing {
        Hearing {
            sender,
            letters,
            calls: 0,
            told: [(0, 0, 0); 3],
        }
    }

    fn end<R: Wait>(self, rt: &R) -> Told {
        let Hearing {
            sender,
            letters: _,
            calls: _,
            told,
        } = self;
        sender.leave(rt);
        told
    }
}

/// What the pauses of a wait are told. The bell rings before the first post of the wait is opened, and in each pause.
fn told_to_a_wait<R: Abort + Wait + Enter>(rt: &R, alloc: Global) -> Result<Told, Fail> {
    let letters = word(alloc, "a")?;
    let bell = Arc::new(alloc, Bell::new())?;
    let one = open_with_bell(alloc, &bell)?;
    let shared = Arc::try_clone(&one)?;
    let other = open_with_bell(alloc, &bell)?;
    let last = open_post(rt, shared, Want::Up, true);
    let mut sender = new_sender(rt, &one);
    let _ = sender.send(rt, &letters);
    let first = open_post(rt, other, Want::Up, true);
    let mut pause = Hearing::new(sender, letters);
    let mut posts = [first, last];
    svwait(rt, &mut posts, Span::All, 3, &mut pause);
    let [first, last] = posts;
    first.end(rt);
    last.end(rt);
    Ok(pause.end(rt))
}

/// What the pauses of an await are told, while the bell rings for another fifodir that shares it.
fn told_to_an_await<R: Abort + Wait + Enter>(rt: &R, alloc: Global) -> Result<Told, Fail> {
    let letters = word(alloc, "a")?;
    let bell = Arc::new(alloc, Bell::new())?;
    let one = open_with_bell(alloc, &bell)?;
    let other = open_with_bell(alloc, &bell)?;
    let waiter = one.admit();
    let mut sender = new_sender(rt, &one);
    let _ = sender.send(rt, &letters);
    let mut reader = new_reader(rt, &other);
    let mut pause = Hearing::new(sender, letters);
    let _ = reader.await_more(rt, 3, &mut pause);
    reader.cancel(rt);
    one.dismiss(waiter);
    Ok(pause.end(rt))
}

#[test]
fn a_pause_is_told_how_often_the_bell_rang(rt: HostRuntime) -> Result<(), Fail> {
    assert_eq!(rt; told_to_a_wait(&rt, rt.alloc())?, TOLD);
    assert_eq!(rt; told_to_an_await(&rt, rt.alloc())?, TOLD);
    Ok(())
}

#[test]
fn a_bell_rings_for_those_who_wait(rt: HostRuntime) -> Result<(), Fail> {
    assert_eq!(rt; rings_of_two(&rt, rt.alloc())?, [0, 1, 1, 2, 3, 4, 4]);
    Ok(())
}

#[test]
fn who_has_waited_hears_no_bell(rt: HostRuntime) -> Result<(), Fail> {
    assert_eq!(rt; rings_for_each(&rt, rt.alloc())?, [0, 1, 1]);
    assert_eq!(rt; rings_of_an_await(&rt, rt.alloc())?, 1);
    Ok(())
}

#[test]
fn a_bell_rings_after_many_rings_and_publishers(rt: HostRuntime) -> Result<(), Fail> {
    assert_eq!(rt; rings_of_a_long_wait(&rt, rt.alloc())?, [1_100, 1_100]);
    for before in 0..40 {
        assert_eq!(rt;
            rings_of_a_later_one(&rt, rt.alloc(), before)?,
            2,
            "after {before} publishers"
        );
    }
    Ok(())
}
