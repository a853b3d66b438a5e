//! Posts: how many there may be, how much one catches up with, and a wait at three of them.
use crate::tests::fixtures::{run_of, word};
use crate::tests::passes::{Shared, new_sender, open};
use crate::tests::waits::{Deed, Doing, open_post};
use hub_letters::{Letter, Want};
use hub_record::{Enter, Event, Kind, SubError};
use hub_wait::{Post, SLICE, Span, Verdict, svwait};
use std::alloc::{AllocError, Global};
use std::process::Abort;
use std::sync::{Arc, Wait};
use std::test::Fail;

/// Opens a post and keeps it. An error says why there is none.
fn open_one_more<R: Abort + Wait + Enter>(
    rt: &R,
    fifodir: &Shared,
    posts: &mut Vec<Post>,
) -> Result<(), SubError> {
    let fifodir = Arc::try_clone(fifodir).expect(rt, "the fifodir");
    let post = Post::open(rt, fifodir, Want::Up, true)?;
    if let Err(refused) = posts.push(post) {
        refused.value.end(rt);
        return Err(SubError::Memory);
    }
    Ok(())
}

/// How many posts are opened until one is refused, and why it is.
fn open_all<R: Abort + Wait + Enter>(
    rt: &R,
    fifodir: &Shared,
    posts: &mut Vec<Post>,
) -> (u64, Result<(), SubError>) {
    for count in 0..2000 {
        let opened = open_one_more(rt, fifodir, posts);
        if opened.is_err() {
            return (count, opened);
        }
    }
    (2000, Ok(()))
}

/// Ends each of the posts.
pub(crate) fn end_all<R: Wait>(rt: &R, mut posts: Vec<Post>) {
    while let Some(post) = posts.pop() {
        post.end(rt);
    }
    posts.destroy_empty();
}

/// Whether 1,024 posts are opened and no more, as many again when those have ended, and none at a closed fifodir.
fn opens_1024<R: Abort + Wait + Enter>(rt: &R, alloc: Global) -> Result<bool, Fail> {
    let fifodir = open(alloc, Kind::Service, (64, 1000, 1_000_000))?;
    let mut supervisor = new_sender(rt, &fifodir);
    let mut posts = Vec::new(alloc);
    let first = open_all(rt, &fifodir, &mut posts);
    end_all(rt, posts);
    let mut posts = Vec::new(alloc);
    let second = open_all(rt, &fifodir, &mut posts);
    let closed = supervisor.close(rt);
    let third = open_all(rt, &fifodir, &mut posts);
    end_all(rt, posts);
    supervisor.leave(rt);
    let full = (1024, Err(SubError::Many));
    Ok(first == full && second == full && closed == Ok(()) && third == (0, Err(SubError::Closed)))
}

/// Whether a post that is opened, catches up and is ended uses one id, and publishes and closes nothing.
fn uses_one_id<R: Abort + Wait + Enter>(rt: &R, alloc: Global) -> Result<bool, Fail> {
    let letters = word(alloc, "s")?;
    let fifodir = open(alloc, Kind::Plain, (64, 1000, 2))?;
    let shared = Arc::try_clone(&fifodir)?;
    let mut supervisor = new_sender(rt, &fifodir);
    let mut post = open_post(rt, shared, Want::Up, true);
    post.catch_up(rt, &mut [Event::FILLER; SLICE]);
    post.end(rt);
    let sent = supervisor.send(rt, &letters);
    supervisor.leave(rt);
    let mut posts = Vec::new(alloc);
    let left = open_all(rt, &fifodir, &mut posts);
    end_all(rt, posts);
    Ok(sent == Ok(0) && left == (1, Err(SubError::Spent)))
}

/// How many letters are pending when a post catches up: none, one, slices of 256 and their neighbours, and as many as may
/// be.
static PENDING: [usize; 15] = [
    0, 1, 2, 255, 256, 257, 300, 511, 512, 513, 1025, 2048, 3841, 4095, 4096,
];

/// So many letters, of which the last starts the service.
fn letters_up(alloc: Global, count: usize) -> Result<Vec<Letter>, AllocError> {
    let mut letters = run_of(alloc, b's', count)?;
    if let (Some(last), Some(up)) = (letters.last_mut(), Letter::of(b'u')) {
        *last = up;
    }
    Ok(letters)
}

/// Whether a post that catches up once knows so many letters.
fn catches_up<R: Abort + Wait + Enter>(rt: &R, alloc: Global, count: usize) -> Result<bool, Fail> {
    let first = word(alloc, "s")?;
    let letters = letters_up(alloc, count)?;
    let fifodir = open(alloc, Kind::Service, (4096, 100_000, 10))?;
    let mut supervisor = new_sender(rt, &fifodir);
    let began = supervisor.send(rt, &first);
    let mut post = open_post(rt, fifodir, Want::Up, true);
    let sent = supervisor.send(rt, &letters);
    post.catch_up(rt, &mut [Event::FILLER; SLICE]);
    let watch = *post.watch();
    let mark = post.mark();
    post.end(rt);
    supervisor.leave(rt);
    let is_known = watch.at() == (count as u64).wrapping_add(1) && watch.met() == (count > 0);
    Ok(began == Ok(0) && sent == Ok(1) && mark == 1 && is_known && !watch.ended())
}

/// How many letters were pending where a post first didn't catch up with them.
fn first_left_behind<R: Abort + Wait + Enter>(
    rt: &R,
    alloc: Global,
) -> Result<Option<usize>, Fail> {
    for count in PENDING.iter() {
        if !catches_up(rt, alloc, *count)? {
            return Ok(Some(*count));
        }
    }
    Ok(None)
}

#[test]
fn posts_are_opened_and_catch_up(rt: HostRuntime) -> Result<(), Fail> {
    assert!(rt; opens_1024(&rt, rt.alloc())?);
    assert!(rt; uses_one_id(&rt, rt.alloc())?);
    assert_eq!(rt; first_left_behind(&rt, rt.alloc())?, None);
    Ok(())
}

/// A wait for three services, of which only the last starts, in the first turn: what the other two published before, the
/// verdict, and the numbers of the watches.
type Row = (Span, &'static str, Verdict, [u64; 3]);

static LAST_STARTS: [Row; 4] = [
    (Span::Any, "s", Verdict::Yes, [1, 1, 2]),
    (Span::All, "su", Verdict::Yes, [2, 2, 2]),
    (Span::All, "s", Verdict::Late, [1, 1, 2]),
    (Span::Any, "sO", Verdict::Yes, [2, 2, 2]),
];

/// The watches of these posts are at these numbers. The posts are ended.
fn end_at<R: Wait>(rt: &R, posts: [Post; 3]) -> [u64; 3] {
    let [one, other, last] = posts;
    let numbers = [one.watch().at(), other.watch().at(), last.watch().at()];
    one.end(rt);
    other.end(rt);
    last.end(rt);
    numbers
}

fn service(alloc: Global) -> Result<Shared, Fail> {
    open(alloc, Kind::Service, (64, 1000, 10))
}

fn last_starts<R: Abort + Wait + Enter>(rt: &R, alloc: Global, row: &Row) -> Result<bool, Fail> {
    let (span, before, verdict, numbers) = row;
    let before = word(alloc, before)?;
    let (began, letters) = (word(alloc, "s")?, word(alloc, "u")?);
    let (one, other, last) = (service(alloc)?, service(alloc)?, service(alloc)?);
    let mut first = new_sender(rt, &one);
    let mut second = new_sender(rt, &other);
    let mut supervisor = new_sender(rt, &last);
    let sent = (
        first.send(rt, &before),
        second.send(rt, &before),
        supervisor.send(rt, &began),
    );
    let mut pause = Doing::new(supervisor, Deed::Send("u"), letters, 1);
    let mut posts = [
        open_post(rt, one, Want::Up, true),
        open_post(rt, other, Want::Up, true),
        open_post(rt, last, Want::Up, true),
    ];
    let answer = svwait(rt, &mut posts, *span, 1, &mut pause);
    let found = end_at(rt, posts);
    first.leave(rt);
    second.leave(rt);
    let turns = pause.end(rt);
    Ok(sent == (Ok(0), Ok(0), Ok(0)) && answer == *verdict && found == *numbers && turns == 1)
}

#[test]
fn a_wait_hears_its_last_post(rt: HostRuntime) -> Result<(), Fail> {
    for row in LAST_STARTS.iter() {
        assert!(rt; last_starts(&rt, rt.alloc(), row)?);
    }
    Ok(())
}
