//! A listener on a thread of its own hears the letters of two publishers, and sleeps between them.
#![tactic(auto)]

use anyhow::{Result, anyhow};
use ftrighub::{
    Enter, Event, Fifodir, Kind, Letter, Limits, Patience, Post, Span, Taken, Want, receive, svwait,
};
use std::alloc::AllocGlobal;
use std::rt::Clock;
use std::sync::{Arc, Wait};
use std::thread;
use std::time::Duration;

fn main(rt: HostRuntime) -> Result<()> {
    let limits = Limits::of(64, 1_000, 10).ok_or_else(|| anyhow!("no such limits"))?;
    let log = Arc::new(rt.alloc(), Fifodir::new(rt.alloc(), Kind::Plain, limits)?)?;
    let web = Arc::new(rt.alloc(), Fifodir::new(rt.alloc(), Kind::Plain, limits)?)?;
    let (own, heard) = (Arc::try_clone(&log)?, Arc::try_clone(&web)?);
    let listener = thread::spawn(&rt, move || listen(&rt, &own, &heard))?;
    let mut posts = [Post::open(&rt, log, Want::Ready, true)?];
    let verdict = svwait(&rt, &mut posts, Span::All, 5_000, &mut Patience::new(rt));
    let [post] = posts;
    post.end(&rt);
    println!(rt; "ready: {verdict:?}")?;
    let (first, second) = (Arc::try_clone(&web)?, Arc::try_clone(&web)?);
    let first = thread::spawn(&rt, move || publish(&rt, &first, Letter::LEAST, 3))?;
    let second = thread::spawn(&rt, move || publish(&rt, &second, Letter::LEAST, 4))?;
    println!(rt; "published: {}, {}", first.join(&rt)?, second.join(&rt)?)?;
    println!(rt; "heard: {}", listener.join(&rt)?)?;
    Ok(())
}

/// Publishes a letter so many times, ten milliseconds apart. Returns how often it was accepted.
fn publish<R: Clock + Wait + Enter>(
    rt: &R,
    web: &Fifodir,
    letter: Letter,
    times: u64,
) -> Result<u64> {
    let mut publisher = web.publisher(rt)?;
    let mut accepted = 0_u64;
    for _ in 0..times {
        thread::sleep(rt, Duration::from_millis(10));
        let sent = web.publish(rt, &mut publisher, &[letter]);
        accepted = accepted.saturating_add(u64::from(sent.is_ok()));
    }
    web.leave(rt, publisher);
    Ok(accepted)
}

/// Says that it is ready, and takes seven letters as they come. Returns how many came.
fn listen<R: Clock + Wait + Enter + Copy>(rt: &R, log: &Fifodir, web: &Fifodir) -> Result<u64> {
    let mut ticket = web.subscribe(rt)?;
    let told = publish(rt, log, Letter::of(b'U').unwrap_or(Letter::LEAST), 1);
    let (mut heard, mut out) = (0_u64, [Event::FILLER]);
    for _ in 0..7 {
        let mut pause = Patience::new(*rt);
        let taken = receive(rt, web, &mut ticket, &mut out, 5_000, &mut pause);
        heard = heard.saturating_add(u64::from(taken == Taken::Got(1)));
    }
    web.cancel(rt, ticket);
    told.map(|_| heard)
}
