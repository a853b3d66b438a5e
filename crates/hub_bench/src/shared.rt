//! Measures a fifodir: looks without its lock, compared with a bare load and a mutex, and publishing to listeners on
//! threads.
ghost use Rattle.hub_fifodir.specs.Passes.{IsPublisherOf, IsTicketOf};

use crate::{limits, rate};
use anyhow::Result;
use hub_fifodir::{Enter, Fifodir, Publisher, Ticket};
use hub_letters::Letter;
use hub_record::{Event, Kind, Policy, PubError, Record, Taken};
use std::alloc::{AllocGlobal, Global};
use std::rt::Runtime;
use std::sync::atomic::{AtomicU64, Ordering};
use std::sync::{Arc, Mutex, Wait};
use std::thread;
use std::thread::{JoinHandle, Threads};
use std::time::{Duration, Instant};

/// How many looks are taken of each kind.
const LOOKS: u64 = 200_000_000;

/// How many letters one message has, and how many a listener takes at once.
const BURST: usize = 256;

/// How many messages are published.
const BURSTS: u64 = 20_000;

/// Looks a second: at a bare word, at a fifodir's status and front, and at the same record behind a mutex.
pub fn looks<R: Runtime + Wait + Enter>(rt: &R, alloc: Global) -> Result<()> {
    let word = AtomicU64::new(69);
    let start = Instant::now(rt)?;
    let mut all = 0_u64;
    for _ in 0..LOOKS {
        all = all.wrapping_add(word.load(Ordering::SeqCst));
    }
    let bare = start.elapsed(rt)?;
    let fifodir = Fifodir::new(alloc, Kind::Plain, limits(Policy::Hold)?)?;
    let mut ticket = fifodir.subscribe(rt)?;
    let looked = look_by(rt, &fifodir, &mut ticket, &mut all);
    fifodir.cancel(rt, ticket);
    let (status, front) = looked?;
    let behind = behind_a_mutex(rt, alloc, &mut all)?;
    println!(rt;
        "looks a second: bare load {}, status {}, front {}, mutex {} ({all})",
        rate(LOOKS, bare),
        rate(LOOKS, status),
        rate(LOOKS, front),
        rate(LOOKS, behind)
    )?;
    Ok(())
}

/// How long the looks at the status take, and those at the front.
fn look_by<R: Runtime>(
    rt: &R,
    fifodir: &Fifodir,
    ticket: &mut Ticket,
    all: &mut u64,
) -> Result<(Duration, Duration)>
    requires { IsTicketOf fifodir.now ticket.old }
    ensures { IsTicketOf fifodir.now ticket.new }
{
    let start = Instant::now(rt)?;
    *all = all.wrapping_add(statuses(fifodir, ticket));
    let status = start.elapsed(rt)?;
    let start = Instant::now(rt)?;
    *all = all.wrapping_add(fronts(fifodir, ticket));
    let front = start.elapsed(rt)?;
    Ok((status, front))
}

fn statuses(fifodir: &Fifodir, ticket: &mut Ticket) -> u64
    requires { IsTicketOf fifodir.now ticket.old }
    ensures { IsTicketOf fifodir.now ticket.new }
{
    let mut all = 0_u64;
    for _look in 0..LOOKS {
        all = all.wrapping_add(fifodir.status(ticket).number);
    }
    all
}

fn fronts(fifodir: &Fifodir, ticket: &mut Ticket) -> u64
    requires { IsTicketOf fifodir.now ticket.old }
    ensures { IsTicketOf fifodir.now ticket.new }
{
    let mut all = 0_u64;
    for _look in 0..LOOKS {
        all = all.wrapping_add(fifodir.front(ticket));
    }
    all
}

fn behind_a_mutex<R: Runtime + Wait>(rt: &R, alloc: Global, all: &mut u64) -> Result<Duration> {
    let record = Mutex::new(Record::new(alloc, Kind::Plain, limits(Policy::Hold)?)?);
    let start = Instant::now(rt)?;
    for _ in 0..LOOKS {
        *all = all.wrapping_add(record.lock(rt).end());
    }
    Ok(start.elapsed(rt)?)
}

/// Threads that take what is published, each of which adds itself to the count once it has subscribed.
fn start_listeners<R: Runtime + Wait + Enter + Threads + Sync + Send + 'static>(
    rt: &R,
    alloc: Global,
    fifodir: &Arc<Fifodir, Global>,
    subscribed: &Arc<AtomicU64, Global>,
    listeners: u64,
) -> Result<Vec<JoinHandle<u64>>> {
    let mut running = Vec::new(alloc);
    for _ in 0..listeners {
        let (theirs, count) = (Arc::try_clone(fifodir)?, Arc::try_clone(subscribed)?);
        let own = rt.clone()?;
        running.push(thread::spawn(rt, move || -> u64 { took(&own, &theirs, &count) })?)?;
    }
    Ok(running)
}

fn wait_for<R: Wait>(rt: &R, subscribed: &AtomicU64, listeners: u64) {
    'subscribing: for _ in rt.forever() {
        if subscribed.load(Ordering::SeqCst) >= listeners {
            break;
        }
        thread::yield_now();
    }
}

/// How many letters the listeners took together.
fn join_all<R: Threads>(rt: &R, running: Vec<JoinHandle<u64>>) -> u64 {
    let mut taken = 0_u64;
    for listener in running {
        taken = taken.saturating_add(listener.join(rt));
    }
    taken
}

/// Letters a second from one publisher to so many listeners, each on a thread of its own.
pub fn threads<R: Runtime + AllocGlobal + Wait + Enter + Threads + Sync + Send + 'static>(
    rt: &R,
    alloc: Global,
    listeners: u64,
) -> Result<()> {
    let fifodir = Fifodir::new(alloc, Kind::Plain, limits(Policy::Hold)?)?;
    let fifodir = Arc::new(alloc, fifodir)?;
    let subscribed = Arc::new(alloc, AtomicU64::new(0))?;
    let running = start_listeners(rt, alloc, &fifodir, &subscribed, listeners)?;
    wait_for(rt, &subscribed, listeners);
    let start = Instant::now(rt)?;
    publish_all(rt, alloc, &fifodir)?;
    let taken = join_all(rt, running);
    let elapsed = start.elapsed(rt)?;
    println!(rt;
        "{listeners} listeners on threads: {} letters a second published, {} taken",
        rate(BURSTS * BURST as u64, elapsed),
        rate(taken, elapsed)
    )?;
    Ok(())
}

fn publish_all<R: Wait + Enter>(rt: &R, alloc: Global, fifodir: &Fifodir) -> Result<()> {
    let message = vec![in alloc; Letter::LEAST; BURST]?;
    let mut publisher = fifodir.publisher(rt)?;
    let published = publish_by(rt, fifodir, &mut publisher, &message);
    let _ = fifodir.close(rt, &mut publisher);
    fifodir.leave(rt, publisher);
    published
}

fn publish_by<R: Wait>(
    rt: &R,
    fifodir: &Fifodir,
    publisher: &mut Publisher,
    message: &[Letter],
) -> Result<()>
    requires { IsPublisherOf fifodir.now publisher.old }
    ensures { IsPublisherOf fifodir.now publisher.new }
{
    let mut left = BURSTS;
    'messages: for _ in rt.forever() {
        match fifodir.publish(rt, publisher, message) {
            Ok(_) => left = left.saturating_sub(1),
            Err(PubError::Full) => thread::yield_now(),
            Err(error) => return Err(anyhow::Error::from(error)),
        }
        if left == 0 {
            break;
        }
    }
    Ok(())
}

/// How many letters a listener took until the end.
fn took<R: Wait + Enter>(rt: &R, fifodir: &Fifodir, subscribed: &AtomicU64) -> u64 {
    let Ok(mut ticket) = fifodir.subscribe(rt) else {
        return 0;
    };
    subscribed.fetch_add(1, Ordering::SeqCst);
    let mut out = [Event::FILLER; BURST];
    let mut all = 0_u64;
    'takes: for _ in rt.forever() {
        match fifodir.take_into(rt, &mut ticket, &mut out) {
            Taken::Got(count) => all = all.saturating_add(count as u64),
            Taken::Nothing => thread::yield_now(),
            Taken::End | Taken::Evicted => break,
        }
    }
    fifodir.cancel(rt, ticket);
    all
}
