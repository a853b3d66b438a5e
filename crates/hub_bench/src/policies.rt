//! Measures what it costs that slow subscriptions are evicted: bursts through records of both policies, and through a
//! fifodir with many evicted subscriptions.
ghost use Rattle.hub_fifodir.specs.Passes.{IsPublisherOf, IsTicketOf};

use crate::{LISTENERS, Load, limits, rate, through_record};
use anyhow::Result;
use hub_fifodir::{Enter, Fifodir, Publisher, Ticket};
use hub_letters::Letter;
use hub_record::{Event, Kind, Policy};
use std::alloc::{AllocGlobal, Global};
use std::rt::{Clock, Runtime};
use std::sync::Wait;
use std::time::{Duration, Instant};

/// How often each time is measured. The least counts.
const ROUNDS: u32 = 10;

/// How many letters one message has, and how many a listener takes at once.
const BURST: usize = 256;

/// How many messages are published.
const BURSTS: u32 = 20_000;

/// How many letters they have in all.
const SENT: u64 = BURST as u64 * BURSTS as u64;

/// How many subscriptions are evicted beside the one that takes.
const EVICTED: u64 = 1_000;

/// Measures what it costs that a fifodir evicts.
pub fn measure<R: Runtime + AllocGlobal + Wait + Enter>(rt: &R, alloc: Global) -> Result<()> {
    for listeners in LISTENERS {
        records(rt, alloc, listeners)?;
    }
    fifodirs(rt, alloc)
}

/// Letters a second through a record that holds and through one that evicts, in turn.
fn records(rt: &impl Runtime, alloc: Global, listeners: u64) -> Result<()> {
    let message = vec![in alloc; Letter::LEAST; BURST]?;
    let mut load = Load {
        listeners,
        message: &message,
        bursts: BURSTS,
        policy: Policy::Hold,
    };
    let mut holding = Duration::MAX;
    let mut evicting = Duration::MAX;
    for _ in 0..ROUNDS {
        load.policy = Policy::Hold;
        holding = holding.min(through_record(rt, alloc, load)?);
        load.policy = Policy::Evict;
        evicting = evicting.min(through_record(rt, alloc, load)?);
    }
    let (held, evicted) = (rate(SENT, holding), rate(SENT, evicting));
    println!(rt;
        "{listeners} listeners, bursts of {BURST}: {held} letters a second held, \
         {evicted} where slow ones are evicted"
    )?;
    Ok(())
}

/// Letters a second through a fifodir with one listener, and through one with evicted subscriptions too, in turn.
fn fifodirs<R: Runtime + Wait + Enter>(rt: &R, alloc: Global) -> Result<()> {
    let mut alone = Duration::MAX;
    let mut beside = Duration::MAX;
    for _ in 0..ROUNDS {
        alone = alone.min(through_fifodir(rt, alloc, 0)?);
        beside = beside.min(through_fifodir(rt, alloc, EVICTED)?);
    }
    let (alone, beside) = (rate(SENT, alone), rate(SENT, beside));
    println!(rt;
        "1 listener of a fifodir: {alone} letters a second, \
         {beside} beside {EVICTED} evicted subscriptions"
    )?;
    Ok(())
}

/// The time to publish each burst and to take it, beside so many subscriptions that are evicted.
fn through_fifodir<R: Clock + Wait + Enter>(
    rt: &R,
    alloc: Global,
    evicted: u64,
) -> Result<Duration> {
    let message = vec![in alloc; Letter::LEAST; BURST]?;
    let fifodir = Fifodir::new(alloc, Kind::Plain, limits(Policy::Evict)?)?;
    let mut publisher = fifodir.publisher(rt)?;
    let took = beside(rt, &fifodir, &mut publisher, &message, evicted);
    fifodir.leave(rt, publisher);
    took
}

/// Subscribes so often and once more, and measures with the last subscription. Nobody takes from the others, so the first
/// messages evict them.
fn beside<R: Clock + Wait + Enter>(
    rt: &R,
    fifodir: &Fifodir,
    publisher: &mut Publisher,
    message: &[Letter],
    others: u64,
) -> Result<Duration>
    requires { IsPublisherOf fifodir.now publisher.old }
    ensures { IsPublisherOf fifodir.now publisher.new }
{
    let mut ticket = fifodir.subscribe(rt)?;
    let took = if others == 0 {
        pass_by(rt, fifodir, publisher, &mut ticket, message)
    } else {
        beside(rt, fifodir, publisher, message, others - 1)
    };
    fifodir.cancel(rt, ticket);
    took
}

fn pass_by<R: Clock + Wait>(
    rt: &R,
    fifodir: &Fifodir,
    publisher: &mut Publisher,
    ticket: &mut Ticket,
    message: &[Letter],
) -> Result<Duration>
    requires publisher { IsPublisherOf fifodir.now publisher.old }
    requires ticket { IsTicketOf fifodir.now ticket.old }
    ensures publisher { IsPublisherOf fifodir.now publisher.new }
    ensures ticket { IsTicketOf fifodir.now ticket.new }
{
    let mut out = [Event::FILLER; BURST];
    let start = Instant::now(rt)?;
    'bursts: for _ in 0..BURSTS {
        fifodir.publish(rt, publisher, message)?;
        fifodir.take_into(rt, ticket, &mut out);
    }
    Ok(start.elapsed(rt)?)
}
