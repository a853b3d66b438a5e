//! Measures the layers of the hub and plain forms of the same work, so that the ratios hold on any machine.
//!
//! `record` measures how many letters a second pass through a record, `fifodir` looks and publishing among threads,
//! `policies` what it costs that slow subscriptions are evicted, and `turns` how long a letter and its answer take between
//! two threads. `echo` isn't a measure but a contender: a program built like the hub that only writes each line back.
#![tactic(auto)]

mod echo;
mod policies;
mod shared;
mod turns;

use anyhow::{Result, anyhow};
use hub_letters::Letter;
use hub_record::{Enter, Event, Kind, Limits, NoId, Policy, Record};
use std::alloc::{AllocGlobal, Global};
use std::io::{Read, Write};
use std::process::ExitCode;
use std::rt::{Clock, Runtime};
use std::sync::Wait;
use std::thread::Threads;
use std::time::{Duration, Instant};
use std::{env, result};

/// How many events may be pending.
const WAITING: usize = 4096;

/// The most events and ids of a record that is measured.
const MOST: u64 = 1_000_000_000_000;

/// The length of each kind of burst, and how many bursts are sent.
const MEASURES: [(usize, u32); 2] = [(1, 1_000_000), (256, 20_000)];

/// The numbers of listeners to measure with.
const LISTENERS: [u64; 3] = [1, 4, 16];

/// Bursts of a message, how many listeners take each, and what happens to one that doesn't.
#[derive(Clone, Copy)]
struct Load<'a> {
    listeners: u64,
    message: &'a [Letter],
    bursts: u32,
    policy: Policy,
}

fn main(rt: HostRuntime) -> ExitCode {
    match run(&rt, rt.alloc(), rt.stdin(), &mut rt.stdout()) {
        Ok(()) => ExitCode::SUCCESS,
        Err(fault) => {
            let _ = eprintln!(rt; "hub_bench: {fault}");
            ExitCode::FAILURE
        }
    }
}

fn run<R: Read + Drop, W: Write>(
    rt: &(impl Runtime + AllocGlobal + Wait + Enter + Threads + Copy + Sync + Send + 'static),
    alloc: Global,
    input: R,
    output: &mut W,
) -> Result<()> {
    let word = env::args(rt)?.nth(1);
    match word.as_ref().map(|word| word.as_str()) {
        Some("record") => measure_record(rt, alloc),
        Some("fifodir") => measure_fifodir(rt, alloc),
        Some("policies") => policies::measure(rt, alloc),
        Some("turns") => turns::measure(rt, alloc),
        Some("echo") => echo::echo(alloc, input, output),
        _ => {
            println!(rt; "usage: hub_bench record|fifodir|policies|turns|echo")?;
            Ok(())
        }
    }
}

fn measure_fifodir(
    rt: &(impl Runtime + AllocGlobal + Wait + Enter + Threads + Sync + Send + 'static),
    alloc: Global,
) -> Result<()> {
    shared::looks(rt, alloc)?;
    for listeners in LISTENERS {
        shared::threads(rt, alloc, listeners)?;
    }
    Ok(())
}

fn measure_record(rt: &impl Runtime, alloc: Global) -> Result<()> {
    for (burst, bursts) in MEASURES {
        let message = vec![in alloc; Letter::LEAST; burst]?;
        for listeners in LISTENERS {
            let sent = (burst as u64).saturating_mul(bursts as u64);
            let load = Load {
                listeners,
                message: &message,
                bursts,
                policy: Policy::Hold,
            };
            let record = through_record(rt, alloc, load)?;
            let vector = through_vector(rt, alloc, load)?;
            println!(rt;
                "{listeners} listeners, bursts of {burst}: {} letters a second, through a vector {}",
                rate(sent, record),
                rate(sent, vector)
            )?;
        }
    }
    let message = vec![in alloc; Letter::LEAST; 256]?;
    for listeners in LISTENERS {
        let load = Load {
            listeners,
            message: &message,
            bursts: 2_000,
            policy: Policy::Hold,
        };
        let took = publishing_alone(rt, alloc, load)?;
        println!(rt;
            "{listeners} listeners, publishing alone: {} letters a second",
            rate(16 * 256 * 2_000, took)
        )?;
    }
    Ok(())
}

/// The rate in letters, or looks, a second.
fn rate(letters: u64, took: Duration) -> u128 {
    letters as u128 * 1_000_000 / took.as_micros().max(1)
}

/// The limits of what is measured.
fn limits(policy: Policy) -> Result<Limits> {
    let limits = Limits::of(WAITING as u64, MOST, MOST).ok_or_else(|| anyhow!("no limits"))?;
    Ok(limits.with(policy))
}

/// A record with the subscriptions of a load, and room for what one of them takes at once.
#[derive(Drop)]
struct Crowd {
    record: Record,
    ids: Vec<u64>,
    out: Vec<Event>,
}

impl Crowd {
    fn new(alloc: Global, load: Load<'_>, room: usize) -> Result<Crowd> {
        let out = vec![in alloc; Event::FILLER; room]?;
        let mut record = Record::new(alloc, Kind::Plain, limits(load.policy)?)?;
        let mut ids = Vec::new(alloc);
        for _ in 0..load.listeners {
            let (id, _mark) = record.subscribe()?;
            ids.push(id)?;
        }
        Ok(Crowd { record, ids, out })
    }

    /// Takes with each listener.
    fn take(&mut self) -> result::Result<(), NoId> {
        for id in &self.ids {
            self.record.take_into(*id, &mut self.out)?;
        }
        Ok(())
    }

    /// Publishes each burst, and takes it with each listener.
    fn pass(&mut self, load: Load<'_>) -> Result<()> {
        for _ in 0..load.bursts {
            self.record.publish(1, load.message)?;
            self.take()?;
        }
        Ok(())
    }

    /// The time to fill the ring with 16 messages.
    fn fill(&mut self, rt: &impl Clock, message: &[Letter]) -> Result<Duration> {
        let start = Instant::now(rt)?;
        for _ in 0..16 {
            self.record.publish(1, message)?;
        }
        Ok(start.elapsed(rt)?)
    }
}

/// The time to publish each burst and to take it with each listener.
fn through_record(rt: &impl Clock, alloc: Global, load: Load<'_>) -> Result<Duration> {
    let mut crowd = Crowd::new(alloc, load, load.message.len())?;
    let start = Instant::now(rt)?;
    crowd.pass(load)?;
    Ok(start.elapsed(rt)?)
}

/// The same with a vector and an index for each listener. Nothing is numbered, bounded or refused.
fn through_vector(rt: &impl Clock, alloc: Global, load: Load<'_>) -> Result<Duration> {
    let mut events: Vec<Event> = Vec::with_capacity(alloc, WAITING)?;
    let mut nexts = vec![in alloc; 0_usize; load.listeners as usize]?;
    let mut out = vec![in alloc; Event::FILLER; load.message.len()]?;
    let start = Instant::now(rt)?;
    for _ in 0..load.bursts {
        for letter in load.message {
            events.push(Event {
                who: 1,
                letter: *letter,
            })?;
        }
        for next in nexts.iter_mut() {
            *next = copy_events(&events, *next, &mut out);
        }
        events.clear();
        for next in nexts.iter_mut() {
            *next = 0;
        }
    }
    Ok(start.elapsed(rt)?)
}

/// Copies the events from a place on, as many as fit, and returns the next place.
fn copy_events(events: &[Event], from: usize, out: &mut [Event]) -> usize {
    let from = from.min(events.len());
    let count = (events.len() - from).min(out.len());
    out[..count].copy_from_slice(&events[from..from + count]);
    from + count
}

/// The time to fill the ring with 16 messages, as often as the load has bursts. The listeners then empty it, and that time
/// doesn't count.
fn publishing_alone(rt: &impl Clock, alloc: Global, load: Load<'_>) -> Result<Duration> {
    let mut crowd = Crowd::new(alloc, load, WAITING)?;
    let mut total = Duration::ZERO;
    for _ in 0..load.bursts {
        let took = crowd.fill(rt, load.message)?;
        total = total.checked_add(took).unwrap_or(total);
        crowd.take()?;
    }
    Ok(total)
}
