//! Measures how long a letter and its answer take between two threads that sleep in a receive.
ghost use Rattle.std.specs.Arc.{arc_value};
ghost use Rattle.hub_fifodir.specs.Passes.{IsPublisherOf, IsTicketOf};

use crate::limits;
use anyhow::{Result, anyhow};
use hub_fifodir::{Enter, Fifodir, Publisher, Ticket};
use hub_letters::Letter;
use hub_record::{Event, Kind, Policy, Taken};
use hub_wait::{Patience, receive};
use std::alloc::Global;
use std::rt::{Clock, Runtime};
use std::sync::{Arc, Wait};
use std::thread;
use std::thread::Threads;
use std::time::{Duration, Instant};

/// How many letters are answered.
const ROUNDS: u64 = 50_000;

/// The most turns of a receive, of a millisecond each.
const TURNS: u64 = 5_000;

/// Prints how long a round takes: one thread publishes a letter, and another one receives it and publishes its answer.
pub fn measure<R: Runtime + Wait + Enter + Threads + Copy + Send + 'static>(
    rt: &R,
    alloc: Global,
) -> Result<()> {
    let limits = limits(Policy::Hold)?;
    let letters = Arc::new(alloc, Fifodir::new(alloc, Kind::Plain, limits)?)?;
    let answers = Arc::new(alloc, Fifodir::new(alloc, Kind::Plain, limits)?)?;
    let (heard, told) = (Arc::try_clone(&letters)?, Arc::try_clone(&answers)?);
    let mut player = Player::open(rt, letters, answers)?;
    let took = play(rt, &mut player, told, heard);
    player.end(rt);
    println!(rt; "{} nanoseconds a round", took?.as_nanos() / ROUNDS as u128)?;
    Ok(())
}

/// How long all rounds take with another thread.
fn play<R: Runtime + Wait + Enter + Threads + Copy + Send + 'static>(
    rt: &R,
    player: &mut Player,
    told: Shared,
    heard: Shared,
) -> Result<Duration> {
    let own = *rt;
    let other = thread::spawn(rt, move || answer(&own, told, heard))?;
    player.hear(rt)?;
    let start = Instant::now(rt)?;
    for _ in 0..ROUNDS {
        player.tell(rt)?;
        player.hear(rt)?;
    }
    let took = start.elapsed(rt)?;
    other.join(rt)?;
    Ok(took)
}

/// Says that it is there, and answers each letter.
fn answer<R: Clock + Wait + Enter + Copy>(rt: &R, told: Shared, heard: Shared) -> Result<()> {
    let mut player = Player::open(rt, told, heard)?;
    let answered = answer_all(rt, &mut player);
    player.end(rt);
    answered
}

fn answer_all<R: Clock + Wait + Copy>(rt: &R, player: &mut Player) -> Result<()> {
    player.tell(rt)?;
    for _ in 0..ROUNDS {
        player.hear(rt)?;
        player.tell(rt)?;
    }
    Ok(())
}

type Shared = Arc<Fifodir, Global>;

/// It publishes to one fifodir, and receives what comes through the other one.
struct Player {
    told: Shared,
    heard: Shared,
    publisher: Publisher,
    ticket: Ticket,
    ghost publishes: { IsPublisherOf (arc_value told) publisher },
    ghost hears: { IsTicketOf (arc_value heard) ticket },
}

impl Player {
    fn open<R: Wait + Enter>(rt: &R, told: Shared, heard: Shared) -> Result<Player> {
        let ticket = heard.subscribe(rt)?;
        match told.publisher(rt) {
            Ok(publisher) => Ok(Player {
                told,
                heard,
                publisher,
                ticket,
            }),
            Err(error) => {
                heard.cancel(rt, ticket);
                Err(anyhow::Error::from(error))
            }
        }
    }

    fn tell<R: Wait>(&mut self, rt: &R) -> Result<()> {
        self.told
            .publish(rt, &mut self.publisher, &[Letter::LEAST])?;
        Ok(())
    }

    /// Sleeps until a letter comes, and takes it.
    fn hear<R: Clock + Wait + Copy>(&mut self, rt: &R) -> Result<()> {
        let mut pause = Patience::new(*rt);
        let mut out = [Event::FILLER];
        match receive(
            rt,
            &self.heard,
            &mut self.ticket,
            &mut out,
            TURNS,
            &mut pause,
        ) {
            Taken::Got(_) => Ok(()),
            Taken::Nothing | Taken::End | Taken::Evicted => Err(anyhow!("no letter came")),
        }
    }

    fn end<R: Wait>(self, rt: &R) {
        let Player {
            told,
            heard,
            publisher,
            ticket,
        } = self;
        told.leave(rt, publisher);
        heard.cancel(rt, ticket);
    }
}
