//! Threads that serve sessions, and the one that puts others in the place of those that have left.
ghost use Rattle.std.specs.Prelude.{◌≡◌, IfOk, IsSome, vec_len};
ghost use Rattle.hub_server.specs.Crews.{HasWorked, IsCrew};
ghost use Rattle.hub_server.specs.Sessions.{IsEnded};

use crate::bell::Bell;
use crate::connection::Connection;
use crate::crew::{Crew, Keeper, Place};
use crate::desks::Desks;
use crate::door::SharedDoor;
use crate::gate::Gate;
use crate::journal::Journal;
use crate::lasting::serve_on;
use crate::seat::Seat;
use hub_front::Enter;
use hub_io::{Sink, Source};
use hub_reports::{ServeError, spawn};
use std::alloc::{AllocError, Global};
use std::io::{Read, Write};
use std::rt::Clock;
use std::sync::atomic::Ordering;
use std::sync::{Arc, OnceLock, Wait};
use std::thread::{JoinHandle, Threads};

/// What each worker has a share of.
#[derive(Drop)]
struct Means<C, O: Drop, J: Drop> {
    alloc: Global,
    desks: O,
    door: SharedDoor<C>,
    journal: J,
    bell: Arc<Bell, Global>,
}

/// Threads, each of which serves one session after the other.
#[derive(Drop)]
struct Workers<C, O: Drop, J: Drop> {
    means: Means<C, O, J>,
    places: Vec<Place>,
}

impl<C, O, J> Means<C, O, J>
where
    C: Clock + Copy + Send + Drop + 'static,
    O: Desks + Send + Drop + 'static,
    J: Journal<Connection<C>, Connection<C>> + Send + Drop + 'static,
{
    // A share of each of these.
    fn of(
        alloc: Global,
        desks: &O,
        door: &SharedDoor<C>,
        journal: &J,
        bell: &Arc<Bell, Global>,
    ) -> Result<Means<C, O, J>, AllocError> {
        Ok(Means {
            alloc,
            desks: desks.share()?,
            door: door.share()?,
            journal: journal.share()?,
            bell: Arc::try_clone(bell)?,
        })
    }

    fn share(&self) -> Result<Means<C, O, J>, AllocError> {
        Means::of(
            self.alloc,
            &self.desks,
            &self.door,
            &self.journal,
            &self.bell,
        )
    }

    fn start<H>(&self, rt: &H, seat: &Arc<Seat, Global>) -> Result<JoinHandle<()>, ServeError>
    where
        H: Threads + Wait + Enter + Copy + Send + 'static,
    {
        let (own, means) = (*rt, self.share()?);
        let seat = Arc::try_clone(seat)?;
        Ok(spawn(rt, move || work(own, means, seat))?)
    }

    // Starts a worker in a new place.
    fn start_placed<H>(&self, rt: &H) -> Result<Place, ServeError>
    where
        H: Threads + Wait + Enter + Copy + Send + 'static,
        ensures { IfOk result (λ place. IsSome place.thread) }
    {
        let Ok(seat) = Arc::new(self.alloc, Seat::new()) else {
            return Err(ServeError::Memory);
        };
        let thread = Some(self.start(rt, &seat)?);
        Ok(Place { thread, seat })
    }

    // Puts another worker in the place of one that has left, unless none can be started.
    fn renew<H>(&self, rt: &H, place: &mut Place) -> Result<(), ServeError>
    where
        H: Threads + Wait + Enter + Copy + Send + 'static,
    {
        if place.seat.has_left.swap(false, Ordering::AcqRel) {
            if let Some(thread) = place.thread.take() {
                thread.join(rt);
            }
            place.seat.free_piece(rt);
        }
        if place.thread.is_none() {
            place.thread = Some(self.start(rt, &place.seat)?);
        }
        Ok(())
    }
}

// What a worker does: it serves sessions until it had better leave, and says so.
fn work<H, C, O, J>(rt: H, means: Means<C, O, J>, seat: Arc<Seat, Global>)
where
    H: Threads + Wait + Enter + Copy + Send + 'static,
    C: Clock + Copy + Send + Drop + 'static,
    O: Desks + Send + Drop + 'static,
    J: Journal<Connection<C>, Connection<C>> + Send + Drop + 'static,
    ensures { HasWorked ⟦<SharedDoor<C> as Gate<Connection<C>, Connection<C>>>⟧.gives
        (record { numbers = J.numbers; tells = J.tells; fails = J.fails })
        (IsEnded (O.stay means.desks) (O.opens means.desks) O.asks O.ends
        (record {
          remaining = ⟦<Connection<C> as Read>⟧.remaining;
          reads = ⟦<Connection<C> as Source>⟧.reads;
          faults = ⟦<Connection<C> as Source>⟧.faults;
        })
        (record {
          contents = ⟦<Connection<C> as Write>⟧.contents;
          faults = ⟦<Connection<C> as Sink>⟧.faults;
        }))
        means.door means.journal }
{
    let Means {
        alloc,
        desks,
        mut door,
        mut journal,
        bell,
    } = means;
    serve_on::<H, Connection<C>, Connection<C>, SharedDoor<C>, O, J>(
        &rt,
        alloc,
        &desks,
        &mut door,
        &mut journal,
    );
    door.leave(&rt);
    seat.take_piece(&rt, alloc);
    seat.has_left.store(true, Ordering::Release);
    bell.ring(&rt);
}

impl<C, O, J> Workers<C, O, J>
where
    C: Clock + Copy + Send + Drop + 'static,
    O: Desks + Send + Drop + 'static,
    J: Journal<Connection<C>, Connection<C>> + Send + Drop + 'static,
{
    // Starts so many threads. If one couldn't be started, those before it serve nevertheless.
    fn start<H>(rt: &H, means: Means<C, O, J>, count: u64) -> Result<Workers<C, O, J>, ServeError>
    where
        H: Threads + Wait + Enter + Copy + Send + 'static,
        ensures { IfOk result (λ workers. IsCrew count workers.places.items) }
    {
        let mut places = Vec::new(means.alloc);
        'workers: for _worker in 0..count {
            places.reserve(1)?;
            let place = means.start_placed(rt)?;
            places.push_reserved(place);
        }
        Ok(Workers { means, places })
    }

    // Joins each worker that has left, and starts another one in its place. An error is why the first one couldn't be started.
    fn renew<H>(&mut self, rt: &H) -> Result<(), ServeError>
    where
        H: Threads + Wait + Enter + Copy + Send + 'static,
        ensures { vec_len self.new.places ≡ vec_len self.old.places }
    {
        let mut renewed = Ok(());
        'places: for place in self.places.iter_mut() {
            let this = self.means.renew(rt, place);
            renewed = renewed.and(this);
        }
        renewed
    }

    // Renews workers for as long as the program runs. If a thread couldn't be started, it is tried again.
    fn keep<H>(&mut self, rt: &H)
    where
        H: Threads + Wait + Enter + Copy + Send + 'static,
    {
        'renewals: for _ in rt.forever() {
            self.means.bell.hear(rt);
            'tries: for _ in rt.forever() {
                match self.renew(rt) {
                    Ok(()) => break,
                    Err(why) => self.means.journal.unstarted(rt, why),
                }
            }
        }
    }
}

/// The workers that were started, or why one couldn't be, once that is known.
type Begun = OnceLock<Result<Crew, ServeError>>;

// Starts so many workers, says whether they could be started, and keeps them.
fn start_and_keep<H, C, O, J>(rt: &H, means: Means<C, O, J>, count: u64, begun: &Begun)
where
    H: Threads + Wait + Enter + Copy + Send + 'static,
    C: Clock + Copy + Send + Drop + 'static,
    O: Desks + Send + Drop + 'static,
    J: Journal<Connection<C>, Connection<C>> + Send + Drop + 'static,
{
    match Workers::start(rt, means, count) {
        Ok(mut workers) => {
            let _ = begun.set(rt, Ok(Crew::of(count, &workers.places)));
            workers.keep(rt)
        }
        Err(fault) => {
            let _ = begun.set(rt, Err(fault));
        }
    }
}

// What workers have shares of, with a bell of their own.
fn new_means<C, O, J>(
    alloc: Global,
    desks: &O,
    door: &SharedDoor<C>,
    journal: &J,
) -> Result<Means<C, O, J>, ServeError>
where
    C: Clock + Copy + Send + Drop + 'static,
    O: Desks + Send + Drop + 'static,
    J: Journal<Connection<C>, Connection<C>> + Send + Drop + 'static,
{
    let Ok(bell) = Arc::new(alloc, Bell::new()) else {
        return Err(ServeError::Memory);
    };
    Ok(Means::of(alloc, desks, door, journal, &bell)?)
}

/// Starts so many threads, each of which serves one session of the door after the other, for as long as the program runs.
/// Each session has a desk of its own, and the journal learns how it ended. A thread ends after a session that may have left much
/// in the caches of the C library. The thread that this returns puts another one in its place.
///
/// If a thread couldn't be started, those before it serve nevertheless.
pub fn start_workers<H, C, O, J>(
    rt: &H,
    alloc: Global,
    desks: &O,
    door: &SharedDoor<C>,
    journal: &J,
    count: u64,
) -> Result<Keeper, ServeError>
where
    H: Threads + Wait + Enter + Copy + Send + 'static,
    C: Clock + Copy + Send + Drop + 'static,
    O: Desks + Send + Drop + 'static,
    J: Journal<Connection<C>, Connection<C>> + Send + Drop + 'static,
    // As many were started as were asked for. A `Crew` says that each has its thread.
    ensures { IfOk result (λ keeper. keeper.crew.value.asked ≡ count) }
{
    let Ok(begun) = Arc::new(alloc, Begun::new()) else {
        return Err(ServeError::Memory);
    };
    let told = Arc::try_clone(&begun)?;
    let means = new_means(alloc, desks, door, journal)?;
    let own = *rt;
    let keeper = spawn(rt, move || start_and_keep(&own, means, count, &told))?;
    match begun.wait(rt) {
        Ok(crew) if crew.asked == count => Ok(Keeper::of(keeper, crew)),
        // Of what another thread set, a contract knows only the type: no crew is of another number.
        Ok(_) => Err(ServeError::Memory),
        Err(fault) => Err(*fault),
    }
}
