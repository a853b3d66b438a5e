//! The workers that were started.
ghost use Rattle.std.specs.Prelude.{◌≡◌};
ghost use Rattle.hub_server.specs.Crews.{IsCrew};

use crate::seat::Seat;
use std::alloc::Global;
use std::snapshot::Snapshot;
use std::sync::Arc;
use std::thread::JoinHandle;

/// A place for a worker.
#[derive(Drop)]
pub struct Place {
    /// The worker, until it is joined. None: no thread could be started yet.
    pub(crate) thread: Option<JoinHandle<()>>,
    pub(crate) seat: Arc<Seat, Global>,
}

/// So many workers were started as were asked for, each in a place of its own.
#[derive(Drop)]
pub struct Crew {
    /// How many were asked for.
    pub asked: u64,
    places: Snapshot<Vec<Place>>,
    ghost started: { IsCrew asked places.value.items },
}

impl Crew {
    pub(crate) fn of(asked: u64, places: &Vec<Place>) -> Crew
        requires { IsCrew asked places.now.items }
        ensures { result.asked ≡ asked }
    {
        Crew {
            asked,
            places: Snapshot::of(places),
        }
    }
}

/// The thread that puts other workers in the place of those that have left.
#[derive(Drop)]
pub struct Keeper {
    thread: JoinHandle<()>,
    /// The workers that it has started.
    pub crew: Snapshot<Crew>,
}

impl Keeper {
    pub(crate) fn of(thread: JoinHandle<()>, crew: &Crew) -> Keeper
        ensures { result.crew.value ≡ crew.now }
    {
        Keeper {
            thread,
            crew: Snapshot::of(crew),
        }
    }
}
