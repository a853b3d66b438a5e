//! The doors of a hub that lives, and their threads.
ghost use Rattle.std.specs.Prelude.{◌≡◌, IfOk, IfSome, is_some};
ghost use Rattle.hub_server.specs.Quotas.{most_looking};

use crate::crowd::Crowd;
use crate::desks::HubDesks;
use crate::living_desks::LivingDesks;
use crate::look_desks::LookDesks;
use crate::noting::NotedNames;
use crate::places::Places;
use crate::watching::Watcher;
use hub_endings::{Fault, HubLine};
use hub_front::Enter;
use hub_options::HubOptions;
use hub_place::Place;
use hub_server::{Desks, Keeper, Quota, SharedDoor, Side, most_looking, start_workers};
use hub_wait::Patience;
use std::alloc::{AllocError, Global};
use std::fs::Files;
use std::net::Net;
use std::rt::Clock;
use std::sync::Wait;
use std::thread::Threads;
use std::time::Duration;

/// A door that nobody can reach before its socket is in its place, and its threads.
#[derive(Drop)]
pub(crate) struct OpenDoor {
    pub(crate) keeper: Keeper,
    /// How many sessions there may be at the same time, each with a thread.
    pub(crate) sessions: u64,
    crowd: Crowd,
    ghost crew: { keeper.crew.value.asked ≡ sessions },
}

/// The doors of a hub.
#[derive(Drop)]
pub(crate) struct Doors {
    pub(crate) first: OpenDoor,
    /// The door whose sessions only look. None: there is none.
    pub(crate) look: Option<OpenDoor>,
}

/// How a door is opened.
#[derive(Drop)]
struct Opening {
    side: Side,
    sessions: u64,
    mode: Option<u32>,
    /// What this door has of the sessions of two. None: there is one door.
    quota: Option<Quota>,
    /// What tells that this door's clients wait has it too.
    watched: Option<Quota>,
    idle: Option<Duration>,
}

impl Opening {
    fn of(
        side: Side,
        sessions: u64,
        mode: Option<u32>,
        shared: &Option<Quota>,
        options: &HubOptions<'_>,
    ) -> Result<Opening, Fault>
        ensures { IfOk result (λ opening. opening.sessions ≡ sessions) }
    {
        let (quota, watched) = match shared {
            Some(shared) => (Some(shared.share(side)?), Some(shared.share(side)?)),
            None => (None, None),
        };
        Ok(Opening {
            side,
            sessions,
            mode,
            quota,
            watched,
            idle: options.idle.map(Duration::from_secs),
        })
    }
}

// Opens a door at this place, whose threads serve sessions by these desks.
fn open_door<H, O>(
    rt: &H,
    alloc: Global,
    place: &mut Place<'_>,
    how: Opening,
    desks: &O,
    watcher: &Watcher<H>,
) -> Result<OpenDoor, Fault>
where
    H: Files + Net + Clock + Threads + Wait + Enter + Copy + Send + 'static,
    O: Desks + Send + Drop + 'static,
    ensures { IfOk result (λ door. door.sessions ≡ how.sessions) }
{
    let sessions = how.sessions;
    let listener = place.listen(rt, how.mode)?;
    let crowd = Crowd::at(&listener, how.side, sessions, how.watched);
    let mut door = SharedDoor::new(alloc, listener, how.idle, *rt)?;
    if let Some(quota) = how.quota {
        door = door.within(quota);
    }
    let keeper = start_workers(rt, alloc, desks, &door, watcher, sessions)?;
    Ok(OpenDoor {
        keeper,
        sessions,
        crowd,
    })
}

// Opens the door whose sessions only look, if there is a place for it.
fn open_look<H>(
    rt: &H,
    alloc: Global,
    place: &mut Option<Place<'_>>,
    shared: &Option<Quota>,
    options: &HubOptions<'_>,
    desks: &HubDesks<Patience<H>>,
    watcher: &Watcher<H>,
) -> Result<Option<OpenDoor>, Fault>
where
    H: Files + Net + Clock + Threads + Wait + Enter + Copy + Send + 'static,
    ensures both { IfOk result (λ look. is_some look ≡ is_some place.new) }
    ensures sessions { IfOk result (λ look. IfSome look (λ door.
        door.sessions ≡ most_looking options.now.sessions)) }
{
    let Some(place) = place else {
        return Ok(None);
    };
    let few = most_looking(options.sessions);
    let mode = options.look.map(|look| look.mode);
    let desks = LookDesks {
        desks: desks.share()?,
    };
    let how = Opening::of(Side::Looking, few, mode, shared, options)?;
    match open_door(rt, alloc, place, how, &desks, watcher) {
        Ok(door) => Ok(Some(door)),
        Err(fault) => Err(fault.at_look()),
    }
}

// What two doors share. None: there is one.
fn shared_by(alloc: Global, options: &HubOptions<'_>) -> Result<Option<Quota>, AllocError> {
    match options.look {
        Some(_) => Ok(Some(Quota::of_first(alloc, options.sessions)?)),
        None => Ok(None),
    }
}

/// Opens both doors over the hub of these desks, each with its threads. The first one's sessions note here where publishers are refused
/// as full. Nobody can connect yet.
pub(crate) fn open_doors<H>(
    rt: &H,
    alloc: Global,
    places: &mut Places<'_>,
    options: &HubOptions<'_>,
    desks: HubDesks<Patience<H>>,
    full: NotedNames,
    watcher: &Watcher<H>,
) -> Result<Doors, Fault>
where
    H: Files + Net + Clock + Threads + Wait + Enter + Copy + Send + 'static,
    ensures first { IfOk result (λ doors. doors.first.sessions ≡ options.now.sessions) }
    ensures look { IfOk result (λ doors. IfSome doors.look (λ door.
        door.sessions ≡ most_looking options.now.sessions)) }
    ensures both { IfOk result (λ doors. is_some doors.look ≡ is_some places.new.look) }
{
    let shared = shared_by(alloc, options)?;
    let look = open_look(
        rt,
        alloc,
        &mut places.look,
        &shared,
        options,
        &desks,
        watcher,
    )?;
    let (all, names) = (options.sessions, options.names);
    let how = Opening::of(Side::First, all, options.mode, &shared, options)?;
    let living = LivingDesks { desks, names, full };
    let first = open_door(rt, alloc, &mut places.first, how, &living, watcher)?;
    Ok(Doors { first, look })
}

impl Doors {
    /// The lines that tell of doors where clients wait, while so many sessions run.
    pub(crate) fn crowds<H: Wait>(&mut self, rt: &H, running: u64) -> [Option<HubLine>; 2] {
        let first = self.first.crowd.look(rt, running);
        let look = match &mut self.look {
            Some(door) => door.crowd.look(rt, running),
            None => None,
        };
        [first, look]
    }
}
