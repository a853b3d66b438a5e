//! Two doors share their sessions, of which a quarter is kept for the first one.
use crate::tests::clients::Client;
use crate::tests::sockets::open;
use hub_server::{Connection, Gate, Next, Quota, SharedDoor, Side, most_looking};
use std::alloc::Global;
use std::fs::Files;
use std::io::ErrorKind;
use std::net::Net;
use std::process::Abort;
use std::rt::Clock;
use std::sync::Wait;
use std::test::Fail;
use std::thread::{JoinHandle, Threads};
use std::{io, thread};

/// How many sessions there may be, and how many of them may only look.
static ROWS: [(u64, u64); 3] = [(2, 1), (4, 3), (64, 48)];

/// How often a test looks whether something has happened.
const LOOKS: u64 = 10_000_000;

/// A thread of a door, and the session that it serves.
#[derive(Drop)]
struct Worker<H: Drop> {
    door: SharedDoor<H>,
    session: (Connection<H>, Connection<H>),
}

/// Two doors, and clients that have connected to each.
#[derive(Drop)]
struct Doors<H: Drop> {
    first: SharedDoor<H>,
    of_first: Quota,
    looking: SharedDoor<H>,
    of_looking: Quota,
    clients: (Vec<Client>, Vec<Client>),
}

fn door<H: Files + Net + Clock + Copy>(
    rt: &H,
    alloc: Global,
    path: &'static str,
    quota: Quota,
    clients: u64,
) -> io::Result<(SharedDoor<H>, Vec<Client>)> {
    let (mut opened, clients) = open(rt, alloc, path, clients as usize)?;
    let Some(listener) = opened.listener.take() else {
        return Err(io::Error::from(ErrorKind::NotConnected));
    };
    let door = SharedDoor::new(alloc, listener, None, *rt)?;
    Ok((door.within(quota), clients))
}

/// Doors that share so many sessions, each with one client more than these.
fn make_doors<H: Files + Net + Clock + Copy + Drop>(
    rt: &H,
    alloc: Global,
    sessions: u64,
) -> io::Result<Doors<H>> {
    let of_first = Quota::of_first(alloc, sessions)?;
    let of_looking = of_first.share(Side::Looking)?;
    let count = sessions.saturating_add(1);
    let quota = of_first.share(Side::First)?;
    let (first, ours) = door(rt, alloc, "first.sock", quota, count)?;
    let quota = of_looking.share(Side::Looking)?;
    let (looking, theirs) = door(rt, alloc, "looking.sock", quota, count)?;
    Ok(Doors {
        first,
        of_first,
        looking,
        of_looking,
        clients: (ours, theirs),
    })
}

/// So many threads of the door, each of which has a session. None: a session didn't come.
fn working<H: Clock + Wait + Copy + Drop>(
    rt: &H,
    alloc: Global,
    door: &SharedDoor<H>,
    count: u64,
) -> io::Result<Option<Vec<Worker<H>>>> {
    let mut workers = Vec::new(alloc);
    for _ in 0..count {
        let mut door = door.share()?;
        let Next::Session(reader, writer) = door.next(rt) else {
            return Ok(None);
        };
        let session = (reader, writer);
        workers.push(Worker { door, session })?;
    }
    Ok(Some(workers))
}

/// A thread that asks the door for a session, and whether it gets one.
fn asking<H>(rt: &H, door: &SharedDoor<H>) -> Result<JoinHandle<bool>, Fail>
where
    H: Abort + Clock + Threads + Wait + Copy + Send + Drop + 'static,
{
    let (own, mut door) = (*rt, door.share()?);
    let thread = thread::spawn(rt, move || matches!(door.next(&own), Next::Session(_, _)))?;
    Ok(thread)
}

/// Whether a client comes to wait at this door for a session.
fn comes_to_wait<H: Wait>(rt: &H, quota: &Quota) -> bool {
    for _ in 0..LOOKS {
        if quota.crowd(rt) == (true, true) {
            return true;
        }
        thread::yield_now();
    }
    false
}

/// Whether so few of the sessions may look, and the others are the first door's.
fn keeps_the_rest<H>(rt: &H, alloc: Global, sessions: u64, few: u64) -> Result<bool, Fail>
where
    H: Abort + Files + Net + Clock + Threads + Wait + Copy + Send + Drop + 'static,
{
    let doors = make_doors(rt, alloc, sessions)?;
    let lookers = working(rt, alloc, &doors.looking, few)?;
    let looking = (doors.of_looking.crowd(rt), doors.of_first.crowd(rt));
    let others = working(rt, alloc, &doors.first, sessions.saturating_sub(few))?;
    Ok(
        lookers.is_some()
            && looking == ((true, false), (false, false))
            && others.is_some()
            && doors.of_first.crowd(rt) == (true, false),
    )
}

#[test]
fn a_quarter_is_kept_for_the_first_door(rt: HostRuntime) -> Result<(), Fail> {
    for (sessions, few) in &ROWS {
        assert_eq!(rt; most_looking(*sessions), *few);
        assert!(rt;
            keeps_the_rest(&rt, rt.alloc(), *sessions, *few)?,
            "{sessions}"
        );
    }
    Ok(())
}

/// Whether the first door has all of these sessions, and the other one gets one that is given back.
fn gives_all<H>(rt: &H, alloc: Global, sessions: u64) -> Result<bool, Fail>
where
    H: Abort + Files + Net + Clock + Threads + Wait + Copy + Send + Drop + 'static,
{
    let doors = make_doors(rt, alloc, sessions)?;
    let Some(mut workers) = working(rt, alloc, &doors.first, sessions)? else {
        return Ok(false);
    };
    let is_full = doors.of_looking.crowd(rt) == (true, false);
    let asked = asking(rt, &doors.looking)?;
    let comes = comes_to_wait(rt, &doors.of_looking);
    if let Some(worker) = workers.pop() {
        worker.door.leave(rt);
        worker.door.leave(rt);
    }
    Ok(asked.join(rt) && is_full && comes && doors.of_first.crowd(rt) == (true, false))
}

#[test]
fn the_first_door_may_have_all(rt: HostRuntime) -> Result<(), Fail> {
    for (sessions, _) in &ROWS {
        assert!(rt; gives_all(&rt, rt.alloc(), *sessions)?, "{sessions}");
    }
    Ok(())
}

/// Whether a thread of the door gets two sessions, one after the other.
fn gives_two<H: Clock + Wait + Copy>(rt: &H, door: &mut SharedDoor<H>) -> bool {
    for _ in 0..2 {
        let Next::Session(_, _) = door.next(rt) else {
            return false;
        };
    }
    true
}

#[test]
fn a_door_gives_back_as_it_asks(rt: HostRuntime) -> Result<(), Fail> {
    let alloc: Global = rt.alloc();
    let mut doors = make_doors(&rt, alloc, 2)?;
    assert!(rt; gives_two(&rt, &mut doors.first));
    assert!(rt; gives_two(&rt, &mut doors.looking));
    assert_eq!(rt; doors.of_first.crowd(&rt), (true, false));
    doors.first.leave(&rt);
    assert_eq!(rt; doors.of_first.crowd(&rt), (false, false));
    Ok(())
}

/// The sessions of these threads are over.
fn leave_all<H: Clock + Wait + Copy>(rt: &H, workers: &[Worker<H>]) {
    for worker in workers {
        worker.door.leave(rt);
    }
}

/// Whether a session that is over wakes one who may take its place, also where others wait that may not.
fn wakes_its_own<H>(rt: &H, alloc: Global) -> Result<bool, Fail>
where
    H: Abort + Files + Net + Clock + Threads + Wait + Copy + Send + Drop + 'static,
{
    let doors = make_doors(rt, alloc, 2)?;
    let lookers = working(rt, alloc, &doors.looking, 1)?;
    let others = working(rt, alloc, &doors.first, 1)?;
    let (Some(lookers), Some(others)) = (lookers, others) else {
        return Ok(false);
    };
    let looks = asking(rt, &doors.looking)?;
    let one_looks = comes_to_wait(rt, &doors.of_looking);
    let works = asking(rt, &doors.first)?;
    let one_works = comes_to_wait(rt, &doors.of_first);
    leave_all(rt, &others);
    let has_worked = works.join(rt);
    let still_looks = doors.of_looking.crowd(rt) == (true, true);
    leave_all(rt, &lookers);
    Ok(one_looks && one_works && has_worked && still_looks && looks.join(rt))
}

#[test]
fn each_door_has_wakes_of_its_own(rt: HostRuntime) -> Result<(), Fail> {
    assert!(rt; wakes_its_own(&rt, rt.alloc())?);
    Ok(())
}
