//! Calls of which one growth is refused, whichever it is (`tests/memory`).
use crate::tests::passes::Shared;
use crate::tests::replays::{HELD, replays_so};
use crate::tests::scenes::Scene;
use hub_fifodir::{Enter, Fifodir, PassError};
use hub_record::{Kind, Limits, Record, SubError};
use std::alloc::{AllocError, Global};
use std::io;
use std::sync::{Arc, Wait};
use std::test::Fail;

/// A fifodir with these limits. If a growth is refused, it tries once more.
fn open_at_last(alloc: Global, limits: Limits) -> Result<Shared, AllocError> {
    let fifodir = Fifodir::new(alloc, Kind::Plain, limits).or_else(|_| Fifodir::new(
        alloc,
        Kind::Plain,
        limits,
    ))?;
    match Arc::new(alloc, fifodir) {
        Ok(fifodir) => Ok(fifodir),
        Err(refused) => Ok(Arc::new(alloc, refused.value)?),
    }
}

/// Whether a ticket and a publisher are given this number. If a growth is refused, the call that met it gives none, and
/// is made again.
fn holds_at_last<R: Wait + Enter>(
    rt: &R,
    scene: &mut Scene,
    number: u64,
) -> Result<bool, AllocError> {
    let subscribed = match scene.subscribe(rt)? {
        Err(SubError::Memory) => scene.subscribe(rt)?,
        answer => answer,
    };
    let joined = match scene.join(rt)? {
        Err(PassError::Memory) => scene.join(rt)?,
        answer => answer,
    };
    Ok(subscribed == Ok((number, 0)) && joined == Ok(number))
}

fn holds_a_hundred<R: Wait + Enter>(rt: &R, scene: &mut Scene) -> Result<bool, AllocError> {
    for number in 1..101 {
        if !holds_at_last(rt, scene, number)? {
            return Ok(false);
        }
    }
    Ok(true)
}

fn a_hundred_are_given<R: Wait + Enter>(rt: &R, alloc: Global) -> Result<bool, Fail> {
    let limits = Limits::of(4, 100, 1000).ok_or("no limits")?;
    let mut scene = Scene::new(alloc, open_at_last(alloc, limits)?);
    let is_so = holds_a_hundred(rt, &mut scene);
    scene.end(rt);
    Ok(is_so?)
}

/// With one growth refused, whichever it is, the call that met it gives no pass, and the same call made again goes as
/// with no refusal.
#[test]
fn a_refused_growth_gives_nothing(rt: HostRuntime) -> Result<(), Fail> {
    let is_so = a_hundred_are_given(&rt, rt.alloc())?;
    assert!(rt; is_so, "a hundred tickets and publishers");
    Ok(())
}

/// Whether a subscription gets the id. If its growth is refused, nothing has changed, and it is made again.
fn subscribes_at_last(record: &mut Record, id: u64) -> bool {
    let mut given = record.subscribe();
    if given == Err(SubError::Memory) {
        if (record.end(), record.base(), record.waiting(id)) != (0, 0, None) {
            return false;
        }
        given = record.subscribe();
    }
    given == Ok((id, 0)) && record.waiting(id) == Some(0)
}

fn a_hundred_subscribe(record: &mut Record) -> bool {
    for id in 1..101 {
        if !subscribes_at_last(record, id) {
            return false;
        }
    }
    true
}

fn a_new_record_has_a_hundred(alloc: Global, limits: Limits) -> io::Result<bool> {
    let mut record = Record::new(alloc, Kind::Plain, limits).or_else(|_| Record::new(
        alloc,
        Kind::Plain,
        limits,
    ))?;
    Ok(a_hundred_subscribe(&mut record))
}

/// With one growth refused, whichever it is, the call that met it changes nothing, and the same call made again goes
/// as with no refusal.
#[test]
fn a_refused_growth_changes_nothing(rt: HostRuntime) -> Result<(), Fail> {
    let limits = Limits::of(4, 10, 1000).ok_or("no limits")?;
    assert!(rt;
        a_new_record_has_a_hundred(rt.alloc(), limits)?,
        "each of a hundred subscribes"
    );
    let is_so = replays_so(rt.alloc(), limits, &HELD).or_else(|_| replays_so(
        rt.alloc(),
        limits,
        &HELD,
    ))?;
    assert!(rt; is_so, "replay gives the replies and what was gathered");
    Ok(())
}
