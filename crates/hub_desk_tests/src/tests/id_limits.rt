//! Fifodirs of each limit of ids and of events, with ample memory. A refused growth is a failure here.
use hub_fifodir::{Enter, Fifodir, Locked, PassError};
use hub_record::{Kind, Limits, Policy, SubError};
use std::alloc::{AllocError, Global};
use std::sync::Wait;
use std::test::Fail;

/// Each limit up to this one is tried. So many ids are given at most.
const SMALL: u64 = 300;

/// Powers of two and of ten, their neighbours, and the most that may be.
static LARGE: [u64; 37] = [
    511,
    512,
    513,
    999,
    1_000,
    1_001,
    1_023,
    1_024,
    1_025,
    4_095,
    4_096,
    4_097,
    9_999,
    10_000,
    32_767,
    32_768,
    65_535,
    65_536,
    65_537,
    99_999,
    100_000,
    999_999,
    1_000_000,
    1_000_001,
    16_777_216,
    2_147_483_647,
    2_147_483_648,
    4_294_967_295,
    4_294_967_296,
    4_294_967_297,
    68_719_476_736,
    549_755_813_888,
    99_999_999_999,
    100_000_000_000,
    999_999_999_998,
    999_999_999_999,
    1_000_000_000_000,
];

/// Whether the value behind a fifodir's lock gives so many ids and numbers, and then no other.
fn locked_gives(alloc: Global, limits: Limits) -> Result<bool, AllocError> {
    let mut locked = Locked::new(alloc, Kind::Plain, limits)?;
    for before in 0..limits.ids.min(SMALL) {
        let number = before.wrapping_add(1);
        if locked.publisher() != Ok(number) || locked.subscribe() != Ok((number, 0)) {
            return Ok(false);
        }
    }
    let spent = (Err(PassError::Spent), Err(SubError::Spent));
    Ok(limits.ids > SMALL || (locked.publisher(), locked.subscribe()) == spent)
}

/// Whether a fifodir gives a publisher and a ticket.
fn fifodir_gives<R: Wait + Enter>(
    rt: &R,
    alloc: Global,
    limits: Limits,
) -> Result<bool, AllocError> {
    let fifodir = Fifodir::new(alloc, Kind::Plain, limits)?;
    let (sender, reader) = (fifodir.publisher(rt), fifodir.subscribe(rt));
    let are_given = sender.is_ok() && reader.is_ok();
    if let Ok(sender) = sender {
        fifodir.leave(rt, sender);
    }
    if let Ok(reader) = reader {
        fifodir.cancel(rt, reader);
    }
    Ok(are_given)
}

/// Whether fifodirs with so many ids, and so many events in all, give them.
fn limit_is_given<R: Wait + Enter>(rt: &R, alloc: Global, most: u64) -> Result<bool, AllocError> {
    let Some(hold) = Limits::of(2, most, most) else {
        return Ok(false);
    };
    let evict = hold.with(Policy::Evict);
    Ok(
        locked_gives(alloc, hold)?
            && locked_gives(alloc, evict)?
            && fifodir_gives(rt, alloc, hold)?
            && fifodir_gives(rt, alloc, evict)?,
    )
}

/// The first of the limits that isn't given.
fn limit_refused<R: Wait + Enter>(rt: &R, alloc: Global) -> Result<Option<u64>, AllocError> {
    for most in 1..=SMALL {
        if !limit_is_given(rt, alloc, most)? {
            return Ok(Some(most));
        }
    }
    for most in LARGE.iter() {
        if !limit_is_given(rt, alloc, *most)? {
            return Ok(Some(*most));
        }
    }
    Ok(None)
}

#[test]
fn each_limit_of_ids(rt: HostRuntime) -> Result<(), Fail> {
    assert_eq!(rt; limit_refused(&rt, rt.alloc())?, None);
    Ok(())
}
