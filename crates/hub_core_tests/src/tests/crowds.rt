//! The pause of a wait beside many who rest at the same bell.
use crate::tests::passes::{Shared, look_before_a_ring};
use crate::tests::pauses::{Slept, open_plain};
use crate::tests::sleepers::{Sleep, give_time, start};
use hub_fifodir::Enter;
use hub_wait::{Patience, Pause};
use std::alloc::Global;
use std::process::Abort;
use std::rt::Clock;
use std::sync::atomic::AtomicU64;
use std::sync::{Arc, Wait};
use std::test::Fail;
use std::thread::Threads;
use std::time::{Duration, Instant};

/// How many rest at the bell. With so many a look comes two milliseconds later than with none.
const RESTING: u64 = 130;

/// How many looks the wait makes.
const LOOKS: u64 = 10;

/// Whether so many sleep at the bell, or will soon.
fn are_asleep<R: Clock>(rt: &R, fifodir: &Shared) -> bool {
    for _ in 0..500 {
        if fifodir.bell().sleepers() == RESTING {
            return true;
        }
        give_time(rt);
    }
    false
}

/// How long looks take in a crowd, while the bell rings before each. The clock of the wait stands still.
fn time_in_a_crowd<R: Abort + Threads + Wait + Enter + Clock + Copy + Send + 'static>(
    rt: &R,
    alloc: Global,
) -> Result<Duration, Fail> {
    let fifodir = open_plain(alloc)?;
    let looked = look_before_a_ring(rt, &fifodir);
    let awake = Arc::new(alloc, AtomicU64::new(0))?;
    start(rt, &fifodir, Sleep::Rest(looked), RESTING, &awake)?;
    assert!(rt; are_asleep(rt, &fifodir), "all rest");
    let clock = Slept::new(false);
    let mut pause = Patience::new(&clock);
    let begun = Instant::now(rt)?;
    for _ in 0..LOOKS {
        let _ = pause.pause_at(rt, fifodir.bell(), looked, 5_000);
    }
    Ok(Instant::now(rt)?.duration_since(begun))
}

// The first looks come at once, up to 16 milliseconds ahead. The others have to wait 2, 5, 8, 11 and 14.
#[test]
fn looks_are_further_apart_in_a_crowd(rt: HostRuntime) -> Result<(), Fail> {
    let took = time_in_a_crowd(&rt, rt.alloc())?;
    assert!(rt;
        took > Duration::from_millis(35) && took < Duration::from_secs(10),
        "{took:?}"
    );
    Ok(())
}
