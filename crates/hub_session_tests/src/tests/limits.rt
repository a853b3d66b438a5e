//! What a session may do at most: how many reads it may make, and how many turns its waits may have.
use hub_front::{Stay, serve};
use hub_shared::{Hub, SharedDesk};
use hub_wait::{Go, Pause};
use std::alloc::Global;
use std::sync::atomic::{AtomicU64, Ordering};
use std::sync::{Arc, Wait};
use std::test::Fail;

/// How many reads a session may make, as the manual says.
static READS: [(Stay, u64); 2] = [(Stay::Short, 10_000_000), (Stay::Long, 100_000_000_000_000)];

#[test]
fn a_session_may_make_so_many_reads(rt: HostRuntime) -> Result<(), Fail> {
    for (stay, reads) in &READS {
        assert_eq!(rt; stay.reads(), *reads, "{stay:?}");
    }
    Ok(())
}

/// Counts its pauses, and never loses patience.
#[derive(Clone, Copy)]
struct Counting<'a> {
    pauses: &'a AtomicU64,
}

impl Pause for Counting<'_> {
    fn pause<R: Wait>(&mut self, _rt: &R) -> Go {
        self.pauses.fetch_add(1, Ordering::SeqCst);
        Go::Again
    }
}

/// Waits with the most turns that a request may ask for.
static LONGEST: &str = "svc web 64 1000 1
sub web
wait all up 1000000 web
wait any up 1000000 web web web web
await 1 1000000
next 1 1000000
";

static REPLIES: &str = "ok
ok 1
late
late
late
late
";

#[test]
fn a_wait_may_have_a_million_turns(rt: HostRuntime) -> Result<(), Fail> {
    let alloc: Global = rt.alloc();
    let pauses = AtomicU64::new(0);
    let counting = Counting { pauses: &pauses };
    let hub = Arc::new(alloc, Hub::new(alloc)?)?;
    let mut desk = SharedDesk::new(alloc, hub, counting)?;
    let mut replies = Vec::new(alloc);
    let served = serve(&rt, alloc, &mut desk, &mut LONGEST.as_bytes(), &mut replies);
    desk.release(&rt);
    assert_eq!(rt; served, Ok(6));
    assert_eq!(rt; replies.as_slice(), REPLIES.as_bytes());
    assert_eq!(rt; pauses.load(Ordering::SeqCst), 4_000_000);
    Ok(())
}
