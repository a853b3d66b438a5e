//! Sessions over memory.
ghost use Rattle.std.specs.Prelude.{None};

use crate::tests::gates::{Listed, Telling};
use hub_fakes::Dripping;
use hub_io::{FrontError, Sink, Source};
use hub_server::{Gate, Report};
use hub_serving::{Enter, serve_all};
use hub_shared::Hub;
use hub_wait::Patience;
use std::alloc::{AllocError, Global};
use std::io::{ErrorKind, Write};
use std::rt::Clock;
use std::sync::atomic::{AtomicU64, Ordering};
use std::sync::{Arc, Wait};
use std::test::Fail;
use std::thread::Threads;
use std::{io, thread};

/// Serves the gate's sessions over a new hub, of which a test knows nothing.
fn serve_gate<H, R, W, G>(
    rt: &H,
    alloc: Global,
    gate: &mut G,
    sessions: u64,
) -> Result<Report, Fail>
where
    H: Clock + Threads + Wait + Enter + Copy + Send + 'static,
    R: Source + Send + Drop + 'static,
    W: Sink + Send + Drop + 'static,
    G: Gate<R, W>,
{
    let hub = Arc::new(alloc, Hub::new(alloc)?)?;
    let report = serve_all(rt, alloc, hub, gate, sessions, Patience::new(*rt))?;
    Ok(report)
}

/// Whether so many sessions ended with so many lines each.
fn have_ended(report: &Report, count: usize, lines: u64) -> bool {
    let mut right = report.results.len() == count;
    for ended in &report.results {
        right = right && *ended == Ok(lines);
    }
    right
}

/// How many sessions the gate gives, for how many it is asked at most, and whether it fails where it has no more. Then how
/// many are served, whether the gate failed, and how often it was asked.
static GATES: [(usize, u64, bool, usize, bool, u64); 6] = [
    (2, 3, true, 2, true, 3),
    (2, 1, true, 1, false, 1),
    (2, 2, true, 2, false, 2),
    (2, 3, false, 2, false, 3),
    (0, 1, true, 0, true, 1),
    (2, 0, true, 0, false, 0),
];

#[test]
fn the_gate_fails_is_over_or_is_asked_enough(rt: HostRuntime) -> Result<(), Fail> {
    for (given, sessions, fails, served, gate_failed, asked) in &GATES {
        let mut silent: Vec<(&'static [u8], Vec<u8>)> = Vec::new(rt.alloc());
        for _ in 0..*given {
            silent.push((b"".as_slice(), Vec::new(rt.alloc())))?;
        }
        let mut gate = Listed::new(rt.alloc(), silent, *fails);
        let report = serve_gate(&rt, rt.alloc(), &mut gate, *sessions)?;
        assert!(rt; have_ended(&report, *served, 0), "{given} of {sessions}");
        assert_eq!(rt; report.gate_failed, *gate_failed, "{given} of {sessions}");
        assert_eq!(rt; gate.asked, *asked, "{given} of {sessions}");
        assert!(rt; gate.was_closed_once_at(*asked), "{given} of {sessions}");
    }
    Ok(())
}

/// One more than the most sessions of a hub that serves so many and ends.
const MANY: u64 = 65;

// There is ample memory, so an error is a failure.
#[test]
fn sessions_of_each_number(rt: HostRuntime) -> Result<(), Fail> {
    for count in 0..=MANY {
        let mut silent: Vec<(&'static [u8], Vec<u8>)> = Vec::new(rt.alloc());
        for _ in 0..count {
            silent.push((b"".as_slice(), Vec::new(rt.alloc())))?;
        }
        let mut gate = Listed::new(rt.alloc(), silent, false);
        let report = serve_gate(&rt, rt.alloc(), &mut gate, count)?;
        assert!(rt; have_ended(&report, count as usize, 0), "{count} sessions");
        assert!(rt; gate.was_closed_once_at(count), "{count} sessions");
    }
    Ok(())
}

/// Inputs of four sessions, each one line longer than the one before. A list gives its last session first.
static LONGER: [&str; 4] = ["", "a", "a\n\n", "a\nb\nc\n"];

#[test]
fn results_are_in_the_order_of_the_gate(rt: HostRuntime) -> Result<(), Fail> {
    let mut sessions: Vec<(&'static [u8], Vec<u8>)> = Vec::new(rt.alloc());
    for input in &LONGER {
        sessions.push((input.as_bytes(), Vec::new(rt.alloc())))?;
    }
    let mut gate = Listed::new(rt.alloc(), sessions, false);
    let report = serve_gate(&rt, rt.alloc(), &mut gate, 4)?;
    let results = [Ok(3), Ok(2), Ok(1), Ok(0)];
    assert_eq!(rt; report.results.as_slice(), results.as_slice());
    Ok(())
}

// The first session that is given reads once and fails at its second read, and the other at its first.
#[test]
fn a_fault_is_at_its_session(rt: HostRuntime) -> Result<(), Fail> {
    let mut sessions: Vec<(Dripping<'static>, Vec<u8>)> = Vec::new(rt.alloc());
    sessions.push((Dripping::new(b"", 64, 1), Vec::new(rt.alloc())))?;
    sessions.push((
        Dripping::new(b"status web\nsta", 64, 2),
        Vec::new(rt.alloc()),
    ))?;
    let mut gate = Listed::new(rt.alloc(), sessions, true);
    let report = serve_gate(&rt, rt.alloc(), &mut gate, 3)?;
    let results = [Err(FrontError::Read), Err(FrontError::Read)];
    assert_eq!(rt; report.results.as_slice(), results.as_slice());
    assert_eq!(rt; report.gate_failed, true);
    Ok(())
}

/// Holds its first reply until all of the writers were given one, and fails where that doesn't happen.
#[derive(Drop)]
struct Meeting {
    given: Arc<AtomicU64, Global>,
    all: u64,
    has_met: bool,
}

impl Meeting {
    fn meet(&mut self) -> io::Result<()> {
        if self.has_met {
            return Ok(());
        }
        self.has_met = true;
        self.given.fetch_add(1, Ordering::SeqCst);
        for _turn in 0..1_000_000 {
            if self.given.load(Ordering::SeqCst) >= self.all {
                return Ok(());
            }
            thread::yield_now();
        }
        Err(io::Error::from(ErrorKind::TimedOut))
    }
}

impl Write for Meeting {
    fn write(&mut self, bytes: &[u8]) -> io::Result<usize> {
        self.meet()?;
        Ok(bytes.len())
    }

    fn flush(&mut self) -> io::Result<()> {
        Ok(())
    }
}

impl Sink for Meeting {
    ghost faults = { λ _. None };

    fn push(&mut self, bytes: &[u8]) -> io::Result<usize> {
        self.write(bytes)
    }
}

/// So many sessions of one line, whose first replies are held until `all` were given.
fn meetings(
    alloc: Global,
    count: u64,
    all: u64,
    given: &Arc<AtomicU64, Global>,
) -> Result<Vec<(&'static [u8], Meeting)>, AllocError> {
    let mut sessions: Vec<(&'static [u8], Meeting)> = Vec::new(alloc);
    for _ in 0..count {
        let writer = Meeting {
            given: Arc::try_clone(given)?,
            all,
            has_met: false,
        };
        sessions.push((b"status web\n".as_slice(), writer))?;
    }
    Ok(sessions)
}

#[test]
fn all_sessions_run_at_the_same_time(rt: HostRuntime) -> Result<(), Fail> {
    for (all, count) in [(2u64, 2usize), (16, 16)] {
        let given = Arc::new(rt.alloc(), AtomicU64::new(0))?;
        let sessions = meetings(rt.alloc(), all, all, &given)?;
        let mut gate = Listed::new(rt.alloc(), sessions, false);
        let report = serve_gate(&rt, rt.alloc(), &mut gate, all)?;
        assert!(rt; have_ended(&report, count, 1), "{all} sessions");
    }
    Ok(())
}

/// For how many sessions the gate is asked, whether it fails where it has no more, and whether it failed.
static CLOSES: [(u64, bool, bool); 4] = [
    (2, false, false),
    (2, true, false),
    (3, false, false),
    (3, true, true),
];

// The gate counts as one writer more: each session waits until it is closed.
#[test]
fn the_gate_is_closed_before_a_session_ends(rt: HostRuntime) -> Result<(), Fail> {
    for (sessions, fails, gate_failed) in &CLOSES {
        let given = Arc::new(rt.alloc(), AtomicU64::new(0))?;
        let list = meetings(rt.alloc(), 2, 3, &given)?;
        let mut gate = Telling {
            list: Listed::new(rt.alloc(), list, *fails),
            told: given,
        };
        let report = serve_gate(&rt, rt.alloc(), &mut gate, *sessions)?;
        assert!(rt; have_ended(&report, 2, 1), "{sessions} sessions");
        assert_eq!(rt; report.gate_failed, *gate_failed);
        assert!(rt; gate.list.was_closed_once_at(*sessions));
    }
    Ok(())
}
