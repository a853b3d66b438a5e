//! What a worker asks of its gate, its desks and its journal, in this order.
ghost use Rattle.std.specs.Prelude.{None};
ghost use Rattle.hub_front.specs.declared.stay.Stay.TheVariants.{Short};

use hub_io::{FrontError, Sink, Source};
use hub_server::{Desks, Gate, Journal, Next, ServeError, Session, Timed, serve_on};
use std::alloc::{AllocError, Global};
use std::io::{Read, Write};
use std::sync::atomic::{AtomicBool, Ordering};
use std::sync::{Arc, Mutex, Wait};
use std::test::Fail;
use std::thread::JoinHandle;
use std::time::Duration;
use std::{io, thread};

/// What a worker does.
#[derive(Clone, Copy, Debug, PartialEq, Eq)]
enum Step {
    /// It asks its gate.
    Asks,
    /// It begins a session.
    Begins,
    /// It has a desk serve the session.
    Serves,
    /// It tells its journal that the session of this number has ended, and whether it timed out.
    Ended(u64, bool),
    /// It tells its journal of a failed accept.
    Fails,
}

/// What a worker has done so far.
#[derive(Drop)]
struct Steps {
    list: Mutex<Vec<Step>>,
}

impl Steps {
    // Nobody else has the lock while the worker runs.
    fn add(&self, step: Step) {
        if let Some(mut list) = self.list.try_lock() {
            let _ = list.push(step);
        }
    }
}

type Shared = Arc<Steps, Global>;

/// The stream of a client that says nothing.
#[derive(Drop)]
struct Silent {
    is_late: bool,
}

impl Timed for Silent {
    fn has_timed_out(&self) -> bool {
        self.is_late
    }
}

impl Read for Silent {
    fn read(&mut self, _buf: &mut [u8]) -> io::Result<usize> {
        Ok(0)
    }
}

impl Source for Silent {
    ghost reads = { λ _. None };

    ghost faults = { λ _. None };

    fn pull(&mut self, buf: &mut [u8]) -> io::Result<usize> {
        self.read(buf)
    }
}

impl Write for Silent {
    fn write(&mut self, bytes: &[u8]) -> io::Result<usize> {
        Ok(bytes.len())
    }

    fn flush(&mut self) -> io::Result<()> {
        Ok(())
    }
}

impl Sink for Silent {
    ghost faults = { λ _. None };

    fn push(&mut self, bytes: &[u8]) -> io::Result<usize> {
        self.write(bytes)
    }
}

/// What a gate gives.
#[derive(Clone, Copy)]
enum Event {
    /// A session, and whether its reader and its writer time out.
    Session(bool, bool),
    Failed,
}

/// Gives these events, and is over then.
#[derive(Drop)]
struct Given {
    events: &'static [Event],
    steps: Shared,
}

impl Gate<Silent, Silent> for Given {
    ghost gives = { λ old next new. Unit {0} };

    ghost closes = { λ old new. Unit {0} };

    fn next<H: Wait>(&mut self, _rt: &H) -> Next<Silent, Silent> {
        self.steps.add(Step::Asks);
        let Some((event, rest)) = self.events.split_first() else {
            return Next::Over;
        };
        self.events = rest;
        match *event {
            Event::Session(reads, writes) => {
                Next::Session(Silent { is_late: reads }, Silent { is_late: writes })
            }
            Event::Failed => Next::Failed,
        }
    }

    fn close(&mut self) {}
}

/// Desks that open none, as if memory ran out.
#[derive(Drop)]
struct Bare {
    steps: Shared,
}

impl Desks for Bare {
    ghost Own = { Unit {0} };

    ghost opens = { λ _ _. Unit {0} };

    ghost stay = { λ _. Short };

    ghost asks = { λ _ _ _ _. Unit {0} };

    ghost ends = { λ _ _. Unit {0} };

    fn share(&self) -> Result<Bare, AllocError> {
        let steps = Arc::try_clone(&self.steps)?;
        Ok(Bare { steps })
    }

    fn serve<H: Wait, R: Source, W: Sink>(
        &self,
        _rt: &H,
        _alloc: Global,
        _reader: &mut R,
        _writer: &mut W,
    ) -> Result<u64, FrontError> {
        self.steps.add(Step::Serves);
        Err(FrontError::Memory)
    }
}

/// Numbers sessions from 7.
#[derive(Drop)]
struct Telling {
    last: u64,
    steps: Shared,
}

impl<R: Source + Timed, W: Sink + Timed> Journal<R, W> for Telling {
    ghost numbers = { λ _ _ _. Unit {0} };

    ghost tells = { λ _ _ _ _ _ _. Unit {0} };

    ghost fails = { λ _ _. Unit {0} };

    fn share(&self) -> Result<Telling, AllocError> {
        let steps = Arc::try_clone(&self.steps)?;
        let last = self.last;
        Ok(Telling { last, steps })
    }

    fn begins(&mut self) -> u64 {
        self.steps.add(Step::Begins);
        self.last = self.last.saturating_add(1);
        self.last
    }

    fn ended<H: Wait, O: Desks>(
        &mut self,
        _rt: &H,
        number: u64,
        _session: &Session<R, W, O>,
        _ended: Result<u64, FrontError>,
        reader: &R,
        writer: &W,
    ) {
        let timed_out = reader.has_timed_out() || writer.has_timed_out();
        self.steps.add(Step::Ended(number, timed_out));
    }

    fn failed<H: Wait>(&mut self, _rt: &H) {
        self.steps.add(Step::Fails);
    }

    fn unstarted<H: Wait>(&mut self, _rt: &H, _why: ServeError) {}
}

static EVENTS: [Event; 5] = [
    Event::Session(false, false),
    Event::Failed,
    Event::Session(true, false),
    Event::Failed,
    Event::Session(false, true),
];

/// How often a session is tried for which there is never any memory.
const TRIES: u64 = 600;

/// What a worker does with one session, and with no memory for it.
fn add_session(steps: &mut Vec<Step>, number: u64, timed_out: bool) -> Result<(), AllocError> {
    steps.push(Step::Asks)?;
    steps.push(Step::Begins)?;
    for _ in 1..TRIES {
        steps.push(Step::Serves)?;
        steps.push(Step::Fails)?;
    }
    steps.push(Step::Serves)?;
    steps.push(Step::Ended(number, timed_out))?;
    Ok(())
}

/// What a worker does with these events, one after the other.
fn expected_steps(alloc: Global) -> Result<Vec<Step>, AllocError> {
    let mut steps = Vec::new(alloc);
    add_session(&mut steps, 7, false)?;
    steps.push(Step::Asks)?;
    steps.push(Step::Fails)?;
    add_session(&mut steps, 8, true)?;
    steps.push(Step::Asks)?;
    steps.push(Step::Fails)?;
    add_session(&mut steps, 9, true)?;
    steps.push(Step::Asks)?;
    Ok(steps)
}

#[test]
fn a_worker_serves_until_the_gate_is_over(rt: HostRuntime) -> Result<(), Fail> {
    let alloc: Global = rt.alloc();
    let list = Mutex::new(Vec::new(alloc));
    let steps = Arc::new(alloc, Steps { list })?;
    let desks = Bare {
        steps: Arc::try_clone(&steps)?,
    };
    let mut journal = Telling {
        last: 6,
        steps: Arc::try_clone(&steps)?,
    };
    let mut gate = Given {
        events: &EVENTS,
        steps: Arc::try_clone(&steps)?,
    };
    let is_over = Arc::new(alloc, AtomicBool::new(false))?;
    let told = Arc::try_clone(&is_over)?;
    let worker: JoinHandle<()> = thread::spawn(&rt, move || {
        serve_on(&rt, alloc, &desks, &mut gate, &mut journal);
        told.store(true, Ordering::SeqCst);
    })?;
    for _ in 0..500 {
        if !is_over.load(Ordering::SeqCst) {
            thread::sleep(&rt, Duration::from_millis(10));
        }
    }
    let wanted = expected_steps(alloc)?;
    assert_eq!(rt; steps.list.lock(&rt).as_slice(), wanted.as_slice());
    worker.join(&rt);
    Ok(())
}
