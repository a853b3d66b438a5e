//! Restarts during a wait: by rows, of a wait that is evicted meanwhile, and beside it on another thread.
use crate::tests::fixtures::word;
use crate::tests::passes::{Sender, Shared, new_sender, open, open_with};
use crate::tests::waits::{open_post, start_service};
use hub_letters::{Letter, Want};
use hub_record::{Enter, Kind, Policy, PubError};
use hub_wait::{Go, Patience, Pause, Span, Verdict, svwait};
use std::alloc::Global;
use std::process::Abort;
use std::rt::Clock;
use std::sync::{Arc, Wait};
use std::test::Fail;
use std::thread;
use std::thread::Threads;

/// A pause that sends its messages, so many of them at each call.
struct Reports {
    supervisor: Sender,
    messages: [Vec<Letter>; 3],
    at_once: usize,
    sent: usize,
}

impl Reports {
    fn end<R: Wait>(self, rt: &R) {
        let Reports {
            supervisor,
            messages: _,
            at_once: _,
            sent: _,
        } = self;
        supervisor.leave(rt);
    }
}

impl Pause for Reports {
    fn pause<R: Wait>(&mut self, rt: &R) -> Go {
        for _ in 0..self.at_once {
            if let Some(message) = self.messages.get(self.sent) {
                let _ = self.supervisor.send(rt, message);
            }
            self.sent = self.sent.wrapping_add(1);
        }
        Go::Again
    }
}

/// A wait for a restart: the letters before it, what is wanted, the messages of the first two pauses, and how many turns.
type Course = (&'static str, Want, [&'static str; 2], u64);

/// How the wait ends: the verdict, and the watch's number, code of flags and fall.
type End = (Verdict, u64, u64, bool);

const AGAIN: Want = Want::Restarted;

const READY_AGAIN: Want = Want::RestartedReady;

static COURSES: [(Course, End); 8] = [
    (("su", AGAIN, ["dDu", "U"], 1), (Verdict::Yes, 5, 5, true)),
    (
        ("su", READY_AGAIN, ["dDu", "U"], 1),
        (Verdict::Late, 5, 5, true),
    ),
    (
        ("su", READY_AGAIN, ["dDu", "U"], 2),
        (Verdict::Yes, 6, 7, true),
    ),
    // It doesn't fall.
    (("su", AGAIN, ["U", ""], 3), (Verdict::Late, 3, 7, false)),
    // A new supervisor starts it.
    (("su", AGAIN, ["su", ""], 1), (Verdict::Yes, 4, 5, true)),
    // It fell before the wait.
    (
        ("suUdDu", READY_AGAIN, ["U", ""], 3),
        (Verdict::Late, 7, 7, false),
    ),
    // It stays down.
    (("suU", AGAIN, ["d", "D"], 3), (Verdict::Late, 5, 6, true)),
    // It won't be restarted.
    (
        ("suU", READY_AGAIN, ["dO", "D"], 3),
        (Verdict::Never, 5, 12, true),
    ),
];

fn waits_for<R: Abort + Wait + Enter>(rt: &R, alloc: Global, course: Course) -> Result<End, Fail> {
    let (before, want, [first, second], turns) = course;
    let messages = [word(alloc, first)?, word(alloc, second)?, word(alloc, "")?];
    let (fifodir, supervisor) = start_service(rt, alloc, before)?;
    let mut pause = Reports {
        supervisor,
        messages,
        at_once: 1,
        sent: 0,
    };
    let mut posts = [open_post(rt, fifodir, want, true)];
    let verdict = svwait(rt, &mut posts, Span::All, turns, &mut pause);
    let [post] = posts;
    let watch = *post.watch();
    post.end(rt);
    pause.end(rt);
    Ok((verdict, watch.at(), watch.flags().code(), watch.fell()))
}

/// The place of the first row that goes otherwise.
fn first_restarted_otherwise<R: Abort + Wait + Enter>(
    rt: &R,
    alloc: Global,
) -> Result<Option<usize>, Fail> {
    for (place, (course, end)) in COURSES.iter().enumerate() {
        if waits_for(rt, alloc, *course)? != *end {
            return Ok(Some(place));
        }
    }
    Ok(None)
}

/// Whether a wait is told right if its own subscription is evicted while it waits.
fn an_evicted_wait_goes_on<R: Abort + Wait + Enter>(rt: &R, alloc: Global) -> Result<bool, Fail> {
    let messages = [word(alloc, "uU")?, word(alloc, "dD")?, word(alloc, "uU")?];
    let first = word(alloc, "s")?;
    let fifodir = open_with(alloc, Kind::Service, (2, 1000, 10), Policy::Evict)?;
    let mut supervisor = new_sender(rt, &fifodir);
    let is_begun = supervisor.send(rt, &first) == Ok(0);
    let mut posts = [open_post(rt, fifodir, Want::Ready, true)];
    let mut pause = Reports {
        supervisor,
        messages,
        at_once: 3,
        sent: 0,
    };
    let verdict = svwait(rt, &mut posts, Span::All, 1, &mut pause);
    let [post] = posts;
    let (at, code, mark) = (post.watch().at(), post.watch().flags().code(), post.mark());
    post.end(rt);
    pause.end(rt);
    Ok(is_begun && (verdict, at, code, mark) == (Verdict::Yes, 7, 7, 1))
}

/// How many restarts there are.
const RESTARTS: u64 = 1_000;

/// How many turns each wait has. A wait that misses a fall makes all of them, and is late.
const TURNS: u64 = 2_000;

/// The next number of a sequence without a visible order.
fn scatter(number: u64) -> u64 {
    let mixed = number ^ number.wrapping_shl(13);
    let mixed = mixed ^ mixed.wrapping_shr(7);
    mixed ^ mixed.wrapping_shl(17)
}

/// Dies after a pause that the number determines, and comes up again at once.
fn restart<R: Wait>(rt: &R, supervisor: &mut Sender, number: u64) -> Result<u64, PubError> {
    for _ in 0..number % 200 {
        thread::yield_now();
    }
    let mut reported = Ok(0);
    for byte in b"dDuU" {
        let letter = Letter::of(*byte).unwrap_or(Letter::LEAST);
        reported = supervisor.send(rt, &[letter]);
    }
    reported
}

/// Waits for a restart, while another thread makes it. Returns the verdict, and the watch's number.
fn waits_beside<R: Abort + Threads + Wait + Enter + Clock + Sync + Copy>(
    rt: &R,
    fifodir: Shared,
    supervisor: &mut Sender,
    number: u64,
) -> (Verdict, u64) {
    let mut posts = [open_post(rt, fifodir, Want::RestartedReady, true)];
    let mut pause = Patience::new(*rt);
    let (_reported, verdict) = thread::join_mut(
        rt,
        &mut || -> Result<u64, PubError> { restart(rt, supervisor, number) },
        &mut || -> Verdict { svwait(rt, &mut posts, Span::All, TURNS, &mut pause) },
    );
    let [post] = posts;
    let at = post.watch().at();
    post.end(rt);
    (verdict, at)
}

/// How many of the restarts their waits saw, each at the number of its last letter.
fn seen_restarts<R: Abort + Threads + Wait + Enter + Clock + Sync + Copy>(
    rt: &R,
    fifodir: &Shared,
    supervisor: &mut Sender,
) -> u64 {
    let mut seen: u64 = 0;
    let mut number: u64 = 88_172_645;
    for made in 0..RESTARTS {
        number = scatter(number);
        let at = made.wrapping_mul(4).wrapping_add(7);
        let Ok(fifodir) = Arc::try_clone(fifodir) else {
            return seen;
        };
        if waits_beside(rt, fifodir, supervisor, number) == (Verdict::Yes, at) {
            seen = seen.wrapping_add(1);
        }
    }
    seen
}

#[test]
fn a_wait_goes_on_if_it_is_evicted(rt: HostRuntime) -> Result<(), Fail> {
    let goes_on = an_evicted_wait_goes_on(&rt, rt.alloc())?;
    assert!(rt; goes_on, "a wait whose subscription is evicted");
    Ok(())
}

#[test]
fn waits_for_a_restart(rt: HostRuntime) -> Result<(), Fail> {
    let unlike = first_restarted_otherwise(&rt, rt.alloc())?;
    assert_eq!(rt; unlike, None);
    Ok(())
}

#[test]
fn no_restart_is_missed(rt: HostRuntime) -> Result<(), Fail> {
    let letters = word(rt.alloc(), "suU")?;
    let fifodir = open(rt.alloc(), Kind::Service, (64, 1_000_000, 10_000))?;
    let mut supervisor = new_sender(&rt, &fifodir);
    let begun = supervisor.send(&rt, &letters);
    let seen = seen_restarts(&rt, &fifodir, &mut supervisor);
    supervisor.leave(&rt);
    assert_eq!(rt; begun, Ok(0));
    assert_eq!(rt; seen, RESTARTS);
    Ok(())
}
