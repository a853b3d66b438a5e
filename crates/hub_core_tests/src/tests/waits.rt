use crate::tests::fixtures::{none_is_unlike, word};
use crate::tests::passes::{Sender, Shared, new_sender, open};
use hub_letters::{Letter, Want};
use hub_record::{Enter, Kind, PubError};
use hub_wait::{Go, Patience, Pause, Post, Span, Verdict, svlisten, svwait};
use std::alloc::Global;
use std::process::Abort;
use std::rt::Clock;
use std::sync::Wait;
use std::test::Fail;

/// What a pause does at one of its calls.
#[derive(Clone, Copy)]
pub(crate) enum Deed {
    Send(&'static str),
    Close,
    Expire,
}

/// A pause that counts its calls, and does its deed at one of them.
pub(crate) struct Doing {
    pub(crate) supervisor: Sender,
    pub(crate) deed: Deed,
    pub(crate) letters: Vec<Letter>,
    pub(crate) at_call: u64,
    pub(crate) calls: u64,
}

impl Pause for Doing {
    fn pause<R: Wait>(&mut self, rt: &R) -> Go {
        self.calls = self.calls.wrapping_add(1);
        if self.calls != self.at_call {
            return Go::Again;
        }
        match self.deed {
            Deed::Send(_) => {
                let _ = self.supervisor.send(rt, &self.letters);
                Go::Again
            }
            Deed::Close => {
                let _ = self.supervisor.close(rt);
                Go::Again
            }
            Deed::Expire => Go::Expired,
        }
    }
}

impl Doing {
    /// A pause that has counted no call.
    pub(crate) fn new(supervisor: Sender, deed: Deed, letters: Vec<Letter>, at_call: u64) -> Doing {
        Doing {
            supervisor,
            deed,
            letters,
            at_call,
            calls: 0,
        }
    }

    /// How many calls it counted. Its supervisor leaves.
    pub(crate) fn end<R: Wait>(self, rt: &R) -> u64 {
        let Doing {
            supervisor,
            deed: _,
            letters: _,
            at_call: _,
            calls,
        } = self;
        supervisor.leave(rt);
        calls
    }
}

/// A wait for readiness of one service with a deed at a call of the pause, for so many turns; then the verdict, the
/// number of the watch, and how many turns were made.
struct Row {
    name: &'static str,
    deed: Deed,
    at_call: u64,
    turns: u64,
    answer: (Verdict, u64, u64),
}

static ROWS: [Row; 6] = [
    Row {
        name: "ready in the second of five turns",
        deed: Deed::Send("uU"),
        at_call: 2,
        turns: 5,
        answer: (Verdict::Yes, 3, 2),
    },
    Row {
        name: "ready in the last turn",
        deed: Deed::Send("uU"),
        at_call: 2,
        turns: 2,
        answer: (Verdict::Yes, 3, 2),
    },
    Row {
        name: "ready after the last turn",
        deed: Deed::Send("uU"),
        at_call: 2,
        turns: 1,
        answer: (Verdict::Late, 1, 1),
    },
    Row {
        name: "no turns",
        deed: Deed::Send("uU"),
        at_call: 1,
        turns: 0,
        answer: (Verdict::Late, 1, 0),
    },
    Row {
        name: "closed in the first turn",
        deed: Deed::Close,
        at_call: 1,
        turns: 3,
        answer: (Verdict::Never, 1, 1),
    },
    Row {
        name: "its patience ends in the first turn",
        deed: Deed::Expire,
        at_call: 1,
        turns: 3,
        answer: (Verdict::Late, 1, 1),
    },
];

/// A service's fifodir whose supervisor has sent these letters.
pub(crate) fn start_service<R: Abort + Wait + Enter>(
    rt: &R,
    alloc: Global,
    text: &str,
) -> Result<(Shared, Sender), Fail> {
    let letters = word(alloc, text)?;
    let fifodir = open(alloc, Kind::Service, (64, 1000, 10))?;
    let mut supervisor = new_sender(rt, &fifodir);
    supervisor
        .send(rt, &letters)
        .expect(rt, "its first letters");
    Ok((fifodir, supervisor))
}

/// A post at a fifodir that has room for one more ticket.
pub(crate) fn open_post<R: Abort + Wait + Enter>(
    rt: &R,
    fifodir: Shared,
    want: Want,
    notifies: bool,
) -> Post {
    Post::open(rt, fifodir, want, notifies).expect(rt, "a post")
}

/// The letters that the deed sends.
pub(crate) fn letters_of(alloc: Global, deed: Deed) -> Result<Vec<Letter>, Fail> {
    let text = match deed {
        Deed::Send(text) => text,
        Deed::Close | Deed::Expire => "",
    };
    Ok(word(alloc, text)?)
}

fn waits_so<R: Abort + Wait + Enter>(rt: &R, alloc: Global, row: &Row) -> Result<bool, Fail> {
    let letters = letters_of(alloc, row.deed)?;
    let (fifodir, supervisor) = start_service(rt, alloc, "s")?;
    let mut pause = Doing::new(supervisor, row.deed, letters, row.at_call);
    let mut posts = [open_post(rt, fifodir, Want::Ready, true)];
    let verdict = svwait(rt, &mut posts, Span::All, row.turns, &mut pause);
    let at = posts[0].watch().at();
    let [post] = posts;
    post.end(rt);
    Ok((verdict, at, pause.end(rt)) == row.answer)
}

/// The name of the first row that goes otherwise.
fn first_unlike<R: Abort + Wait + Enter>(
    rt: &R,
    alloc: Global,
) -> Result<Option<&'static str>, Fail> {
    for row in ROWS.iter() {
        if !waits_so(rt, alloc, row)? {
            return Ok(Some(row.name));
        }
    }
    Ok(None)
}

fn waits_for_no_service<R: Wait + Clock>(rt: &R, pause: &mut Patience<R>) -> bool {
    svwait(rt, &mut [], Span::All, 3, pause) == Verdict::Yes
        && svwait(rt, &mut [], Span::Any, 3, pause) == Verdict::Never
}

/// Whether a wait for so many turns, beside a supervisor that starts the service, ends with the verdict and at the number.
fn act_is_heard<R: Abort + Wait + Enter + Clock + Copy>(
    rt: &R,
    alloc: Global,
    turns: u64,
    wanted: (Verdict, u64),
) -> Result<bool, Fail> {
    let up = word(alloc, "u")?;
    let (fifodir, mut supervisor) = start_service(rt, alloc, "s")?;
    let mut posts = [open_post(rt, fifodir, Want::Up, true)];
    let mut pause = Patience::new(*rt);
    let (acted, verdict) = svlisten(rt, &mut posts, Span::All, turns, &mut pause, |_posts| {
        supervisor.send(rt, &up)
    });
    let [post] = posts;
    let is_so = acted == Ok(1) && (verdict, post.watch().at()) == wanted && post.mark() == 1;
    post.end(rt);
    supervisor.leave(rt);
    Ok(is_so)
}

/// Whether two messages of two letters are sent at the number and refused.
fn sends_one_of_two<R: Wait>(rt: &R, supervisor: &mut Sender, two: &[Letter], number: u64) -> bool {
    supervisor.send(rt, two) == Ok(number) && supervisor.send(rt, two) == Err(PubError::Full)
}

fn room_comes_with_a_wait<R: Abort + Wait + Enter + Clock + Copy>(
    rt: &R,
    alloc: Global,
) -> Result<bool, Fail> {
    let two = word(alloc, "ab")?;
    let fifodir = open(alloc, Kind::Plain, (2, 100, 10))?;
    let mut supervisor = new_sender(rt, &fifodir);
    let mut posts = [open_post(rt, fifodir, Want::Up, false)];
    let mut pause = Patience::new(*rt);
    let was_full = sends_one_of_two(rt, &mut supervisor, &two, 0);
    let verdict = svwait(rt, &mut posts, Span::Any, 40, &mut pause);
    let is_full = sends_one_of_two(rt, &mut supervisor, &two, 2);
    let [post] = posts;
    post.end(rt);
    let is_sent = supervisor.send(rt, &two) == Ok(4);
    supervisor.leave(rt);
    Ok(was_full && verdict == Verdict::Late && is_full && is_sent)
}

#[test]
fn a_wait_goes_on_for_so_many_turns(rt: HostRuntime) -> Result<(), Fail> {
    none_is_unlike(&rt, first_unlike(&rt, rt.alloc())?);
    Ok(())
}

#[test]
fn waits_by_the_clock(rt: HostRuntime) -> Result<(), Fail> {
    assert!(rt;
        waits_for_no_service(&rt, &mut Patience::new(rt)),
        "a wait for no service"
    );
    let heard = act_is_heard(&rt, rt.alloc(), 1, (Verdict::Yes, 2))?;
    assert!(rt; heard, "what an act leads to is not missed");
    let late = act_is_heard(&rt, rt.alloc(), 0, (Verdict::Late, 1))?;
    assert!(rt; late, "what an act leads to, without turns");
    assert!(rt;
        room_comes_with_a_wait(&rt, rt.alloc())?,
        "a long wait, and room after it"
    );
    Ok(())
}
