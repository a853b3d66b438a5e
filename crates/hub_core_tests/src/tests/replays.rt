//! Replays of lists of calls.
use crate::tests::fixtures::{are_events, word};
use hub_record::{Call, Kind, Letters, Limits, NoId, Policy, PubError, Said, Taken, World, replay};
use std::alloc::Global;
use std::io;
use std::test::Fail;

/// A call of `replay`. A message is spelled by letters.
#[derive(Clone, Copy)]
enum Plan {
    Subscribe,
    Publish(u64, &'static str),
    Take(u64, usize),
    Cancel(u64),
    Close,
}

/// Calls with the reply to each, and what is there after them.
pub(crate) struct Replay {
    policy: Policy,
    calls: &'static [(Plan, Said)],
    /// What subscription 1 gathered.
    gathered: &'static [(u64, u8)],
    /// The end, the base, and whether the record is closed.
    state: (u64, u64, bool),
}

pub(crate) static HELD: Replay = Replay {
    policy: Policy::Hold,
    calls: &[
        (Plan::Subscribe, Said::Subscribed(Ok((1, 0)))),
        (Plan::Publish(7, "ab"), Said::Published(Ok(0))),
        (Plan::Publish(9, "c"), Said::Published(Ok(2))),
        (Plan::Take(1, 2), Said::Took(Ok(Taken::Got(2)))),
        (Plan::Take(1, 0), Said::Took(Ok(Taken::Got(0)))),
        (Plan::Cancel(1), Said::Cancelled(Ok(()))),
        (Plan::Take(1, 1), Said::Took(Err(NoId))),
        (Plan::Close, Said::Shut(Ok(()))),
    ],
    gathered: &[(7, b'a'), (7, b'b')],
    state: (3, 3, true),
};

static EVICTED: Replay = Replay {
    policy: Policy::Evict,
    calls: &[
        (Plan::Subscribe, Said::Subscribed(Ok((1, 0)))),
        (Plan::Publish(7, "ab"), Said::Published(Ok(0))),
        (Plan::Take(1, 1), Said::Took(Ok(Taken::Got(1)))),
        (Plan::Publish(9, "cdef"), Said::Published(Ok(2))),
        (Plan::Take(1, 2), Said::Took(Ok(Taken::Evicted))),
        (Plan::Publish(7, "ghij"), Said::Published(Ok(6))),
        (Plan::Publish(7, "k"), Said::Published(Err(PubError::Spent))),
        (Plan::Close, Said::Shut(Ok(()))),
        (Plan::Take(1, 0), Said::Took(Ok(Taken::Evicted))),
        (Plan::Cancel(1), Said::Cancelled(Ok(()))),
        (Plan::Take(1, 1), Said::Took(Err(NoId))),
    ],
    gathered: &[(7, b'a')],
    state: (10, 10, true),
};

fn call_of(alloc: Global, plan: Plan) -> io::Result<Call> {
    Ok(match plan {
        Plan::Subscribe => Call::Subscribe,
        Plan::Publish(who, text) => Call::Publish {
            who,
            letters: Letters::of(word(alloc, text)?),
        },
        Plan::Take(id, max) => Call::Take { id, max },
        Plan::Cancel(id) => Call::Cancel { id },
        Plan::Close => Call::Close,
    })
}

fn calls_of(alloc: Global, plans: &[(Plan, Said)]) -> io::Result<Vec<Call>> {
    let mut calls = Vec::new(alloc);
    for (plan, _) in plans {
        calls.push(call_of(alloc, *plan)?)?;
    }
    Ok(calls)
}

fn are_the_replies(replies: &[Said], calls: &[(Plan, Said)]) -> bool {
    for (said, (_, wanted)) in replies.iter().zip(calls.iter()) {
        if *said != *wanted {
            return false;
        }
    }
    replies.len() == calls.len()
}

/// Whether these are the replies to the calls, and the state after them.
fn is_after(world: &World, row: &Replay) -> bool {
    let has_gathered = match world.gathered.get(&1) {
        Some(events) => are_events(events.as_slice(), row.gathered),
        None => false,
    };
    let state = &world.state;
    has_gathered
        && world.gathered.len() == 1
        && (state.end(), state.base(), state.closed()) == row.state
        && are_the_replies(world.replies.as_slice(), row.calls)
}

/// Whether a record with these limits replays the calls as the row says.
pub(crate) fn replays_so(alloc: Global, limits: Limits, row: &Replay) -> io::Result<bool> {
    let calls = calls_of(alloc, row.calls)?;
    let world = replay(alloc, Kind::Plain, limits.with(row.policy), &calls)?;
    Ok(is_after(&world, row))
}

#[test]
fn replay_gives_the_replies_and_what_was_gathered(rt: HostRuntime) -> Result<(), Fail> {
    let limits = Limits::of(4, 10, 10).ok_or("no limits")?;
    assert!(rt; replays_so(rt.alloc(), limits, &HELD)?);
    assert!(rt; replays_so(rt.alloc(), limits, &EVICTED)?);
    Ok(())
}
