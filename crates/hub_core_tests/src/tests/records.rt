//! Records, by rows of calls.
use crate::tests::fixtures::{BLANK, BLANKS, are_events, none_is_unlike, row, word};
use hub_letters::Stage;
use hub_record::{Closed, Event, Kind, Limits, NoId, Policy, PubError, Record, SubError, Taken};
use std::alloc::Global;
use std::io;
use std::test::Fail;

/// A call and what it answers. A message and what a take puts into three places are spelled by letters.
#[derive(Clone, Copy)]
enum Step {
    Subscribe(Result<(u64, u64), SubError>),
    /// Subscriptions that get the ids from 1 to the number, each at event 0.
    SubscribeUpTo(u64),
    Publish(u64, &'static str, Result<u64, PubError>),
    Take(u64, Result<Taken, NoId>, [(u64, u8); 3]),
    /// So many times a message of one letter, and a take of it by subscription 1.
    Pass(u64),
    Cancel(u64, Result<(), NoId>),
    Close(Result<(), Closed>),
    /// The end, the base, and how many events wait for subscription 1.
    Counts(u64, u64, Option<u64>),
    /// How many subscriptions are active, and how many are evicted and not cancelled.
    Subscriptions(usize, usize),
    /// The stage, the flags' code, and whether it is closed.
    Shows(Stage, u64, bool),
    /// The number of the publisher of the last event.
    Last(Option<u64>),
}

/// A record of this kind, with these limits, answers these calls so.
struct Row {
    name: &'static str,
    kind: Kind,
    limits: (u64, u64, u64),
    steps: &'static [Step],
}

static ROWS: [Row; 8] = [
    row!("ids are never given again", Plain (2, 5, 1):
        Subscribe(Ok((1, 0))), Cancel(1, Ok(())), Subscribe(Err(SubError::Spent)), Close(Ok(())),
        Subscribe(Err(SubError::Closed)), Publish(1, "", Err(PubError::Closed)), Close(Err(Closed)),
        Cancel(1, Err(NoId))),
    row!("full is exact", Plain (2, 100, 10):
        Subscribe(Ok((1, 0))), Publish(1, "ab", Ok(0)), Publish(1, "", Ok(2)),
        Publish(1, "c", Err(PubError::Full)), Counts(2, 0, Some(2))),
    row!("nobody is too slow where nobody subscribed", Plain (2, 100, 10):
        Publish(1, "abcde", Ok(0)), Counts(5, 5, None), Shows(Stage::Off, 0, false)),
    row!("the slowest holds the base", Plain (4, 100, 10):
        Subscribe(Ok((1, 0))), Publish(7, "ab", Ok(0)), Subscribe(Ok((2, 2))),
        Take(2, Ok(Taken::Nothing), BLANKS), Publish(9, "cd", Ok(2)),
        Take(2, Ok(Taken::Got(2)), [(9, b'c'), (9, b'd'), BLANK]), Counts(4, 0, Some(4)),
        Take(1, Ok(Taken::Got(3)), [(7, b'a'), (7, b'b'), (9, b'c')]), Counts(4, 3, Some(1)),
        Cancel(1, Ok(())), Counts(4, 4, None), Close(Ok(())), Take(2, Ok(Taken::End), BLANKS),
        Take(1, Err(NoId), BLANKS)),
    row!("an unlawful letter stops the whole message", Service (8, 100, 10):
        Subscribe(Ok((1, 0))), Publish(1, "su", Ok(0)),
        Publish(1, "UdU", Err(PubError::Unlawful(2))), Counts(2, 0, Some(2)),
        Shows(Stage::Starting, 5, false), Publish(1, "UdD", Ok(2)), Counts(5, 0, Some(5)),
        Shows(Stage::Idle, 6, false)),
    row!("a thousand and twenty-four subscriptions at once", Plain (2, 100, 2000):
        SubscribeUpTo(1024), Subscribe(Err(SubError::Many)), Cancel(512, Ok(())),
        Subscribe(Ok((1025, 0))), Subscribe(Err(SubError::Many))),
    row!("a million letters pass a ring of two", Plain (2, 1_000_000, 10):
        Subscribe(Ok((1, 0))), Pass(1_000_000), Counts(1_000_000, 1_000_000, Some(0)),
        Publish(1, "a", Err(PubError::Spent)), Publish(1, "", Ok(1_000_000))),
    row!("whose event is last, whether it is kept or not", Service (2, 100, 10):
        Last(None), Publish(7, "", Ok(0)), Publish(7, "u", Err(PubError::Unlawful(0))), Last(None),
        Publish(7, "s", Ok(0)), Last(Some(7)), Publish(8, "", Ok(1)),
        Publish(8, "U", Err(PubError::Unlawful(0))), Last(Some(7)), Publish(8, "u", Ok(1)),
        Last(Some(8)), Subscribe(Ok((1, 2))), Last(Some(8)), Publish(7, "Ud", Ok(2)),
        Last(Some(7)), Publish(9, "D", Err(PubError::Full)), Last(Some(7)),
        Take(1, Ok(Taken::Got(2)), [(7, b'U'), (7, b'd'), BLANK]), Cancel(1, Ok(())),
        Last(Some(7)), Close(Ok(())), Publish(9, "D", Err(PubError::Closed)), Last(Some(7))),
];

/// Rows of records that evict.
static EVICTING: [Row; 5] = [
    row!("the slowest is evicted, and no other", Plain (4, 100, 10):
        Subscribe(Ok((1, 0))), Subscribe(Ok((2, 0))), Publish(1, "abcd", Ok(0)),
        Take(1, Ok(Taken::Got(3)), [(1, b'a'), (1, b'b'), (1, b'c')]), Publish(1, "ef", Ok(4)),
        Counts(6, 3, Some(3)), Take(2, Ok(Taken::Evicted), BLANKS),
        Take(1, Ok(Taken::Got(3)), [(1, b'd'), (1, b'e'), (1, b'f')]),
        Take(1, Ok(Taken::Nothing), BLANKS), Take(2, Ok(Taken::Evicted), BLANKS), Cancel(2, Ok(())),
        Take(2, Err(NoId), BLANKS), Publish(1, "ghijk", Err(PubError::Full)), Cancel(1, Ok(())),
        Publish(1, "ghijk", Ok(6)), Counts(11, 11, None)),
    row!("an evicted one stays so until it is cancelled", Plain (2, 100, 10):
        Subscribe(Ok((1, 0))), Publish(1, "ab", Ok(0)), Counts(2, 0, Some(2)),
        Publish(1, "c", Ok(2)), Counts(3, 3, None), Take(1, Ok(Taken::Evicted), BLANKS),
        Subscribe(Ok((2, 3))), Publish(1, "de", Ok(3)), Take(1, Ok(Taken::Evicted), BLANKS),
        Take(2, Ok(Taken::Got(2)), [(1, b'd'), (1, b'e'), BLANK]), Close(Ok(())),
        Take(2, Ok(Taken::End), BLANKS), Take(1, Ok(Taken::Evicted), BLANKS), Cancel(1, Ok(())),
        Cancel(1, Err(NoId))),
    row!("the total and an empty message", Plain (3, 5, 10):
        Subscribe(Ok((1, 0))), Publish(1, "abc", Ok(0)), Publish(1, "", Ok(3)),
        Counts(3, 0, Some(3)), Publish(1, "def", Err(PubError::Spent)), Publish(1, "de", Ok(3)),
        Counts(5, 5, None), Publish(1, "f", Err(PubError::Spent))),
    row!("evicted ones are among the thousand and twenty-four", Plain (1, 100, 2000):
        SubscribeUpTo(1024), Publish(1, "a", Ok(0)), Publish(1, "b", Ok(1)),
        Take(1024, Ok(Taken::Evicted), BLANKS), Subscribe(Err(SubError::Many)), Cancel(7, Ok(())),
        Subscribe(Ok((1025, 2))), Publish(1, "c", Ok(2)),
        Take(1025, Ok(Taken::Got(1)), [(1, b'c'), BLANK, BLANK])),
    row!("evicted ones are counted until they are cancelled", Plain (2, 100, 10):
        Subscriptions(0, 0), Subscribe(Ok((1, 0))), Subscribe(Ok((2, 0))), Subscribe(Ok((3, 0))),
        Publish(1, "ab", Ok(0)), Subscriptions(3, 0),
        Take(3, Ok(Taken::Got(2)), [(1, b'a'), (1, b'b'), BLANK]), Publish(1, "c", Ok(2)),
        Subscriptions(1, 2), Take(1, Ok(Taken::Evicted), BLANKS), Subscriptions(1, 2),
        Cancel(3, Ok(())), Subscriptions(0, 2), Cancel(1, Ok(())), Subscriptions(0, 1),
        Subscribe(Ok((4, 3))), Close(Ok(())), Subscriptions(1, 1), Cancel(2, Ok(())),
        Subscriptions(1, 0)),
];

fn takes(
    record: &mut Record,
    id: u64,
    answer: Result<Taken, NoId>,
    wanted: [(u64, u8); 3],
) -> bool {
    let mut out = [Event::FILLER; 3];
    record.take_into(id, &mut out) == answer && are_events(&out, &wanted)
}

fn subscribes_up_to(record: &mut Record, last: u64) -> bool {
    for before in 0..last {
        if record.subscribe() != Ok((before + 1, 0)) {
            return false;
        }
    }
    true
}

fn passes(alloc: Global, record: &mut Record, times: u64) -> io::Result<bool> {
    let a = word(alloc, "a")?;
    let mut out = [Event::FILLER; 1];
    for number in 0..times {
        if record.publish(1, &a) != Ok(number)
            || record.take_into(1, &mut out) != Ok(Taken::Got(1))
        {
            return Ok(false);
        }
    }
    Ok(true)
}

/// Whether the record answers so.
fn answers(alloc: Global, record: &mut Record, step: Step) -> io::Result<bool> {
    Ok(match step {
        Step::Subscribe(answer) => record.subscribe() == answer,
        Step::SubscribeUpTo(last) => subscribes_up_to(record, last),
        Step::Publish(who, text, answer) => record.publish(who, &word(alloc, text)?) == answer,
        Step::Take(id, answer, events) => takes(record, id, answer, events),
        Step::Pass(times) => passes(alloc, record, times)?,
        Step::Cancel(id, answer) => record.cancel(id) == answer,
        Step::Close(answer) => record.close() == answer,
        Step::Counts(end, base, waiting) => {
            (record.end(), record.base(), record.waiting(1)) == (end, base, waiting)
        }
        Step::Subscriptions(active, evicted) => {
            (record.active(), record.evicted()) == (active, evicted)
        }
        Step::Shows(stage, code, closed) => {
            (record.stage(), record.flags().code(), record.closed()) == (stage, code, closed)
        }
        Step::Last(who) => record.last_publisher() == who,
    })
}

fn answers_all(alloc: Global, record: &mut Record, steps: &[Step]) -> io::Result<bool> {
    for step in steps {
        if !answers(alloc, record, *step)? {
            return Ok(false);
        }
    }
    Ok(true)
}

fn goes_so(alloc: Global, row: &Row, policy: Policy) -> io::Result<bool> {
    let (waiting, total, ids) = row.limits;
    let Some(limits) = Limits::of(waiting, total, ids) else {
        return Ok(false);
    };
    let mut record = Record::new(alloc, row.kind, limits.with(policy))?;
    answers_all(alloc, &mut record, row.steps)
}

/// The name of the first row that goes otherwise.
fn first_unlike(alloc: Global, rows: &[Row], policy: Policy) -> io::Result<Option<&'static str>> {
    for row in rows {
        if !goes_so(alloc, row, policy)? {
            return Ok(Some(row.name));
        }
    }
    Ok(None)
}

#[test]
fn records_by_rows(rt: HostRuntime) -> Result<(), Fail> {
    none_is_unlike(&rt, first_unlike(rt.alloc(), &ROWS, Policy::Hold)?);
    none_is_unlike(&rt, first_unlike(rt.alloc(), &EVICTING, Policy::Evict)?);
    Ok(())
}
